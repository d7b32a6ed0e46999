//! The templates and the reports of a book by their names.
ghost use Rattle.std.specs.Prelude.{◌≡◌, IfOk};
ghost use Rattle.poets_types.specs.code.Tables.{HasFirstPlaces, HasReportNames};

use crate::table::{add, enter};
use poets_report::Report;
use poets_syntax::{Book, Template};
use poets_value::{Memory, Name};
use std::alloc::Global;
use std::collections::{BTreeMap, BTreeSet};

// A book and its reports, with the first place of each template's name, and the reports' names.
#[derive(Drop)]
pub(crate) struct Index<'a> {
    pub(crate) book: &'a Book,
    pub(crate) reports: &'a [Report],
    places: BTreeMap<Name, usize>,
    report_names: BTreeSet<Name>,
    ghost first_places: { HasFirstPlaces book.now.templates.items places },
    ghost all_reports: { HasReportNames reports.now report_names },
}

// The first place of each template's name.
fn places(alloc: Global, templates: &[Template]) -> Result<BTreeMap<Name, usize>, Memory>
    ensures { IfOk result (HasFirstPlaces templates.now) }
{
    let mut places = BTreeMap::new(alloc);
    for (place, template) in templates.iter().enumerate() {
        enter(&mut places, template.name, place)?;
    }
    Ok(places)
}

// The reports' names.
#[tactic(auto, using(std::proofs::lemmas::List::Folds::list_any_more))]
fn report_names(alloc: Global, reports: &[Report]) -> Result<BTreeSet<Name>, Memory>
    ensures { IfOk result (HasReportNames reports.now) }
{
    let mut names = BTreeSet::new(alloc);
    for report in reports {
        add(&mut names, report.name)?;
    }
    Ok(names)
}

impl<'a> Index<'a> {
    ghost use Rattle.std.specs.Prelude.{option_map, is_some};
    ghost use Rattle.poets_syntax.specs.Book.{template_of, template_in};
    ghost use Rattle.poets_syntax.specs.Typed.{is_among};
    ghost use Rattle.poets_types.specs.code.Indices.{book_in, reports_in, used_in};

    // The index of a book and its reports.
    pub(crate) fn new(
        alloc: Global,
        book: &'a Book,
        reports: &'a [Report],
    ) -> Result<Index<'a>, Memory>
        ensures book { IfOk result (λ index. index.book.now ≡ book.now) }
        ensures reports { IfOk result (λ index. index.reports.now ≡ reports.now) }
    {
        let places = places(alloc, book.templates.as_slice())?;
        let report_names = report_names(alloc, reports)?;
        Ok(Index {
            book,
            reports,
            places,
            report_names,
        })
    }

    // The first template of that name.
    pub(crate) fn template(&self, name: Name) -> Option<&'a Template>
        ensures { option_map (λ t. template_of t.now) result ≡ template_in (book_in self.now).templates name }
    {
        self.book.templates.get(*self.places.get(&name)?)
    }

    // Whether a template has the name.
    fn is_template(&self, name: Name) -> bool
        ensures { result ≡ is_some (template_in (book_in self.now).templates name) }
    {
        self.places.contains_key(&name)
    }

    // Whether a report has the name.
    fn is_report(&self, name: Name) -> bool
        ensures { result ≡ is_among (reports_in self.now) name }
    {
        self.report_names.contains(&name)
    }

    // Whether the name is that of an agent, a kind, a template or a report.
    pub(crate) fn is_used(&self, name: Name) -> bool
        ensures { result ≡ used_in self.now name }
    {
        self.book.decls.names.contains_key(&name) || self.is_template(name) || self.is_report(name)
    }
}
