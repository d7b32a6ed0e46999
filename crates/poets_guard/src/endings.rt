//! Templates that may end.
ghost use Rattle.std.specs.Prelude.{◌≡◌, ◌+◌, IfOk, OnOk};
ghost use Rattle.std.specs.BTreeMap.{get};
ghost use Rattle.poets_value.specs.Names.{name_cmp};
ghost use Rattle.poets_syntax.specs.Book.{book_of};
ghost use Rattle.poets_syntax.specs.Checked.{IsChecked};
ghost use Rattle.poets_guard.specs.code.Endings.{AreThoseThatEnd};
ghost use Rattle.poets_guard.specs.code.Rules.{is_known};
ghost use Rattle.poets_guard.specs.code.Facts.{says, AddsNameIf, AddsRule, AddsRules, AddsBodyRules, AreFactsOf, AreRulesOf};

use crate::rules::{GIVEN, Rule, consequences};
use poets_syntax::{Book, Template, Term};
use poets_value::{Memory, Name};
use std::alloc::Global;
use std::collections::{BTreeMap, BTreeSet};

/// The facts of templates, by their names: that their bodies may end.
type Facts = BTreeMap<Name, usize>;

// Rules of so many facts.
#[derive(Drop)]
struct Rules {
    count: usize,
    rules: Vec<Rule>,
}

impl Rules {
    // A fact of its own.
    fn fresh(&mut self) -> Result<usize, Memory>
        ensures fact { IfOk result (λ fact. fact ≡ self.old.count) }
        ensures count { OnOk result (self.new.count ≡ self.old.count + 1) }
        ensures rules { self.new.rules ≡ self.old.rules }
    {
        let fact = self.count;
        let Some(next) = fact.checked_add(1) else {
            return Err(Memory);
        };
        self.count = next;
        Ok(fact)
    }

    // Adds the rule by which a goal follows from two facts.
    fn add(&mut self, first: usize, second: usize, goal: usize) -> Result<(), Memory>
        ensures count { self.new.count ≡ self.old.count }
        ensures rules { OnOk result (AddsRule first second goal self.old self.new) }
    {
        self.rules.push(Rule {
            first,
            second,
            conclusion: goal,
        })?;
        Ok(())
    }

    // Adds the rules by which a goal follows from a given fact where a contract may end.
    // Where steps are granted, it may pass transmits.
    fn conclude(
        &mut self,
        granted: bool,
        facts: &Facts,
        term: &Term,
        given: usize,
        goal: usize,
    ) -> Result<(), Memory>
        ensures { OnOk result (AddsRules granted facts.now term.now given goal self.old self.new) }
    {
        match term {
            Term::Success => self.add(given, GIVEN, goal),
            Term::Failure => Ok(()),
            Term::Transmit { then, .. } => {
                if granted {
                    return self.conclude(granted, facts, then, given, goal);
                }
                Ok(())
            }
            Term::Plus(a, b) => {
                self.conclude(granted, facts, a, given, goal)?;
                self.conclude(granted, facts, b, given, goal)
            }
            Term::Par(a, b) | Term::Seq(a, b) => {
                let first = self.fresh()?;
                self.conclude(granted, facts, a, given, first)?;
                self.conclude(granted, facts, b, first, goal)
            }
            Term::App { name, .. } => match facts.get(name) {
                Some(fact) => self.add(given, *fact, goal),
                None => Ok(()),
            },
        }
    }
}

impl Rules {
    // Adds the rules by which the fact of a template follows.
    fn conclude_template(
        &mut self,
        granted: bool,
        facts: &Facts,
        template: &Template,
    ) -> Result<(), Memory>
        ensures { OnOk result (AddsBodyRules granted facts.now template.now self.old self.new) }
    {
        if let Some(goal) = facts.get(&template.name) {
            return self.conclude(granted, facts, &template.body, GIVEN, *goal);
        }
        Ok(())
    }
}

// A fact for each template, after the one that is given.
fn facts_of(alloc: Global, book: &Book) -> Result<Facts, Memory>
    requires { IsChecked (book_of book.now) }
    ensures { IfOk result (AreFactsOf book.now) }
{
    let mut facts = BTreeMap::new(alloc);
    for (place, template) in book.templates.as_slice().iter().enumerate() {
        facts.insert(template.name, place + 1)?;
    }
    Ok(facts)
}

// The rules by which the facts of the templates follow.
fn rules_of_book(alloc: Global, granted: bool, book: &Book, facts: &Facts) -> Result<Rules, Memory>
    requires checked { IsChecked (book_of book.now) }
    requires facts { AreFactsOf book.now facts.now }
    ensures { IfOk result (AreRulesOf book.now granted facts.now) }
{
    let templates = book.templates.as_slice();
    let mut rules = Rules {
        count: templates.len() + 1,
        rules: Vec::new(alloc),
    };
    for template in templates {
        rules.conclude_template(granted, facts, template)?;
    }
    Ok(rules)
}

// Whether the fact of a template is known.
fn may_end(facts: &Facts, known: &[bool], name: &Name) -> bool
    ensures { result ≡ says (is_known known.now) (get name_cmp facts.now) name.now }
{
    match facts.get(name) {
        Some(fact) => known.get(*fact).copied().unwrap_or(false),
        None => false,
    }
}

/// Adds a name where the test holds.
pub(crate) fn insert_if(test: bool, names: &mut BTreeSet<Name>, name: Name) -> Result<(), Memory>
    ensures { OnOk result (AddsNameIf test name names.old names.new) }
{
    if !test {
        return Ok(());
    }
    names.insert(name)?;
    Ok(())
}

/// The names of the templates whose bodies may end: by no step, or by granted steps.
/// It looks at each part of a body a fixed number of times, and so is linear in the size of the book but for the look-ups of names.
pub(crate) fn templates_that_end(
    alloc: Global,
    granted: bool,
    book: &Book,
) -> Result<BTreeSet<Name>, Memory>
    requires { IsChecked (book_of book.now) }
    ensures { IfOk result (AreThoseThatEnd book.now granted) }
{
    let facts = facts_of(alloc, book)?;
    let rules = rules_of_book(alloc, granted, book, &facts)?;
    let known = consequences(alloc, rules.count, rules.rules)?;
    let mut ending = BTreeSet::new(alloc);
    for template in book.templates.as_slice() {
        let test = may_end(&facts, &known, &template.name);
        insert_if(test, &mut ending, template.name)?;
    }
    Ok(ending)
}
