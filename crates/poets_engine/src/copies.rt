//! Copies of what portfolios need of the rules.
ghost use Rattle.std.specs.Prelude.{◌≡◌, Some, IfOk};
ghost use Rattle.poets_report.specs.Reports.{report_of};
ghost use Rattle.poets_command.specs.Reports.{report_in};
ghost use Rattle.poets_rules.specs.Rules.{reports_of_rules};
ghost use Rattle.poets_engine.specs.Copies.{AreCopies, IsReport};
ghost use Rattle.poets_engine.specs.code.Found.{AreNamesOf, IsFoundAmong};

use poets_expr::Decls;
use poets_report::{Report, copy};
use poets_rules::Rules;
use poets_value::{List, Memory, Name, push};
use std::alloc::Global;
use std::sync::Arc;

/// The declared names, and the reports that portfolios asked for. Each is copied once, and then shared with the
/// portfolios that are still to be finished.
#[derive(Drop)]
pub(crate) struct Copies {
    decls: Option<Arc<Decls>>,
    reports: List<Arc<Report>>,
}

impl Copies {
    /// No copy.
    pub(crate) fn new(alloc: Global) -> Copies
        ensures { (rules : Rules) → AreCopies rules result }
    {
        Copies {
            decls: None,
            reports: List::new(alloc),
        }
    }

    /// The declared names.
    pub(crate) fn decls(&mut self, alloc: Global, rules: &Rules) -> Result<Arc<Decls>, Memory>
        requires { AreCopies rules.now self.old }
        ensures copies { AreCopies rules.now self.new }
        ensures ok { IfOk result (AreNamesOf rules.now) }
    {
        if let Some(decls) = &self.decls {
            return Ok(Arc::try_clone(decls)?);
        }
        let decls = Arc::new(alloc, rules.studied.book().decls.copy()?)?;
        self.decls = Some(Arc::try_clone(&decls)?);
        Ok(decls)
    }

    /// The report, which has the name.
    pub(crate) fn report(
        &mut self,
        alloc: Global,
        rules: &Rules,
        name: Name,
        report: &Report,
    ) -> Result<Arc<Report>, Memory>
        requires copies { AreCopies rules.now self.old }
        requires found { report_in (reports_of_rules rules.now) name ≡ Some (report_of report.now) }
        ensures copies { AreCopies rules.now self.new }
        ensures ok { IfOk result (IsReport (reports_of_rules rules.now) name) }
    {
        if let Some(report) = report_among(self.reports.as_slice(), name)? {
            return Ok(report);
        }
        let report = Arc::new(alloc, copy(alloc, report)?)?;
        push(&mut self.reports, Arc::try_clone(&report)?)?;
        Ok(report)
    }
}

// The report with that name among copies, if it is there.
fn report_among(copies: &[Arc<Report>], name: Name) -> Result<Option<Arc<Report>>, Memory>
    ensures { IsFoundAmong copies.now name result }
{
    for copy in copies {
        if copy.name == name {
            return Ok(Some(Arc::try_clone(copy)?));
        }
    }
    Ok(None)
}
