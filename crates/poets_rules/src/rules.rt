//! What a history is judged by.
ghost use Rattle.std.specs.Prelude.{◌≡◌};
ghost use Rattle.poets_command.specs.Reports.{report_in, found_report};
ghost use Rattle.poets_rules.specs.Rules.{reports_of_rules};

use poets_command::named_report;
use poets_meaning::Studied;
use poets_report::Report;
use poets_value::{List, Name};

/// A studied book and its reports: the rules by which commands are answered.
#[derive(Debug, Drop)]
pub struct Rules {
    pub studied: Studied,
    pub reports: List<Report>,
}

impl Rules {
    /// The report with a name.
    pub fn report(&self, name: Name) -> Option<&Report>
        ensures { found_report result ≡ report_in (reports_of_rules self.now) name }
    {
        named_report(self.reports.as_slice(), name)
    }
}
