//! Reports by their names.
ghost use Rattle.std.specs.Prelude.{◌≡◌, find, map};
ghost use Rattle.std.specs.Option.{option_copied};
ghost use Rattle.poets_expr.specs.Env.{same_name};
ghost use Rattle.poets_report.specs.Reports.{report_of};
ghost use Rattle.poets_command.specs.Reports.{report_in, found_report};

use poets_report::Report;
use poets_value::Name;

// The first report with that name.
fn first_of(reports: &[Report], name: Name) -> Option<&Report>
    ensures { option_copied result ≡ find (λ r. same_name r.name name) reports.now }
{
    reports.iter().find(|report| report.name == name)
}

/// The report with that name among reports.
#[tactic(auto, using(crate::proofs::Reports::report_in_find))]
pub fn named_report(reports: &[Report], name: Name) -> Option<&Report>
    ensures { found_report result ≡ report_in (map report_of reports.now) name }
{
    first_of(reports, name)
}
