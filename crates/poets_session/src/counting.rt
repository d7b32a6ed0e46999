//! Whether each statement may stand in its place, and whether there are too many.
ghost use Rattle.std.specs.Prelude.{◌≡◌, IfErr, OnOk, IfSome};
ghost use Rattle.poets_command.specs.Statements.{statement_of, statements_of};
ghost use Rattle.poets_session.specs.Places.{ArePlaced};
ghost use Rattle.poets_session.specs.code.Counting.{AreFew, CountsMore, FewIfSome, ManyIfNone};
ghost use Rattle.poets_session.specs.code.Placing.{TellsPlace};
ghost use Rattle.poets_session.specs.code.Placing as placing;

use crate::Form;
use poets_command::Statement;
use poets_value::MOST_CLERKS;

const MOST_TEMPLATES: u64 = 256;

const MOST_REPORTS: u64 = 256;

const MOST_COMMANDS: u64 = 65_536;

/// A statement that may not stand in its place, or is one too many. Statements count from 1.
#[derive(Debug, Clone, Copy, PartialEq, Eq)]
pub(crate) enum PlaceFault {
    Misplaced { statement: u64 },
    TooMany { statement: u64 },
}

// A part of a session.
#[derive(Debug, Clone, Copy, PartialEq, Eq)]
pub(crate) enum Part {
    Book,
    Clerk,
    Journal,
}

// How many of each there are.
#[derive(Debug, Clone, Copy, PartialEq, Eq)]
pub(crate) struct Counts {
    clerks: u64,
    templates: u64,
    reports: u64,
    commands: u64,
}

// The part in which the statement stands after one of the part, if it may stand there.
fn next_part(form: Form, part: Part, statement: &Statement) -> Option<Part>
    ensures { result ≡ placing.next_part form part (statement_of statement.now) }
{
    match statement {
        Statement::Agents(_) | Statement::Kinds(_) | Statement::Template(_) | Statement::Report(_)
            if part == Part::Book => Some(Part::Book),
        Statement::Clerk if form == Form::Clerks && part != Part::Journal => Some(Part::Clerk),
        Statement::Command(_) if form == Form::Clerks && part == Part::Clerk => Some(Part::Clerk),
        Statement::Journal if form == Form::Journal && part == Part::Book => Some(Part::Journal),
        Statement::Numbered(_, _) if form == Form::Journal && part == Part::Journal => Some(
            Part::Journal,
        ),
        _ => None,
    }
}

impl Counts {
    // The counts with the statement, if it is not one too many.
    fn with(self, statement: &Statement) -> Option<Counts>
        requires { AreFew self }
        ensures bound { IfSome result AreFew }
        ensures counted { CountsMore self (statement_of statement.now) result }
        ensures few { FewIfSome self (statement_of statement.now) result }
        ensures many { ManyIfNone self (statement_of statement.now) result }
    {
        let mut counts = self;
        match statement {
            Statement::Clerk if counts.clerks < MOST_CLERKS => counts.clerks += 1,
            Statement::Template(_) if counts.templates < MOST_TEMPLATES => counts.templates += 1,
            Statement::Report(_) if counts.reports < MOST_REPORTS => counts.reports += 1,
            Statement::Command(_) if counts.commands < MOST_COMMANDS => counts.commands += 1,
            Statement::Numbered(clerk, _)
                if 1 <= *clerk && *clerk <= MOST_CLERKS && counts.commands < MOST_COMMANDS => {
                counts.commands += 1
            }
            Statement::Agents(_) | Statement::Kinds(_) | Statement::Journal => {}
            _ => return None,
        }
        Some(counts)
    }
}

// Whether a session of the form that ends in the part has no `journal`.
fn lacks_journal(form: Form, part: Part) -> bool
    ensures { result ≡ placing.lacks_journal form part }
{
    form == Form::Journal && part == Part::Book
}

/// Checks that each statement stands in its place, and is not one too many.
pub(crate) fn check_places(form: Form, statements: &[Statement]) -> Result<(), PlaceFault>
    ensures placed { OnOk result (ArePlaced form (statements_of statements.now)) }
    ensures out { IfErr result (TellsPlace form (statements_of statements.now)) }
{
    let mut part = Part::Book;
    let mut counts = Counts {
        clerks: 0,
        templates: 0,
        reports: 0,
        commands: 0,
    };
    for (place, statement) in statements.iter().enumerate() {
        let number = place as u64 + 1;
        let Some(next) = next_part(form, part, statement) else {
            return Err(PlaceFault::Misplaced { statement: number });
        };
        let Some(more) = counts.with(statement) else {
            return Err(PlaceFault::TooMany { statement: number });
        };
        part = next;
        counts = more;
    }
    if lacks_journal(form, part) {
        return Err(PlaceFault::Misplaced {
            statement: statements.len() as u64 + 1,
        });
    }
    Ok(())
}
