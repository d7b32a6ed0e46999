//! The words that ask for a journal.
ghost use Rattle.std.specs.Prelude.{◌≡◌, IfSome, IfNone};
ghost use Rattle.poets_kept.specs.Words as words;
ghost use Rattle.poets_kept.specs.Words.{AskForJournal, AsksFor};

use poets_session::Form;

/// What is asked for that needs a journal on a disk.
#[derive(Debug, Clone, Copy, PartialEq, Eq)]
pub enum JournalTask {
    /// Run a session of clerks, and keep its calls.
    Keep,
    /// Make the calls that are kept.
    Recover,
    /// Go on with the calls that are kept: run a session of clerks after them, and keep its calls too.
    Resume,
}

/// What the words ask for with a journal, if they do.
pub fn journal_task(words: &[String]) -> Option<JournalTask>
    ensures some { IfSome result (AsksFor words.now) }
    ensures none { IfNone result (¬ (AskForJournal words.now)) }
{
    let [word] = words else {
        return None;
    };
    match word.as_str() {
        "keep" => Some(JournalTask::Keep),
        "recover" => Some(JournalTask::Recover),
        "resume" => Some(JournalTask::Resume),
        _ => None,
    }
}

impl JournalTask {
    /// The form of the sessions that the task takes.
    pub fn form(self) -> Form
        ensures { result ≡ words.form_of self }
    {
        match self {
            JournalTask::Keep => Form::Clerks,
            JournalTask::Recover => Form::Book,
            JournalTask::Resume => Form::Clerks,
        }
    }
}
