//! The sessions that tasks take.
ghost use Rattle.std.specs.Prelude.{◌≡◌};
ghost use Rattle.poets_top.specs.Tasks as tasks;

use poets_session::Form;
use poets_words::Task;

/// The form of the sessions that a task takes.
pub fn form_of(task: &Task) -> Form
    ensures { result ≡ tasks.form_of task.now }
{
    match task {
        Task::Check => Form::Book,
        Task::Run => Form::Clerks,
        Task::Replay | Task::Explain(_) | Task::Export => Form::Journal,
    }
}
