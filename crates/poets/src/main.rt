//! `poets check` reads a book, `poets run` a session, and `poets replay`, `poets explain NAME` and `poets export` a
//! journal from standard input; `poets demo N` reads nothing. `poets keep` reads a session too, and keeps its calls in
//! the file `poets.journal` of the current folder; `poets recover` reads a book, and makes the calls of that file;
//! `poets resume` reads a session, and goes on after these. All write to standard output.
#![tactic(auto)]

mod help;
mod pipe;
mod progress;

ghost use Rattle.std.specs.Prelude.{◌≡◌, ◌⊎◌, IfErr};
ghost use Rattle.std.specs.Process.{exit_status};

use help::HELP;
use pipe::PipeWriter;
use poets_disk::FileDisk;
use poets_io::{StdSink, StdSource};
use poets_kept::{DISK_FAULT, journal_task, run_kept};
use poets_mark::{KeptSource, mark_of};
use poets_session::Form;
use poets_top::{NO_MEMORY, NO_SESSION, READ_FAULT, USAGE, WRITE_FAULT, form_of};
use poets_words::{Mode, mode_of};
use progress::Progress;
use std::io::IsTerminal;
use std::process::ExitCode;
use std::{env, io};

fn main(rt: HostRuntime) -> ExitCode {
    let words = match words_of(&rt) {
        Ok(words) => words,
        Err(status) => return end(&rt, status),
    };
    let words = words.as_slice();
    if form_asked(&rt, words).is_some() && rt.stdin().is_terminal() {
        let _ = eprint!(rt; "{HELP}");
    }
    let progress = Progress::new(rt, rt.stderr().is_terminal());
    let mut is_left = false;
    let mut source = KeptSource::new(rt.alloc(), StdSource::new(rt.reader()));
    let mut sink = StdSink::new(PipeWriter::new(io::writer(&rt), &progress, &mut is_left));
    let outcome = run_kept(
        &rt,
        rt.alloc(),
        words,
        &mut source,
        &mut sink,
        &progress,
        FileDisk::new(&rt),
    );
    progress.clear();
    if outcome.status == NO_SESSION {
        mark(&rt, words, source.given());
    }
    if outcome.status == WRITE_FAULT && is_left {
        return ExitCode::from(WRITE_FAULT);
    }
    end(&rt, outcome.status)
}

// The words behind the program's name, or the status with which a program ends that cannot have them.
fn words_of(rt: &HostRuntime) -> Result<Vec<String>, u8>
    ensures { IfErr result (λ status. (status ≡ NO_MEMORY) ⊎ (status ≡ USAGE)) }
{
    let args = match env::args(rt) {
        Ok(args) => args,
        Err(error) if error.kind() == io::ErrorKind::OutOfMemory => return Err(NO_MEMORY),
        Err(_) => return Err(USAGE),
    };
    let mut words = Vec::new(rt.alloc());
    for word in args.skip(1) {
        if words.push(word).is_err() {
            return Err(NO_MEMORY);
        }
    }
    Ok(words)
}

// Shows on standard error where the first fault is in the text that the words told to read. If memory runs out for
// that, nothing is shown.
fn mark(rt: &HostRuntime, words: &[String], text: Option<&[u8]>) {
    let (Some(text), Some(form)) = (text, form_asked(rt, words)) else {
        return;
    };
    if let Ok(Some(lines)) = mark_of(rt.alloc(), text, form) {
        let _ = eprint!(rt; "{lines}");
    }
}

// The form of the sessions that the words ask for.
fn form_asked(rt: &HostRuntime, words: &[String]) -> Option<Form> {
    if let Some(task) = journal_task(words) {
        return Some(task.form());
    }
    match mode_of(rt.alloc(), words) {
        Ok(Some(Mode::Read(task))) => Some(form_of(&task)),
        _ => None,
    }
}

// Ends with the status, and tells on standard error what standard output does not.
fn end(rt: &HostRuntime, status: u8) -> ExitCode
    ensures { exit_status result ≡ status }
{
    let _ = match status {
        USAGE => eprint!(rt; "{HELP}"),
        NO_MEMORY => eprintln!(rt; "poets: out of memory"),
        READ_FAULT => eprintln!(rt; "poets: standard input cannot be read"),
        WRITE_FAULT => eprintln!(rt; "poets: standard output cannot be written"),
        DISK_FAULT => eprintln!(rt; "poets: poets.journal cannot be read or written"),
        _ => Ok(()),
    };
    ExitCode::from(status)
}
