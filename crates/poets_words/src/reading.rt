//! How `clap` is to read the words.
ghost use Rattle.std.specs.Prelude.{◌↔◌, IfOk, IsTrue};
ghost use Rattle.clap.specs.Words.{app_of};
ghost use Rattle.poets_words.specs.Words.{texts_of};
ghost use Rattle.poets_words.specs.code.Reading.{IsPlain, FindsPlainWords};

use clap::{Arg, ArgAction, Command};
use std::alloc::{AllocError, Global};

/// One or two words, none of which begins with `-`.
pub(crate) fn is_plain(words: &[String]) -> bool
    ensures { IsTrue result ↔ IsPlain (texts_of words.now) }
{
    (1..=2).contains(&words.len()) && !words.iter().any(|word| word.starts_with('-'))
}

/// A first word, and a second that may be left out.
pub(crate) fn command<'a>(alloc: Global) -> Result<Command<'a>, AllocError>
    ensures { IfOk result (λ command. FindsPlainWords (app_of command)) }
{
    let first = Arg::new(alloc, "first")
        .required(true)
        .action(ArgAction::Set);
    let second = Arg::new(alloc, "second").action(ArgAction::Set);
    Command::new(alloc, "poets")
        .no_binary_name(true)
        .arg(first)?
        .arg(second)
}
