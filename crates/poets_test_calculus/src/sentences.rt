//! Sentences of the language, which are read, and not checked.

use poets_command::{Command, Statement};
use poets_expr::Expr;
use poets_lex::{Names, tokens};
use poets_parse::statement;
use poets_syntax::{Template, Term};
use poets_value::{List, Memory, Name, push};
use std::alloc::Global;

// The names that are numbered first, each by its place.
const ORDER: &[u8] = b"ann bob Oil USD f n a b r t g count x y h";

pub(crate) const ANN: Name = Name { id: 0 };

pub(crate) const BOB: Name = Name { id: 1 };

pub(crate) const OIL: Name = Name { id: 2 };

pub(crate) const USD: Name = Name { id: 3 };

pub(crate) const F: Name = Name { id: 4 };

pub(crate) const N: Name = Name { id: 5 };

pub(crate) const A: Name = Name { id: 6 };

pub(crate) const R: Name = Name { id: 8 };

pub(crate) const G: Name = Name { id: 10 };

pub(crate) const X: Name = Name { id: 12 };

pub(crate) const Y: Name = Name { id: 13 };

pub(crate) const H: Name = Name { id: 14 };

/// What the sentence says, in which these names have these numbers.
#[tactic(auto, using(poets_grammar::proofs::Lexed::read_natural))]
pub(crate) fn sentence(alloc: Global, text: &str) -> Result<Statement, Memory> {
    let mut names = Names::new(alloc);
    let ordered = tokens(alloc, ORDER, &mut names);
    if ordered.is_err() || text.len() > 1 << 16 {
        return Err(Memory);
    }
    let Ok(tokens) = tokens(alloc, text.as_bytes(), &mut names) else {
        return Err(Memory);
    };
    statement(alloc, tokens.as_slice()).or(Err(Memory))
}

/// What the sentences say.
pub(crate) fn statements(alloc: Global, texts: &[&str]) -> Result<List<Statement>, Memory> {
    let mut statements = List::new(alloc);
    for text in texts {
        push(&mut statements, sentence(alloc, text)?)?;
    }
    Ok(statements)
}

/// The expressions x, y and so on of the text `watch f(x, y, ..)`.
pub(crate) fn expressions(alloc: Global, text: &str) -> Result<List<Expr>, Memory> {
    match sentence(alloc, text)? {
        Statement::Command(Command::Watch { args, .. }) => Ok(args),
        _ => Err(Memory),
    }
}

// The contract of a template.
fn body_of(said: Statement) -> Result<Term, Memory> {
    match said {
        Statement::Template(Template { body, .. }) => Ok(body),
        _ => Err(Memory),
    }
}

/// The contract of the text.
pub(crate) fn contract(alloc: Global, text: &str) -> Result<Term, Memory> {
    let declared = format!(in alloc; "template f() = {text}")?;
    body_of(sentence(alloc, declared.as_str())?)
}

/// The text with a piece between its two parts, which is repeated.
pub(crate) fn repeated(
    alloc: Global,
    head: &str,
    piece: &str,
    times: u32,
    tail: &str,
) -> Result<String, Memory> {
    let mut text = String::from_str(alloc, head)?;
    for _ in 0..times {
        text.push_str(piece)?;
    }
    text.push_str(tail)?;
    Ok(text)
}
