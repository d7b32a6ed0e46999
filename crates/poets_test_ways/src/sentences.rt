//! Sentences of the language, which are read, and not checked.

use poets_command::{Command, Statement};
use poets_lex::{Names, tokens};
use poets_parse::statement;
use poets_syntax::{Template, Term};
use poets_value::{List, Memory, push};
use std::alloc::Global;

// The names that are numbered first, and alike in each sentence.
const ORDER: &[u8] = b"ann bob Oil USD f n a b r t g count x h pay any kept owed";

/// What the sentence says, in which these names have these numbers.
#[tactic(auto, using(poets_grammar::proofs::Lexed::read_natural))]
pub(crate) fn sentence(alloc: Global, text: &str) -> Result<Statement, Memory> {
    let mut names = Names::new(alloc);
    let ordered = tokens(alloc, ORDER, &mut names);
    if ordered.is_err() || text.len() > 1 << 16 {
        return Err(Memory);
    }
    let Ok(tokens) = tokens(alloc, text.as_bytes(), &mut names) else {
        return Err(Memory);
    };
    statement(alloc, tokens.as_slice()).or(Err(Memory))
}

/// What the sentences say.
pub(crate) fn statements(alloc: Global, texts: &[&str]) -> Result<List<Statement>, Memory> {
    let mut statements = List::new(alloc);
    for text in texts {
        push(&mut statements, sentence(alloc, text)?)?;
    }
    Ok(statements)
}

// The contract of a template.
fn body_of(said: Statement) -> Result<Term, Memory> {
    match said {
        Statement::Template(Template { body, .. }) => Ok(body),
        _ => Err(Memory),
    }
}

/// The contract of the text.
pub(crate) fn contract(alloc: Global, text: &str) -> Result<Term, Memory> {
    let declared = format!(in alloc; "template f() = {text}")?;
    body_of(sentence(alloc, declared.as_str())?)
}
