//! An engine under the book of a text.
ghost use Rattle.std.specs.Prelude.{◌≡◌, ◌≤◌, [], length, IfOk, IfErr};
ghost use Rattle.poets_value.specs.Limits.{longest_text};
ghost use Rattle.poets_session.specs.Causes.{IsFirstFault};
ghost use Rattle.poets_session.specs.declared.form.Form.TheVariants.{Book};
ghost use Rattle.poets_host.specs.Books.{HasBookOf};

use poets_engine::Engine;
use poets_lex::Names;
use poets_session::{Form, Session, SessionFault, read};
use std::alloc::Global;

/// An engine, and the names of its book.
#[derive(Drop)]
pub struct Host {
    pub names: Names,
    pub engine: Engine,
}

/// Reads a book, and opens an engine under it.
pub fn open(alloc: Global, text: &[u8]) -> Result<Host, SessionFault>
    requires { length text.now ≤ longest_text }
    ensures book { IfOk result (HasBookOf text.now) }
    ensures new { IfOk result (λ host. host.engine.calls ≡ []) }
    ensures fault { IfErr result (IsFirstFault text.now Book) }
{
    let session = read(alloc, text, Form::Book)?;
    let Session { names, rules, .. } = session;
    let engine = Engine::new(alloc, rules);
    Ok(Host { names, engine })
}
