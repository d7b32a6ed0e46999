//! The text in a journal of the first command of a session.
ghost use Rattle.std.specs.Prelude.{◌≤◌, length};
ghost use Rattle.poets_value.specs.Limits.{longest_text};
ghost use Rattle.poets_stored.specs.Laws.{AreStorableScripts};

use poets_journal::Put;
use poets_lex::Names;
use poets_session::{Form, Session, read};
use poets_stored::CommandPut;
use poets_value::{List, Memory};
use std::alloc::Global;
use std::test::Fail;

const SESSION: &[u8] = b"agents ann;; clerk;; register a=(Success);; show a;; clerk;;";

// The text of the first command of the first clerk, if there is one.
#[tactic(auto, using(poets_stored::proofs::Storing::storable_at))]
fn first_text(alloc: Global, session: &Session) -> Result<Option<List<u8>>, Memory>
    requires { AreStorableScripts session.now.names session.now.scripts.items }
{
    let Some(script) = session.scripts.get(0) else {
        return Ok(None);
    };
    let Some(command) = script.get(0) else {
        return Ok(None);
    };
    let put = CommandPut::new(&session.names);
    Ok(Some(put.put(alloc, 1, &**command)?))
}

// That of the session that the text is.
#[tactic(auto, using(poets_stored::proofs::Storing::sessions_storable))]
fn first_text_in(alloc: Global, text: &[u8]) -> Result<Option<List<u8>>, Memory>
    requires { length text.now ≤ longest_text }
{
    let Ok(session) = read(alloc, text, Form::Clerks) else {
        return Err(Memory);
    };
    first_text(alloc, &session)
}

#[test]
fn a_command_has_its_clerks_number(rt: HostRuntime) -> Result<(), Fail> {
    let Some(text) = first_text_in(rt.alloc(), SESSION)? else {
        return Ok(assert!(rt; false));
    };
    assert_eq!(rt; text.as_slice(), "1: register a = Success".as_bytes());
    Ok(())
}

// Hands a value on to where another thread may have it.
fn sent<T: Send>(value: T) -> T {
    value
}

#[test]
fn what_gives_texts_may_be_sent(rt: HostRuntime) -> Result<(), Fail> {
    let names = Names::new(rt.alloc());
    let _ = sent(CommandPut::new(&names));
    Ok(())
}
