//! Contracts and commands that are checked in a book, each by itself.

use crate::sentences::{F, contract, sentence, statements};
use poets_command::Statement;
use poets_types::{Checked, TypeCause, check_book, check_call, check_term};
use poets_value::{Memory, Ty};
use std::alloc::Global;

const BOOK: [&str; 4] = [
    "agents ann, bob",
    "kinds Oil, USD",
    "template f(n: Int) = transmit(a, b, r, t | true). Success",
    "report g(n: Int): Int = fold x = n with (a, b, r, t) in x",
];

// What the book declares.
fn checked(alloc: Global) -> Result<Checked, Memory> {
    let statements = statements(alloc, &BOOK)?;
    check_book(alloc, statements.as_slice()).or(Err(Memory))
}

const OF_INT: TypeCause = TypeCause::WrongType {
    wanted: Ty::Int,
    found: Ty::Agent,
};

const UNKNOWN: TypeCause = TypeCause::Unknown { name: F };

// Contracts, and why they are not typed, where they are not.
const CONTRACTS: [(&str, Option<TypeCause>); 2] = [("f(1)", None), ("f(ann)", Some(OF_INT))];

// Commands, and why they are not typed. The name f is that of no report.
const COMMANDS: [(&str, Option<TypeCause>); 2] = [
    ("tally g(1)", None),
    ("tally f(1)", Some(UNKNOWN)),
];

// Why the contract of the text is not typed.
fn contract_cause(
    alloc: Global,
    checked: &Checked,
    text: &str,
) -> Result<Option<TypeCause>, Memory> {
    let term = contract(alloc, text)?;
    Ok(check_term(alloc, &checked.book, checked.reports.as_slice(), &term).err())
}

// Why the command is not typed.
fn cause_of(
    alloc: Global,
    checked: &Checked,
    said: &Statement,
) -> Result<Option<TypeCause>, Memory> {
    match said {
        Statement::Command(command) => {
            Ok(check_call(alloc, &checked.book, checked.reports.as_slice(), command).err())
        }
        _ => Err(Memory),
    }
}

// Why the command of the text is not typed.
fn command_cause(
    alloc: Global,
    checked: &Checked,
    text: &str,
) -> Result<Option<TypeCause>, Memory> {
    cause_of(alloc, checked, &sentence(alloc, text)?)
}

#[test]
fn contracts_and_commands_are_typed_by_themselves(rt: HostRuntime) -> Result<(), Memory> {
    let checked = checked(rt.alloc())?;
    for (text, wanted) in CONTRACTS {
        assert!(rt;
            contract_cause(rt.alloc(), &checked, text)? == wanted,
            "{text}"
        );
    }
    for (text, wanted) in COMMANDS {
        assert!(rt;
            command_cause(rt.alloc(), &checked, text)? == wanted,
            "{text}"
        );
    }
    Ok(())
}
