//! Contracts and commands, and how they are printed.

use poets_command::{Reply, Statement};
use poets_lex::{Names, tokens};
use poets_parse::statement;
use poets_print::{command_text, reply_text, step_text, term_text};
use poets_syntax::{Template, Term};
use poets_value::Memory;
use std::alloc::Global;

// The text of a command, or of the contract of a template.
fn text_of(alloc: Global, names: &Names, statement: &Statement) -> Result<String, Memory> {
    match statement {
        Statement::Command(command) => command_text(alloc, names, command),
        Statement::Template(Template { body, .. }) => term_text(alloc, names, body),
        _ => Err(Memory),
    }
}

// What the text says, and its names.
#[tactic(auto, using(poets_grammar::proofs::Lexed::read_natural))]
fn said(alloc: Global, text: &str) -> Result<(Names, Statement), Memory> {
    let mut names = Names::new(alloc);
    if text.len() > 1 << 16 {
        return Err(Memory);
    }
    let Ok(tokens) = tokens(alloc, text.as_bytes(), &mut names) else {
        return Err(Memory);
    };
    let Ok(statement) = statement(alloc, tokens.as_slice()) else {
        return Err(Memory);
    };
    Ok((names, statement))
}

// How the command of the text is printed, or the contract of the template.
fn printed(alloc: Global, text: &str) -> Result<String, Memory> {
    let (names, statement) = said(alloc, text)?;
    text_of(alloc, &names, &statement)
}

// How the transmission of the template is printed without its continuation.
fn printed_step(alloc: Global, text: &str) -> Result<String, Memory> {
    let (names, statement) = said(alloc, text)?;
    match &statement {
        Statement::Template(
            Template {
                body: Term::Transmit { binders, when, .. },
                ..
            },
        ) => step_text(alloc, &names, binders, when),
        _ => Err(Memory),
    }
}

// Operators with both parts in brackets, and how they are printed.
const OPERATORS: [(&str, &str); 8] = [
    ("watch f((x - x) + (x - x))", "watch f(x - x + (x - x))"),
    ("watch f((x + x) * (x / x))", "watch f((x + x) * (x / x))"),
    ("watch f((x * x) % (x or x))", "watch f(x * x % (x or x))"),
    ("watch f((x < x) = (x <= x))", "watch f((x < x) = (x <= x))"),
    ("watch f((x + x) >= (x * x))", "watch f(x + x >= x * x)"),
    ("watch f((x > x) and (x <> x))", "watch f(x > x and x <> x)"),
    (
        "watch f((x or x) and (x and x))",
        "watch f((x or x) and (x and x))",
    ),
    (
        "watch f((x and x) or (x or x))",
        "watch f(x and x or (x or x))",
    ),
];

// Brackets, white space and zeros that the tree does not ask for, and how the commands are printed.
const COMMANDS: [(&str, &str); 8] = [
    (
        "watch f(if (not ((true) or (x = y))) then (amount(r) = (-(-x))) else ((kind(r)) <> Oil) end)",
        "watch f(if not (true or x = y) then amount(r) = --x else kind(r) <> Oil end)",
    ),
    ("watch f((-(5)) - (-3))", "watch f(-(5) - -3)"),
    (
        "watch f(@2006-05-03, [-005 USD], undefined Int)",
        "watch f(@2006-05-03, [-5 USD], undefined Int)",
    ),
    ("tally f(res((-3), USD))", "tally f(res(-3, USD))"),
    ("tally  f( )", "tally f()"),
    ("portfolio f()over c,d", "portfolio f() over c, d"),
    (
        "transmit c ann bob 07 Oil @2006-05-03",
        "transmit c ann bob 7 Oil @2006-05-03",
    ),
    ("void  c 007", "void c 7"),
];

// Templates whose contracts have all their parts in brackets, and how these are printed.
const CONTRACTS: [(&str, &str); 3] = [
    (
        "template f() = (((Success) + Failure) || (Success ; (Success ; Success)))",
        "(Success + Failure) || Success ; (Success ; Success)",
    ),
    (
        "template f() = ((transmit(x, y, r, t | (false)). (Success + (Failure))) ; f(1, x))",
        "transmit(x, y, r, t | false). (Success + Failure) ; f(1, x)",
    ),
    (
        "template f() = (transmit(x, y, r, t | false). (f() ; f())) + ((Success + Success) + Success)",
        "transmit(x, y, r, t | false). (f() ; f()) + (Success + Success + Success)",
    ),
];

#[test]
fn what_is_printed_is_what_the_tree_asks_for(rt: HostRuntime) -> Result<(), Memory> {
    for table in [
        OPERATORS.as_slice(),
        COMMANDS.as_slice(),
        CONTRACTS.as_slice(),
    ] {
        for (text, wanted) in table {
            let found = printed(rt.alloc(), text)?;
            assert!(rt; found.as_str() == *wanted, "{text}: {found}");
        }
    }
    Ok(())
}

#[test]
fn a_step_is_printed(rt: HostRuntime) -> Result<(), Memory> {
    let text = "template f() = transmit(x, y, r, t | (amount(r)) = (5)). Success";
    let found = printed_step(rt.alloc(), text)?;
    assert!(rt;
        found.as_str() == "transmit(x, y, r, t | amount(r) = 5)",
        "{found}"
    );
    Ok(())
}

#[test]
fn a_reply_is_printed(rt: HostRuntime) -> Result<(), Memory> {
    let names = Names::new(rt.alloc());
    let text = reply_text(rt.alloc(), &names, &Reply::NoWatch(2))?;
    assert!(rt; text.as_str() == "no watch 2");
    Ok(())
}
