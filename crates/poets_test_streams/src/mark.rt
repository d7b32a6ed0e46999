//! Marks of worked texts, and a source that keeps what it gave.
use poets_io::{Source, TextSource, read_up_to};
use poets_mark::{KeptSource, mark_of};
use poets_session::Form;
use poets_value::{List, Memory, push};
use std::alloc::Global;
use std::process::Abort;
use std::test::Fail;

// The mark of the text's first fault, and nothing for a session of the form.
fn mark(alloc: Global, text: &[u8], form: Form) -> Result<String, Memory> {
    match mark_of(alloc, text, form)? {
        Some(lines) => Ok(lines),
        None => Ok(String::new(alloc)),
    }
}

// Each of the texts has its mark.
fn marked(rt: &impl Abort, alloc: Global, form: Form, cases: &[(&[u8], &str)]) -> Result<(), Fail> {
    for (text, lines) in cases {
        let found = mark(alloc, text, form)?;
        assert_eq!(rt; found.as_str(), *lines);
    }
    Ok(())
}

const BOOKS: [(&[u8], &str); 15] = [
    // A session has no mark.
    (b"agents ann;;\n", ""),
    (b"", ""),
    // A statement after comments, empty lines and the statement before it.
    (
        b"# a book\n\nagents ann;;\n\n# its kinds\n  kinds ann;;\n",
        "line 6, column 9\n  kinds ann;;\n        ^\n",
    ),
    // Two statements on a line.
    (
        b"agents ann;; agents ann;;",
        "line 1, column 21\nagents ann;; agents ann;;\n                    ^\n",
    ),
    // A statement that goes on over lines is marked where it begins.
    (
        b"register\n  c = Success;;",
        "line 1, column 1\nregister\n^\na book alone is read: poets run reads commands of clerks, and poets replay a journal\n",
    ),
    // A byte that begins no token, after statements that are wrong, too.
    (
        b"kinds;;\nagents ann ! bob;;\n",
        "line 2, column 12\nagents ann ! bob;;\n           ^\n",
    ),
    // A tab is a space, and a byte that is no sign of ASCII is `?`.
    (
        b"agents\tann\xC3\xA9;;",
        "line 1, column 11\nagents ann??;;\n          ^\na text is ASCII, except in comments\n",
    ),
    // The CR ahead of an LF is a space.
    (
        b"agents ann;;\r\nclerk;;\r\n",
        "line 2, column 1\nclerk;; \n^\na book alone is read: poets run reads commands of clerks, and poets replay a journal\n",
    ),
    // A number past the limit.
    (
        b"\n9223372036854775808",
        "line 2, column 1\n9223372036854775808\n^\n",
    ),
    // A statement that has its `;;` alone.
    (
        b"agents ann;;\n ;;\n",
        "line 2, column 2\n ;;\n ^\nthere is no statement before this ;;\n",
    ),
    // A statement without its `;;`, and one that is no sentence, too.
    (
        b"agents ann;;\nkinds Oil\n",
        "line 3, column 1\n\n^\nthe statement before the mark lacks its ;;\n",
    ),
    (
        b"agents ann\nkinds Oil\n",
        "line 2, column 1\nkinds Oil\n^\nthe statement before the mark lacks its ;;\n",
    ),
    // The first token that cannot follow those before it, and the `;;` where all begin a sentence.
    (
        b"kinds Oil, Gas Coal;;",
        "line 1, column 16\nkinds Oil, Gas Coal;;\n               ^\n",
    ),
    (
        b"agents ann,\n  bob, ;;\n",
        "line 2, column 8\n  bob, ;;\n       ^\n",
    ),
    // A template that unfolds for ever.
    (
        b"template f() = g();;\ntemplate g() = g();;",
        "line 2, column 1\ntemplate g() = g();;\n^\na template may come back to itself only after a transmit\n",
    ),
];

#[test]
fn a_text_that_is_no_book_has_a_mark(rt: HostRuntime) -> Result<(), Fail> {
    marked(&rt, rt.alloc(), Form::Book, &BOOKS)
}

// Faults of names are marked at the name: the one that the fault is about, among equal ones.
const NAMES: [(&[u8], &str); 6] = [
    // In one list.
    (
        b"agents ann, bob,\n  ann;;",
        "line 2, column 3\n  ann;;\n  ^\n",
    ),
    // A parameter that the book declares.
    (
        b"template f(f: Int) = Success;;",
        "line 1, column 12\ntemplate f(f: Int) = Success;;\n           ^\n",
    ),
    // Binders, behind an expression and a list that have the name.
    (
        b"template f(x: Int) = transmit(a, b, r, t | x = 5). transmit(x, y, r, x | x = y). Success;;",
        "line 1, column 70\n. transmit(x, y, r, x | x = y). Success;;\n                    ^\n",
    ),
    // Unknown in one place and bound in another.
    (
        b"template f() = transmit(c, b, r, t | c = b).\n  Success + c();;",
        "line 2, column 13\n  Success + c();;\n            ^\nthis name is known elsewhere in the statement, but not here\n",
    ),
    // A kind, not the parameter.
    (
        b"template f(k: Kind) = transmit(a, b, r, t | kind(r) = k and r = [5 k]). Success;;",
        "line 1, column 68\nd(r) = k and r = [5 k]). Success;;\n                    ^\nthis name is known elsewhere in the statement, but not here\n",
    ),
    // The application with another number of arguments.
    (
        b"template f(x: Int) = Success;;\ntemplate g() = f(1) || f() || f(1, 2);;",
        "line 2, column 24\nplate g() = f(1) || f() || f(1, 2);;\n                    ^\n",
    ),
];

#[test]
fn a_fault_of_names_is_marked_at_the_name(rt: HostRuntime) -> Result<(), Fail> {
    marked(&rt, rt.alloc(), Form::Book, &NAMES)
}

// Faults of types are marked where the expression begins that has another type, brackets aside.
const TYPES: [(&[u8], &str); 6] = [
    // Brackets, an operator within the expression, and signs of numbers ahead of it.
    (
        b"template f() = transmit(a, b, r, t | 1 = 1 and not ((amount(r)))). Success;;",
        "line 1, column 54\nt | 1 = 1 and not ((amount(r)))). Success;;\n                    ^\n",
    ),
    (
        b"template f(x: Int) = transmit(a, b, r, t | (x + 1) * -2 - (x = 1) > 0). Success;;",
        "line 1, column 60\nt | (x + 1) * -2 - (x = 1) > 0). Success;;\n                    ^\n",
    ),
    // The left operand, where both are read before it is told.
    (
        b"template f() = transmit(a, b, r, t | 1 or @2006-05-03). Success;;",
        "line 1, column 38\nansmit(a, b, r, t | 1 or @2006-05-03). Success;;\n                    ^\n",
    ),
    // An agent in place of a kind.
    (
        b"agents ann;;\ntemplate f() = transmit(a, b, r, t | r = [-5 ann]). Success;;",
        "line 2, column 46\n, b, r, t | r = [-5 ann]). Success;;\n                    ^\n",
    ),
    // An argument, after contracts that are right.
    (
        b"template f(x: Int, y: Int) = Success;;\ntemplate g() = (f(1, 2) + Success) ; f(true, zork);;",
        "line 2, column 40\n, 2) + Success) ; f(true, zork);;\n                    ^\n",
    ),
    // The step of a report.
    (
        b"report q(d: Day): Int = fold n = 0 with (a, b, r, t) in d + 1 by a;;",
        "line 1, column 57\nith (a, b, r, t) in d + 1 by a;;\n                    ^\n",
    ),
];

#[test]
fn a_fault_of_types_is_marked_at_the_expression(rt: HostRuntime) -> Result<(), Fail> {
    marked(&rt, rt.alloc(), Form::Book, &TYPES)
}

// The commonest mistakes have a line that says why.
const MISTAKES: [(&[u8], &str); 6] = [
    // A day that the calendar does not have.
    (
        b"template f() = transmit(a, b, r, t | t < @2006-02-30). Success;;",
        "line 1, column 42\nit(a, b, r, t | t < @2006-02-30). Success;;\n                    ^\na day is written @YYYY-MM-DD, and has to be one of the calendar\n",
    ),
    // A point and a comma in a number.
    (
        b"template f() = transmit(a, b, r, t | r = [1.5 USD]). Success;;",
        "line 1, column 44\n(a, b, r, t | r = [1.5 USD]). Success;;\n                    ^\nnumbers are whole: there is no decimal point\n",
    ),
    (
        b"template f() = transmit(a, b, r, t | amount(r) = 1,000). Success;;",
        "line 1, column 51\nr, t | amount(r) = 1,000). Success;;\n                    ^\ndigits are not grouped by commas\n",
    ),
    // An amount that is worked out.
    (
        b"template f(n: Int) = transmit(a, b, r, t | r = [n USD]). Success;;",
        "line 1, column 49\nt(a, b, r, t | r = [n USD]). Success;;\n                    ^\nan amount in [ ] is a number: write res(amount, kind) for one that is worked out\n",
    ),
    // A reserved word as a name, and a word that is misspelt.
    (
        b"template f(amount: Int) = Success;;",
        "line 1, column 12\ntemplate f(amount: Int) = Success;;\n           ^\nthis word is reserved, and cannot be a name\n",
    ),
    (
        b"template f() = Sucess;;",
        "line 1, column 22\nemplate f() = Sucess;;\n                    ^\na ( is missing after the name before the mark, or that name is a misspelt word\n",
    ),
];

#[test]
fn a_common_mistake_is_told(rt: HostRuntime) -> Result<(), Fail> {
    marked(&rt, rt.alloc(), Form::Book, &MISTAKES)
}

// A journal without `journal` lacks it at its end.
const JOURNALS: [(&[u8], &str); 3] = [
    (
        b"",
        "line 1, column 1\n\n^\na journal has the statement journal;; before its first command\n",
    ),
    (
        b"agents ann;;",
        "line 1, column 13\nagents ann;;\n            ^\na journal has the statement journal;; before its first command\n",
    ),
    (
        b"agents ann;;\n",
        "line 2, column 1\n\n^\na journal has the statement journal;; before its first command\n",
    ),
];

#[test]
fn a_fault_at_the_end_of_the_text_is_marked_there(rt: HostRuntime) -> Result<(), Fail> {
    marked(&rt, rt.alloc(), Form::Journal, &JOURNALS)
}

// 20 bytes ahead of the mark and 80 from it on are shown.
const LONG: [(&[u8], &str); 2] = [
    (
        b"agents a,b,c,d,e,f,g,h,i,j,k,l,m,n,o,p,q,r,s,t,u,v,w,x,y,z;; kinds A;; kinds A,B,C,D,E,F,G,H,I,J,K,L,M,N,O,P,Q,R,S,T,U,V,W,X,Y,Z,A,B,C,D,E,F,G,H,I,J,K,L,M,N,O,P,Q,R,S,T,U,V,W,X,Y,Z;;",
        "line 1, column 78\nz;; kinds A;; kinds A,B,C,D,E,F,G,H,I,J,K,L,M,N,O,P,Q,R,S,T,U,V,W,X,Y,Z,A,B,C,D,E,F,G,H,I,J,K,L,M,N,\n                    ^\n",
    ),
    (
        b"kinds ! A,B,C,D,E,F,G,H,I,J,K,L,M,N,O,P,Q,R,S,T,U,V,W,X,Y,Z,A,B,C,D,E,F,G,H,I,J,K,L,M,N,O,P,Q,R,S,T,U,V,W,X,Y,Z",
        "line 1, column 7\nkinds ! A,B,C,D,E,F,G,H,I,J,K,L,M,N,O,P,Q,R,S,T,U,V,W,X,Y,Z,A,B,C,D,E,F,G,H,I,J,K,L,M,\n      ^\n",
    ),
];

#[test]
fn a_long_line_is_cut_around_its_mark(rt: HostRuntime) -> Result<(), Fail> {
    marked(&rt, rt.alloc(), Form::Book, &LONG)
}

// The bytes as a list.
fn list(alloc: Global, bytes: &[u8]) -> Result<List<u8>, Memory> {
    let mut list = List::new(alloc);
    for byte in bytes {
        push(&mut list, *byte)?;
    }
    Ok(list)
}

#[test]
fn a_source_keeps_what_it_gave(rt: HostRuntime) -> Result<(), Fail> {
    let text = list(rt.alloc(), b"agents ann;;")?;
    let source = TextSource::new(rt.alloc(), text, 5, List::new(rt.alloc()));
    let mut kept = KeptSource::new(rt.alloc(), source);
    assert!(rt; kept.given() == Some(b"".as_slice()));
    let Ok(read) = read_up_to(rt.alloc(), &mut kept, 100) else {
        return Err(Memory.into());
    };
    assert!(rt; read.as_slice() == b"agents ann;;".as_slice());
    assert!(rt; kept.given() == Some(b"agents ann;;".as_slice()));
    Ok(())
}

#[test]
fn a_source_keeps_nothing_of_a_read_that_fails(rt: HostRuntime) -> Result<(), Fail> {
    let text = list(rt.alloc(), b"agents ann;;")?;
    let mut fails = List::new(rt.alloc());
    push(&mut fails, 2)?;
    let source = TextSource::new(rt.alloc(), text, 5, fails);
    let mut kept = KeptSource::new(rt.alloc(), source);
    let mut buf = [0; 8];
    assert!(rt; kept.read(&mut buf).is_ok());
    assert!(rt; kept.read(&mut buf).is_err());
    assert!(rt; kept.given() == Some(b"agent".as_slice()));
    Ok(())
}
