//! Why a text is refused: the commonest mistakes, each with a line that tells it.
ghost use Rattle.std.specs.Prelude.{◌≡◌, ◌≤◌, length};
ghost use Rattle.poets_value.specs.Limits.{longest_text};
ghost use Rattle.poets_mark.specs.Whys.{mistake_text};

use crate::pieces::from_statement;
use poets_lex::{LexFault, Names, Sign, Tok, Token, Word, tokens};
use poets_parse::{SyntaxFault, begun};
use poets_session::{Form, SessionCause, ahead_of_end};
use poets_types::TypeCause;
use poets_value::{List, MOST_CLERKS, Memory, Name, Ty, push};
use std::alloc::Global;

/// A mistake that many make.
#[derive(Debug, Clone, Copy, PartialEq, Eq)]
pub(crate) enum Mistake {
    NoDay,
    NoAscii,
    Point,
    Grouping,
    WorkedOut,
    Unended,
    Empty,
    Reserved,
    NoBracket,
    NoElse,
    Numbered,
    NoClerk,
    BookAlone,
    OfJournal,
    OfSession,
    NoJournal,
    LateBook,
    EarlyCommand,
    OutOfScope,
    WantsAmount,
    WantsKind,
    Endless,
}

impl Mistake {
    /// The line that tells it, without its end.
    pub(crate) fn text(self) -> &'static str
        ensures { result.now ≡ mistake_text self }
    {
        match self {
            Mistake::NoDay => "a day is written @YYYY-MM-DD, and has to be one of the calendar",
            Mistake::NoAscii => "a text is ASCII, except in comments",
            Mistake::Point => "numbers are whole: there is no decimal point",
            Mistake::Grouping => "digits are not grouped by commas",
            Mistake::WorkedOut =>
                "an amount in [ ] is a number: write res(amount, kind) for one that is worked out",
            Mistake::Unended => "the statement before the mark lacks its ;;",
            Mistake::Empty => "there is no statement before this ;;",
            Mistake::Reserved => "this word is reserved, and cannot be a name",
            Mistake::NoBracket =>
                "a ( is missing after the name before the mark, or that name is a misspelt word",
            Mistake::NoElse => "an if needs an else",
            Mistake::Numbered => "clerk;; has no number: the first one is clerk 1",
            Mistake::NoClerk => "clerks have the numbers 1 to 64",
            Mistake::BookAlone =>
                "a book alone is read: poets run reads commands of clerks, and poets replay a journal",
            Mistake::OfJournal =>
                "this stands in a journal, which poets replay, explain and export read",
            Mistake::OfSession =>
                "this stands in a session of clerks, which poets run, keep and resume read",
            Mistake::NoJournal => "a journal has the statement journal;; before its first command",
            Mistake::LateBook => "declarations stand before the first clerk;; or journal;;",
            Mistake::EarlyCommand => "commands stand after clerk;;",
            Mistake::OutOfScope => "this name is known elsewhere in the statement, but not here",
            Mistake::WantsAmount =>
                "a number is wanted here: amount(r) is the number of a resource r",
            Mistake::WantsKind => "a resource has a number and a kind, as in [5 USD]",
            Mistake::Endless => "a template may come back to itself only after a transmit",
        }
    }
}

// Whether the sign stands between digits, with nothing else around it.
fn splits_number(left: &Token, here: &Token, right: &Token) -> bool {
    matches!(left.what, Tok::Number(_))
        && matches!(right.what, Tok::Number(_))
        && left.to == here.from
        && here.to == right.from
}

// What the tokens on both sides of the mark tell by themselves.
fn beside(ahead: &[Token], rest: &[Token], is_ended: bool) -> Option<Mistake> {
    match (ahead.last(), rest) {
        (None, []) if is_ended => Some(Mistake::Empty),
        (_, []) if !is_ended => Some(Mistake::Unended),
        (Some(left), [here, right, ..]) if splits_number(left, here, right) => match here.what {
            Tok::Sign(Sign::Dot) => Some(Mistake::Point),
            Tok::Sign(Sign::Comma) => Some(Mistake::Grouping),
            _ => None,
        },
        (Some(left), [here, ..]) => match (left.what, here.what) {
            (Tok::Sign(Sign::LeftBracket), Tok::Name(_)) => Some(Mistake::WorkedOut),
            (Tok::Word(Word::Clerk), Tok::Number(_)) => Some(Mistake::Numbered),
            _ => None,
        },
        _ => None,
    }
}

// Whether a sentence that begins with the tokens can go on with the other one.
fn goes_on(alloc: Global, ahead: &[Token], what: Tok) -> Result<bool, Memory> {
    let mut tried = List::new(alloc);
    for token in ahead {
        push(&mut tried, *token)?;
    }
    push(
        &mut tried,
        Token {
            what,
            from: 0,
            to: 0,
        },
    )?;
    Ok(ahead.len() < begun(alloc, tried.as_slice())?)
}

// Whether a statement begins with the first two of the tokens, or is the only one.
fn begins(alloc: Global, tokens: &[Token]) -> Result<bool, Memory> {
    match tokens {
        [only] => Ok(matches!(only.what, Tok::Word(Word::Clerk | Word::Journal))),
        _ => Ok(1 < begun(alloc, tokens)?),
    }
}

// Whether a name is declared or bound where the tokens go on.
fn wants_new_name(alloc: Global, ahead: &[Token]) -> Result<bool, Memory> {
    Ok(
        goes_on(alloc, ahead, Tok::Name(Name { id: 0 }))?
            && !goes_on(alloc, ahead, Tok::Word(Word::True))?
            && !goes_on(alloc, ahead, Tok::Word(Word::Success))?,
    )
}

// Whether the token is a `;`.
fn is_semicolon(token: Option<&Token>) -> bool {
    match token {
        Some(token) => token.what == Tok::Sign(Sign::Semicolon),
        None => false,
    }
}

// Whether the statement ahead of the mark lacks its end: another one begins there, before or after a `;`.
fn is_unended(alloc: Global, ahead: &[Token], rest: &[Token]) -> Result<bool, Memory> {
    if goes_on(alloc, ahead, Tok::Name(Name { id: 0 }))? {
        return Ok(is_semicolon(ahead.last()) && begins(alloc, rest)?);
    }
    match rest {
        [first, after @ ..] if is_semicolon(Some(first)) => begins(alloc, after),
        _ => begins(alloc, rest),
    }
}

// What is told by other tokens that could stand at the mark.
fn instead(alloc: Global, ahead: &[Token], rest: &[Token]) -> Result<Option<Mistake>, Memory> {
    if is_unended(alloc, ahead, rest)? {
        return Ok(Some(Mistake::Unended));
    }
    let here = rest.first().map(|token| token.what);
    let left = ahead.last().map(|token| token.what);
    Ok(match (left, here) {
        (_, Some(Tok::Word(Word::End))) if goes_on(alloc, ahead, Tok::Word(Word::Else))? => Some(
            Mistake::NoElse,
        ),
        (_, Some(Tok::Word(_))) if wants_new_name(alloc, ahead)? => Some(Mistake::Reserved),
        (Some(Tok::Name(_)), _) if goes_on(alloc, ahead, Tok::Sign(Sign::LeftParen))? => Some(
            Mistake::NoBracket,
        ),
        _ => None,
    })
}

// Why the statement may not stand in its place, of which this is the first token.
fn misplaced(form: Form, first: Option<&Token>) -> Mistake {
    match (form, first.map(|token| token.what)) {
        (
            Form::Clerks | Form::Journal,
            Some(Tok::Word(Word::Agents | Word::Kinds | Word::Template | Word::Report)),
        ) => Mistake::LateBook,
        (Form::Clerks, Some(Tok::Number(_) | Tok::Word(Word::Journal))) => Mistake::OfJournal,
        (Form::Clerks, _) => Mistake::EarlyCommand,
        (Form::Journal, Some(Tok::Number(_)) | None) => Mistake::NoJournal,
        (Form::Journal, _) => Mistake::OfSession,
        (Form::Book, _) => Mistake::BookAlone,
    }
}

// Why the statement is one too many, of which this is the first token.
fn too_many(first: Option<&Token>) -> Option<Mistake> {
    match first?.what {
        Tok::Number(number) if !(1..=MOST_CLERKS as i64).contains(&number) => Some(
            Mistake::NoClerk,
        ),
        _ => None,
    }
}

// Whether the name stands ahead of the place.
fn stands_ahead(tokens: &[Token], name: Name, place: usize) -> bool {
    tokens.iter().any(|token| token.what == Tok::Name(name) && (token.from as usize) < place)
}

// Why a statement of these tokens is not typed, where its fault stands at the place.
fn untyped(tokens: &[Token], cause: &TypeCause, place: usize) -> Option<Mistake> {
    match cause {
        TypeCause::Unknown { name } if stands_ahead(tokens, *name, place) => Some(
            Mistake::OutOfScope,
        ),
        TypeCause::WrongType {
            wanted: Ty::Int,
            found: Ty::Resource,
        } => Some(Mistake::WantsAmount),
        TypeCause::WrongType {
            wanted: Ty::Resource,
            found: Ty::Int,
        } => Some(Mistake::WantsKind),
        _ => None,
    }
}

// Why the statement is refused, of whose tokens these stand ahead of its `;;`, if it is ended.
fn of_statement(
    alloc: Global,
    form: Form,
    cause: &SessionCause,
    own: &[Token],
    is_ended: bool,
    place: usize,
) -> Result<Option<Mistake>, Memory> {
    match cause {
        SessionCause::Syntax {
            fault: SyntaxFault::NoSentence,
            ..
        } => {
            let count = begun(alloc, own)?;
            let (ahead, rest) = own.split_at(count);
            match beside(ahead, rest, is_ended) {
                Some(mistake) => Ok(Some(mistake)),
                None => instead(alloc, ahead, rest),
            }
        }
        SessionCause::Misplaced { .. } => Ok(Some(misplaced(form, own.first()))),
        SessionCause::TooMany { .. } => Ok(too_many(own.first())),
        SessionCause::Types(fault) => Ok(untyped(own, &fault.cause, place)),
        _ => Ok(None),
    }
}

// Why the byte begins no token.
fn of_byte(byte: Option<&u8>) -> Option<Mistake> {
    match byte? {
        b'@' => Some(Mistake::NoDay),
        128..=255 => Some(Mistake::NoAscii),
        _ => None,
    }
}

/// Why the text, as a session of the form, has the fault at the place, where that is one of the commonest mistakes.
pub(crate) fn why(
    alloc: Global,
    text: &[u8],
    form: Form,
    cause: &SessionCause,
    place: usize,
) -> Result<Option<Mistake>, Memory>
    requires { length text.now ≤ longest_text }
{
    let number = match cause {
        SessionCause::Lex(LexFault::BadByte { at }) => return Ok(of_byte(text.get(*at as usize))),
        SessionCause::Lex(_) | SessionCause::Memory => return Ok(None),
        SessionCause::Guard { .. } => return Ok(Some(Mistake::Endless)),
        SessionCause::Syntax { statement, .. }
        | SessionCause::Misplaced { statement }
        | SessionCause::TooMany { statement } => *statement,
        SessionCause::Types(fault) => fault.statement,
    };
    let mut names = Names::new(alloc);
    let Ok(found) = tokens(alloc, text, &mut names) else {
        return Err(Memory);
    };
    let rest = from_statement(found.as_slice(), number);
    let own = ahead_of_end(rest);
    of_statement(alloc, form, cause, own, own.len() < rest.len(), place)
}
