//! Texts and their tokens, as the rules of the language have them.

use poets_lex::{LexFault, Names, Sign, Tok, Token, Word, tokens};
use poets_value::{Day, List, Name};
use std::alloc::Global;
use std::process::Abort;

// The tokens of a text over a table of its own.
fn read(alloc: Global, text: &[u8]) -> Result<List<Token>, LexFault> {
    if text.len() > 1 << 24 {
        return Err(LexFault::Memory);
    }
    let mut names = Names::new(alloc);
    tokens(alloc, text, &mut names)
}

// The token that the whole text is, if it is one.
fn only(alloc: Global, text: &str) -> Result<Option<Tok>, LexFault> {
    let found = read(alloc, text.as_bytes())?;
    let [token] = found.as_slice() else {
        return Ok(None);
    };
    let whole = token.from == 0 && token.to as usize == text.len();
    Ok(whole.then_some(token.what))
}

// Each text is that word.
fn are_words(rt: &impl Abort, alloc: Global, rows: &[(&str, Word)]) -> Result<(), LexFault> {
    for (text, word) in rows {
        assert_eq!(rt; only(alloc, text)?, Some(Tok::Word(*word)), "at {text}");
    }
    Ok(())
}

const OF_STATEMENTS: [(&str, Word); 21] = [
    ("agents", Word::Agents),
    ("kinds", Word::Kinds),
    ("template", Word::Template),
    ("report", Word::Report),
    ("clerk", Word::Clerk),
    ("journal", Word::Journal),
    ("register", Word::Register),
    ("transmit", Word::Transmit),
    ("end", Word::End),
    ("show", Word::Show),
    ("tally", Word::Tally),
    ("portfolio", Word::Portfolio),
    ("over", Word::Over),
    ("watch", Word::Watch),
    ("read", Word::Read),
    ("void", Word::Void),
    ("fold", Word::Fold),
    ("with", Word::With),
    ("in", Word::In),
    ("by", Word::By),
    ("total", Word::Total),
];

const OF_TERMS: [(&str, Word); 20] = [
    ("Success", Word::Success),
    ("Failure", Word::Failure),
    ("true", Word::True),
    ("false", Word::False),
    ("and", Word::And),
    ("or", Word::Or),
    ("not", Word::Not),
    ("if", Word::If),
    ("then", Word::Then),
    ("else", Word::Else),
    ("undefined", Word::Undefined),
    ("amount", Word::Amount),
    ("kind", Word::Kind),
    ("res", Word::Res),
    ("Int", Word::IntType),
    ("Bool", Word::BoolType),
    ("Agent", Word::AgentType),
    ("Kind", Word::KindType),
    ("Resource", Word::ResourceType),
    ("Day", Word::DayType),
];

#[test]
fn each_reserved_word_is_itself(rt: HostRuntime) -> Result<(), LexFault> {
    are_words(&rt, rt.alloc(), &OF_STATEMENTS)?;
    are_words(&rt, rt.alloc(), &OF_TERMS)
}

const SIGNS: [(&str, Sign); 22] = [
    (";;", Sign::DoubleSemicolon),
    (";", Sign::Semicolon),
    ("||", Sign::DoubleBar),
    ("|", Sign::Bar),
    ("<=", Sign::LessEqual),
    ("<>", Sign::NotEqual),
    ("<", Sign::Less),
    (">=", Sign::GreaterEqual),
    (">", Sign::Greater),
    ("=", Sign::Equal),
    ("+", Sign::Plus),
    ("-", Sign::Minus),
    ("*", Sign::Star),
    ("/", Sign::Slash),
    ("%", Sign::Percent),
    ("(", Sign::LeftParen),
    (")", Sign::RightParen),
    ("[", Sign::LeftBracket),
    ("]", Sign::RightBracket),
    (",", Sign::Comma),
    (":", Sign::Colon),
    (".", Sign::Dot),
];

#[test]
fn each_sign_is_itself(rt: HostRuntime) -> Result<(), LexFault> {
    for (text, sign) in &SIGNS {
        assert_eq!(rt;
            only(rt.alloc(), text)?,
            Some(Tok::Sign(*sign)),
            "at {text}"
        );
        assert_eq!(rt; sign.text(), *text);
    }
    Ok(())
}

fn number(alloc: Global, text: &str) -> Result<Option<i64>, LexFault> {
    match only(alloc, text)? {
        Some(Tok::Number(number)) => Ok(Some(number)),
        _ => Ok(None),
    }
}

#[test]
fn numbers_go_up_to_their_limit(rt: HostRuntime) -> Result<(), LexFault> {
    assert_eq!(rt; number(rt.alloc(), "007")?, Some(7));
    assert_eq!(rt;
        number(rt.alloc(), "00009223372036854775807")?,
        Some(i64::MAX)
    );
    Ok(())
}

fn is_name(alloc: Global, text: &str) -> Result<bool, LexFault> {
    Ok(matches!(only(alloc, text)?, Some(Tok::Name(Name { id: 0 }))))
}

#[test]
fn names_go_up_to_their_limit(rt: HostRuntime) -> Result<(), LexFault> {
    assert!(rt; is_name(rt.alloc(), "_9Z")?);
    assert!(rt; is_name(rt.alloc(), "Agents")?);
    let longest = "abcdefghijklmnopqrstuvwxyzabcdefghijklmnopqrstuvwxyzabcdefghijkl";
    assert!(rt; is_name(rt.alloc(), longest)?);
    Ok(())
}

// The text is these tokens, each with its first place and the one after it.
fn is_read(
    rt: &impl Abort,
    alloc: Global,
    text: &[u8],
    wanted: &[(Tok, u32, u32)],
) -> Result<(), LexFault> {
    let found = read(alloc, text)?;
    assert_eq!(rt; found.len(), wanted.len());
    for (token, row) in found.as_slice().iter().zip(wanted) {
        assert_eq!(rt; (token.what, token.from, token.to), *row, "in {text:?}");
    }
    Ok(())
}

const NUMBER_AND_NAME: [(Tok, u32, u32); 2] = [
    (Tok::Number(7), 0, 1),
    (Tok::Name(Name { id: 0 }), 1, 4),
];

const THREE_SEMICOLONS: [(Tok, u32, u32); 2] = [
    (Tok::Sign(Sign::DoubleSemicolon), 0, 2),
    (Tok::Sign(Sign::Semicolon), 2, 3),
];

const AROUND_A_COMMENT: [(Tok, u32, u32); 2] = [
    (Tok::Name(Name { id: 0 }), 0, 1),
    (Tok::Name(Name { id: 1 }), 14, 15),
];

#[test]
fn each_token_is_as_long_as_it_can_be(rt: HostRuntime) -> Result<(), LexFault> {
    is_read(&rt, rt.alloc(), b"7abc", &NUMBER_AND_NAME)?;
    is_read(&rt, rt.alloc(), b";;;", &THREE_SEMICOLONS)?;
    is_read(
        &rt,
        rt.alloc(),
        b"a#b \xFF\x00\r;; # c\nb\t#",
        &AROUND_A_COMMENT,
    )
}

// The number of the day that the first token is, if it ends at this place.
fn first_day(alloc: Global, text: &[u8], end: u32) -> Result<Option<i64>, LexFault> {
    let found = read(alloc, text)?;
    match found.as_slice().first() {
        Some(
            Token {
                what: Tok::Day(day),
                to,
                ..
            },
        ) if *to == end => Ok(Some(day.number())),
        _ => Ok(None),
    }
}

#[test]
fn a_day_has_ten_bytes_behind_its_sign(rt: HostRuntime) -> Result<(), LexFault> {
    assert_eq!(rt; first_day(rt.alloc(), b"@1970-01-025", 11)?, Some(1));
    Ok(())
}

// The fault of a text, of which the names up to it are put in the table.
fn fault(alloc: Global, text: &[u8], names: &mut Names) -> Option<LexFault> {
    if text.len() > 1 << 24 || names.len() > 1 << 24 {
        return Some(LexFault::Memory);
    }
    tokens(alloc, text, names).err()
}

const FAULTS: [(&[u8], LexFault); 7] = [
    (b"agents ann;; ?", LexFault::BadByte { at: 13 }),
    (b"agents ann;; @2006-02-29", LexFault::BadByte { at: 13 }),
    (b"a \x0B", LexFault::BadByte { at: 2 }),
    (b"# \xC3\xA9\n\xC3\xA9", LexFault::BadByte { at: 5 }),
    (b"a ! 9223372036854775808", LexFault::BadByte { at: 2 }),
    (b"9223372036854775808 ?", LexFault::LongNumber { at: 0 }),
    (&[b'x'; 65], LexFault::LongName { at: 0 }),
];

#[test]
fn the_first_fault_is_answered(rt: HostRuntime) {
    for (text, wanted) in &FAULTS {
        let mut names = Names::new(rt.alloc());
        let found = fault(rt.alloc(), text, &mut names);
        assert_eq!(rt; found, Some(*wanted), "in {text:?}");
    }
}

#[test]
fn names_are_numbered_as_they_first_stand(rt: HostRuntime) {
    let mut names = Names::new(rt.alloc());
    let sound = fault(rt.alloc(), b"bob # eve\nin ann;;bob", &mut names);
    assert_eq!(rt; sound, None);
    let first = fault(rt.alloc(), b"tim ann ? joe", &mut names);
    assert_eq!(rt; first, Some(LexFault::BadByte { at: 8 }));
    assert_eq!(rt; names.len(), 3);
    assert_eq!(rt; names.text(Name { id: 2 }), "tim");
    assert_eq!(rt; names.find("ann"), Some(Name { id: 1 }));
    assert_eq!(rt; names.find("joe"), None);
}
