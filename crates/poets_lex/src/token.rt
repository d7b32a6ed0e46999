//! Tokens.
ghost use Rattle.std.specs.Prelude.{◌≡◌};

use poets_value::{Day, Name};

/// A reserved word.
#[derive(Debug, Clone, Copy, PartialEq, Eq)]
pub enum Word {
    Agents,
    Kinds,
    Template,
    Report,
    Clerk,
    Journal,
    Register,
    Transmit,
    End,
    Show,
    Tally,
    Portfolio,
    Over,
    Watch,
    Read,
    Void,
    Fold,
    With,
    In,
    By,
    Total,
    Success,
    Failure,
    True,
    False,
    And,
    Or,
    Not,
    If,
    Then,
    Else,
    Undefined,
    Amount,
    Kind,
    Res,
    IntType,
    BoolType,
    AgentType,
    KindType,
    ResourceType,
    DayType,
}

/// A sign.
#[derive(Debug, Clone, Copy, PartialEq, Eq)]
pub enum Sign {
    DoubleSemicolon,
    Semicolon,
    DoubleBar,
    Bar,
    LessEqual,
    NotEqual,
    Less,
    GreaterEqual,
    Greater,
    Equal,
    Plus,
    Minus,
    Star,
    Slash,
    Percent,
    LeftParen,
    RightParen,
    LeftBracket,
    RightBracket,
    Comma,
    Colon,
    Dot,
}

impl Sign {
    ghost use Rattle.poets_lex.specs.Texts.{sign_text};

    /// The sign's text.
    pub fn text(self) -> &'static str
        ensures { result.now ≡ sign_text self }
    {
        match self {
            Sign::DoubleSemicolon => ";;",
            Sign::Semicolon => ";",
            Sign::DoubleBar => "||",
            Sign::Bar => "|",
            Sign::LessEqual => "<=",
            Sign::NotEqual => "<>",
            Sign::Less => "<",
            Sign::GreaterEqual => ">=",
            Sign::Greater => ">",
            Sign::Equal => "=",
            Sign::Plus => "+",
            Sign::Minus => "-",
            Sign::Star => "*",
            Sign::Slash => "/",
            Sign::Percent => "%",
            Sign::LeftParen => "(",
            Sign::RightParen => ")",
            Sign::LeftBracket => "[",
            Sign::RightBracket => "]",
            Sign::Comma => ",",
            Sign::Colon => ":",
            Sign::Dot => ".",
        }
    }
}

/// What a token is.
#[derive(Debug, Clone, Copy, PartialEq, Eq)]
pub enum Tok {
    Word(Word),
    Name(Name),
    Number(i64),
    Day(Day),
    Sign(Sign),
}

/// A token, and the place of its first byte and of the byte after it.
#[derive(Debug, Clone, Copy, PartialEq, Eq)]
pub struct Token {
    pub what: Tok,
    pub from: u32,
    pub to: u32,
}
