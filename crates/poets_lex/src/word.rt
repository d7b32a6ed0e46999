//! Reserved words.
ghost use Rattle.std.specs.Prelude.{◌≡◌, ◌≢◌, IfSome, IfNone};
ghost use Rattle.poets_lex.specs.Texts.{word_text};
ghost use Rattle.poets_lex.specs.code.Words.{IsNoShortWord, IsNoLongWord};
ghost use Rattle.poets_lex.specs.declared.token.Word.{Word};

use crate::Word;

// The reserved word with that text. Its length and first byte leave few words to compare it with.
pub(crate) fn word_of(text: &str) -> Option<Word>
    ensures some { IfSome result (λ word. text.now ≡ word_text word) }
    ensures none { IfNone result ((word : Word) → text.now ≢ word_text word) }
{
    if text.len() <= 4 {
        short_word(text)
    } else {
        long_word(text)
    }
}

// The reserved word of at most four letters with that text.
fn short_word(text: &str) -> Option<Word>
    ensures some { IfSome result (λ word. text.now ≡ word_text word) }
    ensures none { IfNone result (IsNoShortWord text.now) }
{
    let [first, ..] = text.as_bytes() else {
        return None;
    };
    let word = match (*first, text) {
        (b'B', "Bool") => Word::BoolType,
        (b'D', "Day") => Word::DayType,
        (b'I', "Int") => Word::IntType,
        (b'K', "Kind") => Word::KindType,
        (b'a', "and") => Word::And,
        (b'b', "by") => Word::By,
        (b'e', "else") => Word::Else,
        (b'e', "end") => Word::End,
        (b'f', "fold") => Word::Fold,
        (b'i', "if") => Word::If,
        (b'i', "in") => Word::In,
        (b'k', "kind") => Word::Kind,
        (b'n', "not") => Word::Not,
        (b'o', "or") => Word::Or,
        (b'o', "over") => Word::Over,
        (b'r', "read") => Word::Read,
        (b'r', "res") => Word::Res,
        (b's', "show") => Word::Show,
        (b't', "then") => Word::Then,
        (b't', "true") => Word::True,
        (b'v', "void") => Word::Void,
        (b'w', "with") => Word::With,
        _ => return None,
    };
    Some(word)
}

// The reserved word of more than four letters with that text.
fn long_word(text: &str) -> Option<Word>
    ensures some { IfSome result (λ word. text.now ≡ word_text word) }
    ensures none { IfNone result (IsNoLongWord text.now) }
{
    let [first, ..] = text.as_bytes() else {
        return None;
    };
    let word = match (*first, text) {
        (b'A', "Agent") => Word::AgentType,
        (b'F', "Failure") => Word::Failure,
        (b'R', "Resource") => Word::ResourceType,
        (b'S', "Success") => Word::Success,
        (b'a', "agents") => Word::Agents,
        (b'a', "amount") => Word::Amount,
        (b'c', "clerk") => Word::Clerk,
        (b'f', "false") => Word::False,
        (b'j', "journal") => Word::Journal,
        (b'k', "kinds") => Word::Kinds,
        (b'p', "portfolio") => Word::Portfolio,
        (b'r', "register") => Word::Register,
        (b'r', "report") => Word::Report,
        (b't', "tally") => Word::Tally,
        (b't', "template") => Word::Template,
        (b't', "total") => Word::Total,
        (b't', "transmit") => Word::Transmit,
        (b'u', "undefined") => Word::Undefined,
        (b'w', "watch") => Word::Watch,
        _ => return None,
    };
    Some(word)
}
