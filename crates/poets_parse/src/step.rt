//! Single tokens.
ghost use Rattle.std.specs.Prelude.{◌≡◌, ◌<◌, ◌≤ℤ◌, pos, length, [], ◌∷◌, IfSome, IfNone, IfOk};
ghost use Rattle.poets_grammar.specs.Levels.{tightness};
ghost use Rattle.poets_grammar.specs.Tokens.{toks};
ghost use Rattle.poets_grammar.specs.Tokens as spec;
ghost use Rattle.poets_grammar.specs.Reading as reading;
ghost use Rattle.poets_grammar.specs.StatementReading as statements;
ghost use Rattle.poets_parse.specs.code.Gives.{Gives, GivesFront, Finds, FindsFront, LeavesLess};

use crate::fault::ReadFault;
use poets_expr::Op;
use poets_grammar::Level;
use poets_lex::{Sign, Tok, Token, Word};
use poets_value::{Day, Name, Ty};

// What the first token is, and the tokens after it.
pub(crate) fn first(tokens: &[Token]) -> Option<(Tok, &[Token])>
    ensures some { IfSome result (λ p. toks tokens.now ≡ p.0 ∷ toks p.1.now) }
    ensures none { IfNone result (toks tokens.now ≡ []) }
    ensures shorter { IfSome result (λ p. length p.1.now < length tokens.now) }
{
    let (token, rest) = tokens.split_first()?;
    Some((token.what, rest))
}

// What stands after the sign, if it is the first token.
pub(crate) fn behind_sign(wanted: Sign, tokens: &[Token]) -> Option<&[Token]>
    ensures found { Finds result (reading.behind_sign wanted (toks tokens.now)) }
    ensures shorter { IfSome result (λ r. length r.now < length tokens.now) }
{
    match first(tokens) {
        Some((Tok::Sign(found), rest)) if found == wanted => Some(rest),
        _ => None,
    }
}

// What stands after the word, if it is the first token.
pub(crate) fn behind_word(wanted: Word, tokens: &[Token]) -> Option<&[Token]>
    ensures found { Finds result (reading.behind_word wanted (toks tokens.now)) }
    ensures shorter { IfSome result (λ r. length r.now < length tokens.now) }
{
    match first(tokens) {
        Some((Tok::Word(found), rest)) if found == wanted => Some(rest),
        _ => None,
    }
}

// What stands after the sign.
pub(crate) fn sign(wanted: Sign, tokens: &[Token]) -> Result<&[Token], ReadFault>
    ensures gives { Gives (λ r. toks r.now) result (reading.sign wanted (toks tokens.now)) }
    ensures shorter { IfOk result (λ r. length r.now < length tokens.now) }
{
    behind_sign(wanted, tokens).ok_or(ReadFault::at(tokens))
}

// What stands after the word.
pub(crate) fn word(wanted: Word, tokens: &[Token]) -> Result<&[Token], ReadFault>
    ensures gives { Gives (λ r. toks r.now) result (reading.word wanted (toks tokens.now)) }
    ensures shorter { IfOk result (λ r. length r.now < length tokens.now) }
{
    behind_word(wanted, tokens).ok_or(ReadFault::at(tokens))
}

// The NAME, and what stands after it.
pub(crate) fn name(tokens: &[Token]) -> Result<(Name, &[Token]), ReadFault>
    ensures gives { GivesFront (λ x. x) result (reading.name (toks tokens.now)) }
    ensures shorter { LeavesLess tokens.now result }
{
    match first(tokens) {
        Some((Tok::Name(name), rest)) => Ok((name, rest)),
        _ => Err(ReadFault::at(tokens)),
    }
}

// The NUMBER, which is not below 0, and what stands after it.
pub(crate) fn number(tokens: &[Token]) -> Result<(i64, &[Token]), ReadFault>
    ensures gives { GivesFront (λ x. x) result (reading.number (toks tokens.now)) }
    ensures natural { IfOk result (λ r. pos 0 ≤ℤ r.0) }
    ensures shorter { LeavesLess tokens.now result }
{
    match first(tokens) {
        Some((Tok::Number(number), rest)) if number >= 0 => Ok((number, rest)),
        _ => Err(ReadFault::at(tokens)),
    }
}

// The NUMBER of something that is counted, and what stands after it.
pub(crate) fn natural(tokens: &[Token]) -> Result<(u64, &[Token]), ReadFault>
    ensures gives { GivesFront (λ x. x) result (statements.natural (toks tokens.now)) }
{
    match first(tokens) {
        Some((Tok::Number(number), rest)) if number >= 0 => Ok((number as u64, rest)),
        _ => Err(ReadFault::at(tokens)),
    }
}

// The NAME that is the last token.
pub(crate) fn last_name(tokens: &[Token]) -> Result<Name, ReadFault>
    ensures { Gives (λ x. x) result (statements.last_name (toks tokens.now)) }
{
    match first(tokens) {
        Some((Tok::Name(name), [])) => Ok(name),
        Some((Tok::Name(_), rest)) => Err(ReadFault::at(rest)),
        _ => Err(ReadFault::at(tokens)),
    }
}

// The DAY that is the last token.
pub(crate) fn last_day(tokens: &[Token]) -> Result<Day, ReadFault>
    ensures { Gives (λ d. d) result (statements.last_day (toks tokens.now)) }
{
    let Some((token, rest)) = tokens.split_first() else {
        return Err(ReadFault::at(tokens));
    };
    let Tok::Day(day) = &token.what else {
        return Err(ReadFault::at(tokens));
    };
    match rest {
        [] => Ok(*day),
        _ => Err(ReadFault::at(rest)),
    }
}

// The type that the word names.
fn type_of(word: Word) -> Option<Ty>
    ensures { result ≡ spec.type_of word }
{
    match word {
        Word::IntType => Some(Ty::Int),
        Word::BoolType => Some(Ty::Bool),
        Word::AgentType => Some(Ty::Agent),
        Word::KindType => Some(Ty::Kind),
        Word::ResourceType => Some(Ty::Resource),
        Word::DayType => Some(Ty::Day),
        _ => None,
    }
}

// The type, and what stands after its word.
pub(crate) fn type_name(tokens: &[Token]) -> Result<(Ty, &[Token]), ReadFault>
    ensures gives { GivesFront (λ x. x) result (reading.type_name (toks tokens.now)) }
    ensures shorter { LeavesLess tokens.now result }
{
    let Some((Tok::Word(word), rest)) = first(tokens) else {
        return Err(ReadFault::at(tokens));
    };
    match type_of(word) {
        Some(ty) => Ok((ty, rest)),
        None => Err(ReadFault::at(tokens)),
    }
}

// The operator that the token is between two operands.
fn infix_operator(tok: Tok) -> Option<Op>
    ensures { result ≡ spec.token_operator tok }
{
    match tok {
        Tok::Word(Word::Or) => Some(Op::Or),
        Tok::Word(Word::And) => Some(Op::And),
        Tok::Sign(Sign::Equal) => Some(Op::Eq),
        Tok::Sign(Sign::NotEqual) => Some(Op::Ne),
        Tok::Sign(Sign::Less) => Some(Op::Lt),
        Tok::Sign(Sign::LessEqual) => Some(Op::Le),
        Tok::Sign(Sign::Greater) => Some(Op::Gt),
        Tok::Sign(Sign::GreaterEqual) => Some(Op::Ge),
        Tok::Sign(Sign::Plus) => Some(Op::Add),
        Tok::Sign(Sign::Minus) => Some(Op::Sub),
        Tok::Sign(Sign::Star) => Some(Op::Mul),
        Tok::Sign(Sign::Slash) => Some(Op::Div),
        Tok::Sign(Sign::Percent) => Some(Op::Rem),
        _ => None,
    }
}

// The operator of the level, if one is the first token, and what stands after it.
pub(crate) fn operator(level: Level, tokens: &[Token]) -> Option<(Op, &[Token])>
    ensures found { FindsFront result (reading.operator (tightness level) (toks tokens.now)) }
    ensures shorter { IfSome result (λ p. length p.1.now < length tokens.now) }
{
    let Some((tok, rest)) = first(tokens) else {
        return None;
    };
    match infix_operator(tok) {
        Some(op) if Level::of(op) == level => Some((op, rest)),
        _ => None,
    }
}

// The value, where nothing stands after it.
pub(crate) fn whole<T: Drop>(value: T, rest: &[Token]) -> Result<T, ReadFault>
    ensures { Gives (λ x. x) result (reading.whole value (toks rest.now)) }
{
    match rest {
        [] => Ok(value),
        _ => Err(ReadFault::at(rest)),
    }
}
