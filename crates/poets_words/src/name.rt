//! The name of a contract among the words.
ghost use Rattle.std.specs.Prelude.{◌≡◌, IfSome, IfNone};
ghost use Rattle.poets_lex.specs.Table.{IsName};

use poets_lex::is_name;
use std::marker::Model;

/// A word that is a name of the language.
#[derive(Debug, Drop)]
pub struct ContractName<'a> {
    text: &'a str,
}

impl<'a> Model for ContractName<'a> {
    ghost use Rattle.std.specs.Prelude.{ℕ, List};
    ghost use Rattle.poets_lex.specs.Table.{IsName};

    ghost Value = { List ℕ };

    ghost view = { λ name. name.text.now };

    ghost invariant = { λ name. IsName name.text.now };
}

impl<'a> ContractName<'a> {
    // The word as a name, if it is one.
    pub(crate) fn new(word: &'a str) -> Option<ContractName<'a>>
        ensures some { IfSome result (λ name. name ≡ word.now) }
        ensures none { IfNone result (¬ (IsName word.now)) }
    {
        if is_name(word) {
            Some(ContractName { text: word })
        } else {
            None
        }
    }

    /// The text of the name.
    pub fn text(&self) -> &'a str
        ensures text { result.now ≡ self.now }
        ensures name { IsName result.now }
    {
        self.text
    }
}
