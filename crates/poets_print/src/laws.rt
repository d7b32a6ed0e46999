//! Laws of printed texts, each stated by a function that does nothing: what is printed reads back.
//!
//! A text has one list of tokens (`poets_lex`, `one_reading`), and tokens have one tree at most (`poets_grammar`,
//! `one_contract` and `one_statement`). So no other tree has that text, and what reads the text finds the tree that was
//! printed.
ghost use Rattle.poets_print.specs.Laws.{ContractReadsBack, CommandReadsBack};

/// The text of a contract is cut into tokens, without a new name, and the tokens are that contract.
pub fn contract_reads_back()
    ensures { ContractReadsBack }
{}

/// The text of a command is cut into tokens, without a new name, and the tokens are that command.
pub fn command_reads_back()
    ensures { CommandReadsBack }
{}
