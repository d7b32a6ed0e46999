//! The laws of the grammar, each carried by a function that does nothing.
ghost use Rattle.poets_grammar.specs.Laws.{OneExpression, OneContract, OneStatement, ExpressionRead, ContractRead};
ghost use Rattle.poets_grammar.specs.Laws.{StatementRead, StatementBegun};

/// Tokens have one tree at most as an expression.
pub fn one_expression()
    ensures { OneExpression }
{}

/// Tokens have one tree at most as a contract.
pub fn one_contract()
    ensures { OneContract }
{}

/// Tokens say one thing at most as a statement.
pub fn one_statement()
    ensures { OneStatement }
{}

/// Reading finds the expression that the tokens are, and nothing where they are none.
pub fn expression_read()
    ensures { ExpressionRead }
{}

/// Reading finds the contract that the tokens are, and nothing where they are none.
pub fn contract_read()
    ensures { ContractRead }
{}

/// Reading finds what the tokens say as a statement, and nothing where they are none.
pub fn statement_read()
    ensures { StatementRead }
{}

/// If reading finds nothing, it says where it stopped: some sentence begins with the tokens before that place, and none
/// with more of them.
pub fn statement_begun()
    ensures { StatementBegun }
{}
