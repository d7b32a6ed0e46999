//! How tightly the operators of expressions bind.
ghost use Rattle.std.specs.Prelude.{◌≡◌};
ghost use Rattle.poets_grammar.specs.Levels.{level_of};

use poets_expr::Op;

/// How tightly an expression holds its parts together, from the loosest to the tightest; each level is a rule of the
/// grammar.
#[derive(Debug, Clone, Copy, PartialEq, Eq, PartialOrd, Ord)]
pub enum Level {
    /// Joined by `or`.
    Disjunction,
    /// Joined by `and`.
    Conjunction,
    /// After `not`.
    Negation,
    /// Two sums, compared.
    Comparison,
    /// Joined by `+` or `-`.
    Sum,
    /// Joined by `*`, `/` or `%`.
    Product,
    /// After a `-`.
    Prefixed,
    /// All others.
    Primary,
}

impl Level {
    /// The level of an operator between its operands.
    pub fn of(op: Op) -> Level
        ensures { result ≡ level_of op }
    {
        match op {
            Op::Or => Level::Disjunction,
            Op::And => Level::Conjunction,
            Op::Eq | Op::Ne | Op::Lt | Op::Le | Op::Gt | Op::Ge => Level::Comparison,
            Op::Add | Op::Sub => Level::Sum,
            Op::Mul | Op::Div | Op::Rem => Level::Product,
        }
    }
}
