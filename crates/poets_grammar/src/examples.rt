//! Statements worked by hand, each carried by a function that does nothing.
ghost use Rattle.std.specs.Prelude.{◌∷◌};
ghost use Rattle.poets_expr.specs.Expression.{Expression};
ghost use Rattle.poets_command.specs.Said.{Statement};
ghost use Rattle.poets_lex.specs.declared.token.Sign.TheVariants as S;
ghost use Rattle.poets_lex.specs.declared.token.Tok.TheVariants as K;
ghost use Rattle.poets_grammar.specs.Expressions.{IsExpression};
ghost use Rattle.poets_grammar.specs.ContractGrammar.{IsContract};
ghost use Rattle.poets_grammar.specs.Statements.{IsStatement};
ghost use Rattle.poets_grammar.specs.Begins.{IsBegun};
ghost use Rattle.poets_grammar.specs.TooDeep.{IsTooDeep};
ghost use Rattle.poets_grammar.specs.Examples.{mixed, mixed_tree, less, less_tree, chained, negative, negative_tree};
ghost use Rattle.poets_grammar.specs.Examples.{negated, negated_tree, joint, joint_tree, agents, agents_said};
ghost use Rattle.poets_grammar.specs.Examples.{registered, registered_said, cut_off, two_commas};
ghost use Rattle.poets_grammar.specs.Examples.{nested, added};

/// `1 or 2 and not 3 = 4` goes by levels, `1 - 2 - 3` to the left, and `1 = 2 = 3` is no expression.
pub fn levels()
    ensures by_level { IsExpression mixed mixed_tree }
    ensures to_the_left { IsExpression less less_tree }
    ensures no_chain { (e : Expression) → ¬ (IsExpression chained e) }
{}

/// `-5` is a number, and `-(5)` is the negation of one.
pub fn negative_numbers()
    ensures number { IsExpression negative negative_tree }
    ensures negation { IsExpression negated negated_tree }
{}

/// `a() + b() || Success ; b()` goes by levels.
pub fn contracts()
    ensures { IsContract joint joint_tree }
{}

/// `agents ann, bob` and `register x = Success` are statements, and `agents ann,` is none. Some sentence begins with the
/// first three tokens of `agents ann,,` and none with all four; and some with all three of `agents ann,`.
pub fn statements()
    ensures names { IsStatement agents agents_said }
    ensures command { IsStatement registered registered_said }
    ensures cut_off { (s : Statement) → ¬ (IsStatement cut_off s) }
    ensures begun { IsBegun two_commas 3 }
    ensures all_begun { IsBegun cut_off 3 }
{}

/// 201 brackets are too deep, also after a `)`, and 200 are not; 1,001 operators are too deep, and 1,000 are not.
pub fn depths()
    ensures deep { IsTooDeep (nested 201) }
    ensures behind_closing { IsTooDeep (K.Sign S.RightParen ∷ nested 201) }
    ensures not_deep { ¬ (IsTooDeep (nested 200)) }
    ensures long { IsTooDeep (added 1001) }
    ensures not_long { ¬ (IsTooDeep (added 1000)) }
{}
