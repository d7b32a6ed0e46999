//! First faults worked by hand, each carried by a function that does nothing.
ghost use Rattle.std.specs.Prelude.{[]};
ghost use Rattle.poets_value.specs.declared.value.Ty.TheVariants as T;
ghost use Rattle.poets_syntax.specs.Plain.{Twice, Unknown, WrongCount, WrongType};
ghost use Rattle.poets_syntax.specs.Demands.{AreMet, demands_of};
ghost use Rattle.poets_syntax.specs.FaultExamples.{Faults, ContractFaults, ann, pay, nobody, agents};
ghost use Rattle.poets_syntax.specs.FaultExamples.{two_parts, part_and_node, choice, less, one, some_day};
ghost use Rattle.poets_syntax.specs.FaultExamples.{transmission, too_few, exchanged, of_nobody};

/// `(not 1) + nobody` reports its left part, `true + nobody` its part before its operator, and
/// `if 1 then 1 else true end` its condition before its branches. From a number no day can be taken, and from a day a
/// day can.
pub fn expressions()
    ensures left_part { Faults two_parts (WrongType T.Bool T.Int) }
    ensures part_first { Faults part_and_node (Unknown nobody) }
    ensures condition_first { Faults choice (WrongType T.Bool T.Int) }
    ensures number_less_day { Faults (less one) (WrongType T.Int T.Day) }
    ensures day_less_day { AreMet agents (demands_of [] (less some_day)) }
{}

/// A binder that is in use is reported before the condition, the number of arguments before their types, the left
/// argument before the right, and a template that nothing has before its arguments.
pub fn contracts()
    ensures binder_first { ContractFaults transmission (Twice ann) }
    ensures count_first { ContractFaults too_few (WrongCount pay 2 1) }
    ensures left_argument { ContractFaults exchanged (WrongType T.Int T.Bool) }
    ensures template_first { ContractFaults of_nobody (Unknown nobody) }
{}
