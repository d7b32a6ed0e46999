//! The engine as a machine that clerks share.
ghost use Rattle.poets_command.specs.Calls.{command_of, reply_of};
ghost use Rattle.poets_command.specs.Taken.{IsTaken};
ghost use Rattle.poets_rules.specs.Rules.{book_of_rules, reports_of_rules};
ghost use Rattle.poets_history.specs.Histories.{AnswersIn};
ghost use Rattle.poets_engine.specs.State.{Owes, plain_calls};

use crate::engine::Engine;
use crate::kept::Kept;
use poets_command::{Command, Reply};
use poets_expr::Asks;
use poets_machine::Machine;
use poets_rules::Rules;
use poets_value::Memory;
use std::alloc::Global;
use std::sync::Arc;
use std::thread::Threads;

impl Machine for Engine {
    type Call = Command;

    type Reply = Reply;

    type Kept = Kept;
    /// The book and its reports.
    type Frame = Rules;

    ghost history = { λ e. e.calls };

    ghost frame = { λ e. e.rules };

    ghost takes = { λ rules command. IsTaken (book_of_rules rules) (reports_of_rules rules) (command_of command) };

    ghost answers = { λ rules before clerk command reply. AnswersIn (book_of_rules rules) (reports_of_rules rules)
        (plain_calls before) (command_of command) (reply_of reply) };

    ghost owes = { λ rules before clerk command kept. Owes (book_of_rules rules) (reports_of_rules rules)
        (plain_calls before) (command_of command) kept };

    /// Makes the call, as `Engine::apply` does, with a counter of its own.
    fn turn<R: Threads + Sync>(
        &mut self,
        rt: &R,
        alloc: Global,
        clerk: u32,
        call: &Arc<Command>,
    ) -> Result<Kept, Memory> {
        self.apply(rt, alloc, clerk, call, &mut Asks::new(()))
    }

    fn place(kept: &Kept) -> u64 {
        kept.place
    }

    fn finish<R: Threads + Sync>(rt: &R, alloc: Global, kept: Kept) -> Result<Reply, Memory> {
        Engine::finish(rt, alloc, kept)
    }
}
