//! What a machine is.
ghost use Rattle.std.specs.Prelude.{◌≡◌, ℕ, List, IfOk};
ghost use Rattle.std.specs.Thread.{IsSync};
ghost use Rattle.std.specs.Arc.{arc_value};
ghost use Rattle.poets_machine.specs.Turns.{HadTurn, IsPlaceOf, IsReplyTo};

use poets_value::Memory;
use std::alloc::Global;
use std::sync::Arc;
use std::thread::Threads;

/// Something that takes calls one at a time. A reply is worked out in two parts: `turn` while the machine is held, and
/// `finish` once others may have it.
///
/// To contracts a machine has a history, which is the list of the calls that it took, each with the number of its
/// clerk, and a frame, which no turn changes.
pub trait Machine: Drop {
    type Call;

    type Reply: Drop;

    /// What a turn leaves to be finished.
    type Kept: Drop;

    /// The type of what no turn changes. No value of it is made.
    type Frame;

    /// The calls that the machine took, each with its clerk's number.
    ghost history: { Self → List (ℕ × Self.Call) };

    /// What no turn changes of the machine.
    ghost frame: { Self → Self.Frame };

    /// Machines of this frame take this call.
    ghost takes: { Self.Frame → Self.Call → Type 0 };

    /// After these calls, the clerk's call has this reply.
    ghost answers: { Self.Frame → List (ℕ × Self.Call) → ℕ → Self.Call → Self.Reply → Type 0 };

    /// After these calls, this is kept of the clerk's call.
    ghost owes: { Self.Frame → List (ℕ × Self.Call) → ℕ → Self.Call → Self.Kept → Type 0 };

    /// Takes a call of the clerk: the history has it at the end, and what is kept is owed after the calls before it. If
    /// it is out of memory, the history is as before.
    fn turn<R: Threads + Sync>(
        &mut self,
        rt: &R,
        alloc: Global,
        clerk: u32,
        call: &Arc<Self::Call>,
    ) -> Result<Self::Kept, Memory>
        requires sync { IsSync R.row }
        requires takes { takes (frame self.old) (arc_value call.now) }
        ensures frame { frame self.new ≡ frame self.old }
        ensures turn { HadTurn history frame owes clerk call.now result self.old self.new };

    /// How many calls came before this one.
    fn place(kept: &Self::Kept) -> u64
        ensures { IsPlaceOf owes kept.now result };

    /// The reply to the call, whatever the machine did since.
    fn finish<R: Threads + Sync>(
        rt: &R,
        alloc: Global,
        kept: Self::Kept,
    ) -> Result<Self::Reply, Memory>
        requires sync { IsSync R.row }
        ensures { IfOk result (λ reply. IsReplyTo owes answers kept reply) };
}
