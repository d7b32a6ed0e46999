//! A machine that took calls before, and goes on.
ghost use Rattle.std.specs.Prelude.{◌≡◌, ◌≤◌, ◌++◌, [], length, take, drop};

use poets_machine::Machine;
use poets_value::{List, Memory};
use std::alloc::Global;
use std::marker::Model;
use std::sync::Arc;
use std::thread::Threads;

/// The frame of a machine that goes on: its own frame, and the calls that it took before. No value of it is made.
pub struct OnwardFrame<F, C> {
    inner: F,
    earlier: List<(u32, C)>,
}

impl<F, C> Model for OnwardFrame<F, C> {
    ghost use Rattle.poets_onward.specs.Frames.{OnwardFrameOf, onward_frame_code};

    ghost Value = { OnwardFrameOf F C };

    ghost coded = { onward_frame_code F.code C.code };

    ghost view = { λ f. record { inner = f.inner; earlier = f.earlier.items } };
}

/// A machine that took calls before and goes on: its history begins after them, and its replies take them into account.
#[derive(Drop)]
pub struct Onward<M: Machine> {
    machine: M,
    earlier: u64,
    ghost within: { earlier ≤ length (M.history machine) },
}

/// What a turn of a machine that goes on keeps: what the machine keeps, and how many calls it took before.
#[derive(Drop)]
pub struct OnwardKept<K> {
    kept: K,
    earlier: u64,
}

impl<M: Machine> Onward<M> {
    /// The machine, which took so many calls, goes on. It takes no memory.
    pub fn new(machine: M, earlier: u64) -> Onward<M>
        requires earlier { length (M.history machine) ≡ earlier }
        ensures machine { result.machine ≡ machine }
        ensures history { ⟦<Onward<M> as Machine>⟧.history result ≡ [] }
        ensures frame { ⟦<Onward<M> as Machine>⟧.frame result
            ≡ record { inner = M.frame machine; earlier = M.history machine } }
    {
        Onward { machine, earlier }
    }

    /// Gives back the machine, which took the earlier calls and then those of this one. It takes no memory.
    pub fn end(self) -> M
        ensures machine { result ≡ self.machine }
        ensures history { M.history result
            ≡ (⟦<Onward<M> as Machine>⟧.frame self).earlier ++ ⟦<Onward<M> as Machine>⟧.history self }
        ensures frame { M.frame result ≡ (⟦<Onward<M> as Machine>⟧.frame self).inner }
    {
        self.machine
    }
}

impl<M: Machine> Machine for Onward<M> {
    type Call = M::Call;

    type Reply = M::Reply;

    type Kept = OnwardKept<M::Kept>;

    type Frame = OnwardFrame<M::Frame, M::Call>;

    ghost history = { λ o. drop o.earlier (M.history o.machine) };

    ghost frame = { λ o. record { inner = M.frame o.machine; earlier = take o.earlier (M.history o.machine) } };

    ghost takes = { λ frame call. M.takes frame.inner call };

    ghost answers = { λ frame before clerk call reply.
        M.answers frame.inner (frame.earlier ++ before) clerk call reply };

    ghost owes = { λ frame before clerk call kept.
        M.owes frame.inner (frame.earlier ++ before) clerk call kept.kept × (kept.earlier ≡ length frame.earlier) };

    fn turn<R: Threads + Sync>(
        &mut self,
        rt: &R,
        alloc: Global,
        clerk: u32,
        call: &Arc<M::Call>,
    ) -> Result<OnwardKept<M::Kept>, Memory> {
        let kept = self.machine.turn(rt, alloc, clerk, call)?;
        Ok(OnwardKept {
            kept,
            earlier: self.earlier,
        })
    }

    fn place(kept: &OnwardKept<M::Kept>) -> u64 {
        M::place(&kept.kept).saturating_sub(kept.earlier)
    }

    fn finish<R: Threads + Sync>(
        rt: &R,
        alloc: Global,
        kept: OnwardKept<M::Kept>,
    ) -> Result<M::Reply, Memory> {
        M::finish(rt, alloc, kept.kept)
    }
}
