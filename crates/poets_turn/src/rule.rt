//! The rule of the turnstile's table, what each step on it tells, and how seats are cut in two and joined.
ghost use Rattle.poets_turn.specs.code.Steps.{AfterDraw, AfterLook, AfterEntry, AfterPass, AfterSettling, note_view, one_more, next_clerk, with_note, with_clerk, empty_view};

use crate::view::View;
use atomic_table::{Join, Play, Split, TableRule};
use poets_machine::Machine;
use std::snapshot::Snapshot;

/// What a turnstile is made with.
#[derive(Drop)]
pub struct Start<M> {
    pub machine: Snapshot<M>,
    pub clerks: u32,
}

pub struct Turnstile;

impl<M: Machine> TableRule<Option<M>, View<M::Call, M::Frame>, Start<M>> for Turnstile {
    ghost use Rattle.poets_turn.specs.code.Turnstile.{Rule};
    ghost use Rattle.poets_turn.specs.code.Steps.{first_view};

    ghost holds = { λ start. Rule M.history M.frame (M.frame start.machine.value) start.clerks };

    ghost first = { λ start. first_view (M.frame start.machine.value) start.clerks };
}

/// A ticket is drawn.
pub(crate) struct Draw;

impl<M: Machine> Play<Option<M>, View<M::Call, M::Frame>> for Draw {
    ghost then = { AfterDraw };
}

/// The ticket that is served is looked at. Where it is the seat's own, the seat takes the machine.
pub(crate) struct Look;

impl<M: Machine> Play<Option<M>, View<M::Call, M::Frame>> for Look {
    ghost then = { AfterLook M.history M.frame };
}

/// The machine is given back with one entry more, and the turn handed on.
pub(crate) struct Enter;

impl<M: Machine> Play<Option<M>, View<M::Call, M::Frame>> for Enter {
    ghost then = { AfterEntry M.history };
}

/// The machine is given back as it was, and the turn handed on.
pub(crate) struct Pass;

impl<M: Machine> Play<Option<M>, View<M::Call, M::Frame>> for Pass {
    ghost then = { AfterPass };
}

/// What was heard is taken for seen.
pub(crate) struct Settle;

impl<M: Machine> Play<Option<M>, View<M::Call, M::Frame>> for Settle {
    ghost then = { AfterSettling };
}

/// A note is cut from a clerk's seat.
pub(crate) struct ForNote;

impl<C, F> Split<View<C, F>> for ForNote {
    ghost left = { λ v. v };

    ghost right = { note_view };
}

/// The seat of the next clerk is cut from that of the first.
pub(crate) struct ForClerk;

impl<C, F> Split<View<C, F>> for ForClerk {
    ghost left = { one_more };

    ghost right = { next_clerk };
}

/// A clerk's seat takes in a note.
pub(crate) struct TakeNote;

impl<C, F> Join<View<C, F>> for TakeNote {
    ghost both = { with_note };

    ghost spent = { empty_view };
}

/// A clerk's seat takes in another clerk.
pub(crate) struct TakeClerk;

impl<C, F> Join<View<C, F>> for TakeClerk {
    ghost both = { with_clerk };

    ghost spent = { empty_view };
}
