//! The turnstile, its clerks and their notes.
ghost use Rattle.std.specs.Prelude.{◌≡◌, ◌<◌, [], length};
ghost use Rattle.poets_turn.specs.declared.view.Stage.TheVariants.{Idle};

use crate::bells::Bells;
use crate::rule::{Start, Turnstile};
use crate::view::View;
use atomic_table::{Seat, Table};
use poets_machine::Machine;
use std::alloc::Global;

/// A machine that clerks call in turn.
#[derive(Drop)]
pub struct Turn<M: Machine> {
    pub(crate) table: Table<Option<M>, View<M::Call, M::Frame>, Start<M>, Turnstile, Global>,
    pub(crate) bells: Bells,
    pub(crate) ghost sized: { (table.shared.table_id.words ≡ 2) × (table.shared.table_id.slots ≡ 1) },
    pub(crate) ghost some_clerk: { 0 < table.shared.key.clerks },
}

/// One who makes calls, with what it saw of the history.
#[derive(Drop)]
pub struct ClerkOf<M, C, F> {
    pub(crate) seat: Seat<Option<M>, View<C, F>>,
    pub(crate) number: u32,
    pub(crate) front_length: u64,
    pub(crate) ghost numbered: { (seat.me.0.number ≡ number) × (0 < number) },
    pub(crate) ghost idle: { (seat.me.0.stage ≡ Idle) × (seat.me.1 ≡ []) × (seat.me.0.heard ≡ []) },
    pub(crate) ghost long: { front_length ≡ length seat.me.0.front },
}

/// A copy of what a clerk saw.
#[derive(Drop)]
pub struct NoteOf<M, C, F> {
    pub(crate) seat: Seat<Option<M>, View<C, F>>,
    pub(crate) front_length: u64,
    pub(crate) ghost blank: { (seat.me.0.number ≡ 0) × (seat.me.1 ≡ []) × (seat.me.0.heard ≡ []) },
    pub(crate) ghost long: { front_length ≡ length seat.me.0.front },
}

/// A clerk at a turnstile of the machine.
pub type Clerk<M> = ClerkOf<M, <M as Machine>::Call, <M as Machine>::Frame>;

/// A note of such a clerk.
pub type Note<M> = NoteOf<M, <M as Machine>::Call, <M as Machine>::Frame>;

pub(crate) type Place<M> = Seat<Option<M>, View<<M as Machine>::Call, <M as Machine>::Frame>>;
