//! What takes an event out of a table.
ghost use Rattle.std.specs.Prelude.{◌≡◌, ◌<◌, length, Some, slice_get};
ghost use Rattle.poets_table.specs.Pieces.{joined, starts_of};

use crate::events::Events;
use std::marker::Model;

/// What takes an event out of a row and out of the log. Contracts see the row's number, the places of the event, and
/// the row's events without it, with the places where their pieces begin.
#[derive(Drop)]
pub struct Cut {
    pub(crate) number: u64,
    pub(crate) place: u64,
    pub(crate) log_place: u64,
    pub(crate) rest: Events,
}

impl Model for Cut {
    ghost use Rattle.poets_table.specs.Pieces.{joined, starts_of};
    ghost use Rattle.poets_table.specs.TableView.{CutView};

    ghost Value = { CutView };

    ghost view = { λ c. record {
      number = c.number;
      place = c.place;
      log_place = c.log_place;
      events = joined c.rest.pieces;
      starts = starts_of c.rest.pieces;
    } };
}

impl Cut {
    /// The place in the log of the event, from 0.
    pub fn log_place(&self) -> u64
        ensures { result ≡ self.now.log_place }
    {
        self.log_place
    }

    /// The row's events without the event.
    pub fn events(&self) -> &Events
        ensures events { joined result.now.pieces ≡ self.now.events }
        ensures starts { starts_of result.now.pieces ≡ self.now.starts }
    {
        &self.rest
    }

    /// The number of pieces that the row has once the event is out.
    pub fn pieces(&self) -> usize
        ensures { result ≡ length self.now.starts }
    {
        self.rest.piece_count()
    }

    /// The number of events ahead of the piece, from 0, in the row without the event. Up to the piece that has the
    /// event, each piece begins where it begins in the row as it is.
    pub fn start(&self, piece: usize) -> u64
        requires { piece < length self.now.starts }
        ensures { slice_get self.now.starts piece ≡ Some result }
    {
        self.rest.start(piece)
    }
}
