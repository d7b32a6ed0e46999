//! Ways.
ghost use Rattle.std.specs.Prelude.{◌≡◌, map};
ghost use Rattle.poets_way.specs.Moves.{move_of, moves_of, way_in, AreMoves};

use poets_value::List;
use std::marker::Model;

/// The head of a way, without its parts.
#[derive(Debug, Drop)]
pub(crate) enum Move {
    /// Of `Success`: nothing is left to do.
    Nothing,
    /// Of an application: that of its template's body.
    Enter,
    /// Of a transmit, which takes the first event: that of its continuation.
    Take,
    /// Of a choice: that of its left part.
    Left,
    /// Of a choice: that of its right part.
    Right,
    /// Of two contracts side by side: whose each event is, `true` for the second one's, and those of both.
    Both(List<bool>),
    /// Of a sequence: how many events are the first part's, and those of both parts.
    Then(u64),
}

/// In which way a trace performs a contract. It is kept as a flat list, so that no way is too deep to be read.
#[derive(Debug, Drop)]
pub struct Way {
    // The head of the way, and then the moves of its parts in their order.
    moves: List<Move>,
}

impl Model for Way {
    ghost use Rattle.poets_way.specs.Way.{Way as Tree};
    ghost use Rattle.poets_way.specs.Coding.{coded_way};

    ghost Value = { Tree };

    ghost coded = { coded_way };

    ghost use Rattle.std.specs.Prelude.{map};
    ghost use Rattle.poets_way.specs.Moves.{move_of, way_in, AreMoves};

    ghost view = { λ w. way_in (map move_of w.moves.items) };

    ghost invariant = { λ w. AreMoves (map move_of w.moves.items) };
}

impl Way {
    /// The way with these moves.
    pub(crate) fn of(moves: List<Move>) -> Way
        requires { AreMoves (map move_of moves.items) }
        ensures { result ≡ way_in (map move_of moves.items) }
    {
        Way { moves }
    }

    /// The moves of the way.
    pub(crate) fn moves(&self) -> &[Move]
        ensures { map move_of result.now ≡ moves_of self.now }
    {
        self.moves.as_slice()
    }
}
