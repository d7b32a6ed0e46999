//! Lists of events in pieces, of which all but the last are shared.
ghost use Rattle.std.specs.Prelude.{◌≡◌, ◌-◌, ◌<◌, ◌≤◌, ◌^◌, ◌↔◌, ◌++◌, ◌∷◌, [], length, IfOk, OnOk, OnErr, IfSome, IsNone, Some, None, false, slice_get};
ghost use Rattle.std.specs.List.{last_or};
ghost use Rattle.poets_table.specs.Pieces.{AreShort, IsPieceOf, joined, pieces_of, starts_of};
ghost use Rattle.poets_table.specs.Pieces as spec;
ghost use Rattle.poets_table.specs.code.Rows.{IsPlaceIn, IsWithout};

use poets_value::{Event, List, Memory, push};
use std::alloc::Global;
use std::marker::Model;
use std::mem;
use std::sync::Arc;

/// How many events a piece has at most.
pub const PIECE_LENGTH: usize = 256;

// More pieces than this have no room in any memory.
const MOST_PIECES: usize = usize::MAX / PIECE_LENGTH / 4;

/// A list of events. It is kept in pieces of at most `PIECE_LENGTH` events, of which all but the last are sealed and
/// may be shared. Contracts see the pieces; joined in order they are the list.
#[derive(Drop)]
pub struct Events {
    sealed: Vec<Arc<List<Event>>>,
    // How many events the sealed pieces have.
    ahead: usize,
    last: List<Event>,
}

impl Model for Events {
    ghost use Rattle.poets_table.specs.Pieces.{AreKept, EventsView, events_view, pieces_of};

    ghost Value = { EventsView };

    ghost view = { λ e. events_view e.sealed.items e.last };

    ghost invariant = { λ e. AreKept (pieces_of e.sealed.items) e.ahead e.last.items };
}

impl Events {
    /// The empty list.
    pub(crate) fn new(alloc: Global) -> Events
        ensures { result.pieces ≡ [] ∷ [] }
    {
        Events {
            sealed: Vec::new(alloc),
            ahead: 0,
            last: List::new(alloc),
        }
    }

    /// The number of events.
    pub fn len(&self) -> usize
        ensures count { result ≡ length (joined self.now.pieces) }
        ensures small { result < 2 ^ 63 }
    {
        let _count = self.sealed.len();
        self.ahead + self.last.len()
    }

    /// The last event, if there is one.
    pub fn last(&self) -> Option<Event>
        ensures { result ≡ slice_get (joined self.now.pieces) (length (joined self.now.pieces) - 1) }
    {
        match self.last.as_slice().last() {
            Some(event) => Some(*event),
            None => last_in(self.sealed.as_slice()),
        }
    }

    /// The number of pieces.
    pub fn piece_count(&self) -> usize
        ensures count { result ≡ length self.now.pieces }
    {
        self.sealed.len() + 1
    }

    /// The piece at a place, if there is one. The pieces, joined in order, are the list.
    pub fn piece(&self, place: usize) -> Option<&[Event]>
        ensures found { IfSome result (λ piece. slice_get self.now.pieces place ≡ Some piece.now) }
        ensures none { IsNone result ↔ (length self.now.pieces ≤ place) }
    {
        if let Some(piece) = self.sealed.get(place) {
            return Some(piece.as_slice());
        }
        if place == self.sealed.len() {
            return Some(self.last.as_slice());
        }
        None
    }

    /// The number of events ahead of the piece at a place.
    pub fn start(&self, place: usize) -> u64
        requires { place < length self.now.pieces }
        ensures { slice_get (starts_of self.now.pieces) place ≡ Some result }
    {
        count_in(&self.sealed[..place]) as u64
    }

    /// The number of the piece that has the event at a place.
    pub fn piece_of(&self, place: usize) -> usize
        requires { place < length (joined self.now.pieces) }
        ensures { IsPieceOf place (starts_of self.now.pieces) result }
    {
        if place < self.ahead {
            return find(self.sealed.as_slice(), place).0;
        }
        self.sealed.len()
    }

    /// The same list, which shares the sealed pieces.
    pub(crate) fn share(&self) -> Result<Events, Memory>
        ensures { IfOk result (λ e. e.pieces ≡ self.now.pieces) }
    {
        let alloc = *self.sealed.allocator();
        Ok(Events {
            sealed: shared(alloc, self.sealed.as_slice())?,
            ahead: self.ahead,
            last: copied(alloc, self.last.as_slice())?,
        })
    }

    /// The list without the event at a place, which shares all pieces but the last one and that of the event.
    pub(crate) fn without(&self, place: usize) -> Result<Events, Memory>
        requires { place < length (joined self.now.pieces) }
        ensures { IfOk result (λ e. IsWithout place self.now.pieces e.pieces) }
    {
        let mut rest = self.share()?;
        rest.remove(place)?;
        Ok(rest)
    }

    // Takes the event at a place out of its piece.
    fn remove(&mut self, place: usize) -> Result<(), Memory>
        requires { place < length (joined self.old.pieces) }
        ensures { OnOk result (IsWithout place self.old.pieces self.new.pieces) }
    {
        if place < self.ahead {
            remove_sealed(&mut self.sealed, place)?;
            self.ahead -= 1;
            return Ok(());
        }
        let _event = self.last.remove(place - self.ahead);
        Ok(())
    }

    /// Whether the last piece is full.
    pub(crate) fn is_full(&self) -> bool
        ensures { result ≡ spec.is_full (joined self.now.pieces) (starts_of self.now.pieces) }
    {
        let _ahead = self.ahead;
        self.last.len() == PIECE_LENGTH
    }

    /// Makes room for an event in a last piece that is not full.
    pub(crate) fn make_room(&mut self) -> Result<(), Memory>
        requires { spec.is_full (joined self.old.pieces) (starts_of self.old.pieces) ≡ false }
        ensures pieces { self.new.pieces ≡ self.old.pieces }
        ensures ok { OnOk result (0 < self.new.room) }
    {
        self.last.reserve(1)
    }

    /// Seals the last piece and begins a new one, with room for an event.
    pub(crate) fn begin_piece(&mut self) -> Result<(), Memory>
        ensures pieces { OnOk result (self.new.pieces ≡ self.old.pieces ++ [] ∷ []) }
        ensures room { OnOk result (0 < self.new.room) }
        ensures err { OnErr result (self.new.pieces ≡ self.old.pieces) }
    {
        if self.sealed.len() == MOST_PIECES {
            return Err(Memory);
        }
        let ahead = self.ahead + self.last.len();
        let mut next = List::new(*self.sealed.allocator());
        next.reserve(1)?;
        seal(&mut self.sealed, &mut self.last, next)?;
        self.ahead = ahead;
        Ok(())
    }

    /// Adds an event that there is room for.
    pub(crate) fn add(&mut self, event: Event)
        requires { 0 < self.old.room }
        ensures events { joined self.new.pieces ≡ joined self.old.pieces ++ event ∷ [] }
        ensures starts { starts_of self.new.pieces ≡ starts_of self.old.pieces }
    {
        let Ok(()) = self.last.push(event) else {
            unreachable!();
        };
    }
}

// Seals a piece, in whose place the next one stands then.
fn seal(
    sealed: &mut Vec<Arc<List<Event>>>,
    last: &mut List<Event>,
    next: List<Event>,
) -> Result<(), Memory>
    ensures ok { OnOk result (pieces_of sealed.new.items ≡ pieces_of sealed.old.items ++ last.old.items ∷ []) }
    ensures next { OnOk result (last.new ≡ next) }
    ensures err { OnErr result (pieces_of sealed.new.items ≡ pieces_of sealed.old.items) }
    ensures same { OnErr result (last.new ≡ last.old) }
{
    let alloc = *sealed.allocator();
    let Ok(()) = sealed.reserve(1) else {
        return Err(Memory);
    };
    match Arc::new(alloc, mem::replace(last, next)) {
        Ok(piece) => {
            sealed.push_reserved(piece);
            Ok(())
        }
        Err(failed) => {
            *last = failed.value;
            Err(Memory)
        }
    }
}

// The last event of pieces, if there is one.
fn last_in(pieces: &[Arc<List<Event>>]) -> Option<Event>
    ensures { result ≡ last_or None (joined (pieces_of pieces.now)) }
{
    let mut last = None;
    for piece in pieces {
        last = later(last, piece.as_slice());
    }
    last
}

// The last of the events, and where there is none what was last before.
fn later(before: Option<Event>, events: &[Event]) -> Option<Event>
    ensures { result ≡ last_or before events.now }
{
    match events.last() {
        Some(event) => Some(*event),
        None => before,
    }
}

// How many events pieces have.
fn count_in(pieces: &[Arc<List<Event>>]) -> usize
    requires { AreShort (pieces_of pieces.now) }
    ensures { result ≡ length (joined (pieces_of pieces.now)) }
{
    let mut count = 0;
    for piece in pieces {
        count += piece.len();
    }
    count
}

// Takes the event at a place out of its piece, for which another piece stands then.
fn remove_sealed(sealed: &mut Vec<Arc<List<Event>>>, place: usize) -> Result<(), Memory>
    requires { place < length (joined (pieces_of sealed.old.items)) }
    ensures ok { OnOk result (IsWithout place (pieces_of sealed.old.items) (pieces_of sealed.new.items)) }
    ensures err { OnErr result (sealed.new.items ≡ sealed.old.items) }
{
    let alloc = *sealed.allocator();
    let (piece, inside) = find(sealed.as_slice(), place);
    let mut rest = copied(alloc, sealed[piece].as_slice())?;
    rest.remove(inside);
    let Ok(rest) = Arc::new(alloc, rest) else {
        return Err(Memory);
    };
    sealed[piece] = rest;
    Ok(())
}

// The piece in which the event at a place stands, and its place there.
fn find(pieces: &[Arc<List<Event>>], place: usize) -> (usize, usize)
    requires { place < length (joined (pieces_of pieces.now)) }
    ensures { IsPlaceIn (pieces_of pieces.now) place result.0 result.1 }
{
    let mut left = place;
    for (number, piece) in pieces.iter().enumerate() {
        if left < piece.len() {
            return (number, left);
        }
        left -= piece.len();
    }
    unreachable!();
}

// The same pieces, shared.
fn shared(alloc: Global, pieces: &[Arc<List<Event>>]) -> Result<Vec<Arc<List<Event>>>, Memory>
    ensures { IfOk result (λ v. pieces_of v.items ≡ pieces_of pieces.now) }
{
    let mut copies = Vec::with_capacity(alloc, pieces.len())?;
    for piece in pieces {
        let Ok(()) = copies.push(Arc::try_clone(piece)?) else {
            return Err(Memory);
        };
    }
    Ok(copies)
}

// The same events in a list of their own.
fn copied(alloc: Global, events: &[Event]) -> Result<List<Event>, Memory>
    ensures { IfOk result (λ l. l.items ≡ events.now) }
{
    let mut copies = List::new(alloc);
    copies.reserve(events.len())?;
    for event in events {
        push(&mut copies, *event)?;
    }
    Ok(copies)
}
