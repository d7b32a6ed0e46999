//! What clerks say of themselves and tell each other.
ghost use Rattle.std.specs.Prelude.{◌≡◌, ◌<◌, length};
ghost use Rattle.poets_turn.specs.Clerks.{HasHeard, SawNoMore, front, calls, number, note_front, IsClerkOf, IsNoteOf};

use crate::rule::{ForNote, Settle, TakeNote};
use crate::types::{Clerk, ClerkOf, Note, NoteOf, Turn};
use poets_machine::Machine;

impl<M, C, F> ClerkOf<M, C, F> {
    /// The clerk's number.
    pub fn number(&self) -> u32
        ensures { result ≡ number self.now }
    {
        self.number
    }

    /// How many entries of the history it saw.
    pub fn front_length(&self) -> u64
        ensures { result ≡ length (front self.now) }
    {
        self.front_length
    }
}

impl<M: Machine> Turn<M> {
    /// A note of what the clerk saw, for another clerk of the turnstile to hear.
    pub fn note(&self, clerk: &mut Clerk<M>) -> Note<M>
        requires of { IsClerkOf M.frame self.now clerk.old }
        ensures of { IsClerkOf M.frame self.now clerk.new }
        ensures note { IsNoteOf M.frame self.now result × (note_front result ≡ front clerk.old) }
        ensures same { (number clerk.new ≡ number clerk.old) × SawNoMore clerk.old clerk.new }
    {
        let seat = self.table.shared.split_seat::<ForNote>(&mut clerk.seat);
        NoteOf {
            seat,
            front_length: clerk.front_length,
        }
    }

    /// Has the clerk hear a note: it then saw all that the note's writer had seen, too.
    pub fn hear(&self, clerk: &mut Clerk<M>, note: Note<M>)
        requires of { IsClerkOf M.frame self.now clerk.old }
        requires note { IsNoteOf M.frame self.now note }
        ensures of { IsClerkOf M.frame self.now clerk.new }
        ensures seen { HasHeard note clerk.old clerk.new }
        ensures same { (number clerk.new ≡ number clerk.old) × (calls clerk.new ≡ calls clerk.old) }
    {
        let NoteOf { seat, front_length } = note;
        self.table
            .shared
            .join_seat::<TakeNote>(&mut clerk.seat, seat);
        self.table.shared.load::<Settle>(&mut clerk.seat, 1);
        if clerk.front_length < front_length {
            clerk.front_length = front_length;
        }
    }
}
