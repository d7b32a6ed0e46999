//! Lines and columns.
ghost use Rattle.std.specs.Prelude.{◌≡◌, ◌≤◌, length, take, count_by};
ghost use Rattle.memchr.specs.Find.{is_byte};
ghost use Rattle.poets_mark.specs.Spots.{IsLineBegin, IsLineEnd, IsSpot};

use memchr::{memchr, memchr_iter, memrchr};

/// Where a byte stands: its place, its line and its column, counted from 1, and the places where the line begins and
/// ends.
#[derive(Debug, Clone, Copy, PartialEq, Eq)]
pub(crate) struct Spot {
    pub(crate) place: usize,
    pub(crate) line: usize,
    pub(crate) column: usize,
    pub(crate) begin: usize,
    pub(crate) end: usize,
}

// Where the line of the place begins.
fn line_begin(text: &[u8], place: usize) -> usize
    requires { place ≤ length text.now }
    ensures { IsLineBegin text.now place result }
{
    match memrchr(b'\n', &text[..place]) {
        Some(last) => last + 1,
        None => 0,
    }
}

// Where the line of the place ends: at its LF, or at the end of the text.
fn line_end(text: &[u8], place: usize) -> usize
    requires { place ≤ length text.now }
    ensures { IsLineEnd text.now place result }
{
    match memchr(b'\n', &text[place..]) {
        Some(next) => place + next,
        None => text.len(),
    }
}

// The number of line ends before the place.
fn lines_before(text: &[u8], place: usize) -> usize
    requires { place ≤ length text.now }
    ensures count { result ≡ count_by (is_byte 10) (take place text.now) }
    ensures few { result ≤ place }
{
    memchr_iter(b'\n', &text[..place]).count()
}

/// Where the byte at the place stands. The end of the text has a place, too.
pub(crate) fn spot_at(text: &[u8], place: usize) -> Spot
    requires { place ≤ length text.now }
    ensures place { result.place ≡ place }
    ensures spot { IsSpot text.now result }
{
    let begin = line_begin(text, place);
    Spot {
        place,
        line: lines_before(text, place) + 1,
        column: place - begin + 1,
        begin,
        end: line_end(text, place),
    }
}
