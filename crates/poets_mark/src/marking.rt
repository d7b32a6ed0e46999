//! A fault's line with a mark below it.
ghost use Rattle.std.specs.Prelude.{◌≡◌, ◌≤◌, ◌++◌, length, map, replicate, IfOk, IfSome, IfNone, OnOk, string_bytes};
ghost use Rattle.poets_value.specs.Limits.{longest_text};
ghost use Rattle.poets_mark.specs.Marking.{IsFaultSpot, IsSomeSession, NeedsNoMark, ShowsMark};
ghost use Rattle.poets_mark.specs.Lines.{text_line, mark_line};
ghost use Rattle.poets_mark.specs.Lines as spec;
ghost use Rattle.poets_mark.specs.Whys.{why_line};
ghost use Rattle.poets_value.specs.code.Texts.{Puts};
ghost use Rattle.poets_mark.specs.code.InLines.{LiesIn};

use crate::places::place_of;
use crate::spots::{Spot, spot_at};
use crate::why::{Mistake, why};
use poets_session::{Form, read};
use poets_value::{LONGEST_TEXT, Memory};
use std::alloc::Global;

// How much of a line is shown before its mark, and from there on.
const BEFORE: usize = 20;

const AFTER: usize = 80;

// Where the first fault of the text stands, as a session of the form, and the mistake that it comes from, if it is one
// of the commonest. None where the text is a session.
fn fault_spot(
    alloc: Global,
    text: &[u8],
    form: Form,
) -> Result<Option<(Spot, Option<Mistake>)>, Memory>
    requires { length text.now ≤ longest_text }
    ensures fault { IfOk result (λ found. IfSome found (λ f. IsFaultSpot text.now form f.0)) }
    ensures none { IfOk result (λ found. IfNone found (IsSomeSession text.now form)) }
{
    match read(alloc, text, form) {
        Ok(_) => Ok(None),
        Err(fault) => {
            let place = place_of(alloc, text, &fault.what)?;
            let mistake = why(alloc, text, form, &fault.what, place)?;
            Ok(Some((spot_at(text, place), mistake)))
        }
    }
}

// A byte as it is shown: a tab or CR as a space, and one that is no sign of ASCII that prints as `?`.
fn shown(byte: u8) -> char
    ensures { result ≡ spec.shown byte }
{
    match byte {
        b' '..=b'~' => byte as char,
        b'\t' | b'\r' => ' ',
        _ => '?',
    }
}

// Puts the bytes as they are shown.
fn add_shown(lines: &mut String, bytes: &[u8]) -> Result<(), Memory>
    ensures { OnOk result (Puts lines.old lines.new (map spec.shown bytes.now)) }
{
    for byte in bytes {
        lines.push(shown(*byte))?;
    }
    Ok(())
}

// Puts so many spaces.
fn add_spaces(lines: &mut String, count: usize) -> Result<(), Memory>
    ensures { OnOk result (Puts lines.old lines.new (replicate count 32)) }
{
    for _ in 0..count {
        lines.push(' ')?;
    }
    Ok(())
}

// Puts the part of the line around the place, and a mark below the place.
fn add_line(lines: &mut String, text: &[u8], spot: &Spot) -> Result<(), Memory>
    requires { LiesIn text.now spot.now }
    ensures { OnOk result (Puts lines.old lines.new (text_line text.now spot.now ++ mark_line spot.now)) }
{
    let from = spot.begin.max(spot.place.saturating_sub(BEFORE));
    let to = spot.end.min(spot.place.saturating_add(AFTER));
    add_shown(lines, &text[from..to])?;
    lines.push('\n')?;
    add_spaces(lines, spot.place - from)?;
    lines.push_str("^\n")?;
    Ok(())
}

// Puts the line that tells the mistake, if there is one.
fn add_why(lines: &mut String, mistake: Option<Mistake>) -> Result<(), Memory>
    ensures { OnOk result (Puts lines.old lines.new (why_line mistake)) }
{
    if let Some(mistake) = mistake {
        lines.push_str(mistake.text())?;
        lines.push('\n')?;
    }
    Ok(())
}

// The line that tells the place.
fn place_line(alloc: Global, spot: &Spot) -> Result<String, Memory>
    ensures { IfOk result (λ line. string_bytes line ≡ spec.place_line spot.now) }
{
    Ok(format!(in alloc; "line {}, column {}\n", spot.line, spot.column)?)
}

/// Where the first fault of the text stands, as a session of the form: its line and its column, counted from 1, the
/// part of the line around it, and a mark below its first byte; and one line more that says why, if it is one of the
/// commonest mistakes (`docs/LANGUAGE.md`, "Refused texts"). None where the text is a session, or is longer than one
/// may be.
pub fn mark_of(alloc: Global, text: &[u8], form: Form) -> Result<Option<String>, Memory>
    ensures none { IfOk result (λ found. IfNone found (NeedsNoMark text.now form)) }
    ensures some { IfOk result (λ found. IfSome found (ShowsMark text.now form)) }
{
    if text.len() > LONGEST_TEXT {
        return Ok(None);
    }
    let Some((spot, mistake)) = fault_spot(alloc, text, form)? else {
        return Ok(None);
    };
    let mut lines = place_line(alloc, &spot)?;
    add_line(&mut lines, text, &spot)?;
    add_why(&mut lines, mistake)?;
    Ok(Some(lines))
}
