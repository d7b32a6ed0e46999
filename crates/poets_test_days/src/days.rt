//! Days, one after the other.

use crate::program::{file_of, leaves, stays};
use crate::week::{
    ALL, FIRST, HEAD, MONDAY, THIRD, TUESDAY, WEDNESDAY, all_lines, first_file, second_lines,
};
use std::test::Fail;

// Numbers go on from day to day, and the lines of the days are those of one recovery.
#[test]
fn days_make_one_history(rt: HostRuntime) -> Result<(), Fail> {
    let alloc = rt.alloc();
    let first = leaves(&rt, alloc, ("keep", MONDAY), &[], (0, 2, 2, FIRST))?;
    assert_eq!(rt; first.as_slice(), first_file(alloc)?.as_slice());
    let lines = second_lines(alloc, 3)?;
    let wanted = (0, 3, 3, lines.as_str());
    let second = leaves(&rt, alloc, ("resume", TUESDAY), first.as_slice(), wanted)?;
    let wanted = (0, 2, 2, THIRD);
    let third = leaves(&rt, alloc, ("resume", WEDNESDAY), second.as_slice(), wanted)?;
    let lines = all_lines(alloc)?;
    let wanted = (0, 7, 7, lines.as_str());
    stays(&rt, alloc, ("recover", HEAD), third.as_slice(), wanted)
}

// They are also those of one replay of all calls, which touches no file.
#[test]
fn one_replay_prints_the_days(rt: HostRuntime) -> Result<(), Fail> {
    let alloc = rt.alloc();
    let lines = all_lines(alloc)?;
    stays(&rt, alloc, ("replay", ALL), &[], (0, 7, 0, lines.as_str()))
}

// A file of at most one byte, or with a closed gate, holds no call: `resume` begins it as `keep` does.
#[test]
fn a_journal_without_calls_is_begun(rt: HostRuntime) -> Result<(), Fail> {
    let alloc = rt.alloc();
    let wanted = first_file(alloc)?;
    let files: [&[u8]; 5] = [&[], &[0], &[1], &[7], &[0, 1, 0, 0, 0, 5]];
    for file in files {
        let begun = leaves(&rt, alloc, ("resume", MONDAY), file, (0, 2, 2, FIRST))?;
        assert_eq!(rt; begun.as_slice(), wanted.as_slice());
    }
    Ok(())
}

// What a clerk asked for yesterday is not asked for today, and what he asks for again is asked for once more.
#[test]
fn yesterdays_commands_are_not_todays(rt: HostRuntime) -> Result<(), Fail> {
    let alloc = rt.alloc();
    let file = first_file(alloc)?;
    let lines = "3 1: register a = Success => name taken by 1
4 1: show a => events 0, may end yes, ended no, residual Success
";
    leaves(
        &rt,
        alloc,
        ("resume", MONDAY),
        file.as_slice(),
        (0, 2, 2, lines),
    )?;
    Ok(())
}

// A session of no clerk adds no call, and the file stays.
#[test]
fn a_day_without_clerks_adds_nothing(rt: HostRuntime) -> Result<(), Fail> {
    let alloc = rt.alloc();
    let file = first_file(alloc)?;
    stays(&rt, alloc, ("resume", HEAD), file.as_slice(), (0, 0, 0, ""))
}

// Yesterday's clerks may be others than today's.
#[test]
fn a_journal_names_any_clerk(rt: HostRuntime) -> Result<(), Fail> {
    let alloc = rt.alloc();
    let file = file_of(alloc, &["64: register a = Success", "9: show a"])?;
    let lines = "3 1: end a => ended now
4 1: end b => no contract b
";
    leaves(
        &rt,
        alloc,
        ("resume", WEDNESDAY),
        file.as_slice(),
        (0, 2, 2, lines),
    )?;
    Ok(())
}
