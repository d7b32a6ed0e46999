//! Files that are damaged, and files that only look so.

use crate::making::{bytes, disk};
use poets_journal::{Journal, StartFault};
use poets_value::Memory;
use std::alloc::Global;
use std::test::Fail;

// How many texts a journal on a disk with this file holds, or the number of its first damaged record.
fn texts_in(alloc: Global, file: &[u8]) -> Result<Result<usize, u64>, Memory> {
    match Journal::start(alloc, disk(alloc, bytes(alloc, file)?, &[])?) {
        Ok(started) => Ok(Ok(started.texts.len())),
        Err(StartFault::Damaged { disk: _, number }) => Ok(Err(number)),
        Err(_) => Err(Memory),
    }
}

// Each file has the number of its first damaged record.
#[test]
fn a_record_that_is_cut_short_is_damaged(rt: HostRuntime) -> Result<(), Fail> {
    let cases: [(&[u8], u64); 6] = [
        (&[1, 0, 0, 0, 5], 1),
        (&[1, 0], 1),
        (&[1, 0, 0, 0, 0], 1),
        (&[1, 0, 0, 0, 1, 7], 1),
        (&[1, 0, 0, 0, 1, 7, 1], 2),
        (&[1, 0, 0, 0, 0, 1, 0, 0, 0, 1, 7], 2),
    ];
    for (file, wanted) in cases {
        assert_eq!(rt; texts_in(rt.alloc(), file)?, Err(wanted));
    }
    Ok(())
}

// Each file holds so many texts.
#[test]
fn what_stands_behind_a_closed_gate_is_no_damage(rt: HostRuntime) -> Result<(), Fail> {
    let cases: [(&[u8], usize); 6] = [
        (&[], 0),
        (&[1], 0),
        (&[7, 1], 0),
        (&[1, 0, 0, 0, 1, 7, 0], 1),
        (&[1, 0, 0, 0, 1, 7, 9, 1, 0], 1),
        (&[1, 0, 0, 0, 0, 1, 0, 0, 0, 1, 7, 0], 2),
    ];
    for (file, wanted) in cases {
        assert_eq!(rt; texts_in(rt.alloc(), file)?, Ok(wanted));
    }
    Ok(())
}
