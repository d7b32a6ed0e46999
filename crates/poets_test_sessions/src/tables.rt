//! The tables, each by its theme.

use crate::books::{BOOKS, HEAD};
use crate::ends::ENDS;
use crate::journals::REPLAYED;
use crate::portfolios::SUMMED;
use crate::refusals::{NO_BOOKS, NO_JOURNALS, NO_SESSIONS};
use crate::sessions::PERFORMED;
use crate::table::{Call, each_row};
use crate::tallies::TALLIED;
use crate::templates::CALLED;
use crate::texts::RUN;
use crate::watches::WATCHED;
use crate::withdrawals::WITHDRAWN;
use std::test::Fail;

/// Sessions with ann and bob, Oil and USD.
pub(crate) const STEPS: Call = Call {
    word: "run",
    head: HEAD,
    status: 0,
};

const RUNS: Call = Call {
    word: "run",
    head: "",
    status: 0,
};

#[test]
fn contracts_go_step_by_step(rt: HostRuntime) -> Result<(), Fail> {
    each_row(&rt, rt.alloc(), &STEPS, &ENDS)?;
    each_row(&rt, rt.alloc(), &STEPS, &PERFORMED)?;
    each_row(&rt, rt.alloc(), &STEPS, &CALLED)
}

#[test]
fn reports_go_step_by_step(rt: HostRuntime) -> Result<(), Fail> {
    each_row(&rt, rt.alloc(), &STEPS, &TALLIED)?;
    each_row(&rt, rt.alloc(), &STEPS, &WATCHED)?;
    each_row(&rt, rt.alloc(), &STEPS, &SUMMED)
}

#[test]
fn withdrawals_go_step_by_step(rt: HostRuntime) -> Result<(), Fail> {
    each_row(&rt, rt.alloc(), &STEPS, &WITHDRAWN)
}

const CHECKS: Call = Call {
    word: "check",
    ..RUNS
};

const REPLAYS: Call = Call {
    word: "replay",
    ..RUNS
};

#[test]
fn texts_are_answered(rt: HostRuntime) -> Result<(), Fail> {
    each_row(&rt, rt.alloc(), &RUNS, &RUN)?;
    each_row(&rt, rt.alloc(), &CHECKS, &BOOKS)?;
    each_row(&rt, rt.alloc(), &REPLAYS, &REPLAYED)
}

const REFUSES: u8 = 1;

const RUNS_NOT: Call = Call {
    status: REFUSES,
    ..RUNS
};

const CHECKS_NOT: Call = Call {
    status: REFUSES,
    ..CHECKS
};

const REPLAYS_NOT: Call = Call {
    status: REFUSES,
    ..REPLAYS
};

#[test]
fn texts_are_refused_with_their_first_fault(rt: HostRuntime) -> Result<(), Fail> {
    each_row(&rt, rt.alloc(), &RUNS_NOT, &NO_SESSIONS)?;
    each_row(&rt, rt.alloc(), &CHECKS_NOT, &NO_BOOKS)?;
    each_row(&rt, rt.alloc(), &REPLAYS_NOT, &NO_JOURNALS)
}
