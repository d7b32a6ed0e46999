//! A line of progress.

use poets_clerks::Gate;
use std::io::Eprint;
use std::sync::atomic::{AtomicBool, AtomicU64, Ordering};
use std::time::{Clock, Instant};

// The milliseconds from one line to the next.
const PERIOD: u64 = 1_000;

// Blanks over the line, which counts at most the 65,536 commands of a session.
const WIPE: &str = "\r                                \r";

/// Counts the commands that are answered, and shows the count on standard error: first when a second has passed since
/// the first answer, and from then on each second, in one line.
#[derive(Drop)]
pub(crate) struct Progress<R> {
    rt: R,
    // When it was made. There is none where nothing is to be shown.
    start: Option<Instant>,
    answered: AtomicU64,
    // The milliseconds from the start to the next line, and 0 before the first answer.
    due: AtomicU64,
    is_shown: AtomicBool,
}

impl<R: Clock + Eprint> Progress<R> {
    // Nothing is answered. Nothing is ever shown where no line is wanted, or where the clock cannot be read.
    pub(crate) fn new(rt: R, is_wanted: bool) -> Progress<R> {
        let start = if is_wanted {
            Instant::now(&rt).ok()
        } else {
            None
        };
        Progress {
            rt,
            start,
            answered: AtomicU64::new(0),
            due: AtomicU64::new(0),
            is_shown: AtomicBool::new(false),
        }
    }

    // Wipes the line that is shown.
    pub(crate) fn clear(&self) {
        if self.is_shown.swap(false, Ordering::SeqCst) {
            let _ = eprint!(self.rt; "{WIPE}");
        }
    }

    // Counts a command, and shows the count where its line is due.
    fn count(&self, start: Instant) {
        let before = self.answered.fetch_add(1, Ordering::SeqCst);
        let Ok(elapsed) = start.elapsed(&self.rt) else {
            return;
        };
        let now = u64::try_from(elapsed.as_millis()).unwrap_or(u64::MAX);
        if self.is_due(now) {
            self.is_shown.store(true, Ordering::SeqCst);
            let _ = eprint!(self.rt; "\rpoets: commands answered: {}", before.saturating_add(1));
        }
    }

    // Whether a line is due so many milliseconds after the start. The next one is due a period later.
    fn is_due(&self, now: u64) -> bool {
        let due = self.due.load(Ordering::SeqCst);
        let next = now.saturating_add(PERIOD);
        now >= due
            && self
                .due
                .compare_exchange(due, next, Ordering::SeqCst, Ordering::SeqCst)
                .is_ok()
            && due > 0
    }
}

impl<R: Clock + Eprint> Gate for Progress<R> {
    fn before(&self, clerk: u32, call: u64) {}

    fn outside(&self, clerk: u32, call: u64) {}

    fn after(&self, clerk: u32, call: u64) {
        if let Some(start) = self.start {
            self.count(start);
        }
    }
}
