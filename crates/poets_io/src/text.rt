//! A source and a sink in memory that fail by plan.
ghost use Rattle.std.specs.Prelude.{◌≡◌, Some, ◌<◌, ◌≤◌, ◌↔◌, [], ◌++◌, length, take, drop, IfOk, OnOk, OnErr, IsErr};
ghost use Rattle.std.specs.Io.{ReadsAtMost, WritesAtMost};
ghost use Rattle.std.specs.Io.KnownBytes.{ReadConsumes, WriteAppends};
ghost use Rattle.poets_io.specs.Causes.{HasCause};
ghost use Rattle.poets_io.specs.States.{NextFails, WriteFails, new_plan, read_size, after_read, after_failed_read, after_write, after_failed_write};

use crate::bytes::Bytes;
use crate::plan::Plan;
use crate::{Failed, Sink, Source};
use poets_value::{LONGEST_TEXT, List, Memory};
use std::alloc::Global;
use std::marker::Model;

/// A source that gives a text by steps, and fails at the calls named.
#[derive(Drop)]
pub struct TextSource {
    left: Bytes,
    step: usize,
    plan: Plan,
}

impl Model for TextSource {
    ghost use Rattle.std.specs.Prelude.{◌≤◌};
    ghost use Rattle.poets_io.specs.States.{TextLeft};

    ghost Value = { TextLeft };

    ghost view = { λ s. record { left = s.left; step = s.step; plan = s.plan } };

    ghost invariant = { λ s. 1 ≤ s.step };
}

impl TextSource {
    /// Gives these bytes, at most `step` of them at a read. The calls that fail are counted from 1.
    /// It takes no memory.
    pub fn new(_alloc: Global, bytes: List<u8>, step: usize, fails: List<u64>) -> TextSource
        requires { 1 ≤ step }
        ensures left { result.left ≡ bytes.items }
        ensures step { result.step ≡ step }
        ensures plan { result.plan ≡ new_plan fails.items }
    {
        TextSource {
            left: Bytes::new(bytes),
            step,
            plan: Plan::new(fails),
        }
    }
}

impl Source for TextSource {
    ghost left = { λ s. Some s.left };

    ghost faults = { λ s. s.plan.faults };

    fn read(&mut self, buf: &mut [u8]) -> Result<usize, Failed>
        ensures bound { ReadsAtMost result buf.new }
        ensures bytes { ReadConsumes (Some self.old.left) (Some self.new.left) result buf.new }
        ensures cause { HasCause self.old.plan.faults self.new.plan.faults result }
        ensures fails { IsErr result ↔ NextFails self.old.plan }
        ensures count { IfOk result (λ n. n ≡ read_size self.old buf.old) }
        ensures given { IfOk result (λ n. buf.new ≡ take n self.old.left ++ drop n buf.old) }
        ensures ok { IfOk result (λ n. self.new ≡ after_read n self.old) }
        ensures err { OnErr result (self.new ≡ after_failed_read self.old) }
        ensures untouched { OnErr result (buf.new ≡ buf.old) }
    {
        if self.plan.next_fails() {
            self.plan.count_fault();
            return Err(Failed);
        }
        Ok(self.left.give(buf, self.step))
    }
}

/// A sink that holds what it took, takes whole pieces, and fails at the calls named and at a call
/// that would pass its 16,777,216 bytes.
#[derive(Drop)]
pub struct TextSink {
    held: Vec<u8>,
    plan: Plan,
}

impl Model for TextSink {
    ghost use Rattle.std.specs.Prelude.{◌≤◌, vec_len, vec_capacity};
    ghost use Rattle.poets_value.specs.Limits.{longest_text};
    ghost use Rattle.poets_io.specs.States.{TextHeld};

    ghost Value = { TextHeld };

    ghost view = { λ s. record { held = s.held.items; plan = s.plan } };

    ghost invariant = { λ s. (vec_len s.held ≤ longest_text) × (longest_text ≤ vec_capacity s.held) };
}

impl TextSink {
    /// Makes room for all that it will hold. The calls that fail are counted from 1.
    pub fn new(alloc: Global, fails: List<u64>) -> Result<TextSink, Memory>
        ensures held { IfOk result (λ s. s.held ≡ []) }
        ensures plan { IfOk result (λ s. s.plan ≡ new_plan fails.items) }
    {
        Ok(TextSink {
            held: Vec::with_capacity(alloc, LONGEST_TEXT)?,
            plan: Plan::new(fails),
        })
    }

    /// What it holds.
    pub fn bytes(&self) -> &[u8]
        ensures { result.now ≡ self.now.held }
    {
        self.held.as_slice()
    }
}

impl Sink for TextSink {
    ghost held = { λ s. Some s.held };

    ghost faults = { λ s. s.plan.faults };

    fn write(&mut self, piece: &[u8]) -> Result<usize, Failed>
        requires { 0 < length piece.now }
        ensures bound { WritesAtMost result piece.now }
        ensures some { IfOk result (λ n. 0 < n) }
        ensures bytes { WriteAppends (Some self.old.held) (Some self.new.held) result piece.now }
        ensures cause { HasCause self.old.plan.faults self.new.plan.faults result }
        ensures fails { IsErr result ↔ WriteFails self.old piece.now }
        ensures whole { IfOk result (λ n. n ≡ length piece.now) }
        ensures ok { OnOk result (self.new ≡ after_write piece.now self.old) }
        ensures err { OnErr result (self.new ≡ after_failed_write self.old) }
    {
        let fails = self.plan.next_fails();
        let fits = piece.len() <= LONGEST_TEXT - self.held.len();
        if fails || !fits || self.held.extend_from_slice(piece).is_err() {
            self.plan.count_fault();
            return Err(Failed);
        }
        Ok(piece.len())
    }
}
