//! What follows from facts by rules of two premises.
ghost use Rattle.std.specs.Prelude.{◌≡◌, ◌<◌, true, length, All, IfOk, OnOk, slice_set};
ghost use Rattle.poets_guard.specs.code.Rules.{IsWithin, is_known, Concludes, AllFollow, WaitsFor, EndsWaitFor, IsStep};

use poets_value::Memory;
use std::alloc::Global;

/// A fact follows from two others, which may be the same.
#[derive(Clone, Copy)]
pub(crate) struct Rule {
    pub first: usize,
    pub second: usize,
    pub conclusion: usize,
}

/// The fact that is known from the start.
pub(crate) const GIVEN: usize = 0;

// What is known so far.
#[derive(Drop)]
struct Known {
    // whether each fact is known
    facts: Vec<bool>,
    // at each unknown fact the rules that wait for it
    waiting: Vec<Vec<Rule>>,
    // the other rules that were not used
    pending: Vec<Rule>,
}

impl Known {
    // Lets a rule wait for a fact.
    fn wait(&mut self, fact: usize, rule: Rule) -> Result<(), Memory>
        requires { fact < length self.old.waiting.items }
        ensures waiting { OnOk result (WaitsFor fact rule self.old self.new) }
        ensures len { length self.new.waiting.items ≡ length self.old.waiting.items }
        ensures facts { self.new.facts ≡ self.old.facts }
        ensures pending { self.new.pending ≡ self.old.pending }
    {
        self.waiting[fact].push(rule)?;
        Ok(())
    }

    // Takes a fact as known. The rules that waited for it are pending.
    fn learn(&mut self, fact: usize) -> Result<(), Memory>
        requires { (fact < length self.old.facts.items) × (fact < length self.old.waiting.items) }
        ensures facts { self.new.facts.items ≡ slice_set self.old.facts.items fact true }
        ensures len { length self.new.waiting.items ≡ length self.old.waiting.items }
        ensures moved { OnOk result (EndsWaitFor fact self.old self.new) }
    {
        self.facts[fact] = true;
        self.pending.append(&mut self.waiting[fact])?;
        Ok(())
    }

    // Uses a rule, or lets it wait for a premise.
    fn place(&mut self, rule: Rule) -> Result<(), Memory>
        requires within { IsWithin (length self.old.facts.items) rule }
        requires waiting { length self.old.waiting.items ≡ length self.old.facts.items }
        ensures step { OnOk result (IsStep rule self.old self.new) }
        ensures facts { length self.new.facts.items ≡ length self.old.facts.items }
        ensures waiting { length self.new.waiting.items ≡ length self.old.waiting.items }
    {
        if !self.facts[rule.first] {
            return self.wait(rule.first, rule);
        }
        if !self.facts[rule.second] {
            return self.wait(rule.second, rule);
        }
        if self.facts[rule.conclusion] {
            return Ok(());
        }
        self.learn(rule.conclusion)
    }
}

/// Of each of so many facts whether it follows by the rules. It looks at each rule three times at most.
pub(crate) fn consequences(
    alloc: Global,
    count: usize,
    rules: Vec<Rule>,
) -> Result<Vec<bool>, Memory>
    requires some { 0 < count }
    requires within { All (IsWithin count) rules.items }
    ensures given { IfOk result (λ known. is_known known.items 0 ≡ true) }
    ensures closed { IfOk result (λ known. All (Concludes known.items) rules.items) }
    ensures sound { IfOk result (λ known. AllFollow rules.items known.items) }
{
    let mut waiting = Vec::new(alloc);
    for _ in 0..count {
        waiting.push(Vec::new(alloc))?;
    }
    let mut facts = vec![in alloc; false; count]?;
    facts[GIVEN] = true;
    let mut known = Known {
        facts,
        waiting,
        pending: rules,
    };
    while let Some(rule) = known.pending.pop() {
        known.place(rule)?;
    }
    Ok(known.facts)
}
