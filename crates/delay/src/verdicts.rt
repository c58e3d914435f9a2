// The verdicts of both delay tests, and one flow's bounds, from the bounds of all flows.
ghost use Rattle.std.specs.Prelude.{◌≡◌, ◌<◌, ◌≤◌, min, ◌-ℤ◌, pos, ◌&&◌, true, get_or};
ghost use Rattle.model.specs.Sets.{used};
ghost use Rattle.document.specs.Delay.{admits, bounds_if, bounds_of, verdict_of};
ghost use Rattle.model.specs.Limits.{most_flows};
ghost use Rattle.delay.specs.AllBounds.{AllBoundsAnswer, AllBoundsOf};
ghost use Rattle.model.specs.Refusals.{good};
ghost use Rattle.document.specs.Reader.{record_fault};

use crate::equation::Values;
use model::{Bounds, Fault, FlowSet, Refusable, Refusal, Verdict};

// Deadline less tightened bound, signed. A bound above the largest signed number, which no set has, counts as that number.
fn margin(deadline: u16, bound: u32) -> i32
    ensures { result ≡ pos deadline -ℤ pos (min bound 2147483647) }
{
    let b = bound.min(i32::MAX as u32);
    (deadline as i32) - (b as i32)
}

// Both bounds of every flow of an accepted set and the number of rounds, 0 beyond the last flow.
// Kept: two lists and not one of pairs, since each is made and judged as a whole.
#[derive(Clone, Copy)]
pub struct AllBounds {
    pub basic: Values,
    pub tightened: Values,
    pub rounds: u32,
}

// A test admits when every bound is at most its deadline.
pub fn admits(s: &FlowSet, bound: &Values) -> bool
    requires { s.now.count ≤ most_flows }
    ensures { result ≡ admits (used s.now) (λ k. get_or bound.now k 0) }
{
    for k in 0..s.count as usize {
        if !s.flows[k].deadline.keeps(bound[k]) {
            return false;
        }
    }
    true
}

impl AllBounds {
    // The verdicts of both tests and the number of rounds of the set whose bounds these are.
    pub fn verdict(&self, s: &FlowSet) -> Verdict
        requires { AllBoundsOf (used s.now) self.now }
        ensures { result ≡ verdict_of (used s.now) }
    {
        Verdict {
            fault: Fault::none(),
            basic: admits(s, &self.basic),
            tightened: admits(s, &self.tightened),
            rounds: self.rounds,
        }
    }

    // The bounds of a flow that there is.
    fn bounds_at(&self, s: &FlowSet, k: usize) -> Bounds
        requires { (k < s.now.count) × AllBoundsOf (used s.now) self.now }
        ensures { result ≡ bounds_if (used s.now) k true }
    {
        let f = s.flows[k];
        let tightened = self.tightened[k];
        Bounds {
            fault: Fault::none(),
            work: f.work(),
            basic: self.basic[k],
            tightened,
            deadline: f.deadline,
            margin: margin(f.deadline.0, tightened),
        }
    }

    // C, both bounds, deadline and margin of one flow; 13 where there is no such flow.
    pub fn bounds(&self, s: &FlowSet, k: u16) -> Bounds
        requires { AllBoundsOf (used s.now) self.now }
        ensures { result ≡ bounds_of (used s.now) k }
    {
        if s.count <= k {
            return Bounds::refused(Fault::of(Refusal::NoSuchFlow));
        }
        self.bounds_at(s, k as usize)
    }
}

// The verdicts of both tests and the number of rounds, from what `all_bounds` answers; zeros and "no" for a set that the record check refuses.
pub fn verdict_of(s: FlowSet, all: Result<AllBounds, Fault>) -> Verdict
    requires { AllBoundsAnswer (used s) all }
    ensures { result ≡ verdict_of (used s) }
{
    match all {
        Ok(all) => all.verdict(&s),
        Err(fault) => Verdict::refused(fault),
    }
}

// C, both bounds, deadline and margin of one flow, from what `all_bounds` answers. The record check's refusals come first, then 13.
pub fn bounds_of(s: FlowSet, k: u16, all: Result<AllBounds, Fault>) -> Bounds
    requires { AllBoundsAnswer (used s) all }
    ensures { result ≡ bounds_of (used s) k }
{
    match all {
        Ok(all) => all.bounds(&s, k),
        Err(fault) => Bounds::refused(fault),
    }
}
