// Request 4's test for plants that run fixed priority: flows are judged in order 0, 1, 2 .., each by the bounds of those below it, which go first.
// Kept: beside verdicts.rt, since `fixed_verdict_of`, `fixed_bounds_of` and the types that they answer are public, with fields of their own. Numbers, S and
// bounds are lent one by one, since the bounds change while the others do not.
ghost use Rattle.std.specs.Prelude.{◌≡◌, true, ◌+◌, ◌-◌, ◌*◌, ◌<◌, ◌≤◌, get_or, set};
ghost use Rattle.model.specs.Limits.{most_flows};
ghost use Rattle.model.specs.Refusals.{good};
ghost use Rattle.model.specs.Sets.{used};
ghost use Rattle.document.specs.Reader.{record_fault};
ghost use Rattle.document.specs.Fixed.{fixed_bounds_if, fixed_bounds_of, fixed_verdict_of, rounded_up};
ghost use Rattle.laws.specs.Accepted.{Accepted};
ghost use Rattle.delay.specs.AllFixed.{AllFixedAnswer, AllFixedOf};
ghost use Rattle.delay.specs.FirstShares.{FirstSumsTo, SmallFirst, column_bound, packets_by};
ghost use Rattle.delay.specs.FixedJudged.{AllJudged};
ghost use Rattle.delay.specs.PairGrids.{RowsBelow, conflict_of};
ghost use Rattle.delay.specs.ShareRows.{FlowNumbersTo};

use crate::conflicts::{self, Columns, PAIRS, Pairs};
use crate::equation::{self, Values};
use crate::shares::{FlowNumbers, Sums};
use crate::verdicts;
use model::{Fault, FixedBounds, FixedVerdict, Flow, FlowSet, Refusable, Refusal};

// The bound of every flow of an accepted set, 0 beyond the last flow and for a flow that is not judged, and how many flows are judged: they are
// the first ones.
// Kept: a count beside an array, since the bounds beyond it are asked for too.
#[derive(Clone, Copy)]
pub struct AllFixed {
    pub bound: Values,
    pub judged: u32,
}

// A quotient rounded up.
fn rounded_up(a: u32, b: u16) -> u32
    requires { 0 < b }
    ensures { result ≡ rounded_up a b }
{
    a.div_ceil(b as u32)
}

// In how many slots a packet can be released that is sent, within its bound, in a window of D slots.
fn release_slots(deadline: u16, bound: u32) -> u32
    requires { (0 < deadline) × (bound ≤ 65535) }
    ensures { (result ≡ deadline + bound - 1) × (result ≤ 131069) }
{
    (deadline as u32) + bound - 1
}

// n: how many packets of flow l can be sent in flow k's window.
fn packets_first(k: usize, l: usize, numbers: &FlowNumbers, bound: &Values) -> u32
    requires k_lt_most_flows { (k < most_flows) × (l < most_flows) }
    requires nonzero { (0 < get_or numbers.now.deadline k 0) × (0 < get_or numbers.now.period l 0) × (get_or bound.now l 0 ≤ 65535) }
    ensures { result ≡ packets_by numbers.now bound.now k l }
{
    let slots = release_slots(numbers.deadline[k], bound[l]);
    rounded_up(slots, numbers.period[l])
}

// The work of n packets: n·S or n·C, at most D + bound + C, so 65,535 + 65,535 + 64.
fn work_of_packets(n: u32, each: u16) -> u32
    requires { n * each ≤ 131134 }
    ensures { (result ≡ n * each) × (result ≤ 131134) }
{
    n * (each as u32)
}

// The sums of n·S and n·C over the flows below k, which go first.
fn first_sums(k: usize, numbers: &FlowNumbers, conflict: &Pairs, bound: &Values) -> Sums
    requires { (k < most_flows) × SmallFirst numbers.now conflict.now bound.now k }
    ensures { FirstSumsTo numbers.now conflict.now bound.now k k result.conflict result.work }
{
    let mut x: u32 = 0;
    let mut w: u32 = 0;
    for l in 0..k {
        let n = packets_first(k, l, numbers, bound);
        x += work_of_packets(n, conflict[k * Flow::MOST + l]);
        w += work_of_packets(n, numbers.work[l]);
    }
    Sums {
        conflict: x,
        work: w,
    }
}

// The bound of flow k by the bounds of the flows below it: C + ΣX + (ΣW − ΣX) / m.
fn bound_after(k: usize, m: u32, numbers: &FlowNumbers, conflict: &Pairs, bound: &Values) -> u32
    requires { (k < most_flows) × (0 < m) × SmallFirst numbers.now conflict.now bound.now k }
    ensures { result ≡ column_bound numbers.now conflict.now bound.now m k }
{
    let sums = first_sums(k, numbers, conflict, bound);
    equation::joined_bound(numbers.work[k], sums.conflict, sums.work, m)
}

// The first flow over its deadline keeps its bound and is the last that is judged.
fn last_judged(k: usize, bound: u32, kept: Values) -> AllFixed
    requires { k < most_flows }
    ensures bound_is { result.bound ≡ set kept k bound }
    ensures judged_is { result.judged ≡ k + 1 }
{
    let mut all = kept;
    all[k] = bound;
    AllFixed {
        bound: all,
        judged: (k as u32) + 1,
    }
}

// The bounds of an accepted set's flows by T, D, C and S. Flows are judged in order, to the first over its deadline: the rest have bound 0.
fn judge_in_order(s: &FlowSet, numbers: &FlowNumbers, conflict: &Pairs) -> AllFixed
    requires accepted { Accepted (used s.now) × FlowNumbersTo (used s.now) s.now.count numbers.now }
    requires rows_below { RowsBelow (conflict_of (used s.now)) s.now.count conflict.now }
    ensures { AllJudged (used s.now) result }
{
    let n = s.count as usize;
    let m = s.map.ways();
    let mut bound = [0u32; Flow::MOST];
    for k in 0..n {
        let b = bound_after(k, m, numbers, conflict, &bound);
        if !s.flows[k].deadline.keeps(b) {
            return last_judged(k, b, bound);
        }
        bound[k] = b;
    }
    AllFixed {
        bound,
        judged: n as u32,
    }
}

// The bounds of all flows of a set that the record check passes.
pub fn fixed_of_accepted(s: FlowSet) -> AllFixed
    requires { good (record_fault (used s)).refusal ≡ true }
    ensures { AllFixedOf (used s) result }
{
    let numbers = FlowNumbers::of(&s);
    let mut conflict = [0u16; PAIRS];
    conflicts::conflict_work(Columns::Below, &s, &mut conflict);
    judge_in_order(&s, &numbers, &conflict)
}

// What `fixed_bounds` and `fixed_verdict` answer for all flows at once, or why the record check refuses the set.
pub fn all_fixed(s: FlowSet) -> Result<AllFixed, Fault>
    ensures { AllFixedAnswer (used s) result }
{
    rules::record_fault_of(&s)?;
    Ok(fixed_of_accepted(s))
}

impl AllFixed {
    // Whether the test admits the set whose bounds these are, and how many flows are judged.
    pub fn verdict(&self, s: &FlowSet) -> FixedVerdict
        requires { AllFixedOf (used s.now) self.now }
        ensures { result ≡ fixed_verdict_of (used s.now) }
    {
        FixedVerdict {
            fault: Fault::none(),
            admitted: verdicts::admits(s, &self.bound),
            judged: self.judged,
        }
    }

    // The answer of a flow that there is.
    fn bounds_at(&self, s: &FlowSet, k: usize) -> FixedBounds
        requires { (k < s.now.count) × AllFixedOf (used s.now) self.now }
        ensures { result ≡ fixed_bounds_if (used s.now) k true }
    {
        let f = s.flows[k];
        FixedBounds {
            fault: Fault::none(),
            work: f.work(),
            bound: self.bound[k],
            deadline: f.deadline,
            judged: (k as u32) < self.judged,
        }
    }

    // C, bound, deadline of one flow, and whether it is judged; 13 where there is no such flow.
    pub fn bounds(&self, s: &FlowSet, k: u16) -> FixedBounds
        requires { AllFixedOf (used s.now) self.now }
        ensures { result ≡ fixed_bounds_of (used s.now) k }
    {
        if s.count <= k {
            return FixedBounds::refused(Fault::of(Refusal::NoSuchFlow));
        }
        self.bounds_at(s, k as usize)
    }
}

// Whether the test admits, and how many flows are judged, from what `all_fixed` answers; zero and "no" for a set that the record check refuses.
pub fn fixed_verdict_of(s: FlowSet, all: Result<AllFixed, Fault>) -> FixedVerdict
    requires { AllFixedAnswer (used s) all }
    ensures { result ≡ fixed_verdict_of (used s) }
{
    match all {
        Ok(all) => all.verdict(&s),
        Err(fault) => FixedVerdict::refused(fault),
    }
}

// C, bound, deadline of one flow, and whether it is judged, from what `all_fixed` answers. The record check's refusals come first, then 13.
pub fn fixed_bounds_of(s: FlowSet, k: u16, all: Result<AllFixed, Fault>) -> FixedBounds
    requires { AllFixedAnswer (used s) all }
    ensures { result ≡ fixed_bounds_of (used s) k }
{
    match all {
        Ok(all) => all.bounds(&s, k),
        Err(fault) => FixedBounds::refused(fault),
    }
}

// The verdict of the test for fixed priority.
pub fn fixed_verdict(s: FlowSet) -> FixedVerdict
    ensures { result ≡ fixed_verdict_of (used s) }
{
    fixed_verdict_of(s, all_fixed(s))
}

// One flow's answer of the test for fixed priority.
pub fn fixed_bounds(s: FlowSet, k: u16) -> FixedBounds
    ensures { result ≡ fixed_bounds_of (used s) k }
{
    fixed_bounds_of(s, k, all_fixed(s))
}
