// The two delay tests of document 01: both bounds of every flow, the verdicts of a set, and one flow's bounds. The shares of each pair of
// flows, as far as no round changes them, are tables that are made once. Request 4's test for fixed priority is a module of its own.
#![tactic(auto)]

ghost use Rattle.std.specs.Prelude.{◌≤◌, ◌≡◌, true};
ghost use Rattle.delay.specs.DelayTables.{TablesHold};
ghost use Rattle.delay.specs.BoundsReached.{BothBoundsOf};
ghost use Rattle.delay.specs.AllBounds.{AllBoundsAnswer, AllBoundsOf};
ghost use Rattle.model.specs.Sets.{used};
ghost use Rattle.laws.specs.Accepted.{Accepted};
ghost use Rattle.model.specs.Refusals.{good};
ghost use Rattle.document.specs.Reader.{record_fault};
ghost use Rattle.document.specs.Delay.{AtGreatest, admits, bounds_of, most_rounds, value_at, verdict_of};

mod conflicts;
mod equation;
mod fixed;
mod places;
mod rounds;
mod shares;
mod tables;
mod verdicts;

pub use fixed::{
    AllFixed, all_fixed, fixed_bounds, fixed_bounds_of, fixed_of_accepted, fixed_verdict,
    fixed_verdict_of,
};
use model::{Bounds, Fault, Flow, FlowSet, Verdict};
use tables::Tables;
pub use verdicts::{AllBounds, bounds_of, verdict_of};

// Both bounds of every flow of an accepted set, and the number of rounds, from the tables of the set. The basic bound is the equation's
// value at v = D.
fn bounds_by_tables(s: &FlowSet, tables: &Tables) -> AllBounds
    requires { Accepted (used s.now) × TablesHold (used s.now) tables.now }
    ensures { BothBoundsOf (used s.now) result }
{
    let n = s.count as usize;
    let m = s.map.ways();
    let none = [0u16; Flow::MOST];
    let basic = tables.values(n, m, &none);
    let end = rounds::rounds(s, tables);
    let tightened = tables.values(n, m, &end.slack);
    AllBounds {
        basic,
        tightened,
        rounds: end.rounds,
    }
}

// Both bounds of every flow of a set that the record check passes, and the number of rounds.
pub fn bounds_of_accepted(s: FlowSet) -> AllBounds
    requires { good (record_fault (used s)).refusal ≡ true }
    ensures { AllBoundsOf (used s) result }
{
    let mut tables = Tables::blank();
    tables.fill(&s);
    bounds_by_tables(&s, &tables)
}

// What `bounds` and `verdict` answer for all flows at once, the rounds made once, or why the record check refuses the set.
pub fn all_bounds(s: FlowSet) -> Result<AllBounds, Fault>
    ensures { AllBoundsAnswer (used s) result }
{
    rules::record_fault_of(&s)?;
    Ok(bounds_of_accepted(s))
}

// The verdicts of both tests and the number of rounds. The tightened test is judged by the equation's value at the greatest list, and the
// rounds are at most 1 + Σ(D − C).
pub fn verdict(s: FlowSet) -> Verdict
    ensures answer { result ≡ verdict_of (used s) }
    ensures greatest { good result.fault.refusal ≡ true → AtGreatest (used s) (λ v. result.tightened ≡ admits (used s) (value_at (used s) v)) }
    ensures rounds { result.rounds ≤ most_rounds (used s) }
{
    verdicts::verdict_of(s, all_bounds(s))
}

// C, both bounds, deadline and margin of one flow. The tightened bound is the equation's value at the greatest list.
pub fn bounds(s: FlowSet, k: u16) -> Bounds
    ensures answer { result ≡ bounds_of (used s) k }
    ensures greatest { good result.fault.refusal ≡ true → AtGreatest (used s) (λ v. result.tightened ≡ value_at (used s) v k) }
{
    verdicts::bounds_of(s, k, all_bounds(s))
}
