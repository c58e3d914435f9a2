// The test for fixed priority for C: the answers for the set that was read, in numbers.
ghost use Rattle.std.specs.Prelude.{◌≡◌};
ghost use Rattle.model.specs.Sets.{used};
ghost use Rattle.document.specs.Fixed.{fixed_bounds_of, fixed_verdict_of};
ghost use Rattle.document.specs.ForC.{fixed_bounds_numbers, fixed_bounds_of_reading, fixed_verdict_numbers, fixed_verdict_of_reading};

use crate::answers::flow_number;
use model::{
    FixedBounds, FixedBoundsAnswer, FixedVerdict, FixedVerdictAnswer, FlowSet, Reading, bit,
};

// The verdict of the set that was read, or the reader's refusal.
pub fn verdict_of_reading(reading: Reading) -> FixedVerdict
    ensures { result ≡ fixed_verdict_of_reading reading }
{
    // Kept: a closure, since a function of another crate's private module has no contract as a value.
    let of_set = |set: FlowSet| -> FixedVerdict
        ensures { result ≡ fixed_verdict_of (used set) }
    { delay::fixed_verdict(set) };
    reading.answer(of_set)
}

// The bound of one flow of the set that was read, or the reader's refusal.
pub fn bounds_of_reading(reading: Reading, flow: u32) -> FixedBounds
    ensures { result ≡ fixed_bounds_of_reading reading flow }
{
    let of_flow = |set: FlowSet| -> FixedBounds
        ensures { result ≡ fixed_bounds_of (used set) flow }
    { delay::fixed_bounds(set, flow_number(flow, set.count)) };
    reading.answer(of_flow)
}

// A verdict as C is answered: the refusal by document 01's number, a test as 1 or 0.
pub fn fixed_verdict_numbers(v: FixedVerdict) -> FixedVerdictAnswer
    ensures { result ≡ fixed_verdict_numbers v }
{
    FixedVerdictAnswer {
        refusal: u32::from(v.fault.refusal.code()),
        line: v.fault.line,
        field: v.fault.field,
        admitted: bit(v.admitted),
        judged: v.judged,
    }
}

// A flow's bound as C is answered: the refusal by document 01's number, judged or not as 1 or 0.
pub fn fixed_bounds_numbers(b: FixedBounds) -> FixedBoundsAnswer
    ensures { result ≡ fixed_bounds_numbers b }
{
    FixedBoundsAnswer {
        refusal: u32::from(b.fault.refusal.code()),
        line: b.fault.line,
        field: b.fault.field,
        work: b.work,
        bound: b.bound,
        deadline: u32::from(b.deadline.0),
        judged: bit(b.judged),
    }
}
