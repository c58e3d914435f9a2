// What C is answered for a set that was handed over as text: the reader's refusal, if there is one, before anything else is tested.
ghost use Rattle.std.specs.Prelude.{◌≡◌, cond, ltb};
ghost use Rattle.model.specs.Sets.{used};
ghost use Rattle.document.specs.Delay.{bounds_of};
ghost use Rattle.document.specs.ForC.{bounds_numbers, bounds_of_reading, slot_numbers, table_numbers, verdict_numbers, verdict_of_reading};

use model::{
    Bounds, BoundsAnswer, FlowSet, Reading, SlotAnswer, TableAnswer, Verdict, VerdictAnswer,
    Written, bit,
};

// A flow's number in 16 bits, as the delay tests take it; the count where the number is not below the count, since neither is a flow's. Kept: no `Option`,
// since refusal 13 is the delay test's to give.
pub fn flow_number(flow: u32, count: u16) -> u16
    ensures { result ≡ cond (ltb flow count) flow count }
{
    u16::try_from(flow).map_or(count, |flow| flow.min(count))
}

// Both verdicts of the set that was read, or the reader's refusal.
pub fn verdict_of_reading(reading: Reading) -> Verdict
    ensures { result ≡ verdict_of_reading reading }
{
    reading.answer(delay::verdict)
}

// The bounds of one flow of the set that was read, or the reader's refusal.
pub fn bounds_of_reading(reading: Reading, flow: u32) -> Bounds
    ensures { result ≡ bounds_of_reading reading flow }
{
    let of_flow = |set: FlowSet| -> Bounds
        ensures { result ≡ bounds_of (used set) flow }
    { delay::bounds(set, flow_number(flow, set.count)) };
    reading.answer(of_flow)
}

// Kept: the conversions to C's records are functions, here and in `fixed` and `superframes`: an impl of From, which was tried, must stand in `model`, which
// declares both types, and there nothing says what they give: the definitions are of `document`, which stands above it.

// A verdict as C is answered: the refusal by document 01's number, a test as 1 or 0.
pub fn verdict_numbers(v: Verdict) -> VerdictAnswer
    ensures { result ≡ verdict_numbers v }
{
    VerdictAnswer {
        refusal: u32::from(v.fault.refusal.code()),
        line: v.fault.line,
        field: v.fault.field,
        basic: bit(v.basic),
        tightened: bit(v.tightened),
        rounds: v.rounds,
    }
}

// A flow's bounds as C is answered: the refusal by document 01's number.
pub fn bounds_numbers(b: Bounds) -> BoundsAnswer
    ensures { result ≡ bounds_numbers b }
{
    BoundsAnswer {
        refusal: u32::from(b.fault.refusal.code()),
        line: b.fault.line,
        field: b.fault.field,
        work: b.work,
        basic: b.basic,
        tightened: b.tightened,
        deadline: u32::from(b.deadline.0),
        margin: b.margin,
    }
}

// The length of what was written as C is answered: the refusal by document 01's number.
pub fn slot_numbers(w: Written) -> SlotAnswer
    ensures { result ≡ slot_numbers w }
{
    SlotAnswer {
        refusal: u32::from(w.fault.refusal.code()),
        line: w.fault.line,
        field: w.fault.field,
        length: w.length,
    }
}

// How many numbers were written as C is answered: the refusal by document 01's number.
pub fn table_numbers(w: Written) -> TableAnswer
    ensures { result ≡ table_numbers w }
{
    TableAnswer {
        refusal: u32::from(w.fault.refusal.code()),
        line: w.fault.line,
        field: w.fault.field,
        numbers: w.length,
    }
}
