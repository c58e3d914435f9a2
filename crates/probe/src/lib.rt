// What C cannot reach, exported for the comparison alone: every function over a record, and the plan's text. The refusal is document 01's
// number, and a test is 1 or 0.
#![tactic(auto)]

ghost use Rattle.std.specs.Prelude.{length, ◌≡◌};
ghost use Rattle.model.specs.Sets.{used};
ghost use Rattle.document.specs.Reader.{read_text, record_fault, write_answer, write_into};
ghost use Rattle.document.specs.Delay.{bounds_of, verdict_of};
ghost use Rattle.document.specs.Machine.{run_of, step_of};
ghost use Rattle.document.specs.Program.{plan_answer, plan_into};
ghost use Rattle.document.specs.Fixed.{fixed_answer, fixed_bounds_of, fixed_into, fixed_run, fixed_step, fixed_verdict_of};
ghost use Rattle.document.specs.Superframe.{size_answer, superframe_answer, superframe_into};
ghost use Rattle.document.specs.ForC.{bounds_numbers, fixed_bounds_numbers, fixed_verdict_numbers, slot_numbers, superframe_numbers, verdict_numbers};
ghost use Rattle.probe.specs.RecordNumbers.{fault_numbers, ran_numbers, reading_numbers, stepped_numbers};

use model::{
    BoundsAnswer, ChannelMap, Delivery, Fault, FixedBoundsAnswer, FixedVerdictAnswer, Flow,
    FlowSet, Ran, Reading, Send, SlotAnswer, State, Stepped, SuperframeAnswer, VerdictAnswer,
};

// Kept: records with a fault beside their values, arrays with a count, and each function under its own name, since C reads and calls them.

#[repr(C)]
#[derive(Clone, Copy)]
pub struct ProbeFault {
    pub refusal: u32,
    pub line: usize,
    pub field: usize,
}

#[repr(C)]
#[derive(Clone, Copy)]
pub struct ProbeReading {
    pub fault: ProbeFault,
    pub set: FlowSet,
}

#[repr(C)]
#[derive(Clone, Copy)]
pub struct ProbeStepped {
    pub fault: ProbeFault,
    pub next: State,
    pub sends: u16,
    pub sent: [Send; ChannelMap::MOST],
    pub deliveries: u16,
    pub delivered: [Delivery; ChannelMap::MOST],
    pub drops: u16,
    pub dropped: [u16; Flow::MOST],
}

#[repr(C)]
#[derive(Clone, Copy)]
pub struct ProbeRan {
    pub fault: ProbeFault,
    pub last: State,
    pub delivered: u64,
    pub dropped: u64,
}

// A fault with document 01's number.
impl From<Fault> for ProbeFault {
    ghost from_gives = { λ fault given. given ≡ fault_numbers fault };

    fn from(fault: Fault) -> ProbeFault {
        ProbeFault {
            refusal: u32::from(fault.refusal.code()),
            line: fault.line,
            field: fault.field,
        }
    }
}

// The record check.
#[tactic(auto, using(laws::specs::Accepted::accepted_none))]
pub fn probe_record_fault(s: FlowSet) -> ProbeFault
    ensures { result ≡ fault_numbers (record_fault (used s)) }
{
    rules::record_fault(s).err().unwrap_or(Fault::none()).into()
}

// A reading with its fault in numbers.
impl From<Reading> for ProbeReading {
    ghost from_gives = { λ reading given. given ≡ reading_numbers reading };

    fn from(reading: Reading) -> ProbeReading {
        ProbeReading {
            fault: reading.fault.into(),
            set: reading.set,
        }
    }
}

// The reader.
pub fn probe_read(text: &[u8]) -> ProbeReading
    ensures { result ≡ reading_numbers (read_text text.now) }
{
    text::read(text).into()
}

// The writer.
pub fn probe_write(s: FlowSet, out: &mut [u8]) -> SlotAnswer
    ensures { (result ≡ slot_numbers (write_answer (used s) (length out.old)))
        × (out.new ≡ write_into (used s) out.old) }
{
    planner::slot_numbers(text::write(s, out))
}

// The plan program's text.
pub fn probe_plan(input: &[u8], out: &mut [u8]) -> SlotAnswer
    ensures { (result ≡ slot_numbers (plan_answer input.now (length out.old)))
        × (out.new ≡ plan_into input.now out.old) }
{
    planner::slot_numbers(plan_text::plan(input, out))
}

// Both verdicts.
pub fn probe_verdict(s: FlowSet) -> VerdictAnswer
    ensures { result ≡ verdict_numbers (verdict_of (used s)) }
{
    planner::verdict_numbers(delay::verdict(s))
}

// One flow's bounds.
pub fn probe_bounds(s: FlowSet, flow: u16) -> BoundsAnswer
    ensures { result ≡ bounds_numbers (bounds_of (used s) flow) }
{
    planner::bounds_numbers(delay::bounds(s, flow))
}

// A step's answer with its fault in numbers.
impl From<Stepped> for ProbeStepped {
    ghost from_gives = { λ stepped given. given ≡ stepped_numbers stepped };

    fn from(stepped: Stepped) -> ProbeStepped {
        let Stepped {
            fault,
            next,
            sends,
            sent,
            deliveries,
            delivered,
            drops,
            dropped,
        } = stepped;
        ProbeStepped {
            fault: fault.into(),
            next,
            sends,
            sent,
            deliveries,
            delivered,
            drops,
            dropped,
        }
    }
}

// One step.
pub fn probe_step(s: FlowSet, st: State) -> ProbeStepped
    ensures { result ≡ stepped_numbers (step_of (used s) st) }
{
    machine::step(s, st).into()
}

// A run's answer with its fault in numbers.
impl From<Ran> for ProbeRan {
    ghost from_gives = { λ ran given. given ≡ ran_numbers ran };

    fn from(ran: Ran) -> ProbeRan {
        ProbeRan {
            fault: ran.fault.into(),
            last: ran.last,
            delivered: ran.delivered,
            dropped: ran.dropped,
        }
    }
}

// A run from the fresh state.
pub fn probe_run(s: FlowSet, budget: u32) -> ProbeRan
    ensures { result ≡ ran_numbers (run_of (used s) budget) }
{
    machine::run(s, budget).into()
}

// How long a superframe is.
pub fn probe_superframe_size(s: FlowSet) -> SuperframeAnswer
    ensures { result ≡ superframe_numbers (size_answer (used s)) }
{
    planner::superframe_numbers(superframe_table::superframe_size(s))
}

// A superframe.
pub fn probe_superframe(s: FlowSet, table: &mut [u16]) -> SuperframeAnswer
    ensures { (result ≡ superframe_numbers (superframe_answer (used s) (length table.old)))
        × (table.new ≡ superframe_into (used s) table.old) }
{
    planner::superframe_numbers(superframe_table::superframe(s, table))
}

// The verdict of the test for fixed priority.
pub fn probe_fixed_verdict(s: FlowSet) -> FixedVerdictAnswer
    ensures { result ≡ fixed_verdict_numbers (fixed_verdict_of (used s)) }
{
    planner::fixed_verdict_numbers(delay::fixed_verdict(s))
}

// One flow's bound with fixed priority.
pub fn probe_fixed_bounds(s: FlowSet, flow: u16) -> FixedBoundsAnswer
    ensures { result ≡ fixed_bounds_numbers (fixed_bounds_of (used s) flow) }
{
    planner::fixed_bounds_numbers(delay::fixed_bounds(s, flow))
}

// One step with fixed priority.
pub fn probe_fixed_step(s: FlowSet, st: State) -> ProbeStepped
    ensures { result ≡ stepped_numbers (fixed_step (used s) st) }
{
    machine::fixed_step(s, st).into()
}

// A run from the fresh state with fixed priority.
pub fn probe_fixed_run(s: FlowSet, budget: u32) -> ProbeRan
    ensures { result ≡ ran_numbers (fixed_run (used s) budget) }
{
    machine::fixed_run(s, budget).into()
}

// The text of the program for fixed priority.
pub fn probe_fixed(input: &[u8], out: &mut [u8]) -> SlotAnswer
    ensures { (result ≡ slot_numbers (fixed_answer input.now (length out.old)))
        × (out.new ≡ fixed_into input.now out.old) }
{
    planner::slot_numbers(plan_text::fixed(input, out))
}
