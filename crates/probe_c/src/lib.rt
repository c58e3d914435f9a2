// Exported for the comparison alone: each function is probe's of the same name, with the same clauses. Kept: one function for each name that C calls.
#![tactic(auto)]

ghost use Rattle.std.specs.Prelude.{length, ◌≡◌};
ghost use Rattle.model.specs.Sets.{used};
ghost use Rattle.document.specs.Reader.{read_text, record_fault, write_answer, write_into};
ghost use Rattle.document.specs.Delay.{bounds_of, verdict_of};
ghost use Rattle.document.specs.Machine.{run_of, step_of};
ghost use Rattle.document.specs.Program.{plan_answer, plan_into};
ghost use Rattle.document.specs.Fixed.{fixed_answer, fixed_bounds_of, fixed_into, fixed_run, fixed_step, fixed_verdict_of};
ghost use Rattle.document.specs.Superframe.{size_answer, superframe_answer, superframe_into};
ghost use Rattle.document.specs.ForC.{bounds_numbers, fixed_bounds_numbers, fixed_verdict_numbers, slot_numbers, superframe_numbers, verdict_numbers};
ghost use Rattle.probe.specs.RecordNumbers.{fault_numbers, ran_numbers, reading_numbers, stepped_numbers};

use model::{
    BoundsAnswer, FixedBoundsAnswer, FixedVerdictAnswer, FlowSet, SlotAnswer, State,
    SuperframeAnswer, VerdictAnswer,
};
use probe::{ProbeFault, ProbeRan, ProbeReading, ProbeStepped};

// The record check.
#[unsafe(no_mangle)]
pub extern "C" fn probe_record_fault(s: FlowSet) -> ProbeFault
    ensures { result ≡ fault_numbers (record_fault (used s)) }
{
    probe::probe_record_fault(s)
}

// The reader.
#[unsafe(no_mangle)]
pub extern "C" fn probe_read(text: &[u8]) -> ProbeReading
    ensures { result ≡ reading_numbers (read_text text.now) }
{
    probe::probe_read(text)
}

// The writer.
#[unsafe(no_mangle)]
pub extern "C" fn probe_write(s: FlowSet, out: &mut [u8]) -> SlotAnswer
    ensures { (result ≡ slot_numbers (write_answer (used s) (length out.old)))
        × (out.new ≡ write_into (used s) out.old) }
{
    probe::probe_write(s, out)
}

// The plan program's text.
#[unsafe(no_mangle)]
pub extern "C" fn probe_plan(input: &[u8], out: &mut [u8]) -> SlotAnswer
    ensures { (result ≡ slot_numbers (plan_answer input.now (length out.old)))
        × (out.new ≡ plan_into input.now out.old) }
{
    probe::probe_plan(input, out)
}

// Both verdicts.
#[unsafe(no_mangle)]
pub extern "C" fn probe_verdict(s: FlowSet) -> VerdictAnswer
    ensures { result ≡ verdict_numbers (verdict_of (used s)) }
{
    probe::probe_verdict(s)
}

// One flow's bounds.
#[unsafe(no_mangle)]
pub extern "C" fn probe_bounds(s: FlowSet, flow: u16) -> BoundsAnswer
    ensures { result ≡ bounds_numbers (bounds_of (used s) flow) }
{
    probe::probe_bounds(s, flow)
}

// One step.
#[unsafe(no_mangle)]
pub extern "C" fn probe_step(s: FlowSet, st: State) -> ProbeStepped
    ensures { result ≡ stepped_numbers (step_of (used s) st) }
{
    probe::probe_step(s, st)
}

// A run from the fresh state.
#[unsafe(no_mangle)]
pub extern "C" fn probe_run(s: FlowSet, budget: u32) -> ProbeRan
    ensures { result ≡ ran_numbers (run_of (used s) budget) }
{
    probe::probe_run(s, budget)
}

// How long a superframe is.
#[unsafe(no_mangle)]
pub extern "C" fn probe_superframe_size(s: FlowSet) -> SuperframeAnswer
    ensures { result ≡ superframe_numbers (size_answer (used s)) }
{
    probe::probe_superframe_size(s)
}

// A superframe.
#[unsafe(no_mangle)]
pub extern "C" fn probe_superframe(s: FlowSet, table: &mut [u16]) -> SuperframeAnswer
    ensures { (result ≡ superframe_numbers (superframe_answer (used s) (length table.old)))
        × (table.new ≡ superframe_into (used s) table.old) }
{
    probe::probe_superframe(s, table)
}

// The verdict of the test for fixed priority.
#[unsafe(no_mangle)]
pub extern "C" fn probe_fixed_verdict(s: FlowSet) -> FixedVerdictAnswer
    ensures { result ≡ fixed_verdict_numbers (fixed_verdict_of (used s)) }
{
    probe::probe_fixed_verdict(s)
}

// One flow's bound with fixed priority.
#[unsafe(no_mangle)]
pub extern "C" fn probe_fixed_bounds(s: FlowSet, flow: u16) -> FixedBoundsAnswer
    ensures { result ≡ fixed_bounds_numbers (fixed_bounds_of (used s) flow) }
{
    probe::probe_fixed_bounds(s, flow)
}

// One step with fixed priority.
#[unsafe(no_mangle)]
pub extern "C" fn probe_fixed_step(s: FlowSet, st: State) -> ProbeStepped
    ensures { result ≡ stepped_numbers (fixed_step (used s) st) }
{
    probe::probe_fixed_step(s, st)
}

// A run from the fresh state with fixed priority.
#[unsafe(no_mangle)]
pub extern "C" fn probe_fixed_run(s: FlowSet, budget: u32) -> ProbeRan
    ensures { result ≡ ran_numbers (fixed_run (used s) budget) }
{
    probe::probe_fixed_run(s, budget)
}

// The text of the program for fixed priority.
#[unsafe(no_mangle)]
pub extern "C" fn probe_fixed(input: &[u8], out: &mut [u8]) -> SlotAnswer
    ensures { (result ≡ slot_numbers (fixed_answer input.now (length out.old)))
        × (out.new ≡ fixed_into input.now out.old) }
{
    probe::probe_fixed(input, out)
}
