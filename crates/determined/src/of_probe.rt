// What the comparison calls, each called twice.
ghost use Rattle.std.specs.Prelude.{◌≡◌};

use model::{
    BoundsAnswer, FixedBoundsAnswer, FixedVerdictAnswer, FlowSet, SlotAnswer, State,
    SuperframeAnswer, VerdictAnswer,
};
use probe::{ProbeFault, ProbeRan, ProbeReading, ProbeStepped};

pub fn probe_verdict(s: FlowSet) -> (VerdictAnswer, VerdictAnswer)
    ensures { result.0 ≡ result.1 }
{
    (probe::probe_verdict(s), probe::probe_verdict(s))
}

pub fn probe_bounds(s: FlowSet, flow: u16) -> (BoundsAnswer, BoundsAnswer)
    ensures { result.0 ≡ result.1 }
{
    (probe::probe_bounds(s, flow), probe::probe_bounds(s, flow))
}

pub fn probe_step(s: FlowSet, st: State) -> (ProbeStepped, ProbeStepped)
    ensures { result.0 ≡ result.1 }
{
    (probe::probe_step(s, st), probe::probe_step(s, st))
}

pub fn probe_run(s: FlowSet, budget: u32) -> (ProbeRan, ProbeRan)
    ensures { result.0 ≡ result.1 }
{
    (probe::probe_run(s, budget), probe::probe_run(s, budget))
}

pub fn probe_record_fault(s: FlowSet) -> (ProbeFault, ProbeFault)
    ensures { result.0 ≡ result.1 }
{
    (probe::probe_record_fault(s), probe::probe_record_fault(s))
}

pub fn probe_read(text: &[u8]) -> (ProbeReading, ProbeReading)
    ensures { result.0 ≡ result.1 }
{
    (probe::probe_read(text), probe::probe_read(text))
}

pub fn probe_write(s: FlowSet, x: &mut [u8], y: &mut [u8]) -> (SlotAnswer, SlotAnswer)
    ensures { (x.old ≡ y.old) → ((result.0 ≡ result.1) × (x.new ≡ y.new)) }
{
    (probe::probe_write(s, x), probe::probe_write(s, y))
}

pub fn probe_plan(input: &[u8], x: &mut [u8], y: &mut [u8]) -> (SlotAnswer, SlotAnswer)
    ensures { (x.old ≡ y.old) → ((result.0 ≡ result.1) × (x.new ≡ y.new)) }
{
    (probe::probe_plan(input, x), probe::probe_plan(input, y))
}

pub fn probe_superframe_size(s: FlowSet) -> (SuperframeAnswer, SuperframeAnswer)
    ensures { result.0 ≡ result.1 }
{
    (
        probe::probe_superframe_size(s),
        probe::probe_superframe_size(s),
    )
}

pub fn probe_superframe(
    s: FlowSet,
    x: &mut [u16],
    y: &mut [u16],
) -> (SuperframeAnswer, SuperframeAnswer)
    ensures { (x.old ≡ y.old) → ((result.0 ≡ result.1) × (x.new ≡ y.new)) }
{
    (probe::probe_superframe(s, x), probe::probe_superframe(s, y))
}

pub fn probe_fixed_verdict(s: FlowSet) -> (FixedVerdictAnswer, FixedVerdictAnswer)
    ensures { result.0 ≡ result.1 }
{
    (probe::probe_fixed_verdict(s), probe::probe_fixed_verdict(s))
}

pub fn probe_fixed_bounds(s: FlowSet, flow: u16) -> (FixedBoundsAnswer, FixedBoundsAnswer)
    ensures { result.0 ≡ result.1 }
{
    (
        probe::probe_fixed_bounds(s, flow),
        probe::probe_fixed_bounds(s, flow),
    )
}

pub fn probe_fixed_step(s: FlowSet, st: State) -> (ProbeStepped, ProbeStepped)
    ensures { result.0 ≡ result.1 }
{
    (
        probe::probe_fixed_step(s, st),
        probe::probe_fixed_step(s, st),
    )
}

pub fn probe_fixed_run(s: FlowSet, budget: u32) -> (ProbeRan, ProbeRan)
    ensures { result.0 ≡ result.1 }
{
    (
        probe::probe_fixed_run(s, budget),
        probe::probe_fixed_run(s, budget),
    )
}

pub fn probe_fixed(input: &[u8], x: &mut [u8], y: &mut [u8]) -> (SlotAnswer, SlotAnswer)
    ensures { (x.old ≡ y.old) → ((result.0 ≡ result.1) × (x.new ≡ y.new)) }
{
    (probe::probe_fixed(input, x), probe::probe_fixed(input, y))
}
