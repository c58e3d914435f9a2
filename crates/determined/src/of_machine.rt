// The slot machine's step and run, its rows and its radio channel, each called twice.
ghost use Rattle.std.specs.Prelude.{◌≡◌, true, ◌≤◌, length};
ghost use Rattle.model.specs.Refusals.{good};
ghost use Rattle.document.specs.Reader.{record_fault};
ghost use Rattle.document.specs.Superframe.{flat, rows_to};
ghost use Rattle.model.specs.Sets.{used};

use model::{ChannelMap, Fault, FlowSet, Order, Ran, Slot, State, Stepped};

pub fn step(s: FlowSet, st: State) -> (Stepped, Stepped)
    ensures { result.0 ≡ result.1 }
{
    (machine::step(s, st), machine::step(s, st))
}

pub fn run(s: FlowSet, budget: u32) -> (Ran, Ran)
    ensures { result.0 ≡ result.1 }
{
    (machine::run(s, budget), machine::run(s, budget))
}

pub fn fixed_step(s: FlowSet, st: State) -> (Stepped, Stepped)
    ensures { result.0 ≡ result.1 }
{
    (machine::fixed_step(s, st), machine::fixed_step(s, st))
}

pub fn fixed_run(s: FlowSet, budget: u32) -> (Ran, Ran)
    ensures { result.0 ≡ result.1 }
{
    (machine::fixed_run(s, budget), machine::fixed_run(s, budget))
}

pub fn step_accepted(by: Order, s: FlowSet, st: State) -> (Stepped, Stepped)
    requires { good (record_fault (used s)).refusal ≡ true }
    ensures { result.0 ≡ result.1 }
{
    (
        machine::step_accepted(by, s, st),
        machine::step_accepted(by, s, st),
    )
}

pub fn step_after(fault: Fault, by: Order, s: FlowSet, st: State) -> (Stepped, Stepped)
    requires { fault ≡ record_fault (used s) }
    ensures { result.0 ≡ result.1 }
{
    (
        machine::step_after(fault, by, s, st),
        machine::step_after(fault, by, s, st),
    )
}

pub fn radio_channel(map: ChannelMap, t: Slot, offset: u32) -> (u16, u16)
    ensures { result.0 ≡ result.1 }
{
    (
        machine::radio_channel(map, t, offset),
        machine::radio_channel(map, t, offset),
    )
}

pub fn rows_accepted(s: FlowSet, slots: u32, x: &mut [u16], y: &mut [u16])
    requires s_value { good (record_fault (used s)).refusal ≡ true }
    requires slots_bound { (slots ≤ 65536) × (length (flat (rows_to (used s) slots)) ≤ length x.old) × (length (flat (rows_to (used s) slots)) ≤ length y.old) }
    ensures { (x.old ≡ y.old) → (x.new ≡ y.new) }
{
    machine::rows_accepted(s, slots, x);
    machine::rows_accepted(s, slots, y);
}
