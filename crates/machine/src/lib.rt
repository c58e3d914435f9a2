// The slot machine: one step of it, and a run of many from the fresh state, whose transmissions can be put into a table. It takes ready packets by
// absolute deadline, as document 01 says, or by flow number, as request 4 does; the order of priority is all that differs.
#![tactic(auto)]

ghost use Rattle.std.specs.Prelude.{◌≡◌, true};
ghost use Rattle.model.specs.Sets.{used};
ghost use Rattle.document.specs.Machine.{order_of, run_of, run_with, step_of, step_with};
ghost use Rattle.document.specs.Fixed.{fixed_run, fixed_step, fixed_verdict_of};
ghost use Rattle.promise.specs.Promise.{Admitted};

mod choice;
mod columns;
mod order;
mod packets;
mod releases;
mod rows;
mod runs;
mod slot;
mod state;

use crate::runs::run_accepted;
use crate::slot::step_of;
use crate::state::refused;
use model::{FlowSet, Order, Ran, State, Stepped};
pub use rows::rows_accepted;
pub use slot::{radio_channel, step_accepted, step_after};

// A run in an order of priority.
fn run_by(by: Order, s: FlowSet, budget: u32) -> Ran
    ensures { result ≡ run_with (order_of by) (used s) budget }
{
    match rules::record_fault_of(&s) {
        Ok(()) => run_accepted(by, &s, budget),
        Err(fault) => Ran {
            fault,
            last: State::fresh(),
            delivered: 0,
            dropped: 0,
        },
    }
}

// Runs a budget of slots from the fresh state, as far as the last slot: the state reached, and how many packets were delivered and dropped.
// A refused set stays at the fresh state.
pub fn run(s: FlowSet, budget: u32) -> Ran
    ensures value { result ≡ run_of (used s) budget }
    ensures kept { Admitted (used s) → result.dropped ≡ 0 }
{
    run_by(Order::Deadline, s, budget)
}

// The same for a plant that runs fixed priority: the lower flow number goes first.
pub fn fixed_run(s: FlowSet, budget: u32) -> Ran
    ensures value { result ≡ fixed_run (used s) budget }
    ensures kept { (fixed_verdict_of (used s)).admitted ≡ true → result.dropped ≡ 0 }
{
    run_by(Order::Number, s, budget)
}

// A step in an order of priority.
fn step_by(by: Order, s: FlowSet, st: State) -> Stepped
    ensures { result ≡ step_with (order_of by) (used s) st }
{
    match rules::record_fault_of(&s) {
        Ok(()) => step_of(by, &s, st),
        Err(fault) => refused(fault, st),
    }
}

// One step: what is sent, delivered and dropped in the state's slot, and the next state. Refusals in the order of document 01: the
// record check's, 12, 11; a refused step returns the state it was given and an empty slot.
pub fn step(s: FlowSet, st: State) -> Stepped
    ensures { result ≡ step_of (used s) st }
{
    step_by(Order::Deadline, s, st)
}

// The same for a plant that runs fixed priority: the lower flow number goes first.
pub fn fixed_step(s: FlowSet, st: State) -> Stepped
    ensures { result ≡ fixed_step (used s) st }
{
    step_by(Order::Number, s, st)
}
