// Refused steps: what is wrong with a state, and the answer of a step that is refused.
ghost use Rattle.std.specs.Prelude.{◌≡◌, [], cond, get_or, leb, ltb};
ghost use Rattle.model.specs.Sums.{any_to};
ghost use Rattle.document.specs.Machine.{stepped};
ghost use Rattle.machine.specs.States.{bad_by};
ghost use Rattle.model.specs.Limits.{last_slot, most_flows};
ghost use Rattle.model.specs.declared.answers.Refusal.TheVariants.{AtLastSlot, BadState};
ghost use Rattle.model.specs.Refusals.{checked, fault_at, no_fault};

use model::{ChannelMap, Delivery, Fault, Flow, Refusal, Send, Slot, Span, State, Stepped};

// What stands behind the last of a slot's sends, and of its deliveries. Kept: constants and no `Default`, since
// they are what the definition `filled` puts behind the last.
pub const NO_SEND: Send = Send {
    slot: Slot(0),
    flow: 0,
    from: 0,
    to: 0,
    attempt: 0,
    offset: 0,
    channel: 0,
};

pub const NO_DELIVERY: Delivery = Delivery {
    flow: 0,
    delay: Span(0),
};

// A refused step's answer: the state it was given, and an empty slot.
pub fn refused(fault: Fault, st: State) -> Stepped
    ensures { result ≡ stepped fault st [] [] [] }
{
    Stepped {
        fault,
        next: st,
        sends: 0,
        sent: [NO_SEND; ChannelMap::MOST],
        deliveries: 0,
        delivered: [NO_DELIVERY; ChannelMap::MOST],
        drops: 0,
        dropped: [0; Flow::MOST],
    }
}

// Whether a count is above its flow's C, which is 0 beyond the last flow.
fn any_above(sent: &[u8; Flow::MOST], work: &[u8; Flow::MOST]) -> bool
    ensures { result ≡ any_to (λ k. ltb (get_or work.now k 0) (get_or sent.now k 0)) most_flows }
{
    // Kept: no search that ends at the first, since it looks at one after the other where this takes sixteen at a time.
    let mut above = false;
    for k in 0..Flow::MOST {
        above |= work[k] < sent[k];
    }
    above
}

// Refusal 12: a slot above the last, or a count above its flow's C.
fn is_bad(t: u32, sent: &[u8; Flow::MOST], work: &[u8; Flow::MOST]) -> bool
    ensures { result ≡ bad_by t sent.now work.now }
{
    State::LAST < t || any_above(sent, work)
}

// What is wrong with a state, by its slot and its counts: refusal 12, then 11.
pub fn state_fault(t: u32, sent: &[u8; Flow::MOST], work: &[u8; Flow::MOST]) -> Result<(), Fault>
    ensures { result ≡ checked (cond (bad_by t sent.now work.now) (fault_at BadState 0)
        (cond (leb last_slot t) (fault_at AtLastSlot 0) no_fault)) }
{
    if is_bad(t, sent, work) {
        return Err(Fault::of(Refusal::BadState));
    }
    if State::LAST <= t {
        return Err(Fault::of(Refusal::AtLastSlot));
    }
    Ok(())
}
