// What a planner speaks of: the records of document 01, their limits, and the answers that its functions give.
// The definitions that give them their meaning stand in `specs/`.
#![tactic(auto)]

mod answers;
mod kinds;

pub use answers::{
    Bounds, BoundsAnswer, Delivery, Fault, FixedBounds, FixedBoundsAnswer, FixedVerdict,
    FixedVerdictAnswer, LinesAnswer, Ran, Reading, Refusable, Refusal, RowsAnswer, Send,
    SlotAnswer, Stepped, SuperframeAnswer, TableAnswer, Tabled, Verdict, VerdictAnswer, Written,
    bit,
};
pub use kinds::{ChannelMap, Flow, FlowSet, Limits, Order, Slot, Span, State};
