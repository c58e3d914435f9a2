// The methods of the records, and the rules of a line and of a record, each called twice.
ghost use Rattle.std.specs.Prelude.{◌≡◌};

use model::{
    Bounds, ChannelMap, Fault, FixedBounds, FixedVerdict, Flow, FlowSet, Limits, Reading,
    Refusable, Refusal, Slot, Span, State, Tabled, Verdict, Written,
};

pub fn slot_after(t: Slot, n: Span) -> (Slot, Slot)
    ensures { result.0 ≡ result.1 }
{
    (t.after(n), t.after(n))
}

pub fn slot_back(t: Slot, n: Span) -> (Slot, Slot)
    ensures { result.0 ≡ result.1 }
{
    (t.back(n), t.back(n))
}

pub fn slot_release(t: Slot, first: Slot, period: Span) -> (Slot, Slot)
    ensures { result.0 ≡ result.1 }
{
    (t.release(first, period), t.release(first, period))
}

pub fn slot_since(t: Slot, earlier: Slot) -> (Span, Span)
    ensures { result.0 ≡ result.1 }
{
    (t.since(earlier), t.since(earlier))
}

pub fn span_keeps(d: Span, bound: u32) -> (bool, bool)
    ensures { result.0 ≡ result.1 }
{
    (d.keeps(bound), d.keeps(bound))
}

pub fn map_new(bits: u16) -> (ChannelMap, ChannelMap)
    ensures { result.0 ≡ result.1 }
{
    (ChannelMap::new(bits), ChannelMap::new(bits))
}

pub fn map_ways(map: ChannelMap) -> (u32, u32)
    ensures { result.0 ≡ result.1 }
{
    (map.ways(), map.ways())
}

pub fn flow_blank() -> (Flow, Flow)
    ensures { result.0 ≡ result.1 }
{
    (Flow::blank(), Flow::blank())
}

pub fn flow_links(f: Flow) -> (u32, u32)
    ensures { result.0 ≡ result.1 }
{
    (f.links(), f.links())
}

pub fn flow_work(f: Flow) -> (u32, u32)
    ensures { result.0 ≡ result.1 }
{
    (f.work(), f.work())
}

pub fn flow_first_release(f: Flow) -> (Slot, Slot)
    ensures { result.0 ≡ result.1 }
{
    (f.first_release(), f.first_release())
}

pub fn set_blank() -> (FlowSet, FlowSet)
    ensures { result.0 ≡ result.1 }
{
    (FlowSet::blank(), FlowSet::blank())
}

pub fn state_fresh() -> (State, State)
    ensures { result.0 ≡ result.1 }
{
    (State::fresh(), State::fresh())
}

pub fn limits_all() -> (Limits, Limits)
    ensures { result.0 ≡ result.1 }
{
    (Limits::all(), Limits::all())
}

pub fn refusal_code(refusal: Refusal) -> (u16, u16)
    ensures { result.0 ≡ result.1 }
{
    (refusal.code(), refusal.code())
}

pub fn map_fault(bits: u16) -> (Result<(), Refusal>, Result<(), Refusal>)
    ensures { result.0 ≡ result.1 }
{
    (rules::map_fault(bits), rules::map_fault(bits))
}

pub fn flow_fault(
    k: usize,
    period: u16,
    deadline: u16,
    tries: u16,
    nodes: usize,
    route: [u16; Flow::MOST_NODES],
) -> (Result<(), Refusal>, Result<(), Refusal>)
    ensures { result.0 ≡ result.1 }
{
    (
        rules::flow_fault(k, period, deadline, tries, nodes, route),
        rules::flow_fault(k, period, deadline, tries, nodes, route),
    )
}

pub fn repeat_at(route: [u16; Flow::MOST_NODES], n: usize) -> (usize, usize)
    ensures { result.0 ≡ result.1 }
{
    (rules::repeat_at(route, n), rules::repeat_at(route, n))
}

pub fn record_fault(s: FlowSet) -> (Result<(), Fault>, Result<(), Fault>)
    ensures { result.0 ≡ result.1 }
{
    (rules::record_fault(s), rules::record_fault(s))
}

pub fn record_fault_of(s: &FlowSet) -> (Result<(), Fault>, Result<(), Fault>)
    ensures { result.0 ≡ result.1 }
{
    (rules::record_fault_of(s), rules::record_fault_of(s))
}

pub fn fault_none() -> (Fault, Fault)
    ensures { result.0 ≡ result.1 }
{
    (Fault::none(), Fault::none())
}

pub fn fault_of(refusal: Refusal) -> (Fault, Fault)
    ensures { result.0 ≡ result.1 }
{
    (Fault::of(refusal), Fault::of(refusal))
}

pub fn fault_refuses(fault: Fault) -> (bool, bool)
    ensures { result.0 ≡ result.1 }
{
    (fault.refuses(), fault.refuses())
}

pub fn fault_check(fault: Fault) -> (Result<(), Fault>, Result<(), Fault>)
    ensures { result.0 ≡ result.1 }
{
    (fault.check(), fault.check())
}

// Of a function that answers one thing for the set that was read.
pub fn reading_answer<A: Refusable, F: FnOnce(FlowSet) -> A + Copy>(
    reading: Reading,
    of: F,
) -> (A, A)
    requires callable { F.pre of reading.set }
    requires one { (a b : A) → F.post of reading.set a → F.post of reading.set b → a ≡ b }
    ensures { result.0 ≡ result.1 }
{
    (reading.answer(of), reading.answer(of))
}

pub fn verdict_refused(fault: Fault) -> (Verdict, Verdict)
    ensures { result.0 ≡ result.1 }
{
    (Verdict::refused(fault), Verdict::refused(fault))
}

pub fn bounds_refused(fault: Fault) -> (Bounds, Bounds)
    ensures { result.0 ≡ result.1 }
{
    (Bounds::refused(fault), Bounds::refused(fault))
}

pub fn fixed_verdict_refused(fault: Fault) -> (FixedVerdict, FixedVerdict)
    ensures { result.0 ≡ result.1 }
{
    (FixedVerdict::refused(fault), FixedVerdict::refused(fault))
}

pub fn fixed_bounds_refused(fault: Fault) -> (FixedBounds, FixedBounds)
    ensures { result.0 ≡ result.1 }
{
    (FixedBounds::refused(fault), FixedBounds::refused(fault))
}

pub fn written_refused(fault: Fault) -> (Written, Written)
    ensures { result.0 ≡ result.1 }
{
    (Written::refused(fault), Written::refused(fault))
}

pub fn span_slots(d: Span) -> (u16, u16)
    ensures { result.0 ≡ result.1 }
{
    (d.slots(), d.slots())
}

pub fn bit(test: bool) -> (u32, u32)
    ensures { result.0 ≡ result.1 }
{
    (model::bit(test), model::bit(test))
}

pub fn tabled_refused(fault: Fault) -> (Tabled, Tabled)
    ensures { result.0 ≡ result.1 }
{
    (Tabled::refused(fault), Tabled::refused(fault))
}

pub fn fault_or_else(fault: Fault, later: Fault) -> (Fault, Fault)
    ensures { result.0 ≡ result.1 }
{
    (fault.or_else(later), fault.or_else(later))
}
