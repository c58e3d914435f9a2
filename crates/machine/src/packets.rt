// The flows' packets: their absolute deadlines, what they have had, their delays, and which are ready, delivered or dropped.
ghost use Rattle.std.specs.Prelude.{◌≡◌, ◌+◌, ◌-◌, ◌<◌, ◌≤◌, min, ◌&&◌, cond, eqb, leb, ltb};
ghost use Rattle.machine.specs.ArrayLists.{Through};
ghost use Rattle.machine.specs.PacketNumbers.{due_by, due_in, had_by, ready_by, ready_in};
ghost use Rattle.machine.specs.Structs.{packets_at};
ghost use Rattle.model.specs.Limits.{last_slot, most_flows};

use crate::columns::Columns;
use model::{Flow, Slot, Span};

// The absolute deadline of a flow's latest packet, or of its first one before that is released.
fn absolute_deadline(first: Slot, period: Span, deadline: Span, t: Slot) -> Slot
    ensures { result.0 ≡ min (due_in first.0 period.0 deadline.0 t.0) 4294967295 }
{
    t.release(first, period).after(deadline)
}

// The transmissions that a packet has had: none in its release slot, whatever the count says.
fn had_of(due: Slot, deadline: Span, t: Slot, n: u8) -> u8
    ensures { result ≡ cond (eqb (min (t.0 + deadline.0) 4294967295) due.0) 0 n }
{
    if t.after(deadline) == due { 0 } else { n }
}

// The slots from a packet's release to t, both counted.
pub fn delay_of(t: Slot, due: Slot, deadline: Span) -> Span
    ensures { result.0 ≡ min (min (t.0 + 1) 4294967295 - (due.0 - deadline.0)) 65535 }
{
    t.after(Span(1)).since(due.back(deadline))
}

// Rule 2, ready: released, before its absolute deadline, and short of C.
fn is_ready(start: Slot, due: Slot, sent: u8, work: u8, t: Slot) -> bool
    ensures { result ≡ ready_in start.0 due.0 sent work t.0 }
{
    start <= t && t < due && sent < work
}

// Rule 6, delivered: placed, and this was transmission C − 1.
pub fn is_delivered(marked: u8, sent: u8, work: u8) -> bool
    ensures { result ≡ (eqb marked 1 && eqb (sent + 1) work) }
{
    marked == 1 && sent < work && work - sent == 1
}

// Rule 6, dropped: in the last slot before its absolute deadline, and still short of C after it.
pub fn is_dropped(t: Slot, start: Slot, due: Slot, after: u8, work: u8) -> bool
    ensures { result ≡ (leb start.0 t.0 && eqb (t.0 + 1) due.0 && ltb after work) }
{
    start <= t && t < due && due.back(Span(1)) == t && after < work
}

// Of each flow's packet, its absolute deadline and how many transmissions it has had; entries beyond the last flow are 0.
// Kept: a slot, the columns and the packets are lent one by one, since packets change where columns do not; that a slot is at most the last is a clause,
// since `Slot` is document 01's record, of which every number is accepted.
#[derive(Drop)]
pub struct Packets {
    pub due: [u32; Flow::MOST],
    pub sent: [u8; Flow::MOST],
}

impl Packets {
    // Sets each flow's absolute deadline in slot t.
    pub fn set_deadlines(&mut self, t: u32, c: &Columns)
        requires { t ≤ last_slot }
        ensures deadlines { Through (due_by c.now.start c.now.period c.now.deadline t) c.now.count self.old.due self.new.due }
        ensures counts { self.new.sent ≡ self.old.sent }
    {
        for k in 0..c.count {
            let end = absolute_deadline(
                Slot(c.start[k]),
                Span(c.period[k]),
                Span(c.deadline[k]),
                Slot(t),
            );
            self.due[k] = end.0;
        }
    }

    // Sets each flow's count to 0 in a release slot of the flow.
    pub fn restart(&mut self, t: u32, c: &Columns)
        requires { t ≤ last_slot }
        ensures deadlines { self.new.due ≡ self.old.due }
        ensures counts { Through (had_by self.old.due c.now.deadline t self.old.sent) c.now.count self.old.sent self.new.sent }
    {
        for k in 0..c.count {
            self.sent[k] = had_of(
                Slot(self.due[k]),
                Span(c.deadline[k]),
                Slot(t),
                self.sent[k],
            );
        }
    }

    // Whether flow k's packet is ready.
    pub fn is_ready(&self, k: usize, t: u32, c: &Columns) -> bool
        requires { k < most_flows }
        ensures { result ≡ ready_by (packets_at c.now self.now) t k }
    {
        is_ready(
            Slot(c.start[k]),
            Slot(self.due[k]),
            self.sent[k],
            c.work[k],
            Slot(t),
        )
    }
}
