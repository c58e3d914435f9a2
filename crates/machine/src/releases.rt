// The releases of a run's slot. Beside each flow's absolute deadline a run keeps the flow's next release, so that a slot without a release
// costs one comparison and one with a release divides nothing.
ghost use Rattle.std.specs.Prelude.{◌≡◌, ◌<◌, ◌≤◌, replicate};
ghost use Rattle.machine.specs.ArrayLists.{Through};
ghost use Rattle.machine.specs.LentArrays.{releases_in, run_arrays_of};
ghost use Rattle.machine.specs.NextReleases.{NoneBefore, Released};
ghost use Rattle.machine.specs.PacketNumbers.{due_by};
ghost use Rattle.model.specs.Limits.{last_slot, most_flows};
ghost use Rattle.machine.specs.RunSlots.{AfterReleases, WaitingInOrder};
ghost use Rattle.machine.specs.Structs.{numbers_of, packets_at, run_arrays};

use crate::columns::Columns;
use crate::order::Line;
use crate::packets::Packets;
use model::{Flow, Order, Slot, Span};

// What a run keeps from slot to slot: the packets, each flow's next release, the soonest of these, and the line, whose first until then hold
// every ready packet.
#[derive(Drop)]
pub struct Run {
    pub packets: Packets,
    pub next: [u32; Flow::MOST],
    pub soonest: Slot,
    pub line: Line,
}

impl Run {
    // Before the first slot: no packet has had a transmission, and none waits.
    pub fn at_start(c: &Columns) -> Run
        ensures deadlines { Through (due_by c.now.start c.now.period c.now.deadline 0) c.now.count (replicate most_flows 0) result.packets.due }
        ensures rest { run_arrays result ≡ run_arrays_of result.packets.due c.now.start (replicate most_flows 0) (replicate most_flows 0) 0 0 }
    {
        let mut packets = Packets {
            due: [0; Flow::MOST],
            sent: [0; Flow::MOST],
        };
        packets.set_deadlines(0, c);
        let next = c.start;
        Run {
            packets,
            next,
            soonest: Slot(0),
            line: Line::empty(),
        }
    }

    // Makes the releases of slot t: each released packet's absolute deadline, its flow's next release, and a count that starts again.
    fn release(&mut self, t: u32, c: &Columns)
        requires { t ≤ last_slot }
        ensures released { Released c.now.count t c.now.period c.now.deadline (releases_in (run_arrays self.old)) (releases_in (run_arrays self.new)) }
        ensures soonest { NoneBefore c.now.count self.new.soonest.0 self.new.next }
    {
        let mut soonest = u32::MAX;
        for k in 0..c.count {
            if self.next[k] == t {
                let end = Slot(t).after(Span(c.deadline[k]));
                self.packets.due[k] = end.0;
                self.packets.sent[k] = 0;
                self.next[k] = Slot(t).after(Span(c.period[k])).0;
            }
            soonest = soonest.min(self.next[k]);
        }
        self.soonest = Slot(soonest);
    }

    // Makes the releases of slot t, if it has any. Only then are the packets put in order anew.
    pub fn release_packets(&mut self, by: Order, t: u32, c: &Columns)
        requires t_le_last_slot { (t ≤ last_slot) × (self.old.line.waiting ≤ most_flows) }
        requires none_before { NoneBefore c.now.count self.old.soonest.0 self.old.next }
        requires waiting_in_order { t < self.old.soonest.0
            → WaitingInOrder by c.now.count t (packets_at c.now self.old.packets) self.old.line.order self.old.line.waiting }
        ensures { AfterReleases by c.now.count t (numbers_of c.now) (run_arrays self.old) (run_arrays self.new) }
    {
        if t < self.soonest.0 {
            return;
        }
        self.release(t, c);
        self.line.line_up(by, t, c, &self.packets);
    }
}
