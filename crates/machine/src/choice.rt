// Rules 3 and 4: a packet's link, and the choice among the ready packets in their order, each placed if its link shares no node with a
// placed one.
ghost use Rattle.std.specs.Prelude.{◌≡◌, [], ◌∷◌, ◌%◌, ◌<◌, ◌≤◌, drop, not, set, true};
ghost use Rattle.model.specs.Sets.{meet, memb};
ghost use Rattle.model.specs.Limits.{most_channels, most_flows};
ghost use Rattle.machine.specs.LinkColumns.{Busy};

use crate::columns::Columns;
use crate::order::Line;
use crate::packets::Packets;
use model::{ChannelMap, Flow};

// The two ends of a link.
#[derive(Clone, Copy)]
pub struct Ends {
    pub from: u16,
    pub to: u16,
}

impl Ends {
    // Whether a node is one of the two.
    fn has(self, node: u16) -> bool
        ensures { result ≡ memb node (self.from ∷ self.to ∷ []) }
    {
        node == self.from || node == self.to
    }

    // Whether two links share a node.
    fn meets(self, other: Ends) -> bool
        ensures { result ≡ meet (self.from ∷ self.to ∷ []) (other.from ∷ other.to ∷ []) }
    {
        other.has(self.from) || other.has(self.to)
    }
}

// Marks the classes of a placed link's ends; a node's class is its number mod 256.
fn mark_ends(a: Ends, busy: &mut [bool; 256])
    ensures { busy.new ≡ set (set busy.old (a.from % 256) true) (a.to % 256) true }
{
    busy[(a.from % 256) as usize] = true;
    busy[(a.to % 256) as usize] = true;
}

// The placed flows in their order, with both ends of each one's link, the classes of these ends, and a mark at each placed flow's number. Entries
// behind the placed are what an earlier slot left.
// Kept: a count beside the arrays, since there is no heap.
// Kept: a mark is 0 or 1 and no bool, since a count after the slot is the count plus the mark.
// Kept: the ends stand in two arrays of numbers, as the definitions' lists do; an array of ends would be taken apart in each clause.
#[derive(Drop)]
pub struct Placed {
    pub count: usize,
    pub busy: [bool; 256],
    pub from: [u16; ChannelMap::MOST],
    pub to: [u16; ChannelMap::MOST],
    pub flows: [usize; ChannelMap::MOST],
    pub marked: [u8; Flow::MOST],
    pub ghost few: { count ≤ most_channels },
    pub ghost marked_ends: { Busy busy from to count },
}

impl Placed {
    ghost use Rattle.machine.specs.LinkColumns.{LinksThere, link_in};
    ghost use Rattle.machine.specs.PlacedChoice.{Choice, NonePlaced, choice_by, clash_ends, place_if};
    ghost use Rattle.machine.specs.PlacedIfReady.{judge};
    ghost use Rattle.machine.specs.PacketNumbers.{ready_by};
    ghost use Rattle.machine.specs.ReadyOrder.{FlowsTo};
    ghost use Rattle.machine.specs.Structs.{links_of, packets_at, placing_in};

    // No flow is placed.
    pub fn none() -> Placed
        ensures { NonePlaced result.marked result.count }
    {
        Placed {
            count: 0,
            busy: [false; 256],
            from: [0; ChannelMap::MOST],
            to: [0; ChannelMap::MOST],
            flows: [0; ChannelMap::MOST],
            marked: [0; Flow::MOST],
        }
    }

    // Takes all flows away, as before a slot's choice. Entries behind the placed stay as they are.
    pub fn clear(&mut self)
        ensures { NonePlaced self.new.marked self.new.count }
    {
        self.count = 0;
        self.busy = [false; 256];
        self.marked = [0; Flow::MOST];
    }

    // Says whether a link shares a node with a placed one, by comparing it with each.
    fn compare_with_each(&self, a: Ends) -> bool
        ensures { result ≡ clash_ends a.from a.to self.now.from self.now.to self.now.count }
    {
        for j in 0..self.count {
            let b = Ends {
                from: self.from[j],
                to: self.to[j],
            };
            if a.meets(b) {
                return true;
            }
        }
        false
    }

    // Says whether a link shares a node with a placed one. A link whose ends' classes are not marked shares none, and is not compared.
    fn shares_node(&self, a: Ends) -> bool
        ensures { result ≡ clash_ends a.from a.to self.now.from self.now.to self.now.count }
    {
        if self.busy[(a.from % 256) as usize] || self.busy[(a.to % 256) as usize] {
            return self.compare_with_each(a);
        }
        false
    }

    // Places flow k if its link shares no node with a placed one.
    fn place_if_free(&mut self, k: usize, a: Ends)
        requires { (k < most_flows) × (self.old.count < most_channels) }
        ensures { placing_in self.new ≡ place_if
            (not (clash_ends a.from a.to self.old.from self.old.to self.old.count)) k a.from a.to (placing_in self.old) }
    {
        if self.shares_node(a) {
            return;
        }
        mark_ends(a, &mut self.busy);
        self.from[self.count] = a.from;
        self.to[self.count] = a.to;
        self.flows[self.count] = k;
        self.marked[k] = 1;
        self.count += 1;
    }

    // Places flow k if its packet is ready and its link shares no node with a placed one.
    fn place_if_ready(&mut self, k: usize, t: u32, c: &Columns, p: &Packets)
        requires k_lt_most_flows { (k < most_flows) × (self.old.count < most_channels) }
        requires link_there { LinksThere p.now.sent c.now.work (links_of c.now) }
        ensures { placing_in self.new ≡ judge p.now.sent (links_of c.now) (ready_by (packets_at c.now p.now) t k) k (placing_in self.old) }
    {
        if p.is_ready(k, t, c) {
            let a = c.link(k, p.sent[k]);
            self.place_if_free(k, a);
        }
    }

    // Rule 4's choice among the ready of the ordered, where none is placed yet. Once as many are placed as the map has channels, no more can be.
    pub fn choose(&mut self, t: u32, c: &Columns, p: &Packets, line: &Line)
        requires none_placed { NonePlaced self.old.marked self.old.count }
        requires few { line.now.waiting ≤ most_flows }
        requires flows_to { FlowsTo line.now.order line.now.waiting }
        requires links_there { LinksThere p.now.sent c.now.work (links_of c.now) }
        ensures choice { Choice (choice_by c.now.ways t (packets_at c.now p.now) (link_in p.now.sent (links_of c.now)) line.now.order line.now.waiting)
            self.new.flows self.new.marked self.new.count }
        ensures rest { drop self.new.count self.new.flows ≡ drop self.new.count self.old.flows }
    {
        for &k in &line.order[..line.waiting] {
            if self.count == c.ways {
                return;
            }
            self.place_if_ready(k, t, c, p);
        }
    }
}
