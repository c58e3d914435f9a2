// The numbers of a set's flows, each kind in an array of its own.
ghost use Rattle.std.specs.Prelude.{◌≡◌, ◌+◌, ◌<◌, ◌≤◌, ℕ, get_or, length, set, true};
ghost use Rattle.std.specs.Int.Count.{ones};
ghost use Rattle.model.specs.Refusals.{good};
ghost use Rattle.document.specs.Reader.{record_fault};
ghost use Rattle.model.specs.Sets.{used, work};
ghost use Rattle.model.specs.Limits.{most_channels, most_flows, most_nodes};

use crate::choice::Ends;
use model::{ChannelMap, Flow, FlowSet};

// How many channels a slot can use: a map has 16 bits.
fn ways_of(map: ChannelMap) -> usize
    ensures { (result ≡ ones map.0) × (result ≤ most_channels) }
{
    map.ways() as usize
}

// How many channels a slot can use, and a set's flows; entries beyond the last flow are 0. Starts are numbers of 16 bits, so that no slot of the
// machine and a start and a deadline add up to more than a slot's number can be.
// Kept: an array for each kind, as the definitions' lists are (`numbers_of`, `links_of`): an array of records would be taken apart in each clause.
#[derive(Drop)]
pub struct Columns {
    pub ways: usize,
    pub count: usize,
    pub start: [u32; Flow::MOST],
    pub period: [u16; Flow::MOST],
    pub deadline: [u16; Flow::MOST],
    pub work: [u8; Flow::MOST],
    pub tries: [u16; Flow::MOST],
    pub routes: [[u16; Flow::MOST_NODES]; Flow::MOST],
    pub ghost some_ways: { ways ≤ most_channels },
    pub ghost few: { count ≤ most_flows },
    pub ghost small: { (k : ℕ) → get_or start k 0 ≤ 65535 },
}

impl Columns {
    ghost use Rattle.machine.specs.LinkColumns.{LinkThere, Routes, end_at, from_at};
    ghost use Rattle.machine.specs.SlotByColumns.{AfterNumbers};
    ghost use Rattle.machine.specs.LentArrays.{no_numbers};
    ghost use Rattle.machine.specs.Structs.{links_of, numbers_of};

    // Puts flow k's numbers in their places. The contract says how wide they are too, since a list of numbers does not.
    fn put(&mut self, k: usize, f: Flow)
        requires { (k < most_flows) × (work f ≤ 255) }
        ensures counts { (self.new.ways ≡ self.old.ways) × (self.new.count ≡ self.old.count) }
        ensures start { self.new.start ≡ set self.old.start k f.start }
        ensures period { self.new.period ≡ set self.old.period k f.period.0 }
        ensures deadline { self.new.deadline ≡ set self.old.deadline k f.deadline.0 }
        ensures work { self.new.work ≡ set self.old.work k (work f) }
        ensures tries { self.new.tries ≡ set self.old.tries k f.tries }
        ensures routes { self.new.routes ≡ set self.old.routes k f.route }
        ensures widths { (f.period.0 ≤ 65535) × (f.deadline.0 ≤ 65535) × (length f.route ≡ most_nodes) }
    {
        self.start[k] = f.first_release().0;
        self.period[k] = f.period.slots();
        self.deadline[k] = f.deadline.slots();
        self.work[k] = f.work() as u8;
        self.tries[k] = f.tries;
        let route = f.route;
        self.routes[k] = route;
    }

    // No flows.
    pub fn none() -> Columns
        ensures { (result.count ≡ 0) × (numbers_of result ≡ no_numbers) }
    {
        Columns {
            ways: 0,
            count: 0,
            start: [0; Flow::MOST],
            period: [0; Flow::MOST],
            deadline: [0; Flow::MOST],
            work: [0; Flow::MOST],
            tries: [0; Flow::MOST],
            routes: [[0; Flow::MOST_NODES]; Flow::MOST],
        }
    }

    // Takes in an accepted set's flows where there were none.
    // Kept: it fills what is lent, since columns that a function hands out are copied twice, which makes a step a fifth slower.
    pub fn take(&mut self, s: &FlowSet)
        requires good { good (record_fault (used s.now)).refusal ≡ true }
        requires none { numbers_of self.old ≡ no_numbers }
        ensures ways { self.new.ways ≡ ones s.now.map.0 }
        ensures count { self.new.count ≡ s.now.count }
        ensures numbers { AfterNumbers s.now (numbers_of self.new) }
        ensures links { Routes s.now (links_of self.new) }
    {
        self.ways = ways_of(s.map);
        self.count = s.count as usize;
        for k in 0..self.count {
            self.put(k, s.flows[k]);
        }
    }

    // Rule 3: the link of flow k's next transmission, where its packet has had n of its C.
    pub fn link(&self, k: usize, n: u8) -> Ends
        requires { (k < most_flows) × LinkThere (links_of self.now) k n }
        ensures { (result.from ≡ from_at (links_of self.now) k n) × (result.to ≡ end_at (links_of self.now) k n 1) }
    {
        let i = (n as u16 / self.tries[k]) as usize;
        Ends {
            from: self.routes[k][i],
            to: self.routes[k][i + 1],
        }
    }
}
