// The kinds of thing that document 01 limits: slots, channel maps, flows, sets and states. Their layout is C's, so that a record can be
// handed over as it is.
ghost use Rattle.std.specs.Prelude.{◌≡◌, ◌+◌, ◌-◌, ◌*◌, ◌/◌, ◌≤◌, min, leb};
ghost use Rattle.std.specs.Int.Count.{ones};
ghost use Rattle.model.specs.Sets.{links, work, blank_flow, blank_set, fresh_state};
ghost use Rattle.model.specs.Limits.{limits_of};

// An absolute slot number: slots of 10 ms, counted from the machine's first.
#[repr(C)]
#[derive(Clone, Copy, PartialEq, Eq, PartialOrd, Ord)]
pub struct Slot(pub u32);

// A count of slots: a period, a relative deadline, a delay.
#[repr(C)]
#[derive(Clone, Copy, PartialEq, Eq, PartialOrd, Ord)]
pub struct Span(pub u16);

impl Slot {
    // The slot that comes this count of slots later; the last number there is where that would be beyond it.
    pub fn after(self, count: Span) -> Slot
        ensures { result.0 ≡ min (self.0 + count.0) 4294967295 }
    {
        Slot(self.0.saturating_add(u32::from(count.0)))
    }

    // The slot that comes this count of slots earlier; the first one, 0, where there is none.
    pub fn back(self, count: Span) -> Slot
        ensures { result.0 ≡ self.0 - count.0 }
    {
        Slot(self.0.saturating_sub(u32::from(count.0)))
    }

    // The latest of the slots first, first + period, first + 2 · period, .. that is not after this one; the first where all are.
    pub fn release(self, first: Slot, period: Span) -> Slot
        ensures { result.0 ≡ first.0 + (self.0 - first.0) / period.0 * period.0 }
    {
        if self <= first || period == Span(0) {
            return first;
        }
        Slot(self.0 - (self.0 - first.0) % u32::from(period.0))
    }

    // How many slots after an earlier one this is; 0 where it is not after it, and never above 65,535.
    pub fn since(self, earlier: Slot) -> Span
        ensures { result.0 ≡ min (self.0 - earlier.0) 65535 }
    {
        let n = self.0.saturating_sub(earlier.0);
        Span(u16::try_from(n).unwrap_or(u16::MAX))
    }
}

impl Span {
    // How many slots: a number of 16 bits, with the bound that it has by its width.
    pub fn slots(self) -> u16
        ensures { (result ≡ self.0) × (result ≤ 65535) }
    {
        self.0
    }

    // A bound may pass 65,535, so it is a wider number: whether it is at most this deadline.
    pub fn keeps(self, bound: u32) -> bool
        ensures { result ≡ leb bound self.0 }
    {
        bound <= u32::from(self.0)
    }
}

// Bit i stands for IEEE 802.15.4 channel 11 + i.
#[repr(C)]
#[derive(Clone, Copy)]
pub struct ChannelMap(pub u16);

impl ChannelMap {
    pub const FIRST: u16 = 11;
    // A slot has no more sends than a map has bits.
    pub const MOST: usize = 16;

    pub fn new(bits: u16) -> ChannelMap
        ensures { result.0 ≡ bits }
    {
        ChannelMap(bits)
    }

    // m: how many channels a slot can use.
    pub fn ways(self) -> u32
        ensures { result ≡ ones self.0 }
    {
        self.0.count_ones()
    }
}

// A flow as a record. Every value of every field is accepted by every function; the record check says which are good.
#[repr(C)]
#[derive(Clone, Copy)]
pub struct Flow {
    pub period: Span,
    pub deadline: Span,
    pub start: u16,
    pub tries: u16,
    pub nodes: u16,
    pub route: [u16; Flow::MOST_NODES],
}

impl Flow {
    pub const MOST: usize = 64;

    pub const MOST_LINKS: usize = 16;

    pub const MOST_NODES: usize = Flow::MOST_LINKS + 1;

    // No route, and every number 0. Kept: no `Default`, since `Flow::blank`, `FlowSet::blank` and `State::fresh` are
    // public functions that docs/CONTRACTS.md names, in the definitions' words.
    pub fn blank() -> Flow
        ensures { result ≡ blank_flow }
    {
        Flow {
            period: Span(0),
            deadline: Span(0),
            start: 0,
            tries: 0,
            nodes: 0,
            route: [0; Flow::MOST_NODES],
        }
    }

    // A route has one link less than nodes.
    pub fn links(self) -> u32
        ensures { (result ≡ links self) × (result ≤ 65534) }
    {
        u32::from(self.nodes.saturating_sub(1))
    }

    // C: a packet's transmissions.
    pub fn work(self) -> u32
        ensures { result ≡ work self }
    {
        self.links() * u32::from(self.tries)
    }

    // The start, a 16-bit number of the record, as the absolute slot of the first release.
    pub fn first_release(self) -> Slot
        ensures { (result.0 ≡ self.start) × (result.0 ≤ 65535) }
    {
        Slot(u32::from(self.start))
    }
}

// Kept: an array with its count beside it, as in `Flow`, since these are document 01's records with C's layout, and there is no heap for a `Vec`.
#[repr(C)]
#[derive(Clone, Copy)]
pub struct FlowSet {
    pub map: ChannelMap,
    pub count: u16,
    pub flows: [Flow; Flow::MOST],
}

impl FlowSet {
    // Map 0, no flows, all numbers 0: what a refused reading returns.
    pub fn blank() -> FlowSet
        ensures { result ≡ blank_set }
    {
        FlowSet {
            map: ChannelMap(0),
            count: 0,
            flows: [Flow::blank(); Flow::MOST],
        }
    }
}

// The slot machine's state: the present slot, and how many transmissions each flow's latest packet has had.
#[repr(C)]
#[derive(Clone, Copy)]
pub struct State {
    pub slot: Slot,
    pub sent: [u8; Flow::MOST],
}

impl State {
    pub const LAST: u32 = 4000000000;

    pub fn fresh() -> State
        ensures { result ≡ fresh_state }
    {
        State {
            slot: Slot(0),
            sent: [0; Flow::MOST],
        }
    }
}

// The orders in which rule 4 takes ready packets: earlier absolute deadline and then lower flow number, or lower flow number alone.
#[derive(Clone, Copy, PartialEq, Eq)]
pub enum Order {
    Deadline,
    Number,
}

// The limits, as the types have them.
#[derive(Clone, Copy)]
pub struct Limits {
    pub first_channel: u16,
    pub most_channels: usize,
    pub most_flows: usize,
    pub most_links: usize,
    pub last_slot: u32,
}

impl Limits {
    // Ties the limits of the code to those of the definitions.
    pub fn all() -> Limits
        ensures { result ≡ limits_of }
    {
        Limits {
            first_channel: ChannelMap::FIRST,
            most_channels: ChannelMap::MOST,
            most_flows: Flow::MOST,
            most_links: Flow::MOST_LINKS,
            last_slot: State::LAST,
        }
    }
}
