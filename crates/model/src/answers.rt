// The answers that the planner's functions give.
ghost use Rattle.std.specs.Prelude.{true, false, not, ◌≡◌, ◌≤◌};
ghost use Rattle.model.specs.Refusals.{refusal_number, good, checked, fault_at, no_fault, or_else, refused_verdict, refused_bounds, refused_fixed_verdict, refused_fixed_bounds, refused_table};
ghost use Rattle.model.specs.Sums.{bit};

use crate::kinds::{ChannelMap, Flow, FlowSet, Slot, Span, State};

// Why a set, a text, a state or a request is refused, with document 01's number for it. What can be refused gives a `Result` with one of these.
// Kept: `Nothing` is a case, and no `Option`, since the definitions `refusal_number`, `good` and `no_fault` and the answers below are of it.
#[derive(Clone, Copy, PartialEq, Eq)]
pub enum Refusal {
    Nothing = 0,
    BadForm = 1,
    NoChannel = 2,
    TooManyFlows = 3,
    BadPeriod = 4,
    BadDeadline = 5,
    BadTries = 6,
    BadRoute = 7,
    EqualNeighbours = 8,
    TooMuchWork = 9,
    NoRoom = 10,
    AtLastSlot = 11,
    BadState = 12,
    NoSuchFlow = 13,
    NotAdmitted = 14,
    LateStart = 15,
    LongHyperPeriod = 16,
}

impl Refusal {
    // Document 01's number for it; 0 where nothing is refused. Kept: a name for `as`, since a contract says what it gives.
    pub fn code(self) -> u16
        ensures { result ≡ refusal_number self }
    {
        self as u16
    }
}

// A refusal with the line it names and that line's field, 0 where it names none. A table can have more lines than 32 bits count, and a line
// more fields.
#[derive(Clone, Copy)]
pub struct Fault {
    pub refusal: Refusal,
    pub line: usize,
    pub field: usize,
}

impl Fault {
    // Nothing is refused.
    pub fn none() -> Fault
        ensures { result ≡ no_fault }
    {
        Fault {
            refusal: Refusal::Nothing,
            line: 0,
            field: 0,
        }
    }

    // A refusal that names no line. Kept: no `From`, since the name is to say that a line is left out.
    pub fn of(refusal: Refusal) -> Fault
        ensures { result ≡ fault_at refusal 0 }
    {
        Fault {
            refusal,
            line: 0,
            field: 0,
        }
    }

    // This fault, if it refuses something, before the later one.
    pub fn or_else(self, later: Fault) -> Fault
        ensures { result ≡ or_else self later }
    {
        if self.refuses() { self } else { later }
    }

    // Whether something is refused.
    pub fn refuses(self) -> bool
        ensures { result ≡ not (good self.refusal) }
    {
        self.refusal != Refusal::Nothing
    }

    // This fault as an error, if it refuses something, so that `?` hands it on.
    pub fn check(self) -> Result<(), Fault>
        ensures { result ≡ checked self }
    {
        if self.refuses() { Err(self) } else { Ok(()) }
    }
}

// An answer that can be a refusal.
pub trait Refusable {
    ghost use Rattle.model.specs.declared.answers.Fault.{Fault};

    // What is answered where a fault refuses it.
    ghost refused_by: { Fault → Self };

    // A refusal, and nothing else.
    fn refused(fault: Fault) -> Self
        ensures { result ≡ refused_by fault };
}

// Kept: the answers below have their fault beside their values, since they are the values of the definitions `read_text`, `verdict_of`, `bounds_of`,
// `step_of`, `run_of` and so on, zeros beside a refusal included, and C is answered the same. A slot's
// lists have their counts beside them: there is no heap, and the definition `filled` puts blanks behind the last.

// The reader's answer: the set, or the fault and the blank set.
#[derive(Clone, Copy)]
pub struct Reading {
    pub fault: Fault,
    pub set: FlowSet,
}

impl Reading {
    // What a function of the set answers, or the reader's refusal.
    pub fn answer<A: Refusable, F: FnOnce(FlowSet) -> A>(self, of: F) -> A
        requires { F.pre of self.set }
        ensures refused { good self.fault.refusal ≡ false → result ≡ A.refused_by self.fault }
        ensures answered { good self.fault.refusal ≡ true → F.post of self.set result }
    {
        match self.fault.check() {
            Ok(()) => of(self.set),
            Err(fault) => A::refused(fault),
        }
    }
}

// The writer's answer: how many bytes stand in the lent buffer.
#[derive(Clone, Copy)]
pub struct Written {
    pub fault: Fault,
    pub length: usize,
}

impl Refusable for Written {
    ghost refused_by = { λ f. record { fault = f; length = 0 } };

    // A refusal, nothing written.
    fn refused(fault: Fault) -> Written {
        Written { fault, length: 0 }
    }
}

#[derive(Clone, Copy)]
pub struct Verdict {
    pub fault: Fault,
    pub basic: bool,
    pub tightened: bool,
    pub rounds: u32,
}

impl Refusable for Verdict {
    ghost refused_by = { refused_verdict };

    // A refusal, neither test passed, no rounds.
    fn refused(fault: Fault) -> Verdict {
        Verdict {
            fault,
            basic: false,
            tightened: false,
            rounds: 0,
        }
    }
}

// One flow's bounds. `work` is C.
#[derive(Clone, Copy)]
pub struct Bounds {
    pub fault: Fault,
    pub work: u32,
    pub basic: u32,
    pub tightened: u32,
    pub deadline: Span,
    pub margin: i32,
}

impl Refusable for Bounds {
    ghost refused_by = { refused_bounds };

    // A refusal, every number 0.
    fn refused(fault: Fault) -> Bounds {
        Bounds {
            fault,
            work: 0,
            basic: 0,
            tightened: 0,
            deadline: Span(0),
            margin: 0,
        }
    }
}

// Request 4's test for fixed priority: whether it admits, and how many flows were judged.
#[derive(Clone, Copy)]
pub struct FixedVerdict {
    pub fault: Fault,
    pub admitted: bool,
    pub judged: u32,
}

impl Refusable for FixedVerdict {
    ghost refused_by = { refused_fixed_verdict };

    // A refusal, not admitted, no flow judged.
    fn refused(fault: Fault) -> FixedVerdict {
        FixedVerdict {
            fault,
            admitted: false,
            judged: 0,
        }
    }
}

// One flow's bound by the test for fixed priority; 0 for a flow that is not judged. `work` is C.
#[derive(Clone, Copy)]
pub struct FixedBounds {
    pub fault: Fault,
    pub work: u32,
    pub bound: u32,
    pub deadline: Span,
    pub judged: bool,
}

impl Refusable for FixedBounds {
    ghost refused_by = { refused_fixed_bounds };

    // A refusal, every number 0, not judged.
    fn refused(fault: Fault) -> FixedBounds {
        FixedBounds {
            fault,
            work: 0,
            bound: 0,
            deadline: Span(0),
            judged: false,
        }
    }
}

// What stands in a lent table: how many numbers, and how many slots they are for (0 where they were read from lines).
#[derive(Clone, Copy)]
pub struct Tabled {
    pub fault: Fault,
    pub hyper: u32,
    pub numbers: usize,
}

impl Tabled {
    // A table of more slots is refused.
    pub const MOST_SLOTS: u32 = 65536;

    // How many numbers a row has: slot, flow, transmission number, offset.
    pub const ROW: usize = 4;
}

impl Refusable for Tabled {
    ghost refused_by = { refused_table };

    // A refusal, nothing written.
    fn refused(fault: Fault) -> Tabled {
        Tabled {
            fault,
            hyper: 0,
            numbers: 0,
        }
    }
}

// One transmission: in `slot`, over the link `from` to `to`.
#[repr(C)]
#[derive(Clone, Copy)]
pub struct Send {
    pub slot: Slot,
    pub flow: u16,
    pub from: u16,
    pub to: u16,
    pub attempt: u16,
    pub offset: u16,
    pub channel: u16,
}

#[repr(C)]
#[derive(Clone, Copy)]
pub struct Delivery {
    pub flow: u16,
    pub delay: Span,
}

// A slot's answer. The entries of each array from its count on are blank.
#[derive(Clone, Copy)]
pub struct Stepped {
    pub fault: Fault,
    pub next: State,
    pub sends: u16,
    pub sent: [Send; ChannelMap::MOST],
    pub deliveries: u16,
    pub delivered: [Delivery; ChannelMap::MOST],
    pub drops: u16,
    pub dropped: [u16; Flow::MOST],
}

// A run's answer: the last state, and how many packets were delivered and dropped.
#[derive(Clone, Copy)]
pub struct Ran {
    pub fault: Fault,
    pub last: State,
    pub delivered: u64,
    pub dropped: u64,
}

// What C is answered: document 01's number for the refusal, and a test as 1 or 0. Kept as numbers: the C interface.

#[repr(C)]
#[derive(Clone, Copy)]
pub struct VerdictAnswer {
    pub refusal: u32,
    pub line: usize,
    pub field: usize,
    pub basic: u32,
    pub tightened: u32,
    pub rounds: u32,
}

#[repr(C)]
#[derive(Clone, Copy)]
pub struct BoundsAnswer {
    pub refusal: u32,
    pub line: usize,
    pub field: usize,
    pub work: u32,
    pub basic: u32,
    pub tightened: u32,
    pub deadline: u32,
    pub margin: i32,
}

#[repr(C)]
#[derive(Clone, Copy)]
pub struct SlotAnswer {
    pub refusal: u32,
    pub line: usize,
    pub field: usize,
    pub length: usize,
}

// How many 32-bit numbers of a lent table are the bounds of all flows.
#[repr(C)]
#[derive(Clone, Copy)]
pub struct TableAnswer {
    pub refusal: u32,
    pub line: usize,
    pub field: usize,
    pub numbers: usize,
}

#[repr(C)]
#[derive(Clone, Copy)]
pub struct FixedVerdictAnswer {
    pub refusal: u32,
    pub line: usize,
    pub field: usize,
    pub admitted: u32,
    pub judged: u32,
}

#[repr(C)]
#[derive(Clone, Copy)]
pub struct FixedBoundsAnswer {
    pub refusal: u32,
    pub line: usize,
    pub field: usize,
    pub work: u32,
    pub bound: u32,
    pub deadline: u32,
    pub judged: u32,
}

// How many 16-bit numbers the table of a superframe has, and how many slots.
#[repr(C)]
#[derive(Clone, Copy)]
pub struct SuperframeAnswer {
    pub refusal: u32,
    pub line: usize,
    pub field: usize,
    pub hyper: u32,
    pub numbers: usize,
}

// How many bytes the lines of a table are. Lines of a table have no field to be named.
#[repr(C)]
#[derive(Clone, Copy)]
pub struct LinesAnswer {
    pub refusal: u32,
    pub line: usize,
    pub length: usize,
}

// How many 16-bit numbers were read from the lines of a table.
#[repr(C)]
#[derive(Clone, Copy)]
pub struct RowsAnswer {
    pub refusal: u32,
    pub line: usize,
    pub numbers: usize,
}

// A test as a number, 1 where it passes, as texts and C have it. Kept: a name for `u32::from`, a public function that
// docs/CONTRACTS.md names.
pub fn bit(test: bool) -> u32
    ensures { (result ≡ bit test) × (result ≤ 1) }
{
    u32::from(test)
}
