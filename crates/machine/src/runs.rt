// A run: slot after slot from the fresh state, with the counts of delivered and dropped packets in place of the sends.
ghost use Rattle.std.specs.Prelude.{◌≡◌, ◌+◌, ◌<◌, ◌≤◌, min, ℕ, get_or, length, ◌⊎◌, true};
ghost use Rattle.model.specs.Sets.{used};
ghost use Rattle.machine.specs.ArrayLists.{Through};
ghost use Rattle.machine.specs.LentArrays.{run_arrays_of};
ghost use Rattle.machine.specs.ReadyOrder.{FlowsTo};
ghost use Rattle.machine.specs.SlotAnswers.{count_by, delivered_to, dropped_to};
ghost use Rattle.model.specs.Limits.{last_slot, most_channels, most_flows};
ghost use Rattle.machine.specs.RunSlots.{AfterSlot};
ghost use Rattle.machine.specs.RunSoFar.{RunOfSome, SlotRuns, SlotsRun};
ghost use Rattle.machine.specs.RowsPut.{RowsFit, RowsOfSlots};
ghost use Rattle.machine.specs.SlotByColumns.{AfterNumbers, RanTo};
ghost use Rattle.machine.specs.Structs.{counted, links_of, numbers_of, packets_at, run_arrays};
ghost use Rattle.document.specs.Reader.{record_fault};
ghost use Rattle.document.specs.Machine.{order_of, run_with};
ghost use Rattle.document.specs.Superframe.{at_start, flat, rows_to_with};
ghost use Rattle.machine.specs.LinkColumns.{LinksThere, Routes};
ghost use Rattle.model.specs.Refusals.{good};

use crate::choice::Placed;
use crate::columns::Columns;
use crate::packets::{Packets, is_delivered, is_dropped};
use crate::releases::Run;
use crate::rows::{put_rows, rows_of};
use model::{Fault, Flow, FlowSet, Order, Ran, Slot, State, bit};

// How many packets a slot places, delivers and drops.
#[derive(Clone, Copy)]
struct SlotCounts {
    placed: usize,
    delivered: u32,
    dropped: u32,
}

// Counts the deliveries and drops of slot t, and sets each flow's next count: one more where its packet was placed.
fn count_and_advance(t: u32, c: &Columns, placed: &Placed, p: &mut Packets) -> SlotCounts
    requires { (k : ℕ) → (get_or p.old.sent k 0 ≤ 64) × (get_or placed.now.marked k 0 ≤ 1) }
    ensures placed { result.placed ≡ placed.now.count }
    ensures delivered { result.delivered ≡ length (delivered_to p.old.sent c.now.work placed.now.marked c.now.count) }
    ensures dropped { result.dropped ≡ length (dropped_to t (packets_at c.now p.old) placed.now.marked c.now.count) }
    ensures counts { Through (count_by p.old.sent placed.now.marked) c.now.count p.old.sent p.new.sent }
    ensures deadlines { p.new.due ≡ p.old.due }
{
    let mut delivered = 0;
    let mut dropped = 0;
    for k in 0..c.count {
        let n = p.sent[k];
        let one = placed.marked[k];
        let after = n + one;
        let got = is_delivered(one, n, c.work[k]);
        let lost = is_dropped(Slot(t), Slot(c.start[k]), Slot(p.due[k]), after, c.work[k]);
        delivered += bit(got);
        dropped += bit(lost);
        p.sent[k] = after;
    }
    SlotCounts {
        placed: placed.count,
        delivered,
        dropped,
    }
}

// Chooses and counts in slot t, once its releases are made. Where none is placed none is ready before the next release, and none waits.
fn busy_slot(t: u32, c: &Columns, run: &mut Run, placed: &mut Placed) -> SlotCounts
    requires t_le_last_slot { (t ≤ last_slot) × (run.old.line.waiting ≤ most_flows) }
    requires flows_to { FlowsTo run.old.line.order run.old.line.waiting }
    requires by_index { (k : ℕ) → get_or run.old.packets.sent k 0 ≤ 64 }
    requires links_there { LinksThere run.old.packets.sent c.now.work (links_of c.now) }
    ensures slot { AfterSlot c.now.count t c.now.ways (packets_at c.now run.old.packets) (links_of c.now) run.old.line.order run.old.line.waiting
        run.new.packets.sent result.delivered result.dropped run.new.line.waiting placed.new.flows result.placed }
    ensures run { run_arrays run.new ≡ run_arrays_of run.old.packets.due run.old.next run.new.packets.sent
        run.old.line.order run.old.soonest.0 run.new.line.waiting }
{
    placed.clear();
    placed.choose(t, c, &run.packets, &run.line);
    let counts = count_and_advance(t, c, placed, &mut run.packets);
    if counts.placed == 0 {
        run.line.waiting = 0;
    }
    counts
}

// Runs one slot. Where no packet waits there is nothing to count, and until the next release the same holds of the slots after it. The contract
// holds for every set whose numbers the columns hold, so the set itself is not needed.
fn run_slot(
    by: Order,
    t: u32,
    c: &Columns,
    run: &mut Run,
    placed: &mut Placed,
) -> Option<SlotCounts>
    requires { (t < last_slot) × RunOfSome by c.now.count c.now.ways t (numbers_of c.now) (links_of c.now) (run_arrays run.old) }
    ensures { SlotRuns by c.now.count c.now.ways t (numbers_of c.now) (links_of c.now) (run_arrays run.old) (run_arrays run.new)
        (counted result).delivered (counted result).dropped placed.new.flows (counted result).placed }
{
    run.release_packets(by, t, c);
    if run.line.waiting == 0 {
        return None;
    }
    Some(busy_slot(t, c, run, placed))
}

// How many packets a run delivers and drops. Kept: beside a slot's counts, which have 32 bits and say what was placed.
#[derive(Clone, Copy)]
struct RunCounts {
    delivered: u64,
    dropped: u64,
}

// Runs all slots from the first on; if rows are put, each slot's follow those of the slots before it at the table's start.
// Kept: a flag for whether rows are put, since a closure given each slot's rows would repeat `put_rows`'s clauses, and a plain run's say nothing.
fn run_all_slots(
    by: Order,
    slots: u32,
    c: &Columns,
    run: &mut Run,
    put: bool,
    table: &mut [u16],
) -> RunCounts
    requires slots_le_last_slot { (slots ≤ last_slot) × RunOfSome by c.now.count c.now.ways 0 (numbers_of c.now) (links_of c.now) (run_arrays run.old) }
    requires rows_fit { put ≡ true → RowsFit by slots c.now.count c.now.ways (numbers_of c.now) (links_of c.now) (run_arrays run.old) (length table.old) }
    ensures run { SlotsRun by slots c.now.count c.now.ways (numbers_of c.now) (links_of c.now) (run_arrays run.old)
        run.new.packets.sent result.delivered result.dropped }
    ensures rows { put ≡ true → RowsOfSlots by slots c.now.count c.now.ways (numbers_of c.now) (links_of c.now) (run_arrays run.old) table.old table.new }
{
    let mut placed = Placed::none();
    let mut delivered: u64 = 0;
    let mut dropped: u64 = 0;
    let mut at = 0;
    for t in 0..slots {
        let Some(got) = run_slot(by, t, c, run, &mut placed) else {
            continue;
        };
        delivered += got.delivered as u64;
        dropped += got.dropped as u64;
        let rows = rows_of(put, got.placed);
        at = put_rows(t, &run.packets.sent, &placed.flows, rows, at, table);
    }
    RunCounts { delivered, dropped }
}

// The run of an accepted set, in an order of priority, as far as a slot; if rows are put, they stand at the table's start.
pub fn run_to(by: Order, s: &FlowSet, end: Slot, put: bool, table: &mut [u16]) -> Ran
    requires s_value { (good (record_fault (used s.now)).refusal ≡ true) × (end.0 ≤ last_slot) }
    requires end_bound { put ≡ true → (end.0 ≤ 65536) × (length (flat (rows_to_with (order_of by) (used s.now) end.0)) ≤ length table.old) }
    ensures run { run_with (order_of by) (used s.now) end.0 ≡ result }
    ensures rows { put ≡ true → table.new ≡ at_start (flat (rows_to_with (order_of by) (used s.now) end.0)) table.old }
{
    let mut c = Columns::none();
    c.take(s);
    let mut run = Run::at_start(&c);
    let got = run_all_slots(by, end.0, &c, &mut run, put, table);
    let sent = run.packets.sent;
    Ran {
        fault: Fault::none(),
        last: State { slot: end, sent },
        delivered: got.delivered,
        dropped: got.dropped,
    }
}

// The run of an accepted set in an order of priority, as far as the last slot. It puts no rows, so its table may have any length.
pub fn run_accepted(by: Order, s: &FlowSet, budget: u32) -> Ran
    requires { good (record_fault (used s.now)).refusal ≡ true }
    ensures { result ≡ run_with (order_of by) (used s.now) budget }
{
    let end = Slot(budget.min(State::LAST));
    run_to(by, s, end, false, &mut [])
}
