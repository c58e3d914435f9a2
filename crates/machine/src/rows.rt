// The table of a run: each transmission of its first slots as a row of four numbers, slot, flow, transmission number, offset, in a lent table.
ghost use Rattle.std.specs.Prelude.{◌≡◌, cond, true, ◌*◌, ◌+◌, ◌-◌, ◌<◌, ◌≤◌, length, take};
ghost use Rattle.std.proofs.lemmas.List.Edits.{sets};
ghost use Rattle.model.specs.Refusals.{good};
ghost use Rattle.model.specs.Sets.{used};
ghost use Rattle.document.specs.Reader.{record_fault};
ghost use Rattle.document.specs.Superframe.{at_start, flat, rows_to};
ghost use Rattle.machine.specs.RowsPut.{RowsFitAt, rows_by};

use crate::runs::run_to;
use model::{ChannelMap, Flow, FlowSet, Order, Slot};

// The number of the transmission after which a packet has had n: they are numbered from 0.
fn number_of(n: u8) -> u16
    requires { 0 < n }
    ensures { result ≡ n - 1 }
{
    u16::from(n) - 1
}

// How many rows a slot gets: one for each placed flow if rows are put, else none.
pub fn rows_of(put: bool, placed: usize) -> usize
    ensures { result ≡ cond put placed 0 }
{
    if put { placed } else { 0 }
}

// Puts rows of slot t into the table from a place on: those of the first placed flows in their order, at offsets 0, 1, 2 .., by their counts after
// the slot. Answers the place behind them. Kept: six parameters, which travel together nowhere else.
pub fn put_rows(
    t: u32,
    sent: &[u8; Flow::MOST],
    chosen: &[usize; ChannelMap::MOST],
    rows: usize,
    from: usize,
    table: &mut [u16],
) -> usize
    requires { RowsFitAt t sent.now chosen.now rows from (length table.old) }
    ensures place { result ≡ from + 4 * rows }
    ensures rows { table.new ≡ sets table.old from
        (flat (rows_by t sent.now 0 (take rows chosen.now))) }
{
    // Kept: a place that is counted on, since it is answered.
    let mut at = from;
    for i in 0..rows {
        let k = chosen[i];
        let number = number_of(sent[k]);
        table[at] = t as u16;
        table[at + 1] = k as u16;
        table[at + 2] = number;
        table[at + 3] = i as u16;
        at += 4;
    }
    at
}

// Puts the rows of an accepted set's first slots at the table's start; the further numbers stay.
pub fn rows_accepted(s: FlowSet, slots: u32, table: &mut [u16])
    requires s_value { good (record_fault (used s)).refusal ≡ true }
    requires slots_bound { (slots ≤ 65536) × (length (flat (rows_to (used s) slots)) ≤ length table.old) }
    ensures { table.new ≡ at_start (flat (rows_to (used s) slots)) table.old }
{
    run_to(Order::Deadline, &s, Slot(slots), true, table);
}
