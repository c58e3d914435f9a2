// The bounds of all flows for C: a row of four numbers a flow, written into a lent table.
ghost use Rattle.std.specs.Prelude.{◌≡◌, ◌++◌, ◌*◌, ◌+◌, ◌≤◌, drop, length, take};
ghost use Rattle.model.specs.Sets.{used};
ghost use Rattle.document.specs.ForC.{bounds_row, bounds_rows, table_after, table_answer, table_fault};
ghost use Rattle.delay.specs.AllBounds.{AllBoundsOf};
ghost use Rattle.planner.specs.BeforeStep.{PassesIfRead};
ghost use Rattle.superframe_table.specs.SetFaults.{unless};

use delay::AllBounds;
use model::{Bounds, Fault, FlowSet, Reading, Refusal, Written};

// How many numbers a row has: C, basic bound, tightened bound, deadline.
const ROW: usize = 4;

// A flow's row.
fn row_of(b: Bounds) -> [u32; ROW]
    ensures { result ≡ bounds_row b }
{
    [b.work, b.basic, b.tightened, u32::from(b.deadline.0)]
}

// A flow's row from a place on.
fn put_row(table: &mut [u32], at: usize, b: Bounds)
    requires { at + 4 ≤ length table.old }
    ensures { table.new ≡ take at table.old ++ bounds_row b ++ drop (at + 4) table.old }
{
    table[at..at + ROW].copy_from_slice(&row_of(b));
}

// The rows of a set's flows at the table's start, from the bounds of all flows.
fn put_rows(table: &mut [u32], s: FlowSet, all: AllBounds)
    requires { AllBoundsOf (used s) all × (4 * s.count ≤ length table.old) }
    ensures { table.new ≡ bounds_rows (used s) s.count ++ drop (4 * s.count) table.old }
{
    for k in 0..s.count {
        let b = all.bounds(&s, k);
        put_row(table, ROW * (k as usize), b);
    }
}

// The rows of the set that was read, the rounds made once; or the reader's refusal, or 10 where there is no room for them. A refusal changes nothing.
// A set that the reader accepts passes the record check, so it is not checked again.
pub fn table_of_reading(reading: Reading, table: &mut [u32]) -> Result<Written, Fault>
    requires { PassesIfRead reading }
    ensures value { result ≡ unless (table_fault reading (length table.old)) (table_answer reading (length table.old)) }
    ensures table_after_is { table.new ≡ table_after reading table.old }
{
    reading.fault.check()?;
    let set = reading.set;
    let n = ROW * (set.count as usize);
    if table.len() < n {
        return Err(Fault::of(Refusal::NoRoom));
    }
    put_rows(table, set, delay::bounds_of_accepted(set));
    Ok(Written {
        fault: Fault::none(),
        length: n,
    })
}
