// A table's lines: the room is measured first, then the lines are written and nothing else. A row is four numbers of the lent table; up to three
// numbers left over don't count.
ghost use Rattle.std.specs.Prelude.{◌≡◌, ◌≤◌, [], ◌∷◌, length, nat_le};
ghost use Rattle.document.specs.Superframe.{row_line, row_lines, rows_of, write_table_answer, write_table_into};
ghost use Rattle.text.specs.Put.{Put};

use crate::digits::width_to_five;
use crate::put::{put_byte, put_field, put_number};
use model::{Fault, Refusable, Refusal, Tabled, Written};

// The line of a row: four numbers parted by tabs, and LF.
pub fn put_row(out: &mut [u8], at: usize, slot: u32, flow: u32, number: u32, offset: u32) -> usize
    ensures { Put out.old at (row_line (slot ∷ flow ∷ number ∷ offset ∷ [])) out.new result }
{
    let first = put_number(out, at, slot);
    let second = put_field(out, first, flow);
    let third = put_field(out, second, number);
    let last = put_field(out, third, offset);
    put_byte(out, last, 10)
}

// The line of a table's row.
fn put_row_of(out: &mut [u8], at: usize, row: &[u16; Tabled::ROW]) -> usize
    ensures { Put out.old at (row_line row.now) out.new result }
{
    let [slot, flow, number, offset] = *row;
    put_row(
        out,
        at,
        u32::from(slot),
        u32::from(flow),
        u32::from(number),
        u32::from(offset),
    )
}

// The lines of a table's rows from the buffer's start on.
fn put_rows(out: &mut [u8], table: &[u16]) -> usize
    ensures { Put out.old 0 (row_lines (rows_of table.now)) out.new result }
{
    let mut place = 0usize;
    for row in table.as_chunks().0 {
        place = put_row_of(out, place, row);
    }
    place
}

// How many bytes the line of a row has.
fn line_length(row: &[u16; Tabled::ROW]) -> usize
    ensures { (result ≡ length (row_line row.now)) × (result ≤ 24) }
{
    let [slot, flow, number, offset] = *row;
    let first = width_to_five(slot as u32) + width_to_five(flow as u32);
    first + width_to_five(number as u32) + width_to_five(offset as u32) + 4
}

// Whether a table's lines have room. It ends at the line that has none: the lines of a huge table could be longer than any number.
fn lines_fit(table: &[u16], room: usize) -> bool
    ensures { result ≡ nat_le (length (row_lines (rows_of table.now))) room }
{
    let mut left = room;
    for row in table.as_chunks().0 {
        let n = line_length(row);
        if left < n {
            return false;
        }
        left -= n;
    }
    true
}

// Writes a table's lines into the buffer, unless the room refuses them.
pub fn write_table(table: &[u16], out: &mut [u8]) -> Written
    ensures value { result ≡ write_table_answer table.now (length out.old) }
    ensures out_after { out.new ≡ write_table_into table.now out.old }
{
    if lines_fit(table, out.len()) {
        let length = put_rows(out, table);
        let fault = Fault::none();
        return Written { fault, length };
    }
    Written::refused(Fault::of(Refusal::NoRoom))
}
