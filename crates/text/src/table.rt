// A table's lines, as they are read. Every line is judged and counted first; only then, and only if nothing is refused, its numbers are stored
// in the lent table.
ghost use Rattle.std.specs.Prelude.{◌≡◌, ◌+◌, ◌-◌, ◌*◌, ◌/◌, ◌<◌, ◌≤◌, true, length, drop, ◌==◌, slice_index};
ghost use Rattle.model.specs.Refusals.{checked, fault_at, good, number_says};
ghost use Rattle.model.specs.declared.answers.Refusal.TheVariants.{BadForm};
ghost use Rattle.document.specs.Superframe.{at_start, flat, form_fault, read_table_answer, read_table_into, rows_of_text};
ghost use Rattle.text.specs.EndedNumbers.{Sees, digits_in, end_if, field_in, field_said};
ghost use Rattle.text.specs.RowAtPlace.{found_in, row_said, row_says};
ghost use Rattle.text.specs.LinesJudged.{judges, key_of};
ghost use Rattle.text.specs.TableRead.{room_fault, rows_read};

use crate::line;
use model::{Fault, Refusable, Refusal, Tabled};

// The byte at a place less that of digit 0: below 10 for a digit alone. Kept: a test of the place, as in line::look_at.
fn digit_at(s: &[u8], at: usize) -> u8
    ensures { Sees s.now at result }
{
    if at < s.len() {
        s[at].wrapping_sub(b'0')
    } else {
        10
    }
}

// A number of this value, if the byte at a place is the one that is to end it.
fn ended_by(s: &[u8], at: usize, stop: u8, v: u16) -> Option<(u16, usize)>
    requires { 9 ≤ stop }
    ensures { result ≡ end_if (slice_index s.now at == stop) v at }
{
    if line::byte_at(s, at) == stop {
        return Some((v, at + 1));
    }
    None
}

// The digits from a place on, after those of this value, ended by a tab or an LF as is asked.
// Kept: beside line::number_at, since here the byte that ends the number is asked for, and the edits row_above_65535 and row_leading_zero
// make these two functions wrong and not that one.
fn digits_to(s: &[u8], from: usize, value: u32, stop: u8) -> Option<(u16, usize)>
    requires { (value ≤ 65535) × (9 ≤ stop) × (stop ≤ 10) }
    ensures { result ≡ digits_in stop value from (drop from s.now) }
{
    let mut i = from;
    let mut v = value;
    let mut d = digit_at(s, i);
    // Kept: a while loop, since the bytes say where the number ends.
    while d < 10 {
        v = v * 10 + (d as u32);
        if 65535 < v {
            return None;
        }
        i += 1;
        d = digit_at(s, i);
    }
    ended_by(s, i, stop, v as u16)
}

// The number at a place, ended by a tab or an LF as is asked; a leading zero stands alone.
fn field_at(s: &[u8], from: usize, stop: u8) -> Option<(u16, usize)>
    requires { (9 ≤ stop) × (stop ≤ 10) }
    ensures answer { result ≡ field_in stop from (drop from s.now) }
    ensures says { number_says result ≡ field_said stop from (drop from s.now) }
{
    let lead = digit_at(s, from);
    if 9 < lead {
        return None;
    }
    if lead == 0 {
        return ended_by(s, from + 1, stop, 0);
    }
    digits_to(s, from + 1, lead as u32, stop)
}

// The row at a place: four numbers, the last of them ended by LF. The answer is its slot, its offset and the place of the next line.
fn row_at(s: &[u8], from: usize) -> Option<(u16, u16, usize)>
    ensures answer { result ≡ found_in from (drop from s.now) }
    ensures says { row_says result ≡ row_said from (drop from s.now) }
{
    let Some((slot, second)) = field_at(s, from, 9) else {
        return None;
    };
    let Some((_, third)) = field_at(s, second, 9) else {
        return None;
    };
    let Some((_, fourth)) = field_at(s, third, 9) else {
        return None;
    };
    let Some((offset, next)) = field_at(s, fourth, 10) else {
        return None;
    };
    Some((slot, offset, next))
}

// Slot and offset as one number, which rises as they do.
// Kept: a number and not the pair, since none is before the first row: 0 is below every key, where pairs would need an Option of one.
fn key_of(slot: u16, offset: u16) -> u64
    ensures { (result ≡ key_of slot offset) × (result ≤ 4294967295) }
{
    u64::from(slot) * 65536 + u64::from(offset)
}

// The fault of a line that lacks the form or does not rise, behind so many rows.
fn bad_after(rows: usize) -> Fault
    requires { rows < 18446744073709551615 }
    ensures { result ≡ fault_at BadForm (rows + 1) }
{
    Fault {
        refusal: Refusal::BadForm,
        line: rows + 1,
        field: 0,
    }
}

// The lines of a text, judged one after the other: first the form, then whether slot and offset rise above those of the line before. The answer
// is how many rows there are, or the fault of the first that is bad.
fn judge_lines(text: &[u8]) -> Result<usize, Fault>
    ensures { result ≡ judges text.now }
{
    let mut at = 0usize;
    let mut rows = 0usize;
    let mut least: u64 = 0;
    // Kept: a while loop, since each line says where the next one begins.
    while at < text.len() {
        let Some((slot, offset, next)) = row_at(text, at) else {
            return Err(bad_after(rows));
        };
        let key = key_of(slot, offset);
        if key < least {
            return Err(bad_after(rows));
        }
        least = key + 1;
        rows += 1;
        at = next;
    }
    Ok(rows)
}

// The value v with one digit more.
fn with_digit(v: u32, b: u8) -> u32
    requires { (v ≤ 65535) × (48 ≤ b) }
    ensures { result ≡ v * 10 + (b - 48) }
{
    v * 10 + u32::from(b - b'0')
}

// Stores the numbers of an accepted text in their order: a byte below `0` is the tab or the LF that ends one, any other is a digit.
// Kept: a place in the table that is counted on, since a number ends where its bytes say.
fn store_numbers(text: &[u8], table: &mut [u16])
    requires { (good (form_fault text.now).refusal ≡ true) × (length (flat (rows_of_text text.now)) ≤ length table.old) }
    ensures { table.new ≡ at_start (flat (rows_of_text text.now)) table.old }
{
    let mut i = 0usize;
    let mut v: u32 = 0;
    for b in text {
        if *b < b'0' {
            table[i] = v as u16;
            i += 1;
            v = 0;
        } else {
            v = with_digit(v, *b);
        }
    }
}

// 10 for more rows than there is room for.
fn room_fault(room: usize, rows: usize) -> Result<(), Fault>
    ensures { result ≡ checked (room_fault room rows) }
{
    if room < rows {
        return Err(Fault::of(Refusal::NoRoom));
    }
    Ok(())
}

// How many rows a text has, if neither its lines are refused nor, by 10, more rows than there is room for.
fn rows_read(text: &[u8], room: usize) -> Result<usize, Fault>
    ensures { result ≡ rows_read text.now room }
{
    let rows = judge_lines(text)?;
    room_fault(room / Tabled::ROW, rows)?;
    Ok(rows)
}

// The table in `text`, its numbers at the start of `table`: 1 with the first line that lacks the form or does not rise, then 10. A refusal
// changes nothing.
pub fn read_table(text: &[u8], table: &mut [u16]) -> Tabled
    ensures value { result ≡ read_table_answer text.now (length table.old) }
    ensures table_after_is { table.new ≡ read_table_into text.now table.old }
{
    match rows_read(text, table.len()) {
        Ok(rows) => {
            store_numbers(text, table);
            Tabled {
                fault: Fault::none(),
                hyper: 0,
                numbers: rows * Tabled::ROW,
            }
        }
        Err(fault) => Tabled::refused(fault),
    }
}
