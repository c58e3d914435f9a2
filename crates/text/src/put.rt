// What is put into a lent buffer from a place on: bytes, numbers, lines, among them the `refused` line and the `send` lines. Bytes beyond the
// buffer's end are left out, and the answer is the place after them all the same, so that a text's length is found by putting it into any
// buffer from place 0.
ghost use Rattle.std.specs.Prelude.{◌≡◌, ◌+◌, ◌≤◌, min, [], ◌∷◌, take};
ghost use Rattle.text.specs.Put.{Put, fields_of, last_place};
ghost use Rattle.document.specs.Text.{decimal, line_of};
ghost use Rattle.document.specs.Program.{refused_word, send_lines, send_numbers, send_word};
ghost use Rattle.model.specs.Limits.{most_channels};

use crate::digits::{put_at, put_digits};
use model::{ChannelMap, Send};

// The place n bytes on, or the last place that there is.
fn advance(at: usize, n: usize) -> usize
    ensures { result ≡ min (at + n) last_place }
{
    at.saturating_add(n)
}

// One byte.
// Kept: a buffer and a place as two parameters, since other crates call `put_byte`, `put_line`, `put_row` and their kin so, with these clauses.
pub fn put_byte(out: &mut [u8], at: usize, b: u8) -> usize
    ensures { Put out.old at (b ∷ []) out.new result }
{
    put_at(out, at, b);
    advance(at, 1)
}

// A number, decimal and without leading zero.
pub fn put_number(out: &mut [u8], at: usize, v: u32) -> usize
    ensures { Put out.old at (decimal v) out.new result }
{
    let n = put_digits(out, at, v);
    advance(at, n)
}

// A word. Kept: a loop here and wherever things are put one after the other, and no `fold`: a closure that captures the buffer says nothing of it afterwards.
pub fn put_word(out: &mut [u8], at: usize, word: &[u8]) -> usize
    ensures { Put out.old at word.now out.new result }
{
    let mut place = at;
    for b in word {
        place = put_byte(out, place, *b);
    }
    place
}

// A number after its tab.
pub fn put_field(out: &mut [u8], at: usize, v: u32) -> usize
    ensures { Put out.old at (9 ∷ decimal v) out.new result }
{
    let place = put_byte(out, at, 9);
    put_number(out, place, v)
}

// Numbers, each after its tab.
pub fn put_fields(out: &mut [u8], at: usize, numbers: &[u32]) -> usize
    ensures { Put out.old at (fields_of numbers.now) out.new result }
{
    let mut place = at;
    for v in numbers {
        place = put_field(out, place, *v);
    }
    place
}

// A line: a word, numbers, each after its tab, and LF.
pub fn put_line(out: &mut [u8], at: usize, word: &[u8], numbers: &[u32]) -> usize
    ensures { Put out.old at (line_of word.now numbers.now) out.new result }
{
    let first = put_word(out, at, word);
    let end = put_fields(out, first, numbers);
    put_byte(out, end, 10)
}

// The line of a refusal: its number, the text's line and that line's field. That a fault's line and field fit 32 bits is the caller's to show.
pub fn put_refused(out: &mut [u8], at: usize, refusal: u32, line: u32, field: u32) -> usize
    ensures { Put out.old at (line_of refused_word (refusal ∷ line ∷ field ∷ [])) out.new result }
{
    let numbers = [refusal, line, field];
    put_line(out, at, b"refused", &numbers)
}

// The line of one send.
fn put_send(out: &mut [u8], at: usize, x: Send) -> usize
    ensures { Put out.old at (line_of send_word (send_numbers x)) out.new result }
{
    let numbers = [
        x.slot.0,
        x.flow as u32,
        x.from as u32,
        x.to as u32,
        x.attempt as u32,
        x.channel as u32,
    ];
    put_line(out, at, b"send", &numbers)
}

// The lines of the first n sends. Kept: an array and a count, as a slot's answer has them, with the contract that callers know.
pub fn put_sends(out: &mut [u8], at: usize, sent: [Send; ChannelMap::MOST], n: u16) -> usize
    ensures { Put out.old at (send_lines (take n sent)) out.new result }
{
    let m = (n as usize).min(ChannelMap::MOST);
    let mut place = at;
    for x in &sent[..m] {
        place = put_send(out, place, *x);
    }
    place
}
