// What the writer puts into lent memory, a byte, a number, a line, each called twice.
ghost use Rattle.std.specs.Prelude.{◌≡◌};

use model::{ChannelMap, Send};

pub fn put_byte(x: &mut [u8], y: &mut [u8], at: usize, b: u8) -> (usize, usize)
    ensures { (x.old ≡ y.old) → ((result.0 ≡ result.1) × (x.new ≡ y.new)) }
{
    (text::put_byte(x, at, b), text::put_byte(y, at, b))
}

pub fn put_number(x: &mut [u8], y: &mut [u8], at: usize, v: u32) -> (usize, usize)
    ensures { (x.old ≡ y.old) → ((result.0 ≡ result.1) × (x.new ≡ y.new)) }
{
    (text::put_number(x, at, v), text::put_number(y, at, v))
}

pub fn put_word(x: &mut [u8], y: &mut [u8], at: usize, word: &[u8]) -> (usize, usize)
    ensures { (x.old ≡ y.old) → ((result.0 ≡ result.1) × (x.new ≡ y.new)) }
{
    (text::put_word(x, at, word), text::put_word(y, at, word))
}

pub fn put_field(x: &mut [u8], y: &mut [u8], at: usize, v: u32) -> (usize, usize)
    ensures { (x.old ≡ y.old) → ((result.0 ≡ result.1) × (x.new ≡ y.new)) }
{
    (text::put_field(x, at, v), text::put_field(y, at, v))
}

pub fn put_fields(x: &mut [u8], y: &mut [u8], at: usize, numbers: &[u32]) -> (usize, usize)
    ensures { (x.old ≡ y.old) → ((result.0 ≡ result.1) × (x.new ≡ y.new)) }
{
    (
        text::put_fields(x, at, numbers),
        text::put_fields(y, at, numbers),
    )
}

pub fn put_line(
    x: &mut [u8],
    y: &mut [u8],
    at: usize,
    word: &[u8],
    numbers: &[u32],
) -> (usize, usize)
    ensures { (x.old ≡ y.old) → ((result.0 ≡ result.1) × (x.new ≡ y.new)) }
{
    (
        text::put_line(x, at, word, numbers),
        text::put_line(y, at, word, numbers),
    )
}

pub fn put_refused(
    x: &mut [u8],
    y: &mut [u8],
    at: usize,
    refusal: u32,
    line: u32,
    field: u32,
) -> (usize, usize)
    ensures { (x.old ≡ y.old) → ((result.0 ≡ result.1) × (x.new ≡ y.new)) }
{
    (
        text::put_refused(x, at, refusal, line, field),
        text::put_refused(y, at, refusal, line, field),
    )
}

pub fn put_sends(
    x: &mut [u8],
    y: &mut [u8],
    at: usize,
    sent: [Send; ChannelMap::MOST],
    n: u16,
) -> (usize, usize)
    ensures { (x.old ≡ y.old) → ((result.0 ≡ result.1) × (x.new ≡ y.new)) }
{
    (
        text::put_sends(x, at, sent, n),
        text::put_sends(y, at, sent, n),
    )
}

pub fn put_row(
    x: &mut [u8],
    y: &mut [u8],
    at: usize,
    slot: u32,
    flow: u32,
    number: u32,
    offset: u32,
) -> (usize, usize)
    ensures { (x.old ≡ y.old) → ((result.0 ≡ result.1) × (x.new ≡ y.new)) }
{
    (
        text::put_row(x, at, slot, flow, number, offset),
        text::put_row(y, at, slot, flow, number, offset),
    )
}
