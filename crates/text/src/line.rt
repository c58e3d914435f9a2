// Lines of words and decimal numbers parted by tabs, as they are read: document 01's text, for every file and log that keeps these
// rules. First a byte of a number and the answer to its digits, then the number at a place of a text, then the line.
ghost use Rattle.std.specs.Prelude.{◌≡◌, ◌≤◌, [], drop, slice_index};
ghost use Rattle.text.specs.Places.{first, look_at, look_byte};
ghost use Rattle.text.specs.NumberAnswers.{number_in, number_of, said_of};
ghost use Rattle.model.specs.Refusals.{number_says};
ghost use Rattle.text.specs.Row.{row_in};
ghost use Rattle.text.specs.RowFaults.{nodes_of};
ghost use Rattle.text.specs.Rows.{begins, is_byte, word_in};

use model::Flow;

// A digit by its value, a tab or an LF by 10, any other byte by 11.
// Kept: numbers for the kinds of byte, so that `d < 10` alone goes on with a number; an enum's digit would be taken out of it each time.
#[tactic(auto, using(std::proofs::lemmas::Bool::Decides::nat_tests), unfolding(crate::specs::Places::look_byte))]
fn look_byte(b: u8) -> u32
    ensures { (result ≡ look_byte b) × (result ≤ 11) }
{
    if b.is_ascii_digit() {
        return u32::from(b - b'0');
    }
    if b == b'\t' || b == b'\n' { 10 } else { 11 }
}

// The answer to digits from one place to another that have this value: none is no number, and a leading zero stands alone.
fn number_of(lead: u8, from: usize, end: usize, v: u16) -> Option<(u16, usize)>
    ensures { result ≡ number_of lead from end v }
{
    if end <= from {
        return None;
    }
    if end - from == 1 {
        return Some((v, end));
    }
    if lead == 48 {
        return None;
    }
    Some((v, end))
}

// The byte at a place, 0 beyond the end.
pub fn byte_at(s: &[u8], at: usize) -> u8
    ensures { result ≡ slice_index s.now at }
{
    s.get(at).copied().unwrap_or(0)
}

// How the byte at a place goes on with a number; the text's end ends it. Kept: a test of the place, since with `get` and a closure the proof stays open.
pub fn look_at(s: &[u8], at: usize) -> u32
    ensures { (result ≡ look_at (drop at s.now)) × (result ≤ 11) }
{
    if at < s.len() { look_byte(s[at]) } else { 10 }
}

// No number has more digits.
const MOST_DIGITS: usize = 5;

// The number at a place: decimal, without sign or leading zero, at most 65,535, ended by a tab, an LF or the text's end. Its digits are counted as
// they come and its value is tested once, behind them: that is quicker than a test of the value at each digit. It stands in each loop that calls
// it, which takes an eighth less time.
#[inline(always)]
pub fn number_at(s: &[u8], from: usize) -> Option<(u16, usize)>
    ensures answer { result ≡ number_in from (first (drop from s.now)) }
    ensures says { number_says result ≡ said_of from (first (drop from s.now)) }
{
    let mut i = from;
    let mut v: u32 = 0;
    let mut d = look_at(s, i);
    // Kept: a while loop, since the bytes say where the number ends, and that place is answered.
    while d < 10 {
        if MOST_DIGITS <= i - from {
            return None;
        }
        v = v * 10 + d;
        i += 1;
        d = look_at(s, i);
    }
    if d == 11 {
        return None;
    }
    if 65535 < v {
        return None;
    }
    number_of(byte_at(s, from), from, i, v as u16)
}

// A line of the form: how many numbers, the first of them, and the place of the next line. Kept: a count beside the numbers, since further numbers are
// counted and not kept.
#[derive(Clone, Copy)]
pub struct Row {
    pub count: usize,
    pub numbers: [u16; Row::MOST],
    pub next: usize,
}

impl Row {
    // A flow's line has four numbers and then its nodes. Further numbers are counted and not kept.
    pub const MOST: usize = 4 + Flow::MOST_NODES;

    // The nodes among a flow line's numbers.
    pub fn route(&self) -> [u16; Flow::MOST_NODES]
        ensures { result ≡ nodes_of self.now.numbers }
    {
        let mut route = [0u16; Flow::MOST_NODES];
        route.copy_from_slice(&self.numbers[4..]);
        route
    }
}

// The rest of a line from a place on: numbers, each after a tab, and the LF. A bad number ends it at once; any other fault is
// found at its end.
fn numbers_at(s: &[u8], from: usize) -> Option<Row>
    ensures { result ≡ row_in [] from (drop from s.now) }
{
    let mut numbers = [0u16; Row::MOST];
    let mut count = 0usize;
    let mut i = from;
    // Kept: a while loop, since each number says where the next one begins.
    while byte_at(s, i) == 9 {
        let Some((v, next)) = number_at(s, i + 1) else {
            return None;
        };
        if count < Row::MOST {
            numbers[count] = v;
        }
        count += 1;
        i = next;
    }
    if byte_at(s, i) == 10 {
        return Some(Row {
            count,
            numbers,
            next: i + 1,
        });
    }
    None
}

// Whether byte b is byte c of a word: a tab or an LF is of no word. Kept: no `starts_with`, which would find them in a word that has them.
fn is_byte(b: u8, c: u8) -> bool
    ensures { result ≡ is_byte b c }
{
    b != 10 && b != 9 && b == c
}

// Whether byte c of a word stands at a place.
pub fn begins(s: &[u8], at: usize, c: u8) -> bool
    ensures { result ≡ begins c (drop at s.now) }
{
    at < s.len() && is_byte(s[at], c)
}

// The place behind a word, if it stands at this one. It stands in its callers, since a call for each line costs.
#[inline(always)]
pub fn after_word(s: &[u8], from: usize, word: &[u8]) -> Option<usize>
    ensures { result ≡ word_in word.now from (drop from s.now) }
{
    let mut at = from;
    for c in word {
        if !begins(s, at, *c) {
            return None;
        }
        at += 1;
    }
    Some(at)
}

// The line at a place: this word, then numbers, each after a tab, and the LF.
pub fn line_at(s: &[u8], from: usize, word: &[u8]) -> Option<Row>
    ensures { result ≡ row_in word.now from (drop from s.now) }
{
    numbers_at(s, after_word(s, from, word)?)
}
