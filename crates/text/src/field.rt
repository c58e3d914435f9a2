// The field that a refusal of a line names. A line's fields are what one tab parts, up to its LF or the text's end; they are counted from 1, and 0
// names none. Only a line that is refused is gone over again, from its place, by functions that are kept out of the quick loop.
// Kept: 0 for none, and no `Option`, since the definitions `bad_field` and `field_of` count fields so, and C is answered the same.
ghost use Rattle.std.specs.Prelude.{◌≡◌, ◌≤◌, [], drop};
ghost use Rattle.model.specs.Limits.{most_nodes};
ghost use Rattle.document.specs.Text.{same};
ghost use Rattle.document.specs.BadField.{bad_field, breaks_first, breaks_flow, field_of, first_breaking};
ghost use Rattle.text.specs.Places.{first, more};
ghost use Rattle.text.specs.RowFaults.{first_bad, row_repeat};

use crate::line::{Row, after_word, byte_at, look_at, number_at};
use model::Refusal;

// Where a flow line has its tries.
const TRIES_FIELD: usize = 5;

// Where its nodes begin.
const NODES_FIELD: usize = 6;

// Whether the field at a place is this word: the word's bytes, and then no other byte of a field.
fn is_word(s: &[u8], from: usize, word: &[u8]) -> bool
    ensures { result ≡ same (first (drop from s.now)) word.now }
{
    match after_word(s, from, word) {
        Some(at) => look_at(s, at) == 10,
        None => false,
    }
}

// The first field that is no number, from the second on, where the first ends at this place; 0 where all are numbers, however many.
fn bad_number(s: &[u8], from: usize) -> usize
    requires { first (drop from s.now) ≡ [] }
    ensures { result ≡ first_breaking breaks_flow 2 (more (drop from s.now)) }
{
    let mut field = 1usize;
    let mut i = from;
    // Kept: a while loop, since each number says where the next one begins.
    while byte_at(s, i) == 9 {
        field += 1;
        let Some((_, next)) = number_at(s, i + 1) else {
            return field;
        };
        i = next;
    }
    0
}

// The first field that breaks the form of the flow line at a place; its word has four bytes.
fn flow_bad(s: &[u8], at: usize) -> usize
    ensures { result ≡ bad_field breaks_flow (drop at s.now) }
{
    if is_word(s, at, b"flow") {
        bad_number(s, at + 4)
    } else {
        1
    }
}

// The first field that breaks the form of the first line, from the second on, where the word ends at this place: no number, or one too many.
fn bad_map(s: &[u8], from: usize) -> usize
    requires { first (drop from s.now) ≡ [] }
    ensures { result ≡ first_breaking breaks_first 2 (more (drop from s.now)) }
{
    if byte_at(s, from) != 9 {
        return 0;
    }
    let Some((_, next)) = number_at(s, from + 1) else {
        return 2;
    };
    match byte_at(s, next) {
        9 => 3,
        _ => 0,
    }
}

// The first field that breaks the form of the first line; an empty text has none.
fn first_bad(s: &[u8]) -> usize
    ensures { result ≡ first_bad s.now }
{
    if s.len() == 0 {
        return 0;
    }
    if is_word(s, 0, b"set") {
        return bad_map(s, 3);
    }
    1
}

// The place of the first node of a row that equals the one just before it; 0 where there is no row.
fn repeat_in(row: Option<Row>) -> usize
    ensures { (result ≡ row_repeat row) × (result ≤ most_nodes) }
{
    match row {
        Some(row) if 4 <= row.count => rules::repeat_at(row.route(), row.count - 4),
        _ => 0,
    }
}

// The field of each refusal, from the first field that breaks the form and the place of the first node that equals the one just before it.
fn field_of(refusal: Refusal, bad: usize, equal: usize) -> usize
    requires { equal ≤ most_nodes }
    ensures { result ≡ field_of refusal bad equal }
{
    match refusal {
        Refusal::BadForm => bad,
        Refusal::NoChannel => 2,
        Refusal::TooManyFlows => 1,
        Refusal::BadPeriod => 2,
        Refusal::BadDeadline => 3,
        Refusal::BadTries => TRIES_FIELD,
        Refusal::EqualNeighbours => NODES_FIELD + equal,
        _ => 0,
    }
}

// The field of the first line's refusal.
#[cold]
#[inline(never)]
pub fn first_field(s: &[u8], refusal: Refusal) -> usize
    ensures { result ≡ field_of refusal (first_bad s.now) 0 }
{
    field_of(refusal, first_bad(s), 0)
}

// The field of the refusal of the flow line at a place.
#[cold]
#[inline(never)]
pub fn flow_field(s: &[u8], at: usize, refusal: Refusal, row: Option<Row>) -> usize
    ensures { result ≡ field_of refusal (bad_field breaks_flow (drop at s.now)) (row_repeat row) }
{
    field_of(refusal, flow_bad(s, at), repeat_in(row))
}
