// The writer: the record check first, then the buffer's room, then the text and nothing else. What holds of a set's text that is read and
// written stands in specs/RoundTrip.antt and proofs/RoundTrip.antt.
ghost use Rattle.std.specs.Prelude.{◌≡◌, ◌+◌, ◌-◌, ◌≤◌, min, true, length, map, take, nat_le};
ghost use Rattle.document.specs.Reader.{ReadAgain, flow_lines, flow_numbers, record_fault, text_of, write_answer, write_into};
ghost use Rattle.model.specs.Refusals.{good};
ghost use Rattle.model.specs.Sets.{exact, used};
ghost use Rattle.document.specs.Text.{flow_word, line_of};
ghost use Rattle.text.specs.Put.{Put, last_place};
ghost use Rattle.text.specs.ReadThenWritten.{longest_text};
ghost use Rattle.text.specs.WriteRoom.{room_answer, room_into};

use crate::put;
use model::{Fault, Flow, FlowSet, Refusable, Refusal, Written};

// The bytes of the longest text of a set that passes the record check.
const LONGEST: usize = 8138;

type Numbers = [u32; 4 + Flow::MOST_NODES];

// A flow's numbers in the order of its line, all the nodes of its array among them.
fn flow_numbers(f: &Flow) -> Numbers
    ensures { result ≡ flow_numbers f.now }
{
    let mut numbers = [0u32; 4 + Flow::MOST_NODES];
    numbers[0] = f.period.0 as u32;
    numbers[1] = f.deadline.0 as u32;
    numbers[2] = f.start as u32;
    numbers[3] = f.tries as u32;
    for (i, node) in f.route.iter().enumerate() {
        numbers[4 + i] = *node as u32;
    }
    numbers
}

// A flow's line: its four numbers and its nodes, none beyond the array.
fn put_flow(out: &mut [u8], at: usize, f: &Flow) -> usize
    ensures { Put out.old at (line_of flow_word (flow_numbers (exact f.now))) out.new result }
{
    let nodes = (f.nodes as usize).min(Flow::MOST_NODES);
    put::put_line(out, at, b"flow", &flow_numbers(f)[..4 + nodes])
}

// The flows that count: none beyond the array.
fn first_flows(flows: &[Flow], count: u16) -> &[Flow]
    ensures { result.now ≡ take count flows.now }
{
    &flows[..flows.len().min(count as usize)]
}

// The lines of flows.
fn put_flows(out: &mut [u8], at: usize, flows: &[Flow]) -> usize
    ensures { Put out.old at (flow_lines (map exact flows.now)) out.new result }
{
    let mut place = at;
    for f in flows {
        place = put_flow(out, place, f);
    }
    place
}

// A set's text from a place on, as far as the buffer goes; the answer is the place after it.
fn put_set(out: &mut [u8], at: usize, s: &FlowSet) -> usize
    ensures { Put out.old at (text_of (used s.now)) out.new result }
{
    let place = put::put_line(out, at, b"set", &[s.map.0 as u32]);
    put_flows(out, place, first_flows(&s.flows, s.count))
}

// The length of a set's text: it is put where the buffer ends, so that nothing is stored.
fn text_length(out: &mut [u8], s: &FlowSet) -> usize
    ensures { (out.new ≡ out.old)
        × (result ≡ min (length (text_of (used s.now))) (last_place - length out.old)) }
{
    let end = out.len();
    put_set(out, end, s) - end
}

// Whether a buffer has room for a set's text. One that is as long as the longest text has room for any; for a shorter one the text is
// measured first.
fn has_room(out: &mut [u8], s: &FlowSet) -> bool
    requires { length (text_of (used s.now)) ≤ longest_text }
    ensures { (out.new ≡ out.old)
        × (result ≡ nat_le (length (text_of (used s.now))) (length out.old)) }
{
    if LONGEST <= out.len() {
        return true;
    }
    let n = text_length(out, s);
    n <= out.len()
}

// Writes a set's text into the buffer, unless the room refuses it.
fn write_text(s: &FlowSet, out: &mut [u8]) -> Written
    requires { length (text_of (used s.now)) ≤ longest_text }
    ensures { (result ≡ room_answer (text_of (used s.now)) (length out.old))
        × (out.new ≡ room_into (text_of (used s.now)) out.old) }
{
    if has_room(out, s) {
        return Written {
            fault: Fault::none(),
            length: put_set(out, 0, s),
        };
    }
    Written::refused(Fault::of(Refusal::NoRoom))
}

// Writes a set's text into the buffer, unless the record check or the room refuses it. The text of a record that passes the check,
// read again, is the same set.
pub fn write(s: FlowSet, out: &mut [u8]) -> Written
    ensures answer { result ≡ write_answer (used s) (length out.old) }
    ensures bytes { out.new ≡ write_into (used s) out.old }
    ensures again { good (record_fault (used s)).refusal ≡ true → ReadAgain s }
{
    match rules::record_fault(s) {
        Ok(()) => write_text(&s, out),
        Err(fault) => Written::refused(fault),
    }
}
