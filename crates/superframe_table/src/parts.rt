// The lines of a table part by part, for a program that has no array of the whole table. A part is the lines of as many whole slots as surely fit into a
// lent buffer, from a state on; the next part begins with the state that it answers.
ghost use Rattle.std.specs.Prelude.{◌≡◌, ◌-◌, ◌/◌, min, length};
ghost use Rattle.model.specs.Sets.{used};
ghost use Rattle.document.specs.Machine.{count_at};
ghost use Rattle.document.specs.Superframe.{at_start, row_line, row_lines};
ghost use Rattle.text.specs.Put.{Put};
ghost use Rattle.superframe_table.specs.Parts.{most_slot, part_of, part_slots, part_text, send_row, send_rows};

use model::{FlowSet, Send, State};

// The state after a part's last slot, and how many bytes of the lent buffer are its lines.
#[derive(Clone, Copy)]
pub struct Part {
    pub state: State,
    pub length: usize,
}

impl Part {
    // No slot has more bytes: 16 lines of at most 20, a slot of ten digits, three numbers of two, and a tab or the LF after each.
    pub const MOST_SLOT: usize = 320;
}

// The number of the transmission that a flow has made in the slot before this state: its count less 1.
fn last_number(st: State, flow: u16) -> u32
    ensures { result ≡ count_at st flow - 1 }
{
    match st.sent.get(flow as usize) {
        Some(count) => u32::from(count.saturating_sub(1)),
        None => 0,
    }
}

// The line of the row of a send; the state is the one after its slot.
fn put_send_row(out: &mut [u8], at: usize, x: Send, next: State) -> usize
    ensures { Put out.old at (row_line (send_row next x)) out.new result }
{
    let number = last_number(next, x.flow);
    text::put_row(out, at, x.slot.0, x.flow as u32, number, x.offset as u32)
}

// The lines of the rows of a slot's sends; the state is the one after the slot.
fn put_slot_rows(out: &mut [u8], at: usize, sent: &[Send], next: State) -> usize
    ensures { Put out.old at (row_lines (send_rows next sent.now)) out.new result }
{
    let mut place = at;
    for x in sent {
        place = put_send_row(out, place, *x, next);
    }
    place
}

// How many slots a part has: as many as surely fit, and none from the hyper-period on.
fn slots_of(hyper: u32, slot: u32, room: usize) -> usize
    ensures { result ≡ min (hyper - slot) (room / most_slot) }
{
    let left = hyper.saturating_sub(slot) as usize;
    left.min(room / Part::MOST_SLOT)
}

// The lines of the slots from a state on, as many as surely fit, at the buffer's start; its further bytes stay.
pub fn superframe_part(s: FlowSet, st: State, hyper: u32, out: &mut [u8]) -> Part
    ensures value { result ≡ part_of (used s) st (part_slots hyper st (length out.old)) }
    ensures out_after { out.new ≡ at_start (part_text (used s) st (part_slots hyper st (length out.old))) out.old }
{
    let n = slots_of(hyper, st.slot.0, out.len());
    let mut state = st;
    let mut place = 0usize;
    for _made in 0..n {
        let stepped = machine::step(s, state);
        let sent = &stepped.sent[..stepped.sends as usize];
        place = put_slot_rows(out, place, sent, stepped.next);
        state = stepped.next;
    }
    Part {
        state,
        length: place,
    }
}
