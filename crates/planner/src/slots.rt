// One slot for C: what is refused before the step, and the step's answer written into the two lent buffers.
ghost use Rattle.std.specs.Prelude.{◌≡◌, length, take};
ghost use Rattle.model.specs.Refusals.{checked};
ghost use Rattle.document.specs.Program.{send_lines, slot_buffer_with, slot_fault_with, slot_state_with};
ghost use Rattle.document.specs.ForC.{slot_answer_with, slot_for_c_with};
ghost use Rattle.document.specs.Reader.{read_text};
ghost use Rattle.document.specs.Machine.{order_of};
ghost use Rattle.text.specs.Put.{Put};
ghost use Rattle.superframe_table.specs.SetFaults.{unless};
ghost use Rattle.planner.specs.BeforeStep.{PassesIfRead, fault_before_step, length_fault};
ghost use Rattle.planner.specs.StepWritten.{room_fault, step_answer, step_buffer, step_state};

use crate::answers::slot_numbers;
use crate::state_bytes;
use crate::state_bytes::{put_state, state_of};
use model::{
    ChannelMap, Fault, Order, Reading, Refusable, Refusal, Send, SlotAnswer, Stepped, Written,
};
use text::put_sends;

// 12 for a length other than 68.
fn length_fault(n: usize) -> Result<(), Fault>
    ensures { result ≡ checked (length_fault n) }
{
    if n == state_bytes::LENGTH {
        Ok(())
    } else {
        Err(Fault::of(Refusal::BadState))
    }
}

// What is refused before a step: the text's refusals, then 12 for the state's length.
fn fault_before_step(of_text: Fault, n: usize) -> Result<(), Fault>
    ensures { result ≡ checked (fault_before_step of_text n) }
{
    of_text.check()?;
    length_fault(n)
}

// The length of a slot's `send` lines: where they end in a buffer that is too short for them. Kept: an array and a count, as `text::put_sends` takes them.
fn lines_length(sent: [Send; ChannelMap::MOST], n: u16) -> usize
    ensures { result ≡ length (send_lines (take n sent)) }
{
    let mut none = [0u8; 1];
    put_sends(&mut none, 0, sent, n)
}

// A slot's `send` lines at a buffer's start, as far as the buffer goes; where the lines end.
fn put_lines(lines: &mut [u8], sent: [Send; ChannelMap::MOST], n: u16) -> usize
    ensures { Put lines.old 0 (send_lines (take n sent)) lines.new result }
{
    put_sends(lines, 0, sent, n)
}

// A step's next state and `send` lines written, or 10 where there is no room for the lines; a refusal changes nothing.
fn write_step(state: &mut [u8], lines: &mut [u8], stepped: Stepped) -> Result<Written, Fault>
    ensures value { result ≡ unless (room_fault stepped (length lines.old)) (step_answer stepped (length lines.old)) }
    ensures state_after_is { state.new ≡ step_state stepped state.old (length lines.old) }
    ensures lines_after { lines.new ≡ step_buffer stepped lines.old }
{
    stepped.fault.check()?;
    let n = lines_length(stepped.sent, stepped.sends);
    if lines.len() < n {
        return Err(Fault::of(Refusal::NoRoom));
    }
    put_state(state, stepped.next);
    put_lines(lines, stepped.sent, stepped.sends);
    Ok(Written {
        fault: Fault::none(),
        length: n,
    })
}

// One slot, in an order of priority, of the set that was read, or what refuses it. A set that the reader accepts passes the record check, so it is not
// checked again.
fn slot_of_reading(
    by: Order,
    reading: Reading,
    state: &mut [u8],
    lines: &mut [u8],
) -> Result<Written, Fault>
    requires { PassesIfRead reading }
    ensures value { result ≡ unless (slot_fault_with (order_of by) reading state.old (length lines.old)) (slot_answer_with (order_of by) reading state.old (length lines.old)) }
    ensures state_after_is { state.new ≡ slot_state_with (order_of by) reading state.old (length lines.old) }
    ensures lines_after { lines.new ≡ slot_buffer_with (order_of by) reading state.old lines.old }
{
    fault_before_step(reading.fault, state.len())?;
    let stepped = machine::step_accepted(by, reading.set, state_of(state));
    write_step(state, lines, stepped)
}

// One slot of the set in a text, as C is answered: the text's refusals come before all others.
pub fn slot_of_text(by: Order, text: &[u8], state: &mut [u8], lines: &mut [u8]) -> SlotAnswer
    ensures value { result ≡ slot_for_c_with (order_of by) text.now state.old (length lines.old) }
    ensures state_after_is { state.new ≡ slot_state_with (order_of by) (read_text text.now) state.old (length lines.old) }
    ensures lines_after { lines.new ≡ slot_buffer_with (order_of by) (read_text text.now) state.old lines.old }
{
    let written = slot_of_reading(by, text::read(text), state, lines);
    slot_numbers(written.unwrap_or_else(Written::refused))
}
