// What C calls: the verdict, one flow's bounds, those of all flows, one slot and the superframe, over a set's text; a table's lines; a radio channel;
// the verdict, one flow's bound and one slot with fixed priority.
#![tactic(auto)]

ghost use Rattle.std.specs.Prelude.{◌≡◌, length};
ghost use Rattle.document.specs.Reader.{read_text};
ghost use Rattle.document.specs.Machine.{lower};
ghost use Rattle.document.specs.Program.{slot_buffer, slot_buffer_with, slot_state, slot_state_with};
ghost use Rattle.document.specs.Superframe.{read_table_into, write_table_into};
ghost use Rattle.document.specs.ForC.{all_bounds_for_c, bounds_for_c, slot_for_c, table_after, verdict_for_c};
ghost use Rattle.document.specs.ForC.{channel_for_c, read_table_for_c, size_for_c, superframe_after, superframe_for_c, write_table_for_c};
ghost use Rattle.document.specs.ForC.{fixed_bounds_for_c, fixed_slot_for_c, fixed_verdict_for_c};

mod answers;
mod fixed;
mod slots;
mod state_bytes;
mod superframes;
mod tables;

pub use answers::{bounds_numbers, slot_numbers, verdict_numbers};
pub use fixed::{fixed_bounds_numbers, fixed_verdict_numbers};
use model::{
    BoundsAnswer, FixedBoundsAnswer, FixedVerdictAnswer, LinesAnswer, Order, Refusable, RowsAnswer,
    SlotAnswer, SuperframeAnswer, TableAnswer, VerdictAnswer, Written,
};
pub use superframes::superframe_numbers;

// Both verdicts of the set in `text`; a text that is refused has the reader's refusal, line and field, and zeros.
pub fn rembasuk_verdict(text: &[u8]) -> VerdictAnswer
    ensures { result ≡ verdict_for_c text.now }
{
    let verdict = answers::verdict_of_reading(text::read(text));
    verdict_numbers(verdict)
}

// The bounds of one flow of the set in `text`: the text's refusals, then 13.
pub fn rembasuk_bounds(text: &[u8], flow: u32) -> BoundsAnswer
    ensures { result ≡ bounds_for_c text.now flow }
{
    let bounds = answers::bounds_of_reading(text::read(text), flow);
    bounds_numbers(bounds)
}

// The bounds of all flows of the set in `text`, the rounds made once: C, basic, tightened and deadline of each flow at the start of `table`.
// The text's refusals, then 10; a refusal changes nothing.
pub fn rembasuk_all_bounds(text: &[u8], table: &mut [u32]) -> TableAnswer
    ensures value { result ≡ all_bounds_for_c text.now (length table.old) }
    ensures table_after_is { table.new ≡ table_after (read_text text.now) table.old }
{
    let written = tables::table_of_reading(text::read(text), table);
    answers::table_numbers(written.unwrap_or_else(Written::refused))
}

// One slot of the set in `text`: the next state over the 68 bytes, the slot's `send` lines at the start of `lines`.
// The text's refusals, then 12, 11 and 10; a refusal changes neither.
pub fn rembasuk_slot(text: &[u8], state: &mut [u8], lines: &mut [u8]) -> SlotAnswer
    ensures value { result ≡ slot_for_c text.now state.old (length lines.old) }
    ensures state_after_is { state.new ≡ slot_state (read_text text.now) state.old (length lines.old) }
    ensures lines_after { lines.new ≡ slot_buffer (read_text text.now) state.old lines.old }
{
    slots::slot_of_text(Order::Deadline, text, state, lines)
}

// How long the superframe of the set in `text` is: its slots, and the numbers that its table needs. The text's refusals, then 14, 15, 16.
pub fn rembasuk_superframe_size(text: &[u8]) -> SuperframeAnswer
    ensures { result ≡ size_for_c text.now }
{
    let size = superframes::size_of_reading(text::read(text));
    superframe_numbers(size)
}

// The superframe of the set in `text`: slot, flow, transmission number and offset of each transmission of one hyper-period at the start of `table`.
// The text's refusals, then 14, 15, 16 and 10; a refusal changes nothing.
pub fn rembasuk_superframe(text: &[u8], table: &mut [u16]) -> SuperframeAnswer
    ensures value { result ≡ superframe_for_c text.now (length table.old) }
    ensures table_after_is { table.new ≡ superframe_after (read_text text.now) table.old }
{
    let tabled = superframes::superframe_of_reading(text::read(text), table);
    superframe_numbers(tabled)
}

// The lines of a table's whole rows at the start of `lines`, or 10; a refusal changes nothing.
pub fn rembasuk_table_write(table: &[u16], lines: &mut [u8]) -> LinesAnswer
    ensures value { result ≡ write_table_for_c table.now (length lines.old) }
    ensures lines_after { lines.new ≡ write_table_into table.now lines.old }
{
    let written = text::write_table(table, lines);
    superframes::lines_numbers(written)
}

// The rows of a table's lines at the start of `table`: 1 with the line for form or order, then 10; a refusal changes nothing.
pub fn rembasuk_table_read(lines: &[u8], table: &mut [u16]) -> RowsAnswer
    ensures value { result ≡ read_table_for_c lines.now (length table.old) }
    ensures table_after_is { table.new ≡ read_table_into lines.now table.old }
{
    let tabled = text::read_table(lines, table);
    superframes::read_numbers(tabled)
}

// The radio channel of an offset in a slot, by which a device sends that repeats a table; 0 where `map` is 0 or above 65,535.
pub fn rembasuk_channel(map: u32, slot: u32, offset: u32) -> u32
    ensures { result ≡ channel_for_c map slot offset }
{
    superframes::channel_of(map, slot, offset)
}

// The verdict of the test for fixed priority of the set in `text`; a text that is refused has the reader's refusal, line and field, and zeros.
pub fn rembasuk_fixed_verdict(text: &[u8]) -> FixedVerdictAnswer
    ensures { result ≡ fixed_verdict_for_c text.now }
{
    let verdict = fixed::verdict_of_reading(text::read(text));
    fixed_verdict_numbers(verdict)
}

// The bound of one flow of the set in `text` with fixed priority: the text's refusals, then 13.
pub fn rembasuk_fixed_bounds(text: &[u8], flow: u32) -> FixedBoundsAnswer
    ensures { result ≡ fixed_bounds_for_c text.now flow }
{
    let answer = fixed::bounds_of_reading(text::read(text), flow);
    fixed_bounds_numbers(answer)
}

// One slot of the set in `text` with fixed priority: the next state over the 68 bytes, the slot's `send` lines at the start of `lines`.
// The text's refusals, then 12, 11 and 10; a refusal changes neither.
pub fn rembasuk_fixed_slot(text: &[u8], state: &mut [u8], lines: &mut [u8]) -> SlotAnswer
    ensures value { result ≡ fixed_slot_for_c text.now state.old (length lines.old) }
    ensures state_after_is { state.new ≡ slot_state_with lower (read_text text.now) state.old (length lines.old) }
    ensures lines_after { lines.new ≡ slot_buffer_with lower (read_text text.now) state.old lines.old }
{
    slots::slot_of_text(Order::Number, text, state, lines)
}
