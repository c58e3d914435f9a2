// The plan of a text, as the program prints it; and what the program for fixed priority prints.
#![tactic(auto)]

ghost use Rattle.std.specs.Prelude.{length, true, ◌≡◌, ◌+◌, ◌≤◌};
ghost use Rattle.text.specs.Put.{Put};
ghost use Rattle.laws.specs.LinesRead.{last_line};
ghost use Rattle.model.specs.Refusals.{good};
ghost use Rattle.model.specs.Sets.{used};
ghost use Rattle.plan_text.specs.PlanOfReading.{Passed};
ghost use Rattle.document.specs.Fixed.{fixed_answer, fixed_into};
ghost use Rattle.document.specs.Program.{most_input, plan_answer, plan_into, print_answer, print_if, print_into, print_text};
ghost use Rattle.document.specs.Reader.{record_fault};

mod fixed_lines;
mod lines;

use crate::lines::{Told, put_set, put_too_long};
use delay::{AllBounds, AllFixed};
use model::{Fault, Reading, Refusable, Refusal, Written};
use text::put_refused;

// Input of more bytes is not read.
pub const MOST_INPUT: usize = 16384;

// No plan has more bytes.
pub const MOST_PLAN: usize = 18432;

// What a program prints for a text that was read: what it says of the set, or the line of the reader's refusal.
fn put_reading<T: Told>(out: &mut [u8], reading: Reading) -> usize
    requires passed { Passed reading }
    requires line_le_last_line { (reading.fault.line ≤ last_line) × (reading.fault.field ≤ most_input + 1) }
    ensures { Put out.old 0 (print_if T.all_lines reading (good reading.fault.refusal)) out.new result }
{
    match reading.fault.check() {
        Ok(()) => put_set::<T>(out, reading.set),
        Err(fault) => put_refused(
            out,
            0,
            u32::from(fault.refusal.code()),
            fault.line as u32,
            fault.field as u32,
        ),
    }
}

// What a program prints for an input; one that is too long is not read.
fn put_text<T: Told>(out: &mut [u8], input: &[u8]) -> usize
    ensures { Put out.old 0 (print_text T.all_lines input.now) out.new result }
{
    if input.len() > MOST_INPUT {
        return put_too_long(out);
    }
    put_reading::<T>(out, text::read(input))
}

// A program's text for an input, at the start of the buffer; a buffer that is too short is left alone, with refusal 10.
fn print<T: Told>(input: &[u8], out: &mut [u8]) -> Written
    ensures value { result ≡ print_answer T.all_lines input.now (length out.old) }
    ensures out_after { out.new ≡ print_into T.all_lines input.now out.old }
{
    let mut text = [0u8; MOST_PLAN];
    let n = put_text::<T>(&mut text, input);
    if out.len() < n {
        return Written::refused(Fault::of(Refusal::NoRoom));
    }
    text::put_word(out, 0, &text[..n]);
    Written {
        fault: Fault::none(),
        length: n,
    }
}

// The plan program's text for an input, at the start of the buffer; a buffer that is too short is left alone, with refusal 10.
pub fn plan(input: &[u8], out: &mut [u8]) -> Written
    ensures value { result ≡ plan_answer input.now (length out.old) }
    ensures out_after { out.new ≡ plan_into input.now out.old }
{
    print::<AllBounds>(input, out)
}

// The same of the program for fixed priority.
pub fn fixed(input: &[u8], out: &mut [u8]) -> Written
    ensures value { result ≡ fixed_answer input.now (length out.old) }
    ensures out_after { out.new ≡ fixed_into input.now out.old }
{
    print::<AllFixed>(input, out)
}
