// The superframe program: a set on standard input, the lines of its table on standard output. What fails is said on standard error.
#![tactic(auto)]

mod loading;

ghost use Rattle.std.specs.Prelude.{true, IfOk, ◌≡◌, ◌+◌, ◌≤◌, length, take};
ghost use Rattle.model.specs.Refusals.{good};
ghost use Rattle.model.specs.Sets.{used};
ghost use Rattle.document.specs.Program.{most_input, refused_line};
ghost use Rattle.document.specs.Reader.{record_fault};
ghost use Rattle.document.specs.Superframe.{most_hyper};
ghost use Rattle.laws.specs.LinesRead.{last_line};
ghost use Rattle.superframe.specs.Prints.{Prints, WholeTable, most_refusal};

use crate::loading::{MOST_INPUT, load};
use model::{Fault, FlowSet, State};
use std::io;

// No refusal's line has more bytes.
const MOST_REFUSAL: usize = 48;

// The room of a part of the table.
const PART_ROOM: usize = 65536;

// Writes the lines of a table part by part, and says how many parts; stops at the first write that fails.
fn write_parts(rt: &impl Print, set: FlowSet, hyper: u32) -> io::Result<usize>
    requires { (good (record_fault (used set)).refusal ≡ true) × (hyper ≤ most_hyper) }
    ensures { IfOk result (WholeTable (used set) hyper) }
{
    let mut out = [0u8; PART_ROOM];
    let mut st = State::fresh();
    let mut parts = 0;
    // Kept: no `for`, since only a part's answer says at which slot the next begins.
    while st.slot.0 < hyper {
        let part = superframe_table::superframe_part(set, st, hyper, &mut out);
        rt.write_all(&out[..part.length])?;
        st = part.state;
        parts += 1;
    }
    Ok(parts)
}

// The line of a refusal in a buffer that has room for it.
fn refusal_line(fault: Fault, out: &mut [u8]) -> usize
    requires { (fault.line ≤ last_line) × (fault.field ≤ most_input + 1) × (most_refusal ≤ length out.old) }
    ensures { (take result out.new ≡ refused_line fault) × (result ≤ most_refusal) }
{
    text::put_refused(
        out,
        0,
        fault.refusal.code() as u32,
        fault.line as u32,
        fault.field as u32,
    )
}

// Writes the line of a refusal.
fn write_refusal(rt: &impl Print, fault: Fault) -> io::Result<()>
    requires { (fault.line ≤ last_line) × (fault.field ≤ most_input + 1) }
{
    let mut out = [0u8; MOST_REFUSAL];
    let n = refusal_line(fault, &mut out);
    rt.write_all(&out[..n])
}

// Writes the lines of an input's table, and says in how many parts, or the line of its refusal.
fn write_superframe(rt: &impl Print, input: &[u8]) -> io::Result<Option<usize>>
    ensures { IfOk result (Prints input.now) }
{
    match load(input) {
        Ok(loaded) => Ok(Some(write_parts(rt, loaded.set, loaded.hyper)?)),
        Err(fault) => {
            write_refusal(rt, fault)?;
            Ok(None)
        }
    }
}

// Writes the table of standard input, or why there is none. Kept: the input stands in a buffer of fixed size, since there is no heap.
fn main(rt: HostRuntime) {
    let mut input = [0u8; MOST_INPUT + 1];
    standard_input::run(&rt, "superframe", &mut input, |input| {
        write_superframe(&rt, input)?;
        Ok(())
    });
}
