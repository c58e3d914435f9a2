// The program for fixed priority: a set on standard input; its verdict, bounds and first slots on standard output. What fails is said on standard error.
#![tactic(auto)]

ghost use Rattle.std.specs.Prelude.{◌≤◌, ◌≡◌, length, take};
ghost use Rattle.document.specs.Reader.{wrote};
ghost use Rattle.document.specs.Fixed.{fixed_text};
ghost use Rattle.plan_text.specs.PlanOfReading.{most_plan};

use model::Written;

// The text for an input in a buffer that has room for every one.
fn whole_text(input: &[u8], out: &mut [u8]) -> Written
    requires { most_plan ≤ length out.old }
    ensures value { result ≡ wrote (length (fixed_text input.now)) }
    ensures out_after { take result.length out.new ≡ fixed_text input.now }
{
    plan_text::fixed(input, out)
}

// Writes the text for standard input. That every text has room in its buffer is proved; if it had not, the program would say so. Kept: buffers of
// fixed size, since there is no heap; and a main for each program, since a function of its own says what it writes.
fn main(rt: HostRuntime) {
    let mut input = [0u8; plan_text::MOST_INPUT + 1];
    let mut out = [0u8; plan_text::MOST_PLAN];
    standard_input::run(&rt, "fixed", &mut input, |input| {
        let w = whole_text(input, &mut out);
        if w.fault.refuses() {
            let _ = eprintln!(rt; "fixed: the text is longer than its buffer");
            return Ok(());
        }
        rt.write_all(&out[..w.length])
    });
}
