// The lines of the program for fixed priority: the verdict, every flow's bound, and what is sent through slot 11.
ghost use Rattle.std.specs.Prelude.{◌≡◌};
ghost use Rattle.model.specs.declared.kinds.Order.TheVariants.{Number};
ghost use Rattle.document.specs.Fixed.{fixed_bound_line, fixed_bound_lines, fixed_bounds_of, fixed_line, fixed_of, fixed_verdict_of};
ghost use Rattle.text.specs.Put.{Put};
ghost use Rattle.delay.specs.AllFixed.{AllFixedOf};
ghost use Rattle.plan_text.specs.Told.{fixed_laws};

use crate::lines::Told;
use delay::AllFixed;
use model::{FixedBounds, FixedVerdict, FlowSet, Order, bit};

// The line of the verdict: admitted, judged.
fn put_verdict(out: &mut [u8], at: usize, v: FixedVerdict) -> usize
    ensures { Put out.old at (fixed_line v) out.new result }
{
    let numbers = [bit(v.admitted), v.judged];
    text::put_line(out, at, b"fixed", &numbers)
}

// The line of flow k: C, bound, deadline, judged.
fn put_bound(out: &mut [u8], at: usize, k: u16, b: FixedBounds) -> usize
    ensures { Put out.old at (fixed_bound_line k b) out.new result }
{
    let deadline = u32::from(b.deadline.0);
    let numbers = [u32::from(k), b.work, b.bound, deadline, bit(b.judged)];
    text::put_line(out, at, b"bound", &numbers)
}

impl Told for AllFixed {
    ghost of_set = { AllFixedOf };

    ghost order = { Number };

    ghost first_line = { λ s. fixed_line (fixed_verdict_of s) };

    ghost flow_line = { λ s k. fixed_bound_line k (fixed_bounds_of s k) };

    ghost flow_lines = { fixed_bound_lines };

    ghost all_lines = { fixed_of };

    ghost laws = { fixed_laws };

    fn order() -> Order {
        Order::Number
    }

    fn of(s: FlowSet) -> AllFixed {
        delay::fixed_of_accepted(s)
    }

    fn put_first(&self, out: &mut [u8], at: usize, s: FlowSet) -> usize {
        put_verdict(out, at, self.verdict(&s))
    }

    fn put_flow(&self, out: &mut [u8], at: usize, s: FlowSet, k: u16) -> usize {
        put_bound(out, at, k, self.bounds(&s, k))
    }
}
