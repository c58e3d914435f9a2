// The lines of a program: the verdict, a line of each flow and what is sent through slot 11, by one of the two tests; or the refusal of input that is too
// long to be read.
ghost use Rattle.std.specs.Prelude.{◌≡◌, true, ◌∷◌, List, ℕ};
ghost use Rattle.model.specs.declared.kinds.FlowSet.{FlowSet};
ghost use Rattle.model.specs.declared.kinds.Order.{Order};
ghost use Rattle.model.specs.declared.kinds.Order.TheVariants.{Deadline};
ghost use Rattle.model.specs.Refusals.{fault_at, good};
ghost use Rattle.model.specs.Sets.{used};
ghost use Rattle.document.specs.Reader.{record_fault};
ghost use Rattle.document.specs.Delay.{bounds_of, verdict_of};
ghost use Rattle.document.specs.Program.{bound_lines, plan_of, refused_line, run_lines_with, verdict_line};
ghost use Rattle.document.specs.Machine.{order_of};
ghost use Rattle.text.specs.Put.{Put};
ghost use Rattle.plan_text.specs.Margins.{margin_text};
ghost use Rattle.model.specs.declared.answers.Refusal.TheVariants.{NoRoom};
ghost use Rattle.plan_text.specs.BoundText.{bound_text};
ghost use Rattle.plan_text.specs.Told.{ToldLaws, plan_laws};
ghost use Rattle.delay.specs.AllBounds.{AllBoundsOf};

use delay::AllBounds;
use model::{Bounds, FlowSet, Order, Refusal, State, Verdict, bit};
use text::{put_refused, put_sends};

// A plan has the `send` lines of slots 0 to 11.
const SLOTS: usize = 12;

// The bounds of all flows of an accepted set, by one of the two tests, and what a program tells of them: the line of the verdict, a line of each
// flow, and the slots in the test's order of priority.
pub trait Told: Drop {
    // That these are the bounds of a set.
    ghost of_set: { FlowSet → Self → Type 0 };

    ghost order: { Order };

    ghost first_line: { FlowSet → List ℕ };

    // The line of one flow, and those of flows 0 .. n − 1.
    ghost flow_line: { FlowSet → ℕ → List ℕ };

    ghost flow_lines: { FlowSet → ℕ → List ℕ };

    // All that is told of a set.
    ghost all_lines: { FlowSet → List ℕ };

    // The order of priority that the test is for.
    fn order() -> Order
        ensures { result ≡ order };

    // The flows are judged here, once.
    fn of(s: FlowSet) -> Self
        requires { good (record_fault (used s)).refusal ≡ true }
        ensures { of_set (used s) result };

    fn put_first(&self, out: &mut [u8], at: usize, s: FlowSet) -> usize
        requires { of_set (used s) self.now }
        ensures { Put out.old at (first_line (used s)) out.new result };

    fn put_flow(&self, out: &mut [u8], at: usize, s: FlowSet, k: u16) -> usize
        requires { of_set (used s) self.now }
        ensures { Put out.old at (flow_line (used s) k) out.new result };

    // All lines are these parts, and few.
    ghost laws: { ToldLaws (order_of order) first_line flow_line flow_lines all_lines };
}

// The margin after its tab: deadline less bound, with a leading `-` where the bound is above.
fn put_margin(out: &mut [u8], at: usize, deadline: u32, bound: u32) -> usize
    ensures { Put out.old at (9 ∷ margin_text deadline bound) out.new result }
{
    if deadline < bound {
        let place = text::put_word(out, at, b"\t-");
        text::put_number(out, place, bound - deadline)
    } else {
        text::put_field(out, at, deadline - bound)
    }
}

// The line of both verdicts: basic, tightened, rounds.
fn put_verdict(out: &mut [u8], at: usize, v: Verdict) -> usize
    ensures { Put out.old at (verdict_line v) out.new result }
{
    let numbers = [bit(v.basic), bit(v.tightened), v.rounds];
    text::put_line(out, at, b"verdict", &numbers)
}

// The line of refusal 10 for input that is too long, at the buffer's start.
pub fn put_too_long(out: &mut [u8]) -> usize
    ensures { Put out.old 0 (refused_line (fault_at NoRoom 0)) out.new result }
{
    put_refused(out, 0, u32::from(Refusal::NoRoom.code()), 0, 0)
}

// The line of flow k: C, both bounds, deadline and margin.
fn put_bound(out: &mut [u8], at: usize, k: u16, b: Bounds) -> usize
    ensures { Put out.old at (bound_text k b) out.new result }
{
    let deadline = u32::from(b.deadline.0);
    let numbers = [u32::from(k), b.work, b.basic, b.tightened, deadline];
    let first = text::put_word(out, at, b"bound");
    let second = text::put_fields(out, first, &numbers);
    let third = put_margin(out, second, deadline, b.tightened);
    text::put_byte(out, third, 10)
}

impl Told for AllBounds {
    ghost of_set = { AllBoundsOf };

    ghost order = { Deadline };

    ghost first_line = { λ s. verdict_line (verdict_of s) };

    ghost flow_line = { λ s k. bound_text k (bounds_of s k) };

    ghost flow_lines = { bound_lines };

    ghost all_lines = { plan_of };

    ghost laws = { plan_laws };

    fn order() -> Order {
        Order::Deadline
    }

    fn of(s: FlowSet) -> AllBounds {
        delay::bounds_of_accepted(s)
    }

    fn put_first(&self, out: &mut [u8], at: usize, s: FlowSet) -> usize {
        put_verdict(out, at, self.verdict(&s))
    }

    fn put_flow(&self, out: &mut [u8], at: usize, s: FlowSet, k: u16) -> usize {
        put_bound(out, at, k, self.bounds(&s, k))
    }
}

// The `send` lines of the first twelve slots, with either order of priority.
fn put_run(by: Order, out: &mut [u8], at: usize, s: FlowSet) -> usize
    requires { good (record_fault (used s)).refusal ≡ true }
    ensures { Put out.old at (run_lines_with (order_of by) (used s) 12) out.new result }
{
    let mut st = State::fresh();
    let mut place = at;
    for _slot in 0..SLOTS {
        let stepped = machine::step_accepted(by, s, st);
        place = put_sends(out, place, stepped.sent, stepped.sends);
        st = stepped.next;
    }
    place
}

// The lines of a set's flows.
fn put_flows<T: Told>(told: &T, out: &mut [u8], at: usize, s: FlowSet) -> usize
    requires { T.of_set (used s) told.now }
    ensures { Put out.old at (T.flow_lines (used s) s.count) out.new result }
{
    let mut place = at;
    for k in 0..s.count {
        place = told.put_flow(out, place, s, k);
    }
    place
}

// What there is to tell of a set that was read; the flows are judged once.
pub fn put_set<T: Told>(out: &mut [u8], s: FlowSet) -> usize
    requires { good (record_fault (used s)).refusal ≡ true }
    ensures { Put out.old 0 (T.all_lines (used s)) out.new result }
{
    let told = T::of(s);
    let first = told.put_first(out, 0, s);
    let second = put_flows(&told, out, first, s);
    put_run(T::order(), out, second, s)
}
