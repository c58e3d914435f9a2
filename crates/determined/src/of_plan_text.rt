// The text of each of the two programs, made twice.
ghost use Rattle.std.specs.Prelude.{◌≡◌};

use model::Written;

pub fn plan(input: &[u8], x: &mut [u8], y: &mut [u8]) -> (Written, Written)
    ensures { (x.old ≡ y.old) → ((result.0 ≡ result.1) × (x.new ≡ y.new)) }
{
    (plan_text::plan(input, x), plan_text::plan(input, y))
}

pub fn fixed(input: &[u8], p: &mut [u8], q: &mut [u8]) -> (Written, Written)
    ensures { (p.old ≡ q.old) → ((result.0 ≡ result.1) × (p.new ≡ q.new)) }
{
    (plan_text::fixed(input, p), plan_text::fixed(input, q))
}
