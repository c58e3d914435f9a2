// The superframe of a record, each function called twice.
ghost use Rattle.std.specs.Prelude.{◌≡◌};

use model::{FlowSet, State, Tabled};
use superframe_table::Part;

pub fn superframe_size(s: FlowSet) -> (Tabled, Tabled)
    ensures { result.0 ≡ result.1 }
{
    (
        superframe_table::superframe_size(s),
        superframe_table::superframe_size(s),
    )
}

pub fn superframe(s: FlowSet, x: &mut [u16], y: &mut [u16]) -> (Tabled, Tabled)
    ensures { (x.old ≡ y.old) → ((result.0 ≡ result.1) × (x.new ≡ y.new)) }
{
    (
        superframe_table::superframe(s, x),
        superframe_table::superframe(s, y),
    )
}

pub fn superframe_part(
    s: FlowSet,
    st: State,
    hyper: u32,
    x: &mut [u8],
    y: &mut [u8],
) -> (Part, Part)
    ensures { (x.old ≡ y.old) → ((result.0 ≡ result.1) × (x.new ≡ y.new)) }
{
    (
        superframe_table::superframe_part(s, st, hyper, x),
        superframe_table::superframe_part(s, st, hyper, y),
    )
}
