// What C calls, each called twice.
ghost use Rattle.std.specs.Prelude.{◌≡◌};

use model::{
    Bounds, BoundsAnswer, FixedBounds, FixedBoundsAnswer, FixedVerdict, FixedVerdictAnswer,
    LinesAnswer, RowsAnswer, SlotAnswer, SuperframeAnswer, TableAnswer, Tabled, Verdict,
    VerdictAnswer, Written,
};

pub fn rembasuk_verdict(text: &[u8]) -> (VerdictAnswer, VerdictAnswer)
    ensures { result.0 ≡ result.1 }
{
    (
        planner::rembasuk_verdict(text),
        planner::rembasuk_verdict(text),
    )
}

pub fn rembasuk_bounds(text: &[u8], flow: u32) -> (BoundsAnswer, BoundsAnswer)
    ensures { result.0 ≡ result.1 }
{
    (
        planner::rembasuk_bounds(text, flow),
        planner::rembasuk_bounds(text, flow),
    )
}

pub fn rembasuk_all_bounds(text: &[u8], x: &mut [u32], y: &mut [u32]) -> (TableAnswer, TableAnswer)
    ensures { (x.old ≡ y.old) → ((result.0 ≡ result.1) × (x.new ≡ y.new)) }
{
    (
        planner::rembasuk_all_bounds(text, x),
        planner::rembasuk_all_bounds(text, y),
    )
}

pub fn rembasuk_slot(
    text: &[u8],
    s: &mut [u8],
    u: &mut [u8],
    x: &mut [u8],
    y: &mut [u8],
) -> (SlotAnswer, SlotAnswer)
    ensures { ((s.old ≡ u.old) × (x.old ≡ y.old))
        → ((result.0 ≡ result.1) × (s.new ≡ u.new) × (x.new ≡ y.new)) }
{
    (
        planner::rembasuk_slot(text, s, x),
        planner::rembasuk_slot(text, u, y),
    )
}

pub fn verdict_numbers(v: Verdict) -> (VerdictAnswer, VerdictAnswer)
    ensures { result.0 ≡ result.1 }
{
    (planner::verdict_numbers(v), planner::verdict_numbers(v))
}

pub fn bounds_numbers(bounds: Bounds) -> (BoundsAnswer, BoundsAnswer)
    ensures { result.0 ≡ result.1 }
{
    (
        planner::bounds_numbers(bounds),
        planner::bounds_numbers(bounds),
    )
}

pub fn slot_numbers(written: Written) -> (SlotAnswer, SlotAnswer)
    ensures { result.0 ≡ result.1 }
{
    (
        planner::slot_numbers(written),
        planner::slot_numbers(written),
    )
}

pub fn rembasuk_superframe_size(text: &[u8]) -> (SuperframeAnswer, SuperframeAnswer)
    ensures { result.0 ≡ result.1 }
{
    (
        planner::rembasuk_superframe_size(text),
        planner::rembasuk_superframe_size(text),
    )
}

pub fn rembasuk_superframe(
    text: &[u8],
    x: &mut [u16],
    y: &mut [u16],
) -> (SuperframeAnswer, SuperframeAnswer)
    ensures { (x.old ≡ y.old) → ((result.0 ≡ result.1) × (x.new ≡ y.new)) }
{
    (
        planner::rembasuk_superframe(text, x),
        planner::rembasuk_superframe(text, y),
    )
}

pub fn rembasuk_table_write(table: &[u16], x: &mut [u8], y: &mut [u8]) -> (LinesAnswer, LinesAnswer)
    ensures { (x.old ≡ y.old) → ((result.0 ≡ result.1) × (x.new ≡ y.new)) }
{
    (
        planner::rembasuk_table_write(table, x),
        planner::rembasuk_table_write(table, y),
    )
}

pub fn rembasuk_table_read(lines: &[u8], x: &mut [u16], y: &mut [u16]) -> (RowsAnswer, RowsAnswer)
    ensures { (x.old ≡ y.old) → ((result.0 ≡ result.1) × (x.new ≡ y.new)) }
{
    (
        planner::rembasuk_table_read(lines, x),
        planner::rembasuk_table_read(lines, y),
    )
}

pub fn rembasuk_channel(map: u32, slot: u32, offset: u32) -> (u32, u32)
    ensures { result.0 ≡ result.1 }
{
    (
        planner::rembasuk_channel(map, slot, offset),
        planner::rembasuk_channel(map, slot, offset),
    )
}

pub fn superframe_numbers(tabled: Tabled) -> (SuperframeAnswer, SuperframeAnswer)
    ensures { result.0 ≡ result.1 }
{
    (
        planner::superframe_numbers(tabled),
        planner::superframe_numbers(tabled),
    )
}

pub fn rembasuk_fixed_verdict(text: &[u8]) -> (FixedVerdictAnswer, FixedVerdictAnswer)
    ensures { result.0 ≡ result.1 }
{
    (
        planner::rembasuk_fixed_verdict(text),
        planner::rembasuk_fixed_verdict(text),
    )
}

pub fn rembasuk_fixed_bounds(text: &[u8], flow: u32) -> (FixedBoundsAnswer, FixedBoundsAnswer)
    ensures { result.0 ≡ result.1 }
{
    (
        planner::rembasuk_fixed_bounds(text, flow),
        planner::rembasuk_fixed_bounds(text, flow),
    )
}

pub fn rembasuk_fixed_slot(
    text: &[u8],
    s: &mut [u8],
    u: &mut [u8],
    x: &mut [u8],
    y: &mut [u8],
) -> (SlotAnswer, SlotAnswer)
    ensures { ((s.old ≡ u.old) × (x.old ≡ y.old))
        → ((result.0 ≡ result.1) × (s.new ≡ u.new) × (x.new ≡ y.new)) }
{
    (
        planner::rembasuk_fixed_slot(text, s, x),
        planner::rembasuk_fixed_slot(text, u, y),
    )
}

pub fn fixed_verdict_numbers(v: FixedVerdict) -> (FixedVerdictAnswer, FixedVerdictAnswer)
    ensures { result.0 ≡ result.1 }
{
    (
        planner::fixed_verdict_numbers(v),
        planner::fixed_verdict_numbers(v),
    )
}

pub fn fixed_bounds_numbers(bounds: FixedBounds) -> (FixedBoundsAnswer, FixedBoundsAnswer)
    ensures { result.0 ≡ result.1 }
{
    (
        planner::fixed_bounds_numbers(bounds),
        planner::fixed_bounds_numbers(bounds),
    )
}
