// The readers and writers of sets and of tables, each called twice.
ghost use Rattle.std.specs.Prelude.{◌≡◌};

use model::{FlowSet, Reading, Tabled, Written};

pub fn read(text: &[u8]) -> (Reading, Reading)
    ensures { result.0 ≡ result.1 }
{
    (text::read(text), text::read(text))
}

pub fn write(s: FlowSet, x: &mut [u8], y: &mut [u8]) -> (Written, Written)
    ensures { (x.old ≡ y.old) → ((result.0 ≡ result.1) × (x.new ≡ y.new)) }
{
    (text::write(s, x), text::write(s, y))
}

pub fn write_table(table: &[u16], x: &mut [u8], y: &mut [u8]) -> (Written, Written)
    ensures { (x.old ≡ y.old) → ((result.0 ≡ result.1) × (x.new ≡ y.new)) }
{
    (text::write_table(table, x), text::write_table(table, y))
}

pub fn read_table(text: &[u8], x: &mut [u16], y: &mut [u16]) -> (Tabled, Tabled)
    ensures { (x.old ≡ y.old) → ((result.0 ≡ result.1) × (x.new ≡ y.new)) }
{
    (text::read_table(text, x), text::read_table(text, y))
}
