// The superframe for C: the table of the set that was read, a table's answers in numbers, and the radio channel by which a device sends.
ghost use Rattle.std.specs.Prelude.{◌≡◌, length};
ghost use Rattle.document.specs.ForC.{channel_for_c, lines_numbers, read_numbers, size_of_reading, superframe_after, superframe_numbers, superframe_of_reading};

use model::{
    ChannelMap, LinesAnswer, Reading, Refusable, RowsAnswer, Slot, SuperframeAnswer, Tabled,
    Written,
};

// How long the table of the set that was read is, or the reader's refusal.
pub fn size_of_reading(reading: Reading) -> Tabled
    ensures { result ≡ size_of_reading reading }
{
    reading.answer(superframe_table::superframe_size)
}

// The superframe of the set that was read, or the reader's refusal; a refusal changes nothing.
pub fn superframe_of_reading(reading: Reading, table: &mut [u16]) -> Tabled
    ensures value { result ≡ superframe_of_reading reading (length table.old) }
    ensures table_after_is { table.new ≡ superframe_after reading table.old }
{
    // Kept: no closure of the set, since nothing would be known of the table that it captures.
    match reading.fault.check() {
        Ok(()) => superframe_table::superframe(reading.set, table),
        Err(fault) => Tabled::refused(fault),
    }
}

// A superframe's answer in numbers: the refusal by document 01's number.
pub fn superframe_numbers(a: Tabled) -> SuperframeAnswer
    ensures { result ≡ superframe_numbers a }
{
    SuperframeAnswer {
        refusal: u32::from(a.fault.refusal.code()),
        line: a.fault.line,
        field: a.fault.field,
        hyper: a.hyper,
        numbers: a.numbers,
    }
}

// The length of a table's lines as C is answered: the refusal by document 01's number, no field.
pub fn lines_numbers(w: Written) -> LinesAnswer
    ensures { result ≡ lines_numbers w }
{
    LinesAnswer {
        refusal: u32::from(w.fault.refusal.code()),
        line: w.fault.line,
        length: w.length,
    }
}

// The answer to lines that were read, in numbers: a table that was read has no hyper-period, its lines no field.
pub fn read_numbers(a: Tabled) -> RowsAnswer
    ensures { result ≡ read_numbers a }
{
    RowsAnswer {
        refusal: u32::from(a.fault.refusal.code()),
        line: a.fault.line,
        numbers: a.numbers,
    }
}

// The radio channel of an offset in a slot; a number above 65,535 is no map.
pub fn channel_of(bits: u32, slot: u32, offset: u32) -> u32
    ensures { result ≡ channel_for_c bits slot offset }
{
    match u16::try_from(bits) {
        Ok(map) => u32::from(machine::radio_channel(ChannelMap::new(map), Slot(slot), offset)),
        Err(_) => 0,
    }
}
