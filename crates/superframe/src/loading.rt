// What is printed for an input begins with its set and the size of its table, or with what refuses it.
ghost use Rattle.std.specs.Prelude.{◌≡◌};
ghost use Rattle.superframe.specs.Loads.{Loads};

use model::{Fault, FlowSet, Refusal};

// Input of more bytes is not read.
pub const MOST_INPUT: usize = 16384;

// A set that is loaded, with its hyper-period.
#[derive(Clone, Copy)]
pub struct Loaded {
    pub hyper: u32,
    pub set: FlowSet,
}

// An input's set and hyper-period, or what refuses it: 10 for its length, the reader's refusals, then 14, 15, 16.
pub fn load(input: &[u8]) -> Result<Loaded, Fault>
    ensures { Loads input.now result }
{
    if MOST_INPUT < input.len() {
        return Err(Fault::of(Refusal::NoRoom));
    }
    let reading = text::read(input);
    reading.fault.check()?;
    let size = superframe_table::superframe_size(reading.set);
    size.fault.check()?;
    Ok(Loaded {
        hyper: size.hyper,
        set: reading.set,
    })
}
