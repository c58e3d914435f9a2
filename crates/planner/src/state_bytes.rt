// The 68 bytes of a state: the slot in four bytes, lowest first, then a count byte for each flow.
ghost use Rattle.std.specs.Prelude.{◌≡◌};
ghost use Rattle.planner.specs.StateBytes.{state_in, with_state};

use model::{Flow, Slot, State};

// How many bytes a slot has.
const SLOT: usize = 4;

// How many bytes a state has: the slot's, and a count byte for each flow.
pub const LENGTH: usize = SLOT + Flow::MOST;

// The state that the bytes stand for; the fresh state where there are not 68 bytes.
pub fn state_of(b: &[u8]) -> State
    ensures { result ≡ state_in b.now }
{
    let Some((slot, counts)) = b.split_first_chunk::<SLOT>() else {
        return State::fresh();
    };
    let Ok(sent) = <[u8; Flow::MOST]>::try_from(counts) else {
        return State::fresh();
    };
    State {
        slot: Slot(u32::from_le_bytes(*slot)),
        sent,
    }
}

// A state written over the lent bytes; the bytes stay as they were where there are not 68.
pub fn put_state(b: &mut [u8], st: State)
    ensures { b.new ≡ with_state st b.old }
{
    if b.len() == LENGTH {
        let (slot, counts) = b.split_at_mut(SLOT);
        slot.copy_from_slice(&st.slot.0.to_le_bytes());
        counts.copy_from_slice(&st.sent);
    }
}
