// What refuses a superframe before its hyper-period is looked at: the set's own refusals, 14 and 15.
ghost use Rattle.std.specs.Prelude.{◌≡◌, ◌||◌};
ghost use Rattle.model.specs.Refusals.{checked};
ghost use Rattle.model.specs.Sets.{used};
ghost use Rattle.superframe_table.specs.SetFaults.{set_fault};

use crate::flows::starts_late;
use model::{Fault, FlowSet, Refusal, Verdict};

// Whether one of document 01's two tests admits.
fn admits(v: Verdict) -> bool
    ensures { result ≡ (v.basic || v.tightened) }
{
    v.basic | v.tightened
}

// The set's own refusal, then 14, then 15.
pub fn set_fault(s: FlowSet) -> Result<(), Fault>
    ensures { result ≡ checked (set_fault (used s)) }
{
    let v = delay::verdict(s);
    v.fault.check()?;
    if !admits(v) {
        return Err(Fault::of(Refusal::NotAdmitted));
    }
    if starts_late(s) {
        return Err(Fault::of(Refusal::LateStart));
    }
    Ok(())
}
