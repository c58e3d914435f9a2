// What the size of a table asks of the flows: that each starts at slot 0, and how many rows each has.
ghost use Rattle.std.specs.Prelude.{◌≡◌, true, ◌*◌, ◌/◌, ◌≤◌};
ghost use Rattle.model.specs.Refusals.{good};
ghost use Rattle.model.specs.Sets.{exact, used, work};
ghost use Rattle.document.specs.Reader.{record_fault};
ghost use Rattle.document.specs.Superframe.{hyper, most_hyper, starts_late};
ghost use Rattle.laws.specs.Accepted.{GoodFlow};
ghost use Rattle.promise.specs.Repeated.{row_count};

use model::{Flow, FlowSet};

// Whether some flow of an accepted set starts at another slot than 0.
pub fn starts_late(s: FlowSet) -> bool
    requires { good (record_fault (used s)).refusal ≡ true }
    ensures { result ≡ starts_late (used s) }
{
    s.flows.iter().take(s.count as usize).any(|f| f.start > 0)
}

// How many rows one flow has in a hyper-period of at most 65,536 slots: C for each of its periods, so at most one a slot.
fn flow_rows(hyper: u32, f: Flow) -> u32
    requires { GoodFlow (exact f) × (hyper ≤ most_hyper) }
    ensures { (result ≡ hyper / f.period.0 * work f) × (result ≤ most_hyper) }
{
    hyper / u32::from(f.period.0) * f.work()
}

// How many rows the table of an accepted set has, whose hyper-period is at most 65,536.
pub fn row_count(s: FlowSet, slots: u32) -> u32
    requires s_value { good (record_fault (used s)).refusal ≡ true }
    requires slots_value { (slots ≡ hyper (used s)) × (slots ≤ most_hyper) }
    ensures { (result ≡ row_count (used s)) × (result ≤ 4194304) }
{
    let mut rows: u32 = 0;
    for k in 0..s.count as usize {
        rows += flow_rows(slots, s.flows[k]);
    }
    rows
}
