// The hyper-period of a set: the least common multiple of its periods. Above 65,536 it is not computed further, so all numbers stay small.
ghost use Rattle.std.specs.Prelude.{◌≡◌, true, ◌<◌, ◌≤◌};
ghost use Rattle.model.specs.Refusals.{good};
ghost use Rattle.model.specs.Sets.{used};
ghost use Rattle.document.specs.Reader.{record_fault};
ghost use Rattle.document.specs.Superframe.{hyper, lcm, most_hyper};
ghost use Rattle.superframe_table.specs.LoadedHyper.{if_loaded};

use model::{FlowSet, Tabled};

// Among the multiples of a the first that b divides, unless it is above 65,536.
fn first_common(a: u32, b: u32) -> Option<u32>
    requires { (0 < a) × (a ≤ most_hyper) × (0 < b) }
    ensures { result ≡ if_loaded (lcm a b) }
{
    for k in 1..=Tabled::MOST_SLOTS / a {
        let x = k * a;
        if x % b == 0 {
            return Some(x);
        }
    }
    None
}

// The least common multiple of a hyper-period so far and a period, unless it is above 65,536. The multiples of the larger are looked through:
// of 256 or more there are at most 256 up to 65,536, and a smaller number's product with one that is no larger comes within 255.
fn common_multiple(h: u32, t: u16) -> Option<u32>
    requires { (0 < h) × (h ≤ most_hyper) × (0 < t) }
    ensures { result ≡ if_loaded (lcm h t) }
{
    let n = u32::from(t);
    first_common(h.max(n), h.min(n))
}

// The hyper-period of an accepted set, unless it is above 65,536.
pub fn hyper_period(s: FlowSet) -> Option<u32>
    requires { good (record_fault (used s)).refusal ≡ true }
    ensures { result ≡ if_loaded (hyper (used s)) }
{
    let mut h: u32 = 1;
    for k in 0..s.count as usize {
        h = common_multiple(h, s.flows[k].period.slots())?;
    }
    Some(h)
}
