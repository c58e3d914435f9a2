// The equation of document 01's tightened delay test: its value at a list, for one flow and for every flow, from the tables of the set.
ghost use Rattle.std.specs.Prelude.{◌≡◌, ◌<◌, ◌≤◌};
ghost use Rattle.document.specs.Delay.{joined};
ghost use Rattle.delay.specs.ShareRows.{SmallWork};
ghost use Rattle.delay.specs.EquationValues.{SumsFitTo, SumsFit, conflict_remainders, table_value, work_remainders, ValuesTo};
ghost use Rattle.model.specs.Limits.{most_flows};

use crate::shares::{Column, Sums};
use crate::tables::Tables;
use model::Flow;

// C + ΣX + (ΣW − ΣX) / m, with one division after both sums.
pub fn joined_bound(c: u16, x: u32, w: u32, m: u32) -> u32
    requires { (x ≤ w) × (w ≤ 272625600) × (0 < m) }
    ensures { (result ≡ joined c x w m) × (result ≤ 272691135) }
{
    (c as u32) + x + (w - x) / m
}

// The equation's value for each flow.
pub type Values = [u32; Flow::MOST];

impl Tables {
    // The sums of min(S, r − (D − v)) and of min(C, r − (D − v)) over the flows other than k; r of k and itself is 0. Each term is at most 64,
    // so 16 bits hold a sum, and eight places are added at a time.
    fn remainder_sums(&self, k: usize, slack: &Column) -> Sums
        requires { (k < most_flows) × SmallWork self.now.conflict self.now.numbers.work k }
        ensures conflict_value { (result.conflict ≡ conflict_remainders self.now.conflict self.now.remainder slack.now k)
            × (result.conflict ≤ 4096) }
        ensures work_value { (result.work ≡ work_remainders self.now.numbers.work self.now.remainder slack.now k) × (result.work ≤ 4096) }
    {
        let row = k * Flow::MOST;
        let mut x: u16 = 0;
        let mut w: u16 = 0;
        for l in 0..Flow::MOST {
            let y = self.remainder[row + l].saturating_sub(slack[l]);
            x += self.conflict[row + l].min(y);
            w += self.numbers.work[l].min(y);
        }
        Sums {
            conflict: x as u32,
            work: w as u32,
        }
    }

    // The equation's value for flow k at the list v: entry l of `slack` is D − v of flow l.
    pub fn value(&self, k: usize, m: u32, slack: &Column) -> u32
        requires k_lt_most_flows { (k < most_flows) × (0 < m) }
        requires sums_fit { SumsFit self.now slack.now k }
        ensures { (result ≡ table_value self.now m slack.now k) × (result ≤ 272691135) }
    {
        let whole = self.whole[k];
        let more = self.remainder_sums(k, slack);
        joined_bound(
            self.numbers.work[k],
            whole.conflict + more.conflict,
            whole.work + more.work,
            m,
        )
    }

    // The equation's value for the first n flows, 0 beyond them.
    pub fn values(&self, n: usize, m: u32, slack: &Column) -> Values
        requires n_le_most_flows { (n ≤ most_flows) × (0 < m) }
        requires sums_fit_to { SumsFitTo self.now n }
        ensures { ValuesTo (table_value self.now m slack.now) n result }
    {
        let mut out = [0u32; Flow::MOST];
        for j in 0..n {
            out[j] = self.value(j, m, slack);
        }
        out
    }
}
