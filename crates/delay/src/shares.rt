// What no round changes in the shares of document 01's delay tests: q and r of a deadline and a period, and the sums of q·S and q·C over the
// other flows.
ghost use Rattle.std.specs.Prelude.{◌*◌, ◌<◌, ◌≤◌, ℕ, ◌≡◌, get_or, length};
ghost use Rattle.model.specs.Sets.{used};
ghost use Rattle.laws.specs.Accepted.{Accepted};
ghost use Rattle.delay.specs.ShareRows.{Positive, SharesTo, SmallWorks, remainder_row, Divided, FlowNumbersTo, ZeroFrom, SmallWork, blank_numbers, packet_sum};
ghost use Rattle.delay.specs.PairGrids.{RowDone, pair_at};
ghost use Rattle.model.specs.Limits.{most_flows};
ghost use Rattle.model.specs.Sums.{sum_to};

use crate::conflicts::Pairs;
use model::{Flow, FlowSet};

// A number of 16 bits for each flow, 0 beyond the last.
pub type Column = [u16; Flow::MOST];

// T, D and C of every flow.
// Kept: a column for each number, as the definitions' lists are, and since the sums of a round take eight entries of C at a time: that loop, written
// in C and by itself, took 97 ns a flow over a column and 127 over a list of records.
#[derive(Drop)]
pub struct FlowNumbers {
    pub period: Column,
    pub deadline: Column,
    pub work: Column,
}

impl FlowNumbers {
    // Those of no flows.
    pub fn blank() -> FlowNumbers
        ensures { result ≡ blank_numbers }
    {
        FlowNumbers {
            period: [0; Flow::MOST],
            deadline: [0; Flow::MOST],
            work: [0; Flow::MOST],
        }
    }

    // Those of an accepted set.
    pub fn of(s: &FlowSet) -> FlowNumbers
        requires { Accepted (used s.now) }
        ensures { FlowNumbersTo (used s.now) s.now.count result }
    {
        let mut numbers = FlowNumbers::blank();
        for k in 0..s.count as usize {
            let f = s.flows[k];
            numbers.period[k] = f.period.0;
            numbers.deadline[k] = f.deadline.slots();
            numbers.work[k] = f.work() as u16;
        }
        numbers
    }
}

// q and r of flow k's deadline and the first n periods, r in row k.
fn divide(k: usize, n: usize, numbers: &FlowNumbers, q: &mut Column, remainder: &mut Pairs)
    requires k_lt_n { (k < n) × (n ≤ most_flows) × ((l : ℕ) → l < n → 0 < get_or numbers.now.period l 0) }
    requires q_len { (length q.old ≡ most_flows) × (length remainder.old ≡ 4096) }
    ensures { Divided k n (get_or numbers.now.deadline k 0) numbers.now.period q.old q.new remainder.old remainder.new }
{
    let deadline = numbers.deadline[k];
    for l in 0..n {
        q[l] = deadline / numbers.period[l];
        remainder[k * Flow::MOST + l] = deadline % numbers.period[l];
    }
}

// The sums of a flow's conflict shares and of its whole shares over other flows.
#[derive(Clone, Copy)]
pub struct Sums {
    pub conflict: u32,
    pub work: u32,
}

// The sums of q·S and q·C for flow k, whose own q is 0.
fn packet_sums(k: usize, conflict: &Pairs, work: &Column, q: &Column) -> Sums
    requires { (k < most_flows) × SmallWork conflict.now work.now k }
    ensures conflict_value { result.conflict ≡ sum_to (λ l. get_or q.now l 0 * pair_at conflict.now k l) most_flows }
    ensures work_value { (result.work ≡ sum_to (λ l. get_or q.now l 0 * get_or work.now l 0) most_flows) × (result.work ≤ 268431360) }
{
    let mut x: u32 = 0;
    let mut w: u32 = 0;
    for l in 0..Flow::MOST {
        let packets = q[l] as u32;
        x += packets * conflict[k * Flow::MOST + l] as u32;
        w += packets * work[l] as u32;
    }
    Sums {
        conflict: x,
        work: w,
    }
}

// r of flow k and the other flows, in row k, and the sums of q·S and q·C over them. Kept: six parameters, which travel together nowhere else.
fn shares_of_flow(
    k: usize,
    n: usize,
    numbers: &FlowNumbers,
    conflict: &Pairs,
    q: &mut Column,
    remainder: &mut Pairs,
) -> Sums
    requires k_lt_n { (k < n) × (n ≤ most_flows) × ((l : ℕ) → l < n → 0 < get_or numbers.now.period l 0) }
    requires small_work { SmallWork conflict.now numbers.now.work k × ZeroFrom n q.old × (length remainder.old ≡ 4096) }
    ensures zero_from { ZeroFrom n q.new
        × RowDone (remainder_row numbers.now k) n k remainder.old remainder.new }
    ensures conflict_value { result.conflict ≡ packet_sum numbers.now n k (λ l. pair_at conflict.now k l) }
    ensures work_value { (result.work ≡ packet_sum numbers.now n k (λ l. get_or numbers.now.work l 0)) × (result.work ≤ 268431360) }
{
    divide(k, n, numbers, q, remainder);
    q[k] = 0;
    remainder[k * Flow::MOST + k] = 0;
    packet_sums(k, conflict, &numbers.work, q)
}

// r of every pair of flows, and the sums of q·S and q·C for every flow.
pub fn shares_of_flows(
    n: usize,
    numbers: &FlowNumbers,
    conflict: &Pairs,
    remainder: &mut Pairs,
    whole: &mut [Sums; Flow::MOST],
)
    requires n_le_most_flows { (n ≤ most_flows) × Positive n numbers.now × SmallWorks conflict.now numbers.now.work }
    requires shares_to { SharesTo n 0 numbers.now conflict.now remainder.old whole.old }
    ensures { SharesTo n n numbers.now conflict.now remainder.new whole.new }
{
    let mut q = [0u16; Flow::MOST];
    for k in 0..n {
        whole[k] = shares_of_flow(k, n, numbers, conflict, &mut q, remainder);
    }
}
