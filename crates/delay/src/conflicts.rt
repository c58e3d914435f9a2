// S of document 01's delay tests for every pair of flows, by a search of the two routes.
ghost use Rattle.std.specs.Prelude.{◌≡◌, ◌<◌, ◌≤◌, length};
ghost use Rattle.delay.specs.PairGrids.{RowDone, RowsBy, columns_of, conflict_of};
ghost use Rattle.model.specs.Limits.{most_flows};
ghost use Rattle.model.specs.Sets.{used};
ghost use Rattle.laws.specs.Accepted.{Accepted};

use crate::places::PlacedRoute;
use model::{Flow, FlowSet};

// How many pairs of flows a set can have: row k, column l of a grid is at k times the most flows, plus l.
pub const PAIRS: usize = Flow::MOST * Flow::MOST;

// A number of 16 bits for each pair.
pub type Pairs = [u16; PAIRS];

// Which pairs are asked for: of each flow with every flow, or with those up to it alone, which go first by fixed priority.
#[derive(Clone, Copy)]
pub enum Columns {
    All,
    Below,
}

impl Columns {
    // How many columns row k has among n flows.
    fn count(self, n: usize, k: usize) -> usize
        requires { k < n }
        ensures { result ≡ columns_of self n k }
    {
        match self {
            Columns::All => n,
            Columns::Below => k + 1,
        }
    }
}

// S of flow k and the first n flows, in row k.
fn conflict_row(n: usize, k: usize, s: &FlowSet, t: &mut Pairs)
    requires small { (k < n) × (n ≤ s.now.count) × (length t.old ≡ 4096) }
    requires accepted { Accepted (used s.now) }
    ensures { RowDone (conflict_of (used s.now) k) n k t.old t.new }
{
    let mine = PlacedRoute::of(&s.flows[k]);
    for l in 0..n {
        let other = &s.flows[l];
        t[k * Flow::MOST + l] = other.tries * mine.links_touched(other);
    }
}

// S of each flow with the flows whose columns are asked for.
pub fn conflict_work(columns: Columns, s: &FlowSet, t: &mut Pairs)
    requires { Accepted (used s.now) × RowsBy (conflict_of (used s.now)) (columns_of columns s.now.count) 0 t.old }
    ensures { RowsBy (conflict_of (used s.now)) (columns_of columns s.now.count) s.now.count t.new }
{
    let n = s.count as usize;
    for k in 0..n {
        conflict_row(columns.count(n, k), k, s, t);
    }
}
