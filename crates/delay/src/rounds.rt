// The rounds of document 01's tightened delay test, to the first that changes nothing.
ghost use Rattle.std.specs.Prelude.{◌≡◌, ◌-◌, ◌<◌, ◌≤◌};
ghost use Rattle.delay.specs.DelayTables.{TablesHold};
ghost use Rattle.delay.specs.EquationValues.{SumsFitTo};
ghost use Rattle.delay.specs.OneRound.{SlackWithin, RoundFor, list_of_slack};
ghost use Rattle.model.specs.Limits.{most_flows};
ghost use Rattle.model.specs.Sets.{used};
ghost use Rattle.document.specs.Delay.{reached};
ghost use Rattle.laws.specs.Accepted.{Accepted};

use crate::shares::Column;
use crate::tables::Tables;
use model::{Flow, FlowSet};

// D less the equation's value, 0 where the value is not below D.
pub fn deadline_less_value(deadline: u16, value: u32) -> u16
    ensures { result ≡ deadline - value }
{
    u32::from(deadline).saturating_sub(value) as u16
}

// A round, and whether it changed the list: the flows in order, each entry replaced by the smaller of itself and the equation's value, new
// entries used at once. The list v is kept as its slack, D − v entry by entry.
fn one_round(n: usize, m: u32, tables: &Tables, slack: &mut Column) -> bool
    requires n_le_most_flows { (n ≤ most_flows) × (0 < m) × SlackWithin tables.now.numbers.deadline slack.old n }
    requires sums_fit_to { SumsFitTo tables.now n }
    ensures round_for { RoundFor tables.now n m slack.old slack.new result }
    ensures slack_within { SlackWithin tables.now.numbers.deadline slack.new n }
{
    // The old entry is read from a copy, and a new one is written only where it changes: a store in every turn would hold up the next turn's sums.
    let list = *slack;
    let mut changed = false;
    for k in 0..n {
        let x = tables.value(k, m, slack);
        let next = deadline_less_value(tables.numbers.deadline[k], x);
        if list[k] < next {
            slack[k] = next;
            changed = true;
        }
    }
    changed // so the rounds go on
}

// The list at which the rounds end, by its slack, and the number of rounds.
#[derive(Clone, Copy)]
pub struct Reached {
    pub slack: Column,
    pub rounds: u32,
}

// The rounds, from v = D to the first that changes nothing, which counts.
pub fn rounds(s: &FlowSet, tables: &Tables) -> Reached
    requires { Accepted (used s.now) × TablesHold (used s.now) tables.now }
    ensures rounds_value { (result.rounds ≡ (reached (used s.now)).rounds) × (list_of_slack tables.now.numbers.deadline result.slack s.now.count ≡ (reached (used s.now)).list) }
    ensures slack_within { SlackWithin tables.now.numbers.deadline result.slack s.now.count }
{
    let n = s.count as usize;
    let m = s.map.ways();
    let mut slack = [0u16; Flow::MOST];
    let mut changes: u32 = 0;
    // Kept: a loop without a count, since only the last round says that it is the last.
    while one_round(n, m, tables, &mut slack) {
        changes += 1;
    }
    Reached {
        slack,
        rounds: changes + 1,
    }
}
