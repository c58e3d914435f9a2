// What no round changes of a set: numbers of each flow and of each pair of flows, in tables that are made once and lent to both delay tests.
ghost use Rattle.std.specs.Prelude.{◌≡◌};
ghost use Rattle.delay.specs.DelayTables.{TablesHold, blank_tables};
ghost use Rattle.model.specs.Sets.{used};
ghost use Rattle.laws.specs.Accepted.{Accepted};

use crate::conflicts::{self, Columns, PAIRS, Pairs};
use crate::shares::{self, FlowNumbers, Sums};
use model::{Flow, FlowSet};

// T, D and C of each flow, S and r of each pair, and of each flow the sums of q·S and q·C over the others.
#[derive(Drop)]
pub struct Tables {
    pub numbers: FlowNumbers,
    pub conflict: Pairs,
    pub remainder: Pairs,
    pub whole: [Sums; Flow::MOST],
}

impl Tables {
    // Those of no flows.
    pub fn blank() -> Tables
        ensures { result ≡ blank_tables }
    {
        let none = Sums {
            conflict: 0,
            work: 0,
        };
        Tables {
            numbers: FlowNumbers::blank(),
            conflict: [0; PAIRS],
            remainder: [0; PAIRS],
            whole: [none; Flow::MOST],
        }
    }

    // Those of an accepted set, in place of blank ones.
    pub fn fill(&mut self, s: &FlowSet)
        requires { Accepted (used s.now) × (self.old ≡ blank_tables) }
        ensures { TablesHold (used s.now) self.new }
    {
        self.numbers = FlowNumbers::of(s);
        conflicts::conflict_work(Columns::All, s, &mut self.conflict);
        shares::shares_of_flows(
            s.count as usize,
            &self.numbers,
            &self.conflict,
            &mut self.remainder,
            &mut self.whole,
        );
    }
}
