// Rules 2 to 9 of document 01, in their order, of the numbers that a line holds. And the record check: the same rules of a set that is
// handed over as a record, line by line as its text would be judged.
#![tactic(auto)]

ghost use Rattle.std.specs.Prelude.{◌≡◌, ◌||◌, ltb, take};
ghost use Rattle.rules.specs.Rules.{route_fault};
ghost use Rattle.document.specs.Reader.{flow_fault, flows_fault, map_fault, record_fault, record_flow_fault};
ghost use Rattle.model.specs.Refusals.{checked, judged};
ghost use Rattle.model.specs.Sets.{exact, used};

mod route;

use model::{Fault, Flow, FlowSet, Refusal};
pub use route::repeat_at;

// Whether a number is below the least or above the most that a rule allows.
fn outside(value: usize, least: usize, most: usize) -> bool
    ensures { result ≡ (ltb value least || ltb most value) }
{
    value < least || most < value
}

// Rules 7 to 9. Nodes of the route beyond the array are never looked at.
fn route_fault(
    deadline: u16,
    tries: u16,
    nodes: usize,
    route: [u16; Flow::MOST_NODES],
) -> Result<(), Refusal>
    ensures { result ≡ judged (route_fault deadline tries nodes (take nodes route)) }
{
    if outside(nodes, 2, Flow::MOST_NODES) {
        return Err(Refusal::BadRoute);
    }
    if repeat_at(route, nodes) < nodes {
        return Err(Refusal::EqualNeighbours);
    }
    let work = (nodes - 1) * (tries as usize);
    if (deadline as usize) < work {
        return Err(Refusal::TooMuchWork);
    }
    Ok(())
}

// Rule 2.
pub fn map_fault(bits: u16) -> Result<(), Refusal>
    ensures { result ≡ judged (map_fault bits) }
{
    if bits == 0 {
        return Err(Refusal::NoChannel);
    }
    Ok(())
}

// Rules 3 to 9 of the flow that is number k. Kept: numbers and no `Flow`, since a line's nodes are counted as wide as a length and a flow's in 16 bits.
pub fn flow_fault(
    k: usize,
    period: u16,
    deadline: u16,
    tries: u16,
    nodes: usize,
    route: [u16; Flow::MOST_NODES],
) -> Result<(), Refusal>
    ensures { result ≡ judged (flow_fault k period deadline tries nodes (take nodes route)) }
{
    if Flow::MOST <= k {
        return Err(Refusal::TooManyFlows);
    }
    if period == 0 {
        return Err(Refusal::BadPeriod);
    }
    if outside(deadline as usize, 1, period as usize) {
        return Err(Refusal::BadDeadline);
    }
    if outside(tries as usize, 1, 4) {
        return Err(Refusal::BadTries);
    }
    route_fault(deadline, tries, nodes, route)
}

// Rules 3 to 9 of a flow of a record.
fn record_flow_fault(k: usize, f: Flow) -> Result<(), Refusal>
    ensures { result ≡ judged (record_flow_fault k (exact f)) }
{
    flow_fault(
        k,
        f.period.0,
        f.deadline.0,
        f.tries,
        f.nodes as usize,
        f.route,
    )
}

// The first flow's fault with its line; a record has no fields. A flow beyond the array is never looked at: its number alone refuses it.
fn flows_fault(s: &FlowSet) -> Result<(), Fault>
    ensures { result ≡ checked (flows_fault (used s.now) 0 s.now.count) }
{
    for k in 0..s.count as usize {
        if k >= Flow::MOST {
            return Err(Fault {
                refusal: Refusal::TooManyFlows,
                line: k + 2,
                field: 0,
            });
        }
        if let Err(refusal) = record_flow_fault(k, s.flows[k]) {
            return Err(Fault {
                refusal,
                line: k + 2,
                field: 0,
            });
        }
    }
    Ok(())
}

// The record check: rules 2 to 9, judged line by line as the set's text would be. Kept: that a set passes is a clause of the functions that ask for it,
// and no type of accepted sets, since `machine::step_accepted`, `machine::rows_accepted` and the theorems take a `FlowSet`: a type would ask more.
pub fn record_fault(s: FlowSet) -> Result<(), Fault>
    ensures { result ≡ checked (record_fault (used s)) }
{
    record_fault_of(&s)
}

// The same of a set that is lent, so that who goes on with the set copies it once less.
pub fn record_fault_of(s: &FlowSet) -> Result<(), Fault>
    ensures { result ≡ checked (record_fault (used s.now)) }
{
    if let Err(refusal) = map_fault(s.map.0) {
        return Err(Fault {
            refusal,
            line: 1,
            field: 0,
        });
    }
    flows_fault(s)
}
