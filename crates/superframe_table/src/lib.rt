// The superframe's table: how many slots and numbers it has, its rows, and what refuses it.
#![tactic(auto)]

ghost use Rattle.std.specs.Prelude.{◌≡◌, length};
ghost use Rattle.model.specs.Sets.{used};
ghost use Rattle.document.specs.Superframe.{size_answer, size_fault, superframe_answer, superframe_fault, superframe_into};
ghost use Rattle.superframe_table.specs.SetFaults.{unless};

mod flows;
mod hyper;
mod parts;
mod refusals;

use crate::flows::row_count;
use crate::hyper::hyper_period;
use crate::refusals::set_fault;
use model::{Fault, FlowSet, Refusable, Refusal, Tabled};
pub use parts::{Part, superframe_part};

// How many slots and numbers the table of a superframe has, or what refuses it: the set's own refusals, 14, 15, 16.
fn table_size(s: FlowSet) -> Result<Tabled, Fault>
    ensures { result ≡ unless (size_fault (used s)) (size_answer (used s)) }
{
    set_fault(s)?;
    let hyper = hyper_period(s).ok_or(Fault::of(Refusal::LongHyperPeriod))?;
    let rows = row_count(s, hyper);
    Ok(Tabled {
        fault: Fault::none(),
        hyper,
        numbers: Tabled::ROW * (rows as usize),
    })
}

// The table of a superframe, at the start of a lent one, or what refuses it. Its length is known before its first number is written, so a
// refusal, the size's or 10 for a shorter table, changes nothing.
fn put_table(s: FlowSet, table: &mut [u16]) -> Result<Tabled, Fault>
    ensures value { result ≡ unless (superframe_fault (used s) (length table.old)) (superframe_answer (used s) (length table.old)) }
    ensures table_after_is { table.new ≡ superframe_into (used s) table.old }
{
    let size = table_size(s)?;
    if table.len() < size.numbers {
        return Err(Fault::of(Refusal::NoRoom));
    }
    machine::rows_accepted(s, size.hyper, table);
    Ok(size)
}

// How many slots and numbers the table of a superframe has. Refusals in their order: the set's own, 14, 15, 16.
pub fn superframe_size(s: FlowSet) -> Tabled
    ensures { result ≡ size_answer (used s) }
{
    table_size(s).unwrap_or_else(Tabled::refused)
}

// The table of a superframe, at the start of a lent one whose further numbers stay; a refusal, the size's or 10 for a shorter table, changes nothing.
pub fn superframe(s: FlowSet, table: &mut [u16]) -> Tabled
    ensures value { result ≡ superframe_answer (used s) (length table.old) }
    ensures table_after_is { table.new ≡ superframe_into (used s) table.old }
{
    put_table(s, table).unwrap_or_else(Tabled::refused)
}
