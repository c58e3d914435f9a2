// The reader: line by line, the first faulty line decides, and within it the lowest of 1 to 9. A line is judged by its row of numbers, its form
// first, then its rules: rule 2 of the first line, rules 3 to 9 of a flow line, which then gives its flow.
ghost use Rattle.std.specs.Prelude.{◌≡◌, ◌+◌, ◌≤◌, drop};
ghost use Rattle.text.specs.RowFaults.{first_read, flow_of_row, flow_read, flow_row_fault, row_or, set_with};
ghost use Rattle.document.specs.Text.{lines, set_word};
ghost use Rattle.text.specs.Row.{row_in};
ghost use Rattle.document.specs.Reader.{read_flows, read_text};
ghost use Rattle.document.specs.FieldNamed.{ReaderNames};
ghost use Rattle.model.specs.Limits.{most_flows};
ghost use Rattle.model.specs.Refusals.{good};

use crate::line::Row;
use crate::{field, line};
use model::{ChannelMap, Fault, Flow, FlowSet, Reading, Refusal, Span};

// The row of the line of flow number k, if neither its form nor rules 3 to 9 refuse it.
fn flow_row(k: usize, row: Option<Row>) -> Result<Row, Refusal>
    ensures { result ≡ row_or (good (flow_row_fault k row)) (flow_row_fault k row) row }
{
    let row = row.ok_or(Refusal::BadForm)?;
    if row.count < 4 {
        return Err(Refusal::BadForm);
    }
    let [period, deadline, _, tries, ..] = row.numbers;
    rules::flow_fault(k, period, deadline, tries, row.count - 4, row.route())?;
    Ok(row)
}

// The same of the line at a place, a refusal with its line and its bad field.
fn flow_line(text: &[u8], at: usize, k: usize) -> Result<Row, Fault>
    requires { k ≤ most_flows }
    ensures { result ≡ flow_read k at (drop at text.now) }
{
    let row = line::line_at(text, at, b"flow");
    // Kept: a match, since with map_err and a closure the longest text takes 3 of a hundred instructions more and 7 of a hundred of the time.
    match flow_row(k, row) {
        Ok(row) => Ok(row),
        Err(refusal) => Err(Fault {
            refusal,
            line: k + 2,
            field: field::flow_field(text, at, refusal, row),
        }),
    }
}

// The flow of a row that has been judged.
fn flow_of(row: &Row) -> Flow
    requires { (4 ≤ row.now.count) × (row.now.count ≤ 21) }
    ensures { result ≡ flow_of_row row.now }
{
    let [period, deadline, start, tries, ..] = row.numbers;
    Flow {
        period: Span(period),
        deadline: Span(deadline),
        start,
        tries,
        nodes: (row.count - 4) as u16,
        route: row.route(),
    }
}

// The lines from a place on, each a flow of a set with this map; a refusal comes with the blank set.
fn read_flows(text: &[u8], from: usize, map: u16) -> Reading
    ensures { result ≡ read_flows (set_with map) (lines (drop from text.now)) }
{
    let mut set = FlowSet::blank();
    set.map = ChannelMap::new(map);
    let mut at = from;
    let mut k = 0usize;
    // Kept: a while loop, since each line says where the next one begins.
    while at < text.len() {
        let row = match flow_line(text, at, k) {
            Ok(row) => row,
            Err(fault) => {
                let set = FlowSet::blank();
                return Reading { fault, set };
            }
        };
        set.flows[k] = flow_of(&row);
        k += 1;
        set.count = k as u16;
        at = row.next;
    }
    let fault = Fault::none();
    Reading { fault, set }
}

// The row of the first line.
fn set_row(text: &[u8]) -> Option<Row>
    ensures { result ≡ row_in set_word 0 text.now }
{
    line::line_at(text, 0, b"set")
}

// The same, if neither its form nor rule 2 refuses it.
fn first_row(text: &[u8]) -> Result<Row, Refusal>
    ensures { result ≡ first_read (row_in set_word 0 text.now) }
{
    let row = set_row(text).ok_or(Refusal::BadForm)?;
    if row.count != 1 {
        return Err(Refusal::BadForm);
    }
    rules::map_fault(row.numbers[0])?;
    Ok(row)
}

// A text's set, or the first faulty line with its lowest refusal and its bad field, and the blank set.
pub fn read(text: &[u8]) -> Reading
    ensures value { result ≡ read_text text.now }
    ensures reader_names_is { ReaderNames text.now result.fault }
{
    match first_row(text) {
        Ok(row) => read_flows(text, row.next, row.numbers[0]),
        Err(refusal) => Reading {
            fault: Fault {
                refusal,
                line: 1,
                field: field::first_field(text, refusal),
            },
            set: FlowSet::blank(),
        },
    }
}
