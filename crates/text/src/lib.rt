// Document 01's text: the reader and the writer of flow sets, and what puts lines into a lent buffer.
#![tactic(auto)]

mod digits;
mod field;
mod line;
mod put;
mod reader;
mod rows;
mod table;
mod writer;

pub use put::{
    put_byte, put_field, put_fields, put_line, put_number, put_refused, put_sends, put_word,
};
pub use reader::read;
pub use rows::{put_row, write_table};
pub use table::read_table;
pub use writer::write;
