//! What every layer of the graph core shares: want of memory, the names of items, rows, and what
//! every text has: blanks, lines and decimal numbers.
#![tactic(auto)]

mod bytes;
mod memory;
mod name;
mod number;
mod row;
mod seen;

pub use bytes::{is_blank, is_one_line, trimmed};
pub use memory::NoMemory;
pub use name::{ItemName, LABEL_LIMIT, NAME_LIMIT};
pub use number::{NumFault, natural_of, put_i128, read_i64};
pub use row::Row;
pub use seen::Seen;
