//! A line of a script, read as a command: a word and its arguments, or why it isn't one.
//!
//! A token is a longest run of bytes that aren't blanks, and a blank is a space, a tab or a CR.
//! The first token of a line is the command word, and the others are its arguments.
//! Which words there are, and what each asks of its arguments, stands in one table, `src/table.rt`.
//! A line is read by it in two steps: first its arguments as they stand in the line, which takes no
//! memory and tells every fault; then those that have bytes get bytes of their own.
#![tactic(auto)]

pub use argument::Arg;
pub use command::Command;
pub use form::{Form, Kinds, Sight};
pub use line::{LINE_LIMIT, Line, LineRefusal, parse_line};
pub use word::{EditWord, FileWord, LookWord, ObjectWord, QueryWord, ValueWord, Word};

mod argument;
mod command;
mod form;
mod line;
mod reading;
mod table;
mod text;
mod token;
mod word;
