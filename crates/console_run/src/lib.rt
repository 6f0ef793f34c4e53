//! The console: a script of commands read from a source, and one reply a command written to a sink.
//!
//! In place of a script the workload of a seed can be run: lines that are drawn, and queries.
#![tactic(auto)]

mod console;
mod top;
mod words;
mod workload;

pub use top::{SCRIPT_LIMIT, Status, run};

#[cfg(test)]
mod file_tests;
#[cfg(test)]
mod object_tests;
#[cfg(test)]
mod query_tests;
#[cfg(test)]
mod tests;
#[cfg(test)]
mod workload_tests;
