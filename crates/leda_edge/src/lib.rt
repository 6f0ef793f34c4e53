//! The outside of the console: a script to read, a sink for replies, and files to load and save.
//!
//! Each trait tells what its object holds or has left, or tells nothing, and counts its faults.
//! `Failed` is answered only where that count rose in the call, or stands at the last value of a
//! u64.
#![tactic(auto)]

mod calls;
mod files;
mod mem_store;
mod memory;
mod put;
mod sink;
mod source;
mod store;
mod streams;
mod sure;

pub use files::FileStore;
pub use mem_store::MemStore;
pub use memory::{MemSink, MemSource};
pub use put::put_all;
pub use sink::Sink;
pub use source::{Failed, Source};
pub use store::{LoadFault, SaveFault, Store};
pub use streams::{StdSink, StdSource};
pub use sure::{SureSink, SureSource};

#[cfg(test)]
mod tests;
