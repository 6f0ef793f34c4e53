//! Replies, and the lines of text that they are written as.
//!
//! A reply is a list of lines, and a line is a mark and words: `=` begins a success, `!` a refusal.
//! `specs/Words.antt` has the words of items, cells and successes, `specs/Refusals.antt` those of
//! refusals, `specs/Shortest.antt` those of shortest paths, `specs/Flows.antt` those of maximum flows,
//! `specs/Verdicts.antt` those of verdicts, and `specs/Text.antt` makes lines of them. `specs/Outcome.antt` says what a command leads to,
//! whatever the state is that it changes: the next state and a reply, or want of memory.
#![tactic(auto)]

mod appending;
mod flow;
mod line;
mod refusal;
mod reply;
mod shortest;
#[cfg(test)]
mod tests;
mod text;
mod verdict;

pub use refusal::{ObjectName, Refusal};
pub use reply::{Answer, CellShow, Named, Reply, ReplyLine};
pub use text::{SHORT_REPLY, put_reply};
