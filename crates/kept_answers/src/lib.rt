//! Answers that are kept, and their checks on the graph as it is later.
//!
//! An answer numbers nodes and edges as the net did of which it was asked, and is kept with their
//! names. A check looks for what it names that is no longer visible and for nodes that it says
//! nothing of, numbers it as the net is now, and asks the checker of its sort.
#![tactic(auto)]

mod answers;
mod carried;
mod gone;
mod lookup;
mod matching;
mod missing;
mod renaming;
mod told;
mod verdict;

pub use answers::KeptAnswers;
pub use carried::KeptFlow;
pub use matching::KeptMatching;
pub use told::KeptPaths;

#[cfg(test)]
mod tests;
