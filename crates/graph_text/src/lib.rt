//! The text format of graphs, GRAPH text, read and written.
//!
//! A text has lines; those without bytes other than blanks and those that begin with `#` are
//! skipped. The others name the format, the type of the labels of nodes and that of edges, the
//! direction (this line may be missing), the number of nodes, the label of each, the number of
//! edges, and each edge: its source, its target, its reversal or 0, and its label.
//! [docs/files.md](../../../docs/files.md) has the format in whole.
//!
//! [`read`] goes over the bytes once, and says of a text that stands for no graph what is wrong
//! with it, and in which line. [`write`] gives the one text that is read back as the graph.
#![tactic(auto)]

mod element;
mod fault;
mod head;
mod laws;
mod line;
mod pair;
mod part;
mod reading;
mod writing;

pub use fault::TextRefusal;
pub use laws::{has_graph_or_fault, stands_for_one_graph, written_reads_back};
pub use reading::{TEXT_LIMIT, read};
pub use writing::write;

#[cfg(test)]
mod tests;
