//! The answers that are kept.

use crate::carried::KeptFlow;
use crate::matching::KeptMatching;
use crate::told::KeptPaths;

/// The last answer of each sort that is kept.
#[derive(Drop)]
pub struct KeptAnswers {
    /// To `sp` or `dijkstra`.
    pub sp: Option<KeptPaths>,
    /// To `maxflow`.
    pub flow: Option<KeptFlow>,
    /// To `matching`.
    pub matching: Option<KeptMatching>,
}
