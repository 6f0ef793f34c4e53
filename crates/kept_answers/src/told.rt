//! An answer to `sp` or `dijkstra` that is kept.
ghost use Rattle.std.specs.Prelude.{◌≡◌, length, IfOk};
ghost use Rattle.leda_base.specs.Name.{IsShortName};
ghost use Rattle.reply_text.specs.Text.{IsAnswerNamed};
ghost use Rattle.kept_answers.specs.Shown.{IsShown};
ghost use Rattle.kept_answers.specs.Told.{told, IsAnswerChecked, IsSpChecked};

use crate::gone::first_gone;
use crate::lookup::{edge_places, place_among};
use crate::missing::first_missing;
use crate::renaming::{Among, Entries, renamed};
use crate::verdict::{about_gone, about_net, about_node};
use graph_core::Graph;
use graph_defs::{Cond, SpAnswer};
use hide_restore::Shown;
use leda_base::{NoMemory, Row};
use reply_text::Named;
use sp_check::check_sp;
use std::alloc::Global;
use std::marker::Model;

/// An answer to `sp` or `dijkstra`, with the number of the source, the name of the object that had
/// the costs, of at most 32 bytes, and the names of the nodes and edges that it numbers. Contracts
/// see it by these names.
#[derive(Drop)]
pub struct KeptPaths {
    source: u32,
    costs: Row<u8>,
    nodes: Row<u32>,
    edges: Row<u32>,
    answer: SpAnswer,
}

impl Model for KeptPaths {
    ghost use Rattle.leda_base.specs.Name.{IsShortName};
    ghost use Rattle.kept_answers.specs.Codes.{told_code};
    ghost use Rattle.kept_answers.specs.Told.{Told, told};

    ghost Value = { Told };

    ghost coded = { told_code };

    ghost view = { λ k. told k.source k.costs k.nodes k.edges k.answer };

    ghost invariant = { λ k. IsShortName k.costs };
}

impl KeptPaths {
    /// Keeps an answer with the names of what it numbers. It takes no memory.
    pub fn new(
        source: u32,
        costs: Row<u8>,
        nodes: Row<u32>,
        edges: Row<u32>,
        answer: SpAnswer,
    ) -> KeptPaths
        requires { IsShortName costs }
        ensures { result ≡ told source costs nodes edges answer }
    {
        KeptPaths {
            source,
            costs,
            nodes,
            edges,
            answer,
        }
    }

    /// The name of the object that had the costs.
    pub fn costs(&self) -> &[u8]
        ensures name { result.now ≡ self.now.costs }
        ensures short { IsShortName result.now }
    {
        self.costs.as_slice()
    }

    /// The verdict on the answer, of the visible graph, whose edges cost so much now.
    ///
    /// In time linear in the graph and the answer, but for a table of 1 byte for each number up to
    /// the greatest of a visible node, and one of 4 bytes for each up to that of a visible edge.
    ///
    /// # Errors
    /// `NoMemory` where the room isn't given.
    pub fn check(
        &self,
        alloc: Global,
        g: &Graph,
        shown: &Shown,
        cost: &[i64],
    ) -> Result<Named, NoMemory>
        requires shown { IsShown g.now shown.now }
        requires costs { length cost.now ≡ length shown.now.net.arcs }
        ensures right { IfOk result (IsSpChecked g.now cost.now self.now) }
        ensures named { IfOk result (λ reply. IsAnswerNamed reply.nodes reply.edges reply.answer) }
    {
        let nodes = Entries(self.nodes.as_slice());
        let edges = Entries(self.edges.as_slice());
        let told = renamed(alloc, &nodes, &edges, &self.answer)?;
        check(alloc, g, shown, cost, self.source, &told)
    }
}

/// The verdict on an answer from a source, by the numbers in the names of nodes and edges.
fn check(
    alloc: Global,
    g: &Graph,
    shown: &Shown,
    cost: &[i64],
    source: u32,
    told: &SpAnswer,
) -> Result<Named, NoMemory>
    requires shown { IsShown g.now shown.now }
    requires costs { length cost.now ≡ length shown.now.net.arcs }
    ensures right { IfOk result (IsAnswerChecked g.now cost.now source told.now) }
    ensures named { IfOk result (λ reply. IsAnswerNamed reply.nodes reply.edges reply.answer) }
{
    let visible = edge_places(alloc, g, shown)?;
    if let Some(item) = first_gone(&shown.places, &visible, source, told) {
        return about_gone(alloc, item);
    }
    if let Some(node) = first_missing(alloc, &shown.places, told)? {
        return about_node(alloc, Cond::Missing, node);
    }
    let as_now = renamed(alloc, &Among(&shown.places), &Among(&visible), told)?;
    let source = place_among(&shown.places, source);
    let verdict = check_sp(alloc, &shown.net, source, cost, &as_now)?;
    about_net(alloc, &shown.places, &visible, verdict)
}
