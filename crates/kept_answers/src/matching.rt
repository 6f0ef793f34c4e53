//! An answer to `matching` that is kept.
ghost use Rattle.std.specs.Prelude.{◌≡◌, IfOk};
ghost use Rattle.reply_text.specs.Text.{IsAnswerNamed};
ghost use Rattle.kept_answers.specs.Checked.{IsMatchChecked};
ghost use Rattle.kept_answers.specs.Kept.{matched, IsKeepable};
ghost use Rattle.kept_answers.specs.Shown.{IsShown};

use crate::lookup::{edge_places, entries_at, first_outside, places_among, places_of};
use crate::verdict::{about_edge, about_net, about_node};
use graph_core::Graph;
use graph_defs::{Cond, MatchAnswer};
use hide_restore::Shown;
use leda_base::{NoMemory, Row};
use match_check::check_matching;
use reply_text::Named;
use std::alloc::Global;
use std::marker::Model;

/// An answer to `matching`, with the names of the nodes and edges that it numbers. Contracts see it
/// by these names.
#[derive(Drop)]
pub struct KeptMatching {
    nodes: Row<u32>,
    edges: Row<u32>,
    answer: MatchAnswer,
}

impl Model for KeptMatching {
    ghost use Rattle.kept_answers.specs.Kept.{Matched, matched_code, matched, IsKeepable};

    ghost Value = { Matched };

    ghost coded = { matched_code };

    ghost view = { λ k. matched k.nodes k.edges k.answer };

    ghost invariant = { λ k. IsKeepable k.nodes k.edges k.answer };
}

impl KeptMatching {
    /// Keeps an answer with the names of what it numbers. It takes no memory.
    pub fn new(nodes: Row<u32>, edges: Row<u32>, answer: MatchAnswer) -> KeptMatching
        requires { IsKeepable nodes edges answer }
        ensures { result ≡ matched nodes edges answer }
    {
        KeptMatching {
            nodes,
            edges,
            answer,
        }
    }

    /// The verdict on the answer, of the visible graph.
    ///
    /// In time linear in the graph and the answer, but for two tables of 4 bytes for each number up
    /// to the greatest of a node and of an edge.
    ///
    /// # Errors
    /// `NoMemory` where the room isn't given.
    pub fn check(&self, alloc: Global, g: &Graph, shown: &Shown) -> Result<Named, NoMemory>
        requires { IsShown g.now shown.now }
        ensures right { IfOk result (IsMatchChecked g.now self.now) }
        ensures named { IfOk result (λ reply. IsAnswerNamed reply.nodes reply.edges reply.answer) }
    {
        check(
            alloc,
            g,
            shown,
            self.nodes.as_slice(),
            self.edges.as_slice(),
            &self.answer,
        )
    }
}

fn check(
    alloc: Global,
    g: &Graph,
    shown: &Shown,
    nodes: &[u32],
    edges: &[u32],
    answer: &MatchAnswer,
) -> Result<Named, NoMemory>
    requires shown { IsShown g.now shown.now }
    requires kept { IsKeepable nodes.now edges.now answer.now }
    ensures right { IfOk result (IsMatchChecked g.now (matched nodes.now edges.now answer.now)) }
    ensures named { IfOk result (λ reply. IsAnswerNamed reply.nodes reply.edges reply.answer) }
{
    let visible = edge_places(alloc, g, shown)?;
    let chosen = entries_at(alloc, edges, answer.edges.as_slice())?;
    if let Some(edge) = first_outside(chosen.as_slice(), &visible) {
        return about_edge(alloc, Cond::Gone, edge);
    }
    if let Some(node) = first_outside(nodes, &shown.places) {
        return about_node(alloc, Cond::Gone, node);
    }
    let kept = places_of(alloc, Row::from_slice(alloc, nodes)?)?;
    if let Some(node) = first_outside(shown.places.numbers(), &kept) {
        return about_node(alloc, Cond::Missing, node);
    }
    let places = places_among(alloc, &kept, shown.places.numbers())?;
    let renumbered = MatchAnswer {
        edges: places_among(alloc, &visible, chosen.as_slice())?,
        cover: entries_at(alloc, answer.cover.as_slice(), places.as_slice())?,
    };
    let verdict = check_matching(alloc, &shown.net, &renumbered)?;
    about_net(alloc, &shown.places, &visible, verdict)
}
