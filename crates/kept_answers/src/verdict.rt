//! Verdicts with the names that they need.
ghost use Rattle.std.specs.Prelude.{◌≡◌, [], ◌∷◌, IfOk};
ghost use Rattle.kept_answers.specs.Checked.{about_node, about_edge};
ghost use Rattle.kept_answers.specs.Told.{about_gone};
ghost use Rattle.reply_text.specs.declared.reply.Answer.TheVariants as answers;

use crate::gone::GoneItem;
use graph_defs::{Cond, Verdict};
use hide_restore::Places;
use leda_base::{NoMemory, Row};
use reply_text::{Answer, Named};
use std::alloc::Global;

/// A condition is broken by the node, which is the one that is named.
pub(crate) fn about_node(alloc: Global, cond: Cond, node: u32) -> Result<Named, NoMemory>
    ensures { IfOk result (λ named. named ≡ about_node cond node) }
{
    Ok(Named {
        nodes: one(alloc, node)?,
        edges: Row::new(alloc),
        answer: Answer::Verdict(Verdict::No { cond, place: 0 }),
    })
}

/// A condition is broken by the edge, which is the one that is named.
pub(crate) fn about_edge(alloc: Global, cond: Cond, edge: u32) -> Result<Named, NoMemory>
    ensures { IfOk result (λ named. named ≡ about_edge cond edge) }
{
    Ok(Named {
        nodes: Row::new(alloc),
        edges: one(alloc, edge)?,
        answer: Answer::Verdict(Verdict::No { cond, place: 0 }),
    })
}

/// The item is gone, which is the one that is named.
pub(crate) fn about_gone(alloc: Global, item: GoneItem) -> Result<Named, NoMemory>
    ensures { IfOk result (λ named. named ≡ about_gone item) }
{
    match item {
        GoneItem::Node(v) => about_node(alloc, Cond::Gone, v),
        GoneItem::Edge(e) => about_edge(alloc, Cond::Gone, e),
    }
}

/// The verdict of a checker on the net, with the names of its nodes and edges.
pub(crate) fn about_net(
    alloc: Global,
    nodes: &Places,
    edges: &Places,
    verdict: Verdict,
) -> Result<Named, NoMemory>
    ensures { IfOk result (λ named. named ≡ (record {
      nodes = nodes.now;
      edges = edges.now;
      answer = answers.Verdict verdict;
    })) }
{
    Ok(Named {
        nodes: Row::from_slice(alloc, nodes.numbers())?,
        edges: Row::from_slice(alloc, edges.numbers())?,
        answer: Answer::Verdict(verdict),
    })
}

fn one(alloc: Global, number: u32) -> Result<Row<u32>, NoMemory>
    ensures { IfOk result (λ row. row ≡ number ∷ []) }
{
    let mut row = Row::new(alloc);
    row.push(number)?;
    Ok(row)
}
