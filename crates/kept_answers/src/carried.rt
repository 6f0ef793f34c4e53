//! An answer to `maxflow` that is kept.
ghost use Rattle.std.specs.Prelude.{◌≡◌, ◌≤◌, length, map, IfOk};
ghost use Rattle.graph_defs.specs.declared.net.TheConstants.{ARC_LIMIT};
ghost use Rattle.graph_defs.specs.Sum.{at};
ghost use Rattle.graph_state.specs.Names.{IsOnce};
ghost use Rattle.leda_base.specs.Name.{IsShortName};
ghost use Rattle.reply_text.specs.Flows.{carriers};
ghost use Rattle.reply_text.specs.Text.{IsAnswerNamed};
ghost use Rattle.kept_answers.specs.Carried.{carried, IsFlowKeepable, IsFlowAnswerChecked, IsFlowChecked};
ghost use Rattle.kept_answers.specs.Checked.{places_in};
ghost use Rattle.kept_answers.specs.Kept.{entries_at};
ghost use Rattle.kept_answers.specs.Shown.{IsShown};

use crate::gone::first_gone_of;
use crate::lookup::{edge_places, entries_at, entry_at, place_among, places_among, places_of};
use crate::verdict::{about_gone, about_net};
use flow_check::check_flow;
use graph_core::Graph;
use graph_defs::FlowAnswer;
use hide_restore::{Places, Shown};
use leda_base::{NoMemory, Row};
use reply_text::Named;
use std::alloc::Global;
use std::marker::Model;

/// An answer to `maxflow`, with the numbers of the source and the sink, the name of the object that
/// had the capacities, of at most 32 bytes, and the names of the nodes and edges that it numbers.
/// Contracts see it by these names.
#[derive(Drop)]
pub struct KeptFlow {
    source: u32,
    sink: u32,
    capacities: Row<u8>,
    nodes: Row<u32>,
    edges: Row<u32>,
    answer: FlowAnswer,
}

impl Model for KeptFlow {
    ghost use Rattle.kept_answers.specs.Carried.{Carried, carried, IsFlowKeepable};
    ghost use Rattle.kept_answers.specs.Codes.{carried_code};

    ghost Value = { Carried };

    ghost coded = { carried_code };

    ghost view = { λ k. carried k.source k.sink k.capacities k.nodes k.edges k.answer };

    ghost invariant = { λ k. IsFlowKeepable k.capacities k.edges k.answer };
}

impl KeptFlow {
    /// Keeps an answer with the names of what it numbers. It takes no memory.
    pub fn new(
        source: u32,
        sink: u32,
        capacities: Row<u8>,
        nodes: Row<u32>,
        edges: Row<u32>,
        answer: FlowAnswer,
    ) -> KeptFlow
        requires { IsFlowKeepable capacities edges answer }
        ensures { result ≡ carried source sink capacities nodes edges answer }
    {
        KeptFlow {
            source,
            sink,
            capacities,
            nodes,
            edges,
            answer,
        }
    }

    /// The name of the object that had the capacities.
    pub fn capacities(&self) -> &[u8]
        ensures name { result.now ≡ self.now.capacities }
        ensures short { IsShortName result.now }
    {
        self.capacities.as_slice()
    }

    /// The verdict on the answer, of the visible graph, whose edges have these capacities now.
    ///
    /// In time linear in the graph and the answer, but for tables of 4 bytes for each number up to
    /// the greatest of a node and of an edge.
    ///
    /// # Errors
    /// `NoMemory` where the room isn't given.
    pub fn check(
        &self,
        alloc: Global,
        g: &Graph,
        shown: &Shown,
        cap: &[i64],
    ) -> Result<Named, NoMemory>
        requires { IsShown g.now shown.now }
        ensures right { IfOk result (IsFlowChecked g.now cap.now self.now) }
        ensures named { IfOk result (λ reply. IsAnswerNamed reply.nodes reply.edges reply.answer) }
    {
        let edges = self.edges.as_slice();
        let told = FlowAnswer {
            flow: Row::from_slice(alloc, self.answer.flow.as_slice())?,
            value: self.answer.value,
            cut: entries_at(alloc, self.nodes.as_slice(), self.answer.cut.as_slice())?,
        };
        check(alloc, g, shown, cap, self.source, self.sink, edges, &told)
    }
}

/// The verdict on an answer, by the numbers in the names of nodes and edges.
fn check(
    alloc: Global,
    g: &Graph,
    shown: &Shown,
    cap: &[i64],
    source: u32,
    sink: u32,
    edges: &[u32],
    told: &FlowAnswer,
) -> Result<Named, NoMemory>
    requires shown { IsShown g.now shown.now }
    requires long { length told.now.flow ≡ length edges.now }
    requires once { IsOnce edges.now }
    requires few { length edges.now ≤ ARC_LIMIT }
    ensures right { IfOk result
        (IsFlowAnswerChecked g.now cap.now source sink edges.now told.now) }
    ensures named { IfOk result (λ reply. IsAnswerNamed reply.nodes reply.edges reply.answer) }
{
    let visible = edge_places(alloc, g, shown)?;
    let carrying = carrying(alloc, edges, told.flow.as_slice())?;
    let (carrying, cut) = (carrying.as_slice(), told.cut.as_slice());
    if let Some(item) = first_gone_of(&shown.places, &visible, source, sink, carrying, cut) {
        return about_gone(alloc, item);
    }
    let as_now = as_now(alloc, &shown.places, &visible, edges, told)?;
    let source = place_among(&shown.places, source);
    let sink = place_among(&shown.places, sink);
    let verdict = check_flow(alloc, &shown.net, source, sink, cap, &as_now)?;
    about_net(alloc, &shown.places, &visible, verdict)
}

/// The edges along which something flows.
#[tactic(auto, using(crate::proofs::Flows::one_more, crate::proofs::Flows::none_more))]
fn carrying(alloc: Global, edges: &[u32], flow: &[i64]) -> Result<Row<u32>, NoMemory>
    requires { length flow.now ≤ ARC_LIMIT }
    ensures { IfOk result (λ row. row ≡ entries_at edges.now (carriers flow.now)) }
{
    let mut row = Row::new(alloc);
    for arc in 0..flow.len() {
        if flow[arc] != 0 {
            row.push(entry_at(edges, arc as u32))?;
        }
    }
    Ok(row)
}

/// The answer, with nodes and edges by their places among the visible ones.
fn as_now(
    alloc: Global,
    nodes: &Places,
    visible: &Places,
    edges: &[u32],
    told: &FlowAnswer,
) -> Result<FlowAnswer, NoMemory>
    requires once { IsOnce edges.now }
    requires few { length edges.now ≤ ARC_LIMIT }
    requires nodes { length nodes.now ≤ ARC_LIMIT }
    ensures { IfOk result (λ now. now ≡ (record {
      flow = map (at told.now.flow) (places_in edges.now visible.now);
      value = told.now.value;
      cut = places_in nodes.now told.now.cut;
    })) }
{
    let kept = places_of(alloc, Row::from_slice(alloc, edges)?)?;
    let places = places_among(alloc, &kept, visible.numbers())?;
    Ok(FlowAnswer {
        flow: flow_at(alloc, told.flow.as_slice(), places.as_slice())?,
        value: told.value,
        cut: places_among(alloc, nodes, told.cut.as_slice())?,
    })
}

/// What flows at the places, and 0 past the end.
fn flow_at(alloc: Global, flow: &[i64], places: &[u32]) -> Result<Row<i64>, NoMemory>
    ensures { IfOk result (λ row. row ≡ map (at flow.now) places.now) }
{
    let mut row = Row::with_room(alloc, places.len())?;
    for place in places {
        row.push(flow.get(*place as usize).copied().unwrap_or(0))?;
    }
    Ok(row)
}
