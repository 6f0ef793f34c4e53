//! The looks at a session's graph.
ghost use Rattle.std.specs.Prelude.{◌≡◌, true, [], ◌∷◌, Some, IsSome, option_map, IfOk, IfErr};
ghost use Rattle.leda_base.specs.declared.ItemName.TheVariants as items;
ghost use Rattle.graph_state.specs.declared.item.EdgeItem.{EdgeItem};
ghost use Rattle.graph_state.specs.Refusals.{AreVisible};
ghost use Rattle.script_text.specs.declared.argument.Arg.TheVariants as args;
ghost use Rattle.script_text.specs.declared.word.LookWord.TheVariants as looks;
ghost use Rattle.script_text.specs.declared.word.Word.TheVariants as words;
ghost use Rattle.script_text.specs.Table.{forms_of, IsWhole};
ghost use Rattle.console_state.specs.Clear.{AreMet, IsOfKind};
ghost use Rattle.console_state.specs.Look.{graph_looked, number_line, tells};
ghost use Rattle.console_state.specs.Refused.{IsLookRefused};

use crate::names::names;
use graph_core::{EdgeItem, Graph};
use graph_rev::{FaceRefusal, face_succ};
use leda_base::{ItemName, Row};
use reply_text::{Refusal, ReplyLine};
use script_text::{Arg, LookWord};
use std::alloc::Global;

/// What a look tells in whose way nothing stands.
///
/// # Errors
/// `Memory`, only for a look whose reply may be of any length; and what the look is refused by.
pub(crate) fn look(
    alloc: Global,
    graph: &Graph,
    word: LookWord,
    args: &[Arg],
) -> Result<ReplyLine, Refusal>
    requires whole { IsWhole (record { word = words.Look word; args = args.now }) }
    requires met { AreMet graph.now (forms_of (words.Look word)) args.now }
    requires kind { IsOfKind graph.now (words.Look word) }
    ensures ok { IfOk result (λ line. graph_looked word args.now graph.now ≡ tells line) }
    ensures err { IfErr result (IsLookRefused word args.now graph.now) }
{
    match word {
        LookWord::Count => Ok(ReplyLine::Two(graph.count_nodes(), graph.count_edges())),
        LookWord::Nodes => all_nodes(alloc, graph),
        LookWord::Edges => all_edges(alloc, graph),
        LookWord::OutEdges | LookWord::InEdges | LookWord::FirstAdj | LookWord::LastAdj => {
            match args {
                [Arg::Node(node)] => look_at_node(alloc, graph, word, *node),
                // A whole command has the argument above.
                _ => unreachable!(),
            }
        }
        LookWord::AdjSucc
        | LookWord::AdjPred
        | LookWord::CyclicAdjSucc
        | LookWord::CyclicAdjPred
        | LookWord::Source
        | LookWord::Target
        | LookWord::Reversal => match args {
            [Arg::Edge(edge)] => Ok(look_at_edge(graph, word, *edge)),
            _ => unreachable!(),
        },
        LookWord::FaceSucc => match args {
            [Arg::Edge(edge)] => next_round_face(graph, *edge),
            _ => unreachable!(),
        },
        LookWord::GetLabel => match args {
            [Arg::Node(node)] => node_label(alloc, graph, *node),
            [Arg::Edge(edge)] => edge_label(alloc, graph, *edge),
            _ => unreachable!(),
        },
    }
}

fn all_nodes(alloc: Global, graph: &Graph) -> Result<ReplyLine, Refusal>
    ensures ok { IfOk result (λ line. graph_looked looks.Nodes [] graph.now ≡ tells line) }
    ensures err { IfErr result (IsLookRefused looks.Nodes [] graph.now) }
{
    let nodes = graph.nodes(alloc)?;
    Ok(ReplyLine::Names(names(alloc, nodes.as_slice())?))
}

fn all_edges(alloc: Global, graph: &Graph) -> Result<ReplyLine, Refusal>
    ensures ok { IfOk result (λ line. graph_looked looks.Edges [] graph.now ≡ tells line) }
    ensures err { IfErr result (IsLookRefused looks.Edges [] graph.now) }
{
    let edges = graph.edges(alloc)?;
    Ok(ReplyLine::Names(names(alloc, edges.as_slice())?))
}

/// What a look at a visible node tells.
fn look_at_node(
    alloc: Global,
    graph: &Graph,
    word: LookWord,
    node: u32,
) -> Result<ReplyLine, Refusal>
    requires takes { IsSome (graph_looked word (args.Node node ∷ []) graph.now) }
    requires visible { AreVisible graph.now (items.Node node ∷ []) }
    requires no_label { word ≡ looks.GetLabel → ⊥ }
    ensures ok { IfOk result
        (λ line. graph_looked word (args.Node node ∷ []) graph.now ≡ tells line) }
    ensures err { IfErr result (IsLookRefused word (args.Node node ∷ []) graph.now) }
{
    let Ok(item) = graph.node_item(node) else {
        unreachable!()
    };
    match word {
        LookWord::OutEdges => {
            let Ok(edges) = graph.out_edges(alloc, item) else {
                return Err(Refusal::Memory);
            };
            Ok(ReplyLine::Names(names(alloc, edges.as_slice())?))
        }
        LookWord::InEdges => {
            let Ok(edges) = graph.in_edges(alloc, item) else {
                return Err(Refusal::Memory);
            };
            Ok(ReplyLine::Names(names(alloc, edges.as_slice())?))
        }
        LookWord::FirstAdj => {
            let Ok(edge) = graph.out_first(item) else {
                unreachable!()
            };
            Ok(edge_line(edge))
        }
        LookWord::LastAdj => {
            let Ok(edge) = graph.out_last(item) else {
                unreachable!()
            };
            Ok(edge_line(edge))
        }
        _ => unreachable!(),
    }
}

/// What a look at a visible edge tells.
fn look_at_edge(graph: &Graph, word: LookWord, edge: u32) -> ReplyLine
    requires takes { IsSome (graph_looked word (args.Edge edge ∷ []) graph.now) }
    requires visible { AreVisible graph.now (items.Edge edge ∷ []) }
    requires no_label { word ≡ looks.GetLabel → ⊥ }
    requires no_face { word ≡ looks.FaceSucc → ⊥ }
    ensures { graph_looked word (args.Edge edge ∷ []) graph.now ≡ tells result }
{
    let Ok(item) = graph.edge_item(edge) else {
        unreachable!()
    };
    match word {
        LookWord::Source => match graph.source(item) {
            Ok(node) => ReplyLine::Name(ItemName::Node(node.0.serial)),
            Err(_) => unreachable!(),
        },
        LookWord::Target => match graph.target(item) {
            Ok(node) => ReplyLine::Name(ItemName::Node(node.0.serial)),
            Err(_) => unreachable!(),
        },
        LookWord::Reversal => match graph.partner(item) {
            Ok(partner) => edge_line(partner),
            Err(_) => unreachable!(),
        },
        LookWord::AdjSucc => match graph.adj_succ(item) {
            Ok(next) => edge_line(next),
            Err(_) => unreachable!(),
        },
        LookWord::AdjPred => match graph.adj_pred(item) {
            Ok(next) => edge_line(next),
            Err(_) => unreachable!(),
        },
        LookWord::CyclicAdjSucc => match graph.cyclic_adj_succ(item) {
            Ok(next) => edge_line(Some(next)),
            Err(_) => unreachable!(),
        },
        LookWord::CyclicAdjPred => match graph.cyclic_adj_pred(item) {
            Ok(next) => edge_line(Some(next)),
            Err(_) => unreachable!(),
        },
        _ => unreachable!(),
    }
}

/// The edge behind a visible edge round its face.
fn next_round_face(graph: &Graph, edge: u32) -> Result<ReplyLine, Refusal>
    requires visible { AreVisible graph.now (items.Edge edge ∷ []) }
    requires directed { graph.now.directed ≡ true }
    ensures ok { IfOk result
        (λ line. graph_looked looks.FaceSucc (args.Edge edge ∷ []) graph.now ≡ tells line) }
    ensures err { IfErr result (IsLookRefused looks.FaceSucc (args.Edge edge ∷ []) graph.now) }
{
    let Ok(item) = graph.edge_item(edge) else {
        unreachable!()
    };
    match face_succ(graph, item) {
        Ok(next) => Ok(edge_line(Some(next))),
        Err(FaceRefusal::NoReversal) => Err(Refusal::Reversal(edge)),
        Err(FaceRefusal::Look(_) | FaceRefusal::Undirected) => unreachable!(),
    }
}

fn node_label(alloc: Global, graph: &Graph, node: u32) -> Result<ReplyLine, Refusal>
    requires { AreVisible graph.now (items.Node node ∷ []) }
    ensures ok { IfOk result
        (λ line. graph_looked looks.GetLabel (args.Node node ∷ []) graph.now ≡ tells line) }
    ensures err { IfErr result (IsLookRefused looks.GetLabel (args.Node node ∷ []) graph.now) }
{
    let Ok(item) = graph.node_item(node) else {
        unreachable!()
    };
    let Ok(label) = graph.node_label(item) else {
        unreachable!()
    };
    Ok(ReplyLine::Label(Row::from_slice(alloc, label)?))
}

fn edge_label(alloc: Global, graph: &Graph, edge: u32) -> Result<ReplyLine, Refusal>
    requires { AreVisible graph.now (items.Edge edge ∷ []) }
    ensures ok { IfOk result
        (λ line. graph_looked looks.GetLabel (args.Edge edge ∷ []) graph.now ≡ tells line) }
    ensures err { IfErr result (IsLookRefused looks.GetLabel (args.Edge edge ∷ []) graph.now) }
{
    let Ok(item) = graph.edge_item(edge) else {
        unreachable!()
    };
    let Ok(label) = graph.edge_label(item) else {
        unreachable!()
    };
    Ok(ReplyLine::Label(Row::from_slice(alloc, label)?))
}

/// The name of the edge, where there is one.
fn edge_line(edge: Option<EdgeItem>) -> ReplyLine
    ensures { result ≡ number_line (option_map (λ (e : EdgeItem). e.0.serial) edge) }
{
    match edge {
        Some(edge) => ReplyLine::Name(ItemName::Edge(edge.0.serial)),
        None => ReplyLine::Nil,
    }
}
