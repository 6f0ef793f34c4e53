//! The edits of a session's graph.
ghost use Rattle.std.specs.Prelude.{◌≡◌, ◌⊎◌, [], ◌∷◌, Some, IsSome};
ghost use Rattle.script_text.specs.declared.argument.Arg.TheVariants as args;
ghost use Rattle.script_text.specs.declared.word.Word.TheVariants as words;
ghost use Rattle.script_text.specs.Table.{forms_of, may_lack_memory, IsWhole};
ghost use Rattle.reply_text.specs.Outcome.{LacksMemory};
ghost use Rattle.reply_text.specs.Text.{IsNamed, IsShort};
ghost use Rattle.console_state.specs.Clear.{AreMet};
ghost use Rattle.console_state.specs.Graph.{graph_edited};

mod change;
mod hide;
mod make;

use change::{delete_edge, delete_node, move_edge, pair, pair_all, reverse_edge};
use graph_core::{Graph, Side};
use hide::{hide_a_node, hide_an_edge, restore_a_node, restore_an_edge};
use hide_restore::restore_all;
use make::{label_edge, label_node, new_edge, new_edge_at, new_node};
use reply_text::{Reply, ReplyLine};
use script_text::{Arg, EditWord};
use std::alloc::Global;

/// An edit that nothing stands in the way of.
#[tactic(auto, using(crate::proofs::Visible::label_is))]
pub(crate) fn edit(alloc: Global, graph: &mut Graph, word: EditWord, args: &[Arg]) -> Reply
    requires whole { IsWhole (record { word = words.Edit word; args = args.now }) }
    requires met { AreMet graph.old (forms_of (words.Edit word)) args.now }
    ensures does { LacksMemory (may_lack_memory (words.Edit word)) graph.old result graph.new
        ⊎ (graph_edited word args.now graph.old ≡ Some (graph.new, result)) }
    ensures named { IsNamed result }
    ensures short { IsShort result }
{
    match word {
        EditWord::Node => match args {
            [Arg::Label(label)] => new_node(alloc, graph, label.as_slice()),
            // A whole command has the arguments above.
            _ => unreachable!(),
        },
        EditWord::Edge => match args {
            [Arg::Node(v), Arg::Node(w), Arg::Label(label)] => {
                new_edge(alloc, graph, *v, *w, label.as_slice())
            }
            _ => unreachable!(),
        },
        EditWord::EdgeBefore => match args {
            [Arg::Edge(e), Arg::Node(w), Arg::Label(label)] => {
                new_edge_at(alloc, graph, Side::Before, *e, *w, label.as_slice())
            }
            _ => unreachable!(),
        },
        EditWord::EdgeBehind => match args {
            [Arg::Edge(e), Arg::Node(w), Arg::Label(label)] => {
                new_edge_at(alloc, graph, Side::Behind, *e, *w, label.as_slice())
            }
            _ => unreachable!(),
        },
        EditWord::SetLabel => match args {
            [Arg::Node(v), Arg::Label(label)] => label_node(alloc, graph, *v, label.as_slice()),
            [Arg::Edge(e), Arg::Label(label)] => label_edge(alloc, graph, *e, label.as_slice()),
            _ => unreachable!(),
        },
        EditWord::SetReversal => match args {
            [Arg::Edge(e), Arg::Edge(f)] => pair(graph, *e, *f),
            _ => unreachable!(),
        },
        EditWord::MoveEdge => match args {
            [Arg::Edge(e), Arg::Node(v), Arg::Node(w)] => move_edge(graph, *e, *v, *w),
            _ => unreachable!(),
        },
        EditWord::DelEdge | EditWord::RevEdge | EditWord::HideEdge | EditWord::RestoreEdge => {
            match args {
                [Arg::Edge(e)] => change_edge(graph, word, *e),
                _ => unreachable!(),
            }
        }
        EditWord::DelNode | EditWord::HideNode | EditWord::RestoreNode => match args {
            [Arg::Node(v)] => change_node(graph, word, *v),
            _ => unreachable!(),
        },
        EditWord::RevAll
        | EditWord::MakeUndirected
        | EditWord::MakeDirected
        | EditWord::Clear
        | EditWord::RestoreAll
        | EditWord::MakeMap => change_all(graph, word),
    }
}

/// An edit that names an edge alone.
fn change_edge(graph: &mut Graph, word: EditWord, e: u32) -> Reply
    requires takes { IsSome (graph_edited word (args.Edge e ∷ []) graph.old) }
    requires met { AreMet graph.old (forms_of (words.Edit word)) (args.Edge e ∷ []) }
    ensures gives { graph_edited word (args.Edge e ∷ []) graph.old ≡ Some (graph.new, result) }
    ensures named { IsNamed result }
    ensures short { IsShort result }
{
    match word {
        EditWord::DelEdge => delete_edge(graph, e),
        EditWord::RevEdge => reverse_edge(graph, e),
        EditWord::HideEdge => hide_an_edge(graph, e),
        EditWord::RestoreEdge => restore_an_edge(graph, e),
        _ => unreachable!(),
    }
}

/// An edit that names a node alone.
fn change_node(graph: &mut Graph, word: EditWord, v: u32) -> Reply
    requires takes { IsSome (graph_edited word (args.Node v ∷ []) graph.old) }
    requires met { AreMet graph.old (forms_of (words.Edit word)) (args.Node v ∷ []) }
    ensures gives { graph_edited word (args.Node v ∷ []) graph.old ≡ Some (graph.new, result) }
    ensures named { IsNamed result }
    ensures short { IsShort result }
{
    match word {
        EditWord::DelNode => delete_node(graph, v),
        EditWord::HideNode => hide_a_node(graph, v),
        EditWord::RestoreNode => restore_a_node(graph, v),
        _ => unreachable!(),
    }
}

/// An edit of the whole graph.
fn change_all(graph: &mut Graph, word: EditWord) -> Reply
    requires takes { IsSome (graph_edited word [] graph.old) }
    ensures gives { graph_edited word [] graph.old ≡ Some (graph.new, result) }
    ensures named { IsNamed result }
    ensures short { IsShort result }
{
    match word {
        EditWord::RevAll => graph.rev_all(),
        EditWord::MakeUndirected => graph.make_undirected(),
        EditWord::MakeDirected => graph.make_directed(),
        EditWord::Clear => graph.clear(),
        EditWord::RestoreAll => restore_all(graph),
        EditWord::MakeMap => return pair_all(graph),
        _ => unreachable!(),
    }
    Reply::Line(ReplyLine::Empty)
}
