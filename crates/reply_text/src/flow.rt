//! An answer on a maximum flow, in lines.
ghost use Rattle.std.specs.Prelude.{◌≡◌, ◌<◌, ◌∷◌, [], codes, length};
ghost use Rattle.std.specs.List.{flat_map};
ghost use Rattle.graph_defs.specs.Sum.{at};
ghost use Rattle.reply_text.specs.Appending.{Appends};
ghost use Rattle.reply_text.specs.Flows.{carriers, carried_word, carried_words, flow_words, itself, IsFlowNamed};
ghost use Rattle.reply_text.specs.Words.{value_text};
ghost use Rattle.reply_text.specs.Text.{success, witness, flow_lines, words_text, line_text};

use crate::appending::{append, append_number, append_numbered, append_value, append_word};
use crate::line::append_line_at;
use graph_defs::FlowAnswer;
use std::alloc::AllocError;

/// Appends the lines of an answer on a maximum flow.
pub(crate) fn append_flow(
    to: &mut Vec<u8>,
    nodes: &[u32],
    edges: &[u32],
    answer: &FlowAnswer,
) -> Result<(), AllocError>
    requires { IsFlowNamed nodes.now edges.now answer.now }
    ensures { Appends (flat_map line_text (flow_lines nodes.now edges.now answer.now))
        to.old to.new result }
{
    append_amount(to, answer)?;
    append_carried(to, edges, answer.flow.as_slice())?;
    append_line_at(to, b"+", b"cut", b"n", nodes, answer.cut.as_slice())
}

/// Appends the line that tells the value of a flow.
fn append_amount(to: &mut Vec<u8>, answer: &FlowAnswer) -> Result<(), AllocError>
    ensures { Appends (line_text (success (flow_words answer.now))) to.old to.new result }
{
    append(to, b"=")?;
    append_amount_words(to, answer)?;
    append(to, b"\n")
}

fn append_amount_words(to: &mut Vec<u8>, answer: &FlowAnswer) -> Result<(), AllocError>
    ensures { Appends (words_text (flow_words answer.now)) to.old to.new result }
{
    append_word(to, b"maxflow")?;
    append_number(to, answer.value)
}

/// Appends the line of the edges along which something flows.
fn append_carried(to: &mut Vec<u8>, edges: &[u32], flow: &[i64]) -> Result<(), AllocError>
    requires { length flow.now ≡ length edges.now }
    ensures { Appends (line_text (witness
        (codes "flow" ∷ carried_words edges.now flow.now (carriers flow.now))))
        to.old to.new result }
{
    append(to, b"+")?;
    append_carried_words(to, edges, flow)?;
    append(to, b"\n")
}

fn append_carried_words(to: &mut Vec<u8>, edges: &[u32], flow: &[i64]) -> Result<(), AllocError>
    requires { length flow.now ≡ length edges.now }
    ensures { Appends
        (words_text (codes "flow" ∷ carried_words edges.now flow.now (carriers flow.now)))
        to.old to.new result }
{
    append_word(to, b"flow")?;
    append_carriers(to, edges, flow)
}

/// Appends each edge along which something flows, with what flows behind a colon.
#[tactic(auto, using(crate::proofs::Flows::one_more))]
fn append_carriers(to: &mut Vec<u8>, edges: &[u32], flow: &[i64]) -> Result<(), AllocError>
    requires { length flow.now ≡ length edges.now }
    ensures { Appends (words_text (carried_words edges.now flow.now (carriers flow.now)))
        to.old to.new result }
{
    for arc in 0..flow.len() {
        append_if_carried(to, edges, flow, arc)?;
    }
    Ok(())
}

fn append_if_carried(
    to: &mut Vec<u8>,
    edges: &[u32],
    flow: &[i64],
    arc: usize,
) -> Result<(), AllocError>
    requires edge { arc < length edges.now }
    requires arc { arc < length flow.now }
    ensures { Appends (words_text (carried_words edges.now flow.now (itself flow.now arc)))
        to.old to.new result }
{
    if flow[arc] == 0 {
        return Ok(());
    }
    append_carrier(to, edges, flow, arc)
}

fn append_carrier(
    to: &mut Vec<u8>,
    edges: &[u32],
    flow: &[i64],
    arc: usize,
) -> Result<(), AllocError>
    requires edge { arc < length edges.now }
    requires arc { arc < length flow.now }
    ensures { Appends (words_text (carried_word edges.now flow.now arc ∷ []))
        to.old to.new result }
{
    append(to, b" ")?;
    append_numbered(to, b"e", edges[arc])?;
    append_value_at(to, flow, arc)
}

fn append_value_at(to: &mut Vec<u8>, values: &[i64], place: usize) -> Result<(), AllocError>
    requires { place < length values.now }
    ensures { Appends (value_text (at values.now place)) to.old to.new result }
{
    append_value(to, values[place])
}
