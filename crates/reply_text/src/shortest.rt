//! An answer on shortest paths, in lines.
ghost use Rattle.std.specs.Prelude.{◌<◌, ◌∷◌, ◌++◌, [], length, All, IfSome};
ghost use Rattle.std.specs.List.{flat_map};
ghost use Rattle.graph_defs.specs.Shortest.{AreBelow};
ghost use Rattle.reply_text.specs.Appending.{Appends};
ghost use Rattle.reply_text.specs.Shortest.{pred_word, finite_words, walk_words, seed_words, why_words, low_words, IsFiniteNamed, IsSeedNamed, IsWhyNamed, IsLowNamed, IsSpNamed};
ghost use Rattle.reply_text.specs.Text.{witness, finite_lines, seed_lines, low_lines, unreached_lines, sp_lines, words_text, line_text};

use crate::appending::{append, append_item_at, append_items_at, append_number, append_word};
use crate::line::{append_counts, append_line_at};
use graph_defs::{Finite, Low, Seed, SpAnswer, Why};
use std::alloc::AllocError;

/// Appends the lines of an answer on shortest paths.
pub(crate) fn append_sp(
    to: &mut Vec<u8>,
    nodes: &[u32],
    edges: &[u32],
    answer: &SpAnswer,
) -> Result<(), AllocError>
    requires { IsSpNamed nodes.now edges.now answer.now }
    ensures { Appends (flat_map line_text (sp_lines nodes.now edges.now answer.now))
        to.old to.new result }
{
    let finite = answer.finite.as_slice();
    let low = answer.low.as_slice();
    let unreached = answer.unreached.as_slice();
    append_counts(to, b"sp", &[finite.len(), low.len(), unreached.len()])?;
    append_finite(to, nodes, edges, finite)?;
    append_seeds(to, nodes, edges, answer.seeds.as_slice())?;
    append_lows(to, nodes, edges, low)?;
    append_unreached(to, nodes, unreached)
}

/// Appends a line for each node that has a distance.
fn append_finite(
    to: &mut Vec<u8>,
    nodes: &[u32],
    edges: &[u32],
    finite: &[Finite],
) -> Result<(), AllocError>
    requires { All (IsFiniteNamed nodes.now edges.now) finite.now }
    ensures { Appends (flat_map line_text (finite_lines nodes.now edges.now finite.now))
        to.old to.new result }
{
    for reached in finite {
        append_distance(to, nodes, edges, *reached)?;
    }
    Ok(())
}

/// Appends the line of a node with its distance.
fn append_distance(
    to: &mut Vec<u8>,
    nodes: &[u32],
    edges: &[u32],
    reached: Finite,
) -> Result<(), AllocError>
    requires { IsFiniteNamed nodes.now edges.now reached }
    ensures { Appends (line_text (witness (finite_words nodes.now edges.now reached)))
        to.old to.new result }
{
    append(to, b"+")?;
    append_distance_words(to, nodes, edges, reached)?;
    append(to, b"\n")
}

fn append_distance_words(
    to: &mut Vec<u8>,
    nodes: &[u32],
    edges: &[u32],
    reached: Finite,
) -> Result<(), AllocError>
    requires { IsFiniteNamed nodes.now edges.now reached }
    ensures { Appends (words_text (finite_words nodes.now edges.now reached))
        to.old to.new result }
{
    append_word(to, b"finite")?;
    append_item_at(to, b"n", nodes, reached.node)?;
    append_number(to, reached.dist)?;
    append_pred(to, edges, reached.pred)
}

/// Appends the arc that a node is reached by, or what stands in its place at the source.
fn append_pred(to: &mut Vec<u8>, edges: &[u32], pred: Option<u32>) -> Result<(), AllocError>
    requires { IfSome pred (λ arc. arc < length edges.now) }
    ensures { Appends (words_text (pred_word edges.now pred ∷ [])) to.old to.new result }
{
    match pred {
        Some(arc) => append_item_at(to, b"e", edges, arc),
        None => append_word(to, b"-"),
    }
}

/// Appends a line for each seed.
fn append_seeds(
    to: &mut Vec<u8>,
    nodes: &[u32],
    edges: &[u32],
    seeds: &[Seed],
) -> Result<(), AllocError>
    requires { All (IsSeedNamed nodes.now edges.now) seeds.now }
    ensures { Appends (flat_map line_text (seed_lines nodes.now edges.now seeds.now))
        to.old to.new result }
{
    for seed in seeds {
        append_seed(to, nodes, edges, seed)?;
    }
    Ok(())
}

/// Appends the line of a seed: its start, its walk, and its closed walk.
fn append_seed(
    to: &mut Vec<u8>,
    nodes: &[u32],
    edges: &[u32],
    seed: &Seed,
) -> Result<(), AllocError>
    requires { IsSeedNamed nodes.now edges.now seed.now }
    ensures { Appends (line_text (witness (seed_words nodes.now edges.now seed.now)))
        to.old to.new result }
{
    append(to, b"+")?;
    append_seed_words(to, nodes, edges, seed)?;
    append(to, b"\n")
}

fn append_seed_words(
    to: &mut Vec<u8>,
    nodes: &[u32],
    edges: &[u32],
    seed: &Seed,
) -> Result<(), AllocError>
    requires { IsSeedNamed nodes.now edges.now seed.now }
    ensures { Appends (words_text (seed_words nodes.now edges.now seed.now))
        to.old to.new result }
{
    append_word(to, b"seed")?;
    append_item_at(to, b"n", nodes, seed.start)?;
    append_walks(to, edges, seed.walk.as_slice(), seed.cycle.as_slice())
}

/// Appends two walks, each behind a colon.
fn append_walks(
    to: &mut Vec<u8>,
    edges: &[u32],
    walk: &[u32],
    cycle: &[u32],
) -> Result<(), AllocError>
    requires walk { AreBelow (length edges.now) walk.now }
    requires cycle { AreBelow (length edges.now) cycle.now }
    ensures { Appends
        (words_text (walk_words edges.now walk.now ++ walk_words edges.now cycle.now))
        to.old to.new result }
{
    append_walk(to, edges, walk)?;
    append_walk(to, edges, cycle)
}

/// Appends a colon and the edges of a walk.
fn append_walk(to: &mut Vec<u8>, edges: &[u32], walk: &[u32]) -> Result<(), AllocError>
    requires { AreBelow (length edges.now) walk.now }
    ensures { Appends (words_text (walk_words edges.now walk.now)) to.old to.new result }
{
    append_word(to, b":")?;
    append_items_at(to, b"e", edges, walk)
}

/// Appends a line for each node with walks below every number.
fn append_lows(
    to: &mut Vec<u8>,
    nodes: &[u32],
    edges: &[u32],
    lows: &[Low],
) -> Result<(), AllocError>
    requires { All (IsLowNamed nodes.now edges.now) lows.now }
    ensures { Appends (flat_map line_text (low_lines nodes.now edges.now lows.now))
        to.old to.new result }
{
    for low in lows {
        append_low(to, nodes, edges, *low)?;
    }
    Ok(())
}

/// Appends the line of a node with walks below every number, with the reason.
fn append_low(to: &mut Vec<u8>, nodes: &[u32], edges: &[u32], low: Low) -> Result<(), AllocError>
    requires { IsLowNamed nodes.now edges.now low }
    ensures { Appends (line_text (witness (low_words nodes.now edges.now low)))
        to.old to.new result }
{
    append(to, b"+")?;
    append_low_words(to, nodes, edges, low)?;
    append(to, b"\n")
}

fn append_low_words(
    to: &mut Vec<u8>,
    nodes: &[u32],
    edges: &[u32],
    low: Low,
) -> Result<(), AllocError>
    requires { IsLowNamed nodes.now edges.now low }
    ensures { Appends (words_text (low_words nodes.now edges.now low)) to.old to.new result }
{
    append_word(to, b"-inf")?;
    append_item_at(to, b"n", nodes, low.node)?;
    append_why(to, edges, low.why)
}

/// Appends the words of the reason: a seed, numbered from 1, or an arc.
fn append_why(to: &mut Vec<u8>, edges: &[u32], why: Why) -> Result<(), AllocError>
    requires { IsWhyNamed edges.now why }
    ensures { Appends (words_text (why_words edges.now why)) to.old to.new result }
{
    match why {
        Why::Seed(seed) => {
            append_word(to, b"seed")?;
            append_number(to, u64::from(seed) + 1)
        }
        Why::Arc(arc) => append_item_at(to, b"e", edges, arc),
    }
}

/// Appends a line for each node to which no walk leads.
fn append_unreached(to: &mut Vec<u8>, nodes: &[u32], unreached: &[u32]) -> Result<(), AllocError>
    requires { AreBelow (length nodes.now) unreached.now }
    ensures { Appends (flat_map line_text (unreached_lines nodes.now unreached.now))
        to.old to.new result }
{
    for node in unreached {
        append_line_at(to, b"+", b"inf", b"n", nodes, &[*node])?;
    }
    Ok(())
}
