//! What a checker says, in words.
ghost use Rattle.std.specs.Prelude.{◌≡◌, ◌∷◌, map, codes};
ghost use Rattle.reply_text.specs.Appending.{Appends};
ghost use Rattle.reply_text.specs.Text.{success, words_text, line_text};
ghost use Rattle.reply_text.specs.Verdicts.{cond_word as the_cond_word, place_of as the_place_of, place_words, verdict_words, IsPlaceNamed, IsVerdictNamed};
ghost use Rattle.reply_text.specs.Words.{numbered};

use crate::appending::{append, append_item_at, append_names, append_number, append_word};
use graph_defs::{Cond, Verdict};
use std::alloc::AllocError;

/// What stands at the place where a condition is broken.
#[derive(Clone, Copy)]
pub(crate) enum PlaceOf {
    /// The condition has no place.
    Nothing,
    /// A node or an edge that the answer names and that is gone.
    Item,
    Node,
    Arc,
    /// The seed of low nodes, numbered from 0.
    Seed,
}

/// Appends the line of a verdict.
pub(crate) fn append_verdict(
    to: &mut Vec<u8>,
    nodes: &[u32],
    edges: &[u32],
    verdict: Verdict,
) -> Result<(), AllocError>
    requires { IsVerdictNamed nodes.now edges.now verdict }
    ensures { Appends (line_text (success (verdict_words nodes.now edges.now verdict)))
        to.old to.new result }
{
    append(to, b"=")?;
    append_verdict_words(to, nodes, edges, verdict)?;
    append(to, b"\n")
}

fn append_verdict_words(
    to: &mut Vec<u8>,
    nodes: &[u32],
    edges: &[u32],
    verdict: Verdict,
) -> Result<(), AllocError>
    requires { IsVerdictNamed nodes.now edges.now verdict }
    ensures { Appends (words_text (verdict_words nodes.now edges.now verdict))
        to.old to.new result }
{
    match verdict {
        Verdict::Yes => append_word(to, b"yes"),
        Verdict::No { cond, place } => {
            append_word(to, b"no")?;
            append_word(to, cond_word(cond))?;
            append_place(to, nodes, edges, place_of(cond), place)
        }
    }
}

fn append_place(
    to: &mut Vec<u8>,
    nodes: &[u32],
    edges: &[u32],
    of: PlaceOf,
    place: u32,
) -> Result<(), AllocError>
    requires { IsPlaceNamed nodes.now edges.now of place }
    ensures { Appends (words_text (place_words nodes.now edges.now of place))
        to.old to.new result }
{
    match of {
        PlaceOf::Nothing => Ok(()),
        PlaceOf::Item => {
            append_names(to, b"n", nodes)?;
            append_names(to, b"e", edges)
        }
        PlaceOf::Node => append_item_at(to, b"n", nodes, place),
        PlaceOf::Arc => append_item_at(to, b"e", edges, place),
        PlaceOf::Seed => append_number(to, u64::from(place) + 1),
    }
}

/// The word of a condition.
fn cond_word(cond: Cond) -> &'static [u8]
    ensures { result.now ≡ the_cond_word cond }
{
    match cond {
        Cond::Gone => b"gone",
        Cond::Missing => b"missing",
        Cond::Range => b"range",
        Cond::Once => b"once",
        Cond::Source => b"source",
        Cond::TightNode | Cond::TightArc => b"tight",
        Cond::Seed => b"seed",
        Cond::Low => b"low",
        Cond::Shorter => b"shorter",
        Cond::Leaves => b"leaves",
        Cond::Bounds => b"bounds",
        Cond::Balance => b"balance",
        Cond::Cut => b"cut",
        Cond::Value => b"value",
        Cond::Reduced => b"reduced",
        Cond::Cost => b"cost",
        Cond::SetSum => b"set",
        Cond::SelfLoop => b"loop",
        Cond::Shared => b"shared",
        Cond::Label => b"label",
        Cond::Size => b"size",
        Cond::Pot => b"pot",
        Cond::Dominates => b"dominates",
        Cond::Free => b"free",
        Cond::Weight => b"weight",
        Cond::Hall => b"hall",
        Cond::Darts => b"darts",
        Cond::Genus => b"genus",
        Cond::Subdivision => b"subdivision",
    }
}

/// What stands at the place of a condition.
fn place_of(cond: Cond) -> PlaceOf
    ensures { result ≡ the_place_of cond }
{
    match cond {
        Cond::Gone => PlaceOf::Item,
        Cond::Seed => PlaceOf::Seed,
        Cond::Missing
        | Cond::Once
        | Cond::Source
        | Cond::TightNode
        | Cond::Low
        | Cond::Balance
        | Cond::Shared
        | Cond::Pot
        | Cond::Free => PlaceOf::Node,
        Cond::Shorter
        | Cond::Leaves
        | Cond::Bounds
        | Cond::Reduced
        | Cond::SelfLoop
        | Cond::Label
        | Cond::Dominates
        | Cond::TightArc
        | Cond::Darts => PlaceOf::Arc,
        Cond::Range
        | Cond::Cut
        | Cond::Value
        | Cond::Cost
        | Cond::SetSum
        | Cond::Size
        | Cond::Weight
        | Cond::Hall
        | Cond::Genus
        | Cond::Subdivision => PlaceOf::Nothing,
    }
}
