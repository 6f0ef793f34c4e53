//! Reads of a net and of an answer, in the words of the definitions.
ghost use Rattle.std.specs.Prelude.{◌≡◌, ◌<◌, ◌^◌, length};
ghost use Rattle.graph_defs.specs.Net.{IsValid, source, target};
ghost use Rattle.graph_defs.specs.Shortest.{finite_at, low_at, seed_at};

use graph_defs::{Finite, Low, Net, Seed, SpAnswer};

// Where an arc begins.
pub(crate) fn source_of(net: &Net, arc: u32) -> u32
    requires valid { IsValid net.now }
    requires arc { arc < length net.now.arcs }
    ensures source { result ≡ source net.now arc }
    ensures below { result < net.now.n }
{
    net.arcs.as_slice()[arc as usize].0
}

// Where an arc ends.
pub(crate) fn target_of(net: &Net, arc: u32) -> u32
    requires valid { IsValid net.now }
    requires arc { arc < length net.now.arcs }
    ensures target { result ≡ target net.now arc }
    ensures below { result < net.now.n }
{
    net.arcs.as_slice()[arc as usize].1
}

// How many arcs a net has.
pub(crate) fn arc_count(net: &Net) -> u32
    requires { IsValid net.now }
    ensures { result ≡ length net.now.arcs }
{
    net.arcs.as_slice().len() as u32
}

pub(crate) fn finite_count(a: &SpAnswer) -> usize
    ensures { result ≡ length a.now.finite }
{
    a.finite.as_slice().len()
}

pub(crate) fn low_count(a: &SpAnswer) -> usize
    ensures { result ≡ length a.now.low }
{
    a.low.as_slice().len()
}

pub(crate) fn seed_count(a: &SpAnswer) -> usize
    ensures { result ≡ length a.now.seeds }
{
    a.seeds.as_slice().len()
}

pub(crate) fn finite_of(a: &SpAnswer, place: usize) -> &Finite
    requires { place < length a.now.finite }
    ensures { result.now ≡ finite_at a.now place }
{
    &a.finite.as_slice()[place]
}

pub(crate) fn low_of(a: &SpAnswer, place: usize) -> &Low
    requires { place < length a.now.low }
    ensures { result.now ≡ low_at a.now place }
{
    &a.low.as_slice()[place]
}

pub(crate) fn seed_of(a: &SpAnswer, place: usize) -> &Seed
    requires { place < length a.now.seeds }
    ensures { result.now ≡ seed_at a.now place }
{
    &a.seeds.as_slice()[place]
}
