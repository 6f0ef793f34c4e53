//! Reads of a net and of rows of numbers, in the words of the definitions.
ghost use Rattle.std.specs.Prelude.{◌≡◌, ◌<◌, length};
ghost use Rattle.graph_defs.specs.Net.{IsValid, source, target};
ghost use Rattle.graph_defs.specs.Sum.{at};

use graph_defs::Net;

// What stands at a place of a row, and 0 past its end.
pub(crate) fn entry(row: &[i64], place: usize) -> i64
    ensures { result ≡ at row.now place }
{
    if place < row.len() { row[place] } else { 0 }
}

// Where an arc begins.
pub(crate) fn source_of(net: &Net, arc: u32) -> u32
    requires valid { IsValid net.now }
    requires arc { arc < length net.now.arcs }
    ensures source { result ≡ source net.now arc }
    ensures below { result < net.now.n }
{
    net.arcs.as_slice()[arc as usize].0
}

// Where an arc ends.
pub(crate) fn target_of(net: &Net, arc: u32) -> u32
    requires valid { IsValid net.now }
    requires arc { arc < length net.now.arcs }
    ensures target { result ≡ target net.now arc }
    ensures below { result < net.now.n }
{
    net.arcs.as_slice()[arc as usize].1
}

// How many arcs a net has.
pub(crate) fn arc_count(net: &Net) -> u32
    requires { IsValid net.now }
    ensures { result ≡ length net.now.arcs }
{
    net.arcs.as_slice().len() as u32
}
