//! Answers on shortest paths in which nodes and arcs get other numbers.
ghost use Rattle.std.specs.Prelude.{◌≡◌, map, IfOk};
ghost use Rattle.kept_answers.specs.Renamed.{finite_by, seed_by, why_by, low_by, sp_by};

use crate::lookup::{entry_at, place_among};
use graph_defs::{Finite, Low, Seed, SpAnswer, Why};
use hide_restore::Places;
use leda_base::{NoMemory, Row};
use std::alloc::Global;

/// What gives each number of a node or an arc another one.
pub(crate) trait Numbering {
    ghost use Rattle.std.specs.Prelude.{◌≡◌, ℕ};

    ghost number: { Self → ℕ → ℕ };

    ghost IsReady: { Self → Type 0 };

    fn number(&self, k: u32) -> u32
        requires { IsReady self.now }
        ensures { result ≡ number self.now k };
}

/// Places stand for what a list has there, and for 0 past its end.
#[derive(Clone, Copy)]
pub(crate) struct Entries<'a>(pub(crate) &'a [u32]);

impl Numbering for Entries<'_> {
    ghost use Rattle.std.specs.Prelude.{slice_index, ⊤};

    ghost number = { λ entries k. slice_index entries.0.now k };

    ghost IsReady = { λ entries. ⊤ };

    fn number(&self, k: u32) -> u32 {
        entry_at(self.0, k)
    }
}

/// Numbers stand for their places in a list, and for the one past its end where it hasn't them.
#[derive(Clone, Copy)]
pub(crate) struct Among<'a>(pub(crate) &'a Places);

impl Numbering for Among<'_> {
    ghost use Rattle.std.specs.Prelude.{◌≤◌, length};
    ghost use Rattle.graph_defs.specs.declared.net.TheConstants.{ARC_LIMIT};
    ghost use Rattle.hide_restore.specs.Net.{place_of};

    ghost number = { λ among k. place_of k among.0.now };

    ghost IsReady = { λ among. length among.0.now ≤ ARC_LIMIT };

    fn number(&self, k: u32) -> u32 {
        place_among(self.0, k)
    }
}

/// The answer, with the numbers that these give to its nodes and arcs.
///
/// # Errors
/// `NoMemory` where the room isn't given.
pub(crate) fn renamed<N: Numbering, A: Numbering>(
    alloc: Global,
    nodes: &N,
    arcs: &A,
    answer: &SpAnswer,
) -> Result<SpAnswer, NoMemory>
    requires nodes { N.IsReady nodes.now }
    requires arcs { A.IsReady arcs.now }
    ensures { IfOk result
        (λ renamed. renamed ≡ sp_by (N.number nodes.now) (A.number arcs.now) answer.now) }
{
    let mut finite = Row::with_room(alloc, answer.finite.as_slice().len())?;
    for one in answer.finite.as_slice() {
        finite.push(finite_by(nodes, arcs, *one))?;
    }
    let mut seeds = Row::with_room(alloc, answer.seeds.as_slice().len())?;
    for one in answer.seeds.as_slice() {
        seeds.push(seed_by(alloc, nodes, arcs, one)?)?;
    }
    let mut low = Row::with_room(alloc, answer.low.as_slice().len())?;
    for one in answer.low.as_slice() {
        low.push(low_by(nodes, arcs, *one))?;
    }
    Ok(SpAnswer {
        finite,
        seeds,
        low,
        unreached: row_by(alloc, nodes, answer.unreached.as_slice())?,
    })
}

fn finite_by<N: Numbering, A: Numbering>(nodes: &N, arcs: &A, finite: Finite) -> Finite
    requires nodes { N.IsReady nodes.now }
    requires arcs { A.IsReady arcs.now }
    ensures { result ≡ finite_by (N.number nodes.now) (A.number arcs.now) finite }
{
    Finite {
        node: nodes.number(finite.node),
        dist: finite.dist,
        pred: finite.pred.map(|arc| arcs.number(arc)),
    }
}

fn seed_by<N: Numbering, A: Numbering>(
    alloc: Global,
    nodes: &N,
    arcs: &A,
    seed: &Seed,
) -> Result<Seed, NoMemory>
    requires nodes { N.IsReady nodes.now }
    requires arcs { A.IsReady arcs.now }
    ensures { IfOk result
        (λ renamed. renamed ≡ seed_by (N.number nodes.now) (A.number arcs.now) seed.now) }
{
    Ok(Seed {
        start: nodes.number(seed.start),
        walk: row_by(alloc, arcs, seed.walk.as_slice())?,
        cycle: row_by(alloc, arcs, seed.cycle.as_slice())?,
    })
}

fn low_by<N: Numbering, A: Numbering>(nodes: &N, arcs: &A, low: Low) -> Low
    requires nodes { N.IsReady nodes.now }
    requires arcs { A.IsReady arcs.now }
    ensures { result ≡ low_by (N.number nodes.now) (A.number arcs.now) low }
{
    Low {
        node: nodes.number(low.node),
        why: why_by(arcs, low.why),
    }
}

fn why_by<A: Numbering>(arcs: &A, why: Why) -> Why
    requires { A.IsReady arcs.now }
    ensures { result ≡ why_by (A.number arcs.now) why }
{
    match why {
        Why::Seed(seed) => Why::Seed(seed),
        Why::Arc(arc) => Why::Arc(arcs.number(arc)),
    }
}

fn row_by<N: Numbering>(alloc: Global, by: &N, numbers: &[u32]) -> Result<Row<u32>, NoMemory>
    requires { N.IsReady by.now }
    ensures { IfOk result (λ row. row ≡ map (N.number by.now) numbers.now) }
{
    let mut row = Row::with_room(alloc, numbers.len())?;
    for number in numbers {
        row.push(by.number(*number))?;
    }
    Ok(row)
}
