//! Last arcs: the tree that they make, or a closed walk of them.
ghost use Rattle.std.specs.Prelude.{◌≡◌, ◌<◌, ◌≤◌, [], ◌∷◌, false, true, length, replicate, slice_set, Some, IsSome, IfOk, MatchBool, MatchOption};
ghost use Rattle.graph_defs.specs.declared.shortest.Why.TheVariants.{Seed};
ghost use Rattle.graph_defs.specs.Shortest.{AreBelow};
ghost use Rattle.sp_search.specs.declared.any_costs.TheConstants.{WIDE_NODE_LIMIT};
ghost use Rattle.sp_search.specs.Forest.{last_at, last_by, IsRoot, AreLastArcs, IsTreeOf, IsStray, AreMarked, CanClimb, StandsIn, IsTurned, IsLoop};
ghost use Rattle.sp_search.specs.Wide.{IsWide};

use crate::finding::{Finding, Found};
use crate::tags::{FAR, Tag, source_of, target_of};
use graph_defs::{Net, Why};
use leda_base::{NoMemory, Row};
use std::alloc::Global;

/// The nodes to which last arcs lead from the source, each behind the one that its arc leads from.
pub fn tree_of(alloc: Global, net: &Net, s: u32, tags: &[Tag]) -> Result<Finding, NoMemory>
    requires wide { IsWide net.now }
    requires s { s < net.now.n }
    requires tags { length tags.now ≡ net.now.n }
    ensures { IfOk result (λ finding.
        IsTreeOf net.now s tags.now finding.queue.items finding.marks.items) }
{
    let opened = last_arcs(alloc, net, tags)?;
    let mut finding = first_found(alloc, net.n, s, is_root(tags, s))?;
    finding.spread(alloc, net, opened.as_slice())?;
    Ok(finding)
}

// Whether a node is tagged without a last arc.
fn is_root(tags: &[Tag], node: u32) -> bool
    requires { node < length tags.now }
    ensures { MatchBool result (IsRoot tags.now node) (IsRoot tags.now node → ⊥) }
{
    let tag = tags[node as usize];
    match tag.by {
        Some(_) => false,
        None => tag.label < FAR,
    }
}

/// A node, or none, was found.
pub fn first_found(alloc: Global, n: u32, s: u32, is_there: bool) -> Result<Finding, NoMemory>
    requires { s < n }
    ensures queue { IfOk result (λ finding. MatchBool is_there
        (finding.queue.items ≡ record { node = s; why = Seed 0; before = 0 } ∷ [])
        (finding.queue.items ≡ [])) }
    ensures marks { IfOk result (λ finding. MatchBool is_there
        (finding.marks.items ≡ slice_set (replicate n false) s true)
        (finding.marks.items ≡ replicate n false)) }
{
    let mut finding = Finding::new(alloc, n)?;
    if is_there {
        let first = Found {
            node: s,
            why: Why::Seed(0),
            before: 0,
        };
        finding.queue.push(first)?;
        finding.marks[s as usize] = true;
    }
    Ok(finding)
}

// Whether each arc is the last arc of its target.
fn last_arcs(alloc: Global, net: &Net, tags: &[Tag]) -> Result<Vec<bool>, NoMemory>
    requires wide { IsWide net.now }
    requires tags { length tags.now ≡ net.now.n }
    ensures { IfOk result (λ opened.
        AreLastArcs net.now tags.now (length net.now.arcs) opened.items) }
{
    let mut opened = Vec::new(alloc);
    for arc in 0..net.arcs.as_slice().len() {
        opened.push(is_last(net, tags, arc as u32))?;
    }
    Ok(opened)
}

fn is_last(net: &Net, tags: &[Tag], arc: u32) -> bool
    requires wide { IsWide net.now }
    requires arc { arc < length net.now.arcs }
    requires tags { length tags.now ≡ net.now.n }
    ensures { MatchBool result (last_at net.now tags.now arc ≡ Some arc)
        (last_at net.now tags.now arc ≡ Some arc → ⊥) }
{
    match tags[target_of(net, arc) as usize].by {
        Some(last) => last == arc,
        None => false,
    }
}

/// A node that is tagged and isn't marked.
pub fn stray(tags: &[Tag], marks: &[bool]) -> Option<u32>
    requires long { length marks.now ≡ length tags.now }
    requires few { length tags.now ≤ WIDE_NODE_LIMIT }
    ensures { MatchOption result (AreMarked tags.now marks.now (length tags.now))
        (λ v. IsStray tags.now marks.now v) }
{
    for node in 0..tags.len() {
        if is_stray(tags, marks, node) {
            return Some(node as u32);
        }
    }
    None
}

fn is_stray(tags: &[Tag], marks: &[bool], node: usize) -> bool
    requires long { length marks.now ≡ length tags.now }
    requires node { node < length tags.now }
    ensures { MatchBool result (IsStray tags.now marks.now node)
        (IsStray tags.now marks.now node → ⊥) }
{
    tags[node].label < FAR && !marks[node]
}

/// A closed walk of last arcs, to which they lead back from a stray node.
pub fn climb(
    alloc: Global,
    net: &Net,
    tags: &[Tag],
    marks: &[bool],
    from: u32,
) -> Result<Row<u32>, NoMemory>
    requires wide { IsWide net.now }
    requires tags { length tags.now ≡ net.now.n }
    requires marks { length marks.now ≡ net.now.n }
    requires climbs { CanClimb net.now tags.now marks.now }
    requires from { IsStray tags.now marks.now from }
    ensures { IfOk result (λ cycle. IsLoop net.now tags.now marks.now cycle) }
{
    let mut seen = marks.to_vec(alloc)?;
    let mut trail = Vec::new(alloc);
    let mut here = from;
    while !seen[here as usize] {
        seen[here as usize] = true;
        let arc = last_of(tags, here);
        trail.push(arc)?;
        here = source_of(net, arc);
    }
    loop_of(alloc, net, trail.as_slice(), here)
}

fn last_of(tags: &[Tag], node: u32) -> u32
    requires node { node < length tags.now }
    requires by { IsSome (last_by tags.now node) }
    ensures { last_by tags.now node ≡ Some result }
{
    match tags[node as usize].by {
        Some(arc) => arc,
        None => unreachable!(),
    }
}

// The arcs of a trail from where one ends at the node, turned round.
fn loop_of(alloc: Global, net: &Net, trail: &[u32], here: u32) -> Result<Row<u32>, NoMemory>
    requires wide { IsWide net.now }
    requires known { AreBelow (length net.now.arcs) trail.now }
    requires there { StandsIn net.now trail.now here }
    ensures { IfOk result (λ cycle. IsTurned net.now trail.now here cycle) }
{
    for (place, arc) in trail.iter().enumerate() {
        if target_of(net, *arc) == here {
            let mut arcs = trail[place..].to_vec(alloc)?;
            arcs.as_mut_slice().reverse();
            return Ok(Row::from_vec(arcs));
        }
    }
    unreachable!()
}
