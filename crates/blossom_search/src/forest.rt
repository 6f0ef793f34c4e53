//! A forest of alternating paths from all free nodes of a net, grown until it shows what there is.
ghost use Rattle.std.specs.Prelude.{◌≡◌, ◌<◌, [], ◌∷◌, ◌++◌, false, true, length, slice_set, IfOk, OnOk, MatchOption};
ghost use Rattle.graph_defs.specs.Matching.{IsMatching};
ghost use Rattle.graph_defs.specs.Net.{IsValid};
ghost use Rattle.blossom_lift.specs.Passes.{marked};
ghost use Rattle.blossom_search.specs.Closed.{AreLabels, label_of};
ghost use Rattle.blossom_search.specs.Forest.{stem_at, stem_beyond, IsFound, IsStarted, IsForest, IsGrown, HasSpread};

use crate::found::{Found, Outcome};
use crate::stem::{Mate, Stem, half_of, mate_of, other_end};
use graph_defs::Net;
use leda_base::{NoMemory, Row};
use match_core::Matching;
use std::alloc::Global;

/// Which nodes stems reach at even and at odd places, and the stems that haven't gone on yet.
#[derive(Drop)]
pub struct Forest {
    pub evens: Vec<bool>,
    pub odds: Vec<bool>,
    pub waiting: Vec<Stem>,
}

/// Grows a forest until there is an augmenting path or a blossom with a stem; where no stem goes on,
/// the labels of its nodes are a cover of the matching's size. The number of nodes times that of arcs
/// and nodes bounds the time but for the copies of stems.
///
/// # Errors
/// `NoMemory` where the room isn't given.
pub fn grow(alloc: Global, net: &Net, m: &Matching) -> Result<Found, NoMemory>
    requires valid { IsValid net.now }
    requires matching { IsMatching net.now m.now.edges }
    ensures { IfOk result (λ found. IsFound net.now m.now.edges found) }
{
    let mut forest = start(alloc, net, m)?;
    while let Some(stem) = forest.next_stem() {
        if let Some(found) = spread(alloc, net, m, &mut forest, &stem)? {
            return Ok(found);
        }
    }
    let labels = labels_of(alloc, forest.evens.as_slice(), forest.odds.as_slice())?;
    Ok(Found::End(Outcome::Cover(labels)))
}

// The forest of the free nodes.
fn start(alloc: Global, net: &Net, m: &Matching) -> Result<Forest, NoMemory>
    requires valid { IsValid net.now }
    requires matching { IsMatching net.now m.now.edges }
    ensures { IfOk result (λ forest. IsStarted net.now m.now.edges net.now.n forest) }
{
    let mut forest = Forest {
        evens: vec![in alloc; false; net.n as usize]?,
        odds: vec![in alloc; false; net.n as usize]?,
        waiting: Vec::new(alloc),
    };
    for node in 0..net.n {
        if let Some(_mate) = mate_of(net, m, node) {
            continue;
        }
        forest.root(alloc, node)?;
    }
    Ok(forest)
}

impl Forest {
    // A free node is the root of a tree.
    fn root(&mut self, alloc: Global, node: u32) -> Result<(), NoMemory>
        requires { node < length self.old.evens.items }
        ensures evens { OnOk result
            (self.new.evens.items ≡ slice_set self.old.evens.items node true) }
        ensures odds { OnOk result (self.new.odds.items ≡ self.old.odds.items) }
        ensures waiting { OnOk result
            (self.new.waiting.items ≡ self.old.waiting.items ++ stem_at node ∷ []) }
    {
        self.waiting.push(Stem::at(alloc, node)?)?;
        self.evens[node as usize] = true;
        Ok(())
    }

    // The stem that began to wait last, which waits no longer.
    fn next_stem(&mut self) -> Option<Stem>
        ensures evens { self.new.evens.items ≡ self.old.evens.items }
        ensures odds { self.new.odds.items ≡ self.old.odds.items }
        ensures waiting { MatchOption result
            (self.old.waiting.items ≡ [])
            (λ stem. self.old.waiting.items ≡ self.new.waiting.items ++ stem ∷ []) }
    {
        self.waiting.pop()
    }

    // A stem reaches a node, and behind it that one's mate, whence it may go on, unless another does.
    fn reach(
        &mut self,
        alloc: Global,
        stem: &Stem,
        arc: u32,
        node: u32,
        mate: Mate,
    ) -> Result<(), NoMemory>
        requires node { node < length self.old.odds.items }
        requires mate { mate.end < length self.old.evens.items }
        ensures odds { OnOk result
            (self.new.odds.items ≡ slice_set self.old.odds.items node true) }
        ensures known { OnOk result (marked self.old.evens.items mate.end ≡ true
            → (self.new.evens.items ≡ self.old.evens.items)
            × (self.new.waiting.items ≡ self.old.waiting.items)) }
        ensures fresh { OnOk result (marked self.old.evens.items mate.end ≡ false
            → (self.new.evens.items ≡ slice_set self.old.evens.items mate.end true)
            × (self.new.waiting.items
            ≡ self.old.waiting.items ++ stem_beyond stem.now arc node mate ∷ [])) }
    {
        self.odds[node as usize] = true;
        if self.evens[mate.end as usize] {
            return Ok(());
        }
        self.waiting.push(stem.beyond(alloc, arc, node, mate)?)?;
        self.evens[mate.end as usize] = true;
        Ok(())
    }
}

// Goes on from the end of a stem along all arcs.
fn spread(
    alloc: Global,
    net: &Net,
    m: &Matching,
    forest: &mut Forest,
    stem: &Stem,
) -> Result<Option<Found>, NoMemory>
    requires valid { IsValid net.now }
    requires matching { IsMatching net.now m.now.edges }
    requires stem { IsGrown net.now m.now.edges forest.old.evens.items stem.now }
    requires forest { IsForest net.now m.now.edges (λ node. node ≡ stem.now.end) forest.old }
    ensures { IfOk result (λ found. MatchOption found
        (HasSpread net.now m.now.edges stem.now (λ along. along < length net.now.arcs)
        forest.old forest.new)
        (λ found. IsFound net.now m.now.edges found)) }
{
    for arc in 0..net.arcs.as_slice().len() as u32 {
        if let Some(found) = step(alloc, net, m, forest, stem, arc)? {
            return Ok(Some(found));
        }
    }
    Ok(None)
}

// Goes on from the end of a stem along one arc.
fn step(
    alloc: Global,
    net: &Net,
    m: &Matching,
    forest: &mut Forest,
    stem: &Stem,
    arc: u32,
) -> Result<Option<Found>, NoMemory>
    requires valid { IsValid net.now }
    requires matching { IsMatching net.now m.now.edges }
    requires arc { arc < length net.now.arcs }
    requires stem { IsGrown net.now m.now.edges forest.old.evens.items stem.now }
    requires forest { IsForest net.now m.now.edges (λ node. node ≡ stem.now.end) forest.old }
    ensures { IfOk result (λ found. MatchOption found
        (HasSpread net.now m.now.edges stem.now (λ along. along ≡ arc) forest.old forest.new)
        (λ found. IsFound net.now m.now.edges found)) }
{
    let Some(node) = other_end(net, arc, stem.end) else {
        return Ok(None);
    };
    if let Some(half) = half_of(stem.nodes.as_slice(), node) {
        let blossom = stem.blossom(alloc, half + half, arc)?;
        return Ok(Some(Found::Flower(blossom)));
    }
    let Some(mate) = mate_of(net, m, node) else {
        let path = stem.edges_with(alloc, 0, arc)?;
        return Ok(Some(Found::End(Outcome::Path(path))));
    };
    forest.reach(alloc, stem, arc, node, mate)?;
    Ok(None)
}

// The label of each node by its marks.
fn labels_of(alloc: Global, evens: &[bool], odds: &[bool]) -> Result<Row<u32>, NoMemory>
    requires { length evens.now ≡ length odds.now }
    ensures { IfOk result (λ labels.
        AreLabels (length evens.now) (marked evens.now) (marked odds.now) labels) }
{
    let mut labels = Row::new(alloc);
    for node in 0..evens.len() {
        labels.push(label(evens[node], odds[node]))?;
    }
    Ok(labels)
}

// 0 for a node that is even alone, 1 for one that is odd alone, else 2.
fn label(is_even: bool, is_odd: bool) -> u32
    ensures { result ≡ label_of is_even is_odd }
{
    match (is_even, is_odd) {
        (true, false) => 0,
        (false, true) => 1,
        _ => 2,
    }
}
