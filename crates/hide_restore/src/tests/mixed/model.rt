//! A directed graph as plain rows.

use std::alloc::{AllocError, Global};

/// A node or an edge of the model: whether it is there, and whether it is hidden itself.
#[derive(Clone, Copy)]
pub struct Mark {
    pub is_there: bool,
    pub is_hidden: bool,
}

/// An end of an edge, in the order in which ends came into their lists.
#[derive(Clone, Copy)]
struct End {
    node: u32,
    edge: u32,
}

/// Nodes and edges by their numbers less 1, and the ends at which edges begin and end.
#[derive(Drop)]
pub struct Model {
    pub nodes: Vec<Mark>,
    pub edges: Vec<Mark>,
    outs: Vec<End>,
    ins: Vec<End>,
}

/// The mark of a number, where it was given.
fn mark_of(marks: &[Mark], number: u32) -> Option<Mark> {
    marks.get((number as usize).checked_sub(1)?).copied()
}

/// Changes the mark of a number, where it was given.
fn set_mark(marks: &mut [Mark], number: u32, mark: Mark) {
    if let Some(place) = (number as usize).checked_sub(1) {
        if let Some(old) = marks.get_mut(place) {
            *old = mark;
        }
    }
}

/// How many numbers were given.
fn count(marks: &[Mark]) -> u32 {
    u32::try_from(marks.len()).unwrap_or(u32::MAX)
}

/// The node at which an edge has its end.
fn end_of(ends: &[End], edge: u32) -> Option<u32> {
    Some(ends.iter().find(|end| end.edge == edge)?.node)
}

const NEW: Mark = Mark {
    is_there: true,
    is_hidden: false,
};

const GONE: Mark = Mark {
    is_there: false,
    is_hidden: false,
};

impl Model {
    pub fn new(alloc: Global) -> Model {
        Model {
            nodes: Vec::new(alloc),
            edges: Vec::new(alloc),
            outs: Vec::new(alloc),
            ins: Vec::new(alloc),
        }
    }

    pub fn shows_node(&self, v: u32) -> bool {
        mark_of(&self.nodes, v).is_some_and(|mark| mark.is_there && !mark.is_hidden)
    }

    pub fn shows_edge(&self, e: u32) -> bool {
        mark_of(&self.edges, e).is_some_and(|mark| mark.is_there && !mark.is_hidden)
            && end_of(&self.outs, e).is_some_and(|v| self.shows_node(v))
            && end_of(&self.ins, e).is_some_and(|w| self.shows_node(w))
    }

    pub fn add_node(&mut self) -> Result<(), AllocError> {
        Ok(self.nodes.push(NEW)?)
    }

    /// Puts the ends of an edge at the rears of their lists.
    fn put_ends(&mut self, e: u32, v: u32, w: u32) -> Result<(), AllocError> {
        self.outs.push(End { node: v, edge: e })?;
        Ok(self.ins.push(End { node: w, edge: e })?)
    }

    fn take_ends(&mut self, e: u32) {
        self.outs.retain(|end| end.edge != e);
        self.ins.retain(|end| end.edge != e);
    }

    pub fn add_edge(&mut self, v: u32, w: u32) -> Result<bool, AllocError> {
        if !self.shows_node(v) || !self.shows_node(w) {
            return Ok(false);
        }
        self.edges.push(NEW)?;
        let e = count(&self.edges);
        self.put_ends(e, v, w)?;
        Ok(true)
    }

    pub fn del_edge(&mut self, e: u32) -> bool {
        let may = self.shows_edge(e);
        if may {
            set_mark(&mut self.edges, e, GONE);
            self.take_ends(e);
        }
        may
    }

    pub fn del_node(&mut self, v: u32) -> bool {
        let may = self.shows_node(v);
        if may {
            set_mark(&mut self.nodes, v, GONE);
            for e in 1..=count(&self.edges) {
                if end_of(&self.outs, e) == Some(v) || end_of(&self.ins, e) == Some(v) {
                    set_mark(&mut self.edges, e, GONE);
                    self.take_ends(e);
                }
            }
        }
        may
    }

    pub fn move_edge(&mut self, e: u32, v: u32, w: u32) -> Result<bool, AllocError> {
        let may = self.shows_edge(e) && self.shows_node(v) && self.shows_node(w);
        if may {
            self.take_ends(e);
            self.put_ends(e, v, w)?;
        }
        Ok(may)
    }

    pub fn rev_edge(&mut self, e: u32) -> Result<bool, AllocError> {
        match (end_of(&self.outs, e), end_of(&self.ins, e)) {
            (Some(v), Some(w)) if self.shows_edge(e) => self.move_edge(e, w, v),
            _ => Ok(false),
        }
    }

    /// Hides or restores an edge.
    pub fn mark_edge(&mut self, e: u32, is_hidden: bool) -> bool {
        let may = mark_of(&self.edges, e).is_some_and(|mark| mark.is_there
            && mark.is_hidden != is_hidden);
        if may {
            let is_there = true;
            set_mark(
                &mut self.edges,
                e,
                Mark {
                    is_there,
                    is_hidden,
                },
            );
        }
        may
    }

    /// Hides or restores a node.
    pub fn mark_node(&mut self, v: u32, is_hidden: bool) -> bool {
        let may = mark_of(&self.nodes, v).is_some_and(|mark| mark.is_there
            && mark.is_hidden != is_hidden);
        if may {
            let is_there = true;
            set_mark(
                &mut self.nodes,
                v,
                Mark {
                    is_there,
                    is_hidden,
                },
            );
        }
        may
    }

    /// The visible edges that begin at a node, in their order.
    pub fn outs_of(&self, alloc: Global, v: u32) -> Result<Vec<u32>, AllocError> {
        self.shown_at(alloc, &self.outs, v)
    }

    /// The visible edges that end at a node, in their order.
    pub fn ins_of(&self, alloc: Global, v: u32) -> Result<Vec<u32>, AllocError> {
        self.shown_at(alloc, &self.ins, v)
    }

    fn shown_at(&self, alloc: Global, ends: &[End], v: u32) -> Result<Vec<u32>, AllocError> {
        let mut shown = Vec::new(alloc);
        for end in ends {
            if end.node == v && self.shows_edge(end.edge) {
                shown.push(end.edge)?;
            }
        }
        Ok(shown)
    }
}
