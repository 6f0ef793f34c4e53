//! Nodes by their labels.

use crate::residual::NONE;
use leda_base::NoMemory;
use std::alloc::Global;

// The first node with a label, and the first of those that wait.
#[derive(Clone, Copy)]
struct Level {
    first: u32,
    waiting: u32,
}

const EMPTY: Level = Level {
    first: NONE,
    waiting: NONE,
};

// The neighbours of a node among those with its label, and the next one that waits.
#[derive(Clone, Copy)]
struct Link {
    before: u32,
    after: u32,
    next: u32,
}

const ALONE: Link = Link {
    before: NONE,
    after: NONE,
    next: NONE,
};

/// The nodes of each label in a list, and those that wait for a look in another.
#[derive(Drop)]
pub(crate) struct Levels {
    levels: Vec<Level>,
    links: Vec<Link>,
    // no node waits above this label
    top: u32,
    // no node stands above this label
    highest: u32,
}

impl Levels {
    /// No nodes, with room for labels and nodes below `n`.
    pub(crate) fn new(alloc: Global, n: u32) -> Result<Levels, NoMemory> {
        Ok(Levels {
            levels: vec![in alloc; EMPTY; n as usize]?,
            links: vec![in alloc; ALONE; n as usize]?,
            top: 0,
            highest: 0,
        })
    }

    /// Takes all nodes out.
    pub(crate) fn clear(&mut self) {
        self.levels.as_mut_slice().fill(EMPTY);
        self.top = 0;
        self.highest = 0;
    }

    #[inline(always)]
    fn level(&self, label: u32) -> Level {
        let label = label as usize;
        let levels = self.levels.as_slice();
        if label < levels.len() {
            levels[label]
        } else {
            EMPTY
        }
    }

    #[inline(always)]
    fn set_level(&mut self, label: u32, level: Level) {
        let label = label as usize;
        if label < self.levels.len() {
            self.levels[label] = level;
        }
    }

    #[inline(always)]
    fn link(&self, node: u32) -> Link {
        let node = node as usize;
        let links = self.links.as_slice();
        if node < links.len() {
            links[node]
        } else {
            ALONE
        }
    }

    #[inline(always)]
    fn set_link(&mut self, node: u32, link: Link) {
        let node = node as usize;
        if node < self.links.len() {
            self.links[node] = link;
        }
    }

    /// Puts a node to those with a label.
    pub(crate) fn insert(&mut self, node: u32, label: u32) {
        let level = self.level(label);
        let after = level.first;
        self.set_link(node, Link { after, ..ALONE });
        self.set_link(
            after,
            Link {
                before: node,
                ..self.link(after)
            },
        );
        self.set_level(
            label,
            Level {
                first: node,
                ..level
            },
        );
        self.highest = self.highest.max(label);
    }

    /// Takes it out, which doesn't wait. Whether no node with the label is left.
    pub(crate) fn remove(&mut self, node: u32, label: u32) -> bool {
        let Link { before, after, .. } = self.link(node);
        self.set_link(
            after,
            Link {
                before,
                ..self.link(after)
            },
        );
        if before == NONE {
            let level = self.level(label);
            self.set_level(
                label,
                Level {
                    first: after,
                    ..level
                },
            );
        } else {
            self.set_link(
                before,
                Link {
                    after,
                    ..self.link(before)
                },
            );
        }
        self.level(label).first == NONE
    }

    /// Lets a node with a label wait.
    #[inline(always)]
    pub(crate) fn wait(&mut self, node: u32, label: u32) {
        let level = self.level(label);
        self.set_link(
            node,
            Link {
                next: level.waiting,
                ..self.link(node)
            },
        );
        self.set_level(
            label,
            Level {
                waiting: node,
                ..level
            },
        );
        self.top = self.top.max(label);
    }

    /// A node with the greatest label of those that wait, which doesn't from now on; NONE where
    /// none waits.
    pub(crate) fn take(&mut self) -> u32 {
        for label in (0..=self.top).rev() {
            let level = self.level(label);
            if level.waiting != NONE {
                self.top = label;
                let node = level.waiting;
                self.set_level(
                    label,
                    Level {
                        waiting: self.link(node).next,
                        ..level
                    },
                );
                return node;
            }
        }
        NONE
    }

    /// The greatest label that a node may have.
    pub(crate) fn highest(&self) -> u32 {
        self.highest
    }

    /// Takes out a node with a label, which is none where there is none.
    pub(crate) fn take_out(&mut self, label: u32) -> u32 {
        let node = self.level(label).first;
        self.remove(node, label);
        node
    }

    /// No node stands above a label.
    pub(crate) fn end_at(&mut self, label: u32) {
        self.highest = label;
    }
}
