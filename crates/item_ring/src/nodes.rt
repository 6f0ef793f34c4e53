//! Nodes in blocks, named by their slots. Each keeps a raw link to both neighbours, and beside it
//! the slot that the link leads to, which is the token of a look.
ghost use Rattle.std.specs.Prelude.{◌≡◌, ◌≢◌, ℕ, ◌+◌, ◌<◌, ◌^◌, List, [], Some, IfOk, IfErr};
ghost use Rattle.item_ring.specs.Nodes.{node_at, cell_at, next_of, LeadsTo, IsTied, Writes, Edits, Spliced, Unspliced};

use crate::block::{BLOCK, Block, Cell, Node, State};
use crate::cells::Link;
use std::alloc::{AllocError, Global};
use std::marker::Model;

#[derive(Drop)]
pub(crate) struct Nodes {
    blocks: Vec<Block>,
    len: u32,
    room: u32,
}

impl Model for Nodes {
    ghost use Rattle.item_ring.specs.Nodes.{Slots};

    ghost Value = { Slots };

    ghost use Rattle.item_ring.specs.AreNodes.{slots_of, AreItsNodes};

    ghost view = { slots_of };

    ghost invariant = { AreItsNodes };
}

impl Nodes {
    pub(crate) fn new(alloc: Global) -> Nodes
        ensures { (result.blocks ≡ []) × (result.len ≡ 0) × (result.room ≡ 0) }
    {
        Nodes {
            blocks: Vec::new(alloc),
            len: 0,
            room: 0,
        }
    }

    /// How many slots are in use.
    pub(crate) fn len(&self) -> u32
        ensures { result ≡ self.now.len }
    {
        self.len
    }

    /// How many slots there are.
    pub(crate) fn room(&self) -> u32
        ensures { result ≡ self.now.room }
    {
        self.room
    }

    /// Makes room for one more block of slots.
    pub(crate) fn grow(&mut self, alloc: Global) -> Result<(), AllocError>
        requires { self.old.room + BLOCK < 2 ^ 32 }
        ensures room { IfOk result (λ _. self.new.room ≡ self.old.room + BLOCK) }
        ensures refused { IfErr result (λ _. self.new.room ≡ self.old.room) }
        ensures len { self.new.len ≡ self.old.len }
        ensures cells { (k : ℕ) → cell_at self.new k ≡ cell_at self.old k }
    {
        let block = Block::new(alloc)?;
        self.blocks.push(block)?;
        self.room += BLOCK as u32;
        Ok(())
    }

    /// The link to a slot.
    fn link(&self, slot: u32) -> Link
        requires { slot < self.now.len }
        ensures { LeadsTo self.now result slot }
    {
        self.blocks[slot as usize / BLOCK].link(slot as usize % BLOCK)
    }

    /// Follows a link.
    fn read(&self, link: Link, slot: u32) -> Node
        requires { LeadsTo self.now link slot }
        ensures node { node_at self.now.blocks slot ≡ Some result }
        ensures tied { IsTied self.now result }
    {
        self.blocks[slot as usize / BLOCK].get(link, slot as usize % BLOCK)
    }

    /// Puts a node where the link leads.
    fn write(&mut self, link: Link, slot: u32, node: Node)
        requires leads { LeadsTo self.old link slot }
        requires tied { IsTied self.old node }
        ensures { Writes self.old self.new slot node }
    {
        self.blocks[slot as usize / BLOCK].set(link, slot as usize % BLOCK, node);
    }

    /// Brings one more slot into use, with a node that is its own neighbour.
    pub(crate) fn push(&mut self, value: u32, state: State)
        requires room { self.old.len < self.old.room }
        requires few { self.old.len + 1 < 2 ^ 32 }
        ensures len { self.new.len ≡ self.old.len + 1 }
        ensures cell { let n = self.old.len in
            Edits self.old self.new n
            (record { next = n; prev = n; ring = n; value = value; state = state }) }
    {
        let slot = self.len;
        let link = self.blocks[slot as usize / BLOCK].link(slot as usize % BLOCK);
        let cell = Cell {
            next: slot,
            prev: slot,
            ring: slot,
            value,
            state,
        };
        let node = Node {
            next: link,
            prev: link,
            cell,
        };
        self.blocks[slot as usize / BLOCK].set(link, slot as usize % BLOCK, node);
        self.len += 1;
    }

    /// The cell in a slot.
    pub(crate) fn get(&self, slot: u32) -> Cell
        requires { slot < self.now.len }
        ensures { result ≡ cell_at self.now slot }
    {
        let link = self.link(slot);
        self.read(link, slot).cell
    }

    /// Writes a new cell, with `next` ahead and itself before it.
    pub(crate) fn reset(&mut self, slot: u32, next: u32, value: u32, state: State)
        requires slot { slot < self.old.len }
        requires next { next < self.old.len }
        ensures len { self.new.len ≡ self.old.len }
        ensures cell { Edits self.old self.new slot
            (record { next = next; prev = slot; ring = slot; value = value; state = state }) }
    {
        let link = self.link(slot);
        let ahead = self.link(next);
        let cell = Cell {
            next,
            prev: slot,
            ring: slot,
            value,
            state,
        };
        let node = Node {
            next: ahead,
            prev: link,
            cell,
        };
        self.write(link, slot, node);
    }

    /// Writes the number of a cell.
    pub(crate) fn set_value(&mut self, slot: u32, value: u32)
        requires { slot < self.old.len }
        ensures len { self.new.len ≡ self.old.len }
        ensures cell { Edits self.old self.new slot
            (record (cell_at self.old slot) { value = value }) }
    {
        let link = self.link(slot);
        let node = self.read(link, slot);
        let cell = Cell { value, ..node.cell };
        self.write(link, slot, Node { cell, ..node });
    }

    /// Ties `member` in behind `here`, whose raw link leads to the node ahead.
    pub(crate) fn splice(&mut self, here: u32, member: u32, ring: u32)
        requires here { here < self.old.len }
        requires member { member < self.old.len }
        requires apart { here ≢ member }
        requires ahead { next_of self.old here ≢ member }
        ensures { Spliced self.old self.new here member ring }
    {
        let to_here = self.link(here);
        let to_member = self.link(member);
        let before = self.read(to_here, here);
        let to_ahead = before.next;
        let ahead = before.cell.next;
        let cell = Cell {
            next: member,
            ..before.cell
        };
        self.write(
            to_here,
            here,
            Node {
                next: to_member,
                cell,
                ..before
            },
        );
        let behind = self.read(to_ahead, ahead);
        let cell = Cell {
            prev: member,
            ..behind.cell
        };
        self.write(
            to_ahead,
            ahead,
            Node {
                prev: to_member,
                cell,
                ..behind
            },
        );
        let own = self.read(to_member, member);
        let cell = Cell {
            next: ahead,
            prev: here,
            ring,
            value: own.cell.value,
            state: State::Linked,
        };
        self.write(
            to_member,
            member,
            Node {
                next: to_ahead,
                prev: to_here,
                cell,
            },
        );
    }

    /// Takes `member` out from between its neighbours, which its own raw links lead to.
    pub(crate) fn unsplice(&mut self, member: u32)
        requires { member < self.old.len }
        ensures { Unspliced self.old self.new member }
    {
        let to_member = self.link(member);
        let node = self.read(to_member, member);
        let before = self.read(node.prev, node.cell.prev);
        let cell = Cell {
            next: node.cell.next,
            ..before.cell
        };
        self.write(
            node.prev,
            node.cell.prev,
            Node {
                next: node.next,
                cell,
                ..before
            },
        );
        let behind = self.read(node.next, node.cell.next);
        let cell = Cell {
            prev: node.cell.prev,
            ..behind.cell
        };
        self.write(
            node.next,
            node.cell.next,
            Node {
                prev: node.prev,
                cell,
                ..behind
            },
        );
        let own = self.read(to_member, member);
        let cell = Cell {
            state: State::Loose,
            ..own.cell
        };
        self.write(to_member, member, Node { cell, ..own });
    }
}
