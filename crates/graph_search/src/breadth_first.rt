//! A breadth first search from one node, over rows of what leads on from each node.
ghost use Rattle.std.specs.Prelude.{◌≡◌, ℕ, ◌+◌, ◌-◌, ◌^◌, ◌<◌, ◌≤◌, ◌++◌, ◌∷◌, [], true, false, length, slice_set, replicate, vec_len, IfOk, OnOk, MatchBool};
ghost use Rattle.graph_defs.specs.declared.net.TheConstants.{NODE_LIMIT};
ghost use Rattle.graph_defs.specs.declared.net.Net.{Net};
ghost use Rattle.graph_defs.specs.Walk.{IsWalk};
ghost use Rattle.graph_defs.specs.Grouped.{grouped};
ghost use Rattle.graph_search.specs.Tree.{row_at, found_at, is_visited, nodes_visited, LeadWithin, LeadToVisited, IsTree, IsSearch, Grows, HasReached, HasMissed};

use graph_defs::{Grouped, Incidence};
use leda_base::{NoMemory, Row};
use std::alloc::Global;

// A node that was found by an arc from another, whose place in the queue is `predecessor`. The
// first node of a queue has no predecessor: there `arc` and `predecessor` mean nothing.
#[derive(Clone, Copy)]
pub struct Found {
    pub node: u32,
    pub arc: u32,
    pub predecessor: u32,
}

// Which nodes were visited, and how each was found, in the order in which they were.
#[derive(Drop)]
pub struct Search {
    pub visited: Vec<bool>,
    pub queue: Vec<Found>,
}

impl Search {
    // A search that has visited its source alone.
    pub fn start(alloc: Global, n: u32, source: u32) -> Result<Search, NoMemory>
        requires { source < n }
        ensures visited { IfOk result (λ search.
            search.visited.items ≡ slice_set (replicate n false) source true) }
        ensures queue { IfOk result (λ search.
            search.queue.items ≡ record { node = source; arc = 0; predecessor = 0 } ∷ []) }
    {
        let mut search = Search {
            visited: vec![in alloc; false; n as usize]?,
            queue: Vec::new(alloc),
        };
        search.visit(Found {
            node: source,
            arc: 0,
            predecessor: 0,
        })?;
        Ok(search)
    }

    // Marks a node, and puts it at the end of the queue.
    fn visit(&mut self, found: Found) -> Result<(), NoMemory>
        requires { found.node < vec_len self.old.visited }
        ensures visited { OnOk result
            (self.new.visited.items ≡ slice_set self.old.visited.items found.node true) }
        ensures queue { OnOk result (self.new.queue.items ≡ self.old.queue.items ++ found ∷ []) }
    {
        self.queue.push(found)?;
        self.visited[found.node as usize] = true;
        Ok(())
    }

    // Goes on until `t` is visited, or until there is nothing left to visit. Whether `t` was.
    pub fn run(&mut self, rows: &Grouped, t: u32) -> Result<bool, NoMemory>
        requires few { length rows.now < 2 ^ 32 }
        requires within { LeadWithin rows.now }
        requires search { IsSearch rows.now self.old.visited.items self.old.queue.items }
        requires missing { is_visited self.old.visited.items t ≡ false }
        ensures { IfOk result (λ found. MatchBool found
            (HasReached rows.now (found_at self.old.queue.items 0).node t self.new.queue.items)
            (HasMissed rows.now (found_at self.old.queue.items 0).node t self.new.visited.items)) }
    {
        let mut head = 0;
        while head < self.queue.len() {
            let row = rows.row(self.queue[head].node);
            if self.spread(rows, row, head, t)? {
                return Ok(true);
            }
            head += 1;
        }
        Ok(false)
    }

    // Visits the nodes to which the entries of the row lead, which is that of the node at `head`.
    // Stops early at `t`. Whether it did.
    fn spread(
        &mut self,
        rows: &Grouped,
        row: &[Incidence],
        head: usize,
        t: u32,
    ) -> Result<bool, NoMemory>
        requires few { length rows.now < 2 ^ 32 }
        requires within { LeadWithin rows.now }
        requires head { head < length self.old.queue.items }
        requires row { row.now ≡ row_at rows.now (found_at self.old.queue.items head).node }
        requires search { IsSearch rows.now self.old.visited.items self.old.queue.items }
        requires missing { is_visited self.old.visited.items t ≡ false }
        ensures search { OnOk result
            (IsSearch rows.now self.new.visited.items self.new.queue.items) }
        ensures grows { OnOk result (Grows self.old.visited.items self.old.queue.items
            self.new.visited.items self.new.queue.items) }
        ensures found { IfOk result (λ found. MatchBool found
            ((found_at self.new.queue.items (length self.new.queue.items - 1)).node ≡ t)
            (LeadToVisited self.new.visited.items row.now
            × (is_visited self.new.visited.items t ≡ false))) }
    {
        for entry in row {
            let node = entry.end;
            if !self.visited[node as usize] {
                self.visit(Found {
                    node,
                    arc: entry.number,
                    predecessor: head as u32,
                })?;
                if node == t {
                    return Ok(true);
                }
            }
        }
        Ok(false)
    }
}

// The walk from the first place of the queue to another, read back from predecessor to predecessor.
pub fn walk_to(alloc: Global, queue: &[Found], place: usize) -> Result<Row<u32>, NoMemory>
    requires place { place < length queue.now }
    requires before { (k : ℕ) → 0 < k → k < length queue.now
        → (found_at queue.now k).predecessor < k }
    ensures { (net : Net) → IsTree (grouped net.n net.arcs) queue.now → IfOk result (λ walk.
        IsWalk net (found_at queue.now 0).node (found_at queue.now place).node walk) }
{
    let mut arcs = Vec::new(alloc);
    let mut at = place;
    while at > 0 {
        let found = queue[at];
        arcs.push(found.arc)?;
        at = found.predecessor as usize;
    }
    arcs.as_mut_slice().reverse();
    Ok(Row::from_vec(arcs))
}

// The visited nodes in the order of the nodes.
pub fn visited_nodes(alloc: Global, visited: &[bool]) -> Result<Row<u32>, NoMemory>
    requires { length visited.now ≤ NODE_LIMIT }
    ensures { IfOk result (λ nodes. nodes ≡ nodes_visited visited.now) }
{
    let mut nodes = Row::new(alloc);
    for (node, is_visited) in visited.iter().enumerate() {
        if *is_visited {
            nodes.push(node as u32)?;
        }
    }
    Ok(nodes)
}
