//! A breadth first search from the source along the darts that have room.
ghost use Rattle.std.specs.Prelude.{◌≡◌, ℕ, ◌+◌, ◌^◌, ◌<◌, ◌≤◌, ◌++◌, ◌∷◌, ℤ, pos, ◌≤ℤ◌, [], true, false, length, slice_set, replicate, vec_len, IfOk, OnOk, MatchOption};
ghost use Rattle.graph_defs.specs.declared.net.TheConstants.{NODE_LIMIT};
ghost use Rattle.flow_net.specs.Residual.{row_at, IsResidual};
ghost use Rattle.flow_net.specs.Search.{found_at, is_visited, nodes_visited, LeadToVisited, IsSearch, IsDone, Grows};

use crate::darts::room_of;
use graph_defs::{Grouped, Incidence};
use leda_base::{NoMemory, Row};
use std::alloc::Global;

// A node that was found along a dart from another, whose place in the queue is `predecessor`, and
// how much may flow to it from the source on this way. The first node of a queue has no
// predecessor: there `dart` and `predecessor` mean nothing.
#[derive(Clone, Copy)]
pub struct Found {
    pub node: u32,
    pub dart: u32,
    pub predecessor: u32,
    pub room: i64,
}

// Which nodes were visited, and how each was found, in the order in which they were.
#[derive(Drop)]
pub struct Search {
    pub visited: Vec<bool>,
    pub queue: Vec<Found>,
}

impl Search {
    // A search that has visited its source alone.
    pub fn start(alloc: Global, n: u32, source: u32) -> Result<Search, NoMemory>
        requires { source < n }
        ensures visited { IfOk result (λ search.
            search.visited.items ≡ slice_set (replicate n false) source true) }
        ensures queue { IfOk result (λ search. search.queue.items
            ≡ record { node = source; dart = 0; predecessor = 0; room = pos 9223372036854775807 }
            ∷ []) }
    {
        let mut search = Search {
            visited: vec![in alloc; false; n as usize]?,
            queue: Vec::new(alloc),
        };
        search.visit(Found {
            node: source,
            dart: 0,
            predecessor: 0,
            room: i64::MAX,
        })?;
        Ok(search)
    }

    // Marks a node, and puts it at the end of the queue.
    fn visit(&mut self, found: Found) -> Result<(), NoMemory>
        requires { found.node < vec_len self.old.visited }
        ensures visited { OnOk result
            (self.new.visited.items ≡ slice_set self.old.visited.items found.node true) }
        ensures queue { OnOk result (self.new.queue.items ≡ self.old.queue.items ++ found ∷ []) }
    {
        self.queue.push(found)?;
        self.visited[found.node as usize] = true;
        Ok(())
    }

    // Goes on until there is nothing left to visit.
    pub fn run(&mut self, rows: &Grouped, cap: &[i64], flow: &[i64]) -> Result<(), NoMemory>
        requires residual { IsResidual rows.now cap.now flow.now }
        requires search { IsSearch rows.now cap.now flow.now
            (found_at self.old.queue.items 0).node self.old.visited.items self.old.queue.items }
        ensures { OnOk result (IsDone rows.now cap.now flow.now
            (found_at self.old.queue.items 0).node self.new.visited.items self.new.queue.items) }
    {
        let mut head = 0;
        while head < self.queue.len() {
            let row = rows.row(self.queue[head].node);
            self.spread(rows, row, cap, flow, head)?;
            head += 1;
        }
        Ok(())
    }

    // Visits the nodes to which the darts of the row lead that have room, which is that of the node
    // at `head`.
    fn spread(
        &mut self,
        rows: &Grouped,
        row: &[Incidence],
        cap: &[i64],
        flow: &[i64],
        head: usize,
    ) -> Result<(), NoMemory>
        requires residual { IsResidual rows.now cap.now flow.now }
        requires head { head < length self.old.queue.items }
        requires row { row.now ≡ row_at rows.now (found_at self.old.queue.items head).node }
        requires search { IsSearch rows.now cap.now flow.now
            (found_at self.old.queue.items 0).node self.old.visited.items self.old.queue.items }
        ensures search { OnOk result (IsSearch rows.now cap.now flow.now
            (found_at self.old.queue.items 0).node self.new.visited.items self.new.queue.items) }
        ensures grows { OnOk result (Grows self.old.visited.items self.old.queue.items
            self.new.visited.items self.new.queue.items) }
        ensures spread { OnOk result
            (LeadToVisited cap.now flow.now self.new.visited.items row.now) }
    {
        let most = self.queue[head].room;
        for entry in row {
            let room = room_of(cap, flow, entry.number);
            if room > 0 {
                if !self.visited[entry.end as usize] {
                    self.visit(Found {
                        node: entry.end,
                        dart: entry.number,
                        predecessor: head as u32,
                        room: smaller(most, room),
                    })?;
                }
            }
        }
        Ok(())
    }
}

fn smaller(one: i64, other: i64) -> i64
    ensures first { result ≤ℤ one }
    ensures second { result ≤ℤ other }
    ensures some { pos 1 ≤ℤ one → pos 1 ≤ℤ other → pos 1 ≤ℤ result }
{
    if one < other { one } else { other }
}

// The place of a node in the queue.
pub fn place_of(queue: &[Found], node: u32) -> Option<usize>
    ensures { MatchOption result
        ((k : ℕ) → k < length queue.now → (found_at queue.now k).node ≡ node → ⊥)
        (λ k. (k < length queue.now) × ((found_at queue.now k).node ≡ node)) }
{
    for place in 0..queue.len() {
        if queue[place].node == node {
            return Some(place);
        }
    }
    None
}

// The visited nodes in the order of the nodes.
pub fn visited_nodes(alloc: Global, visited: &[bool]) -> Result<Row<u32>, NoMemory>
    requires { length visited.now ≤ NODE_LIMIT }
    ensures { IfOk result (λ nodes. nodes ≡ nodes_visited visited.now) }
{
    let mut nodes = Row::new(alloc);
    for (node, is_visited) in visited.iter().enumerate() {
        if *is_visited {
            nodes.push(node as u32)?;
        }
    }
    Ok(nodes)
}
