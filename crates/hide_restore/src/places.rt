//! Where numbers stand in a list.
ghost use Rattle.std.specs.Prelude.{◌≡◌, ℕ, ◌≤◌, ◌<◌, length, All, IfOk, MatchOption};
ghost use Rattle.graph_defs.specs.declared.net.TheConstants.{ARC_LIMIT};
ghost use Rattle.graph_state.specs.Names.{Has, IsOnce};
ghost use Rattle.hide_restore.specs.Net.{numbers_of_nodes, place_of, HavePlaces};

use graph_core::NodeItem;
use leda_base::{NoMemory, Row};
use std::alloc::Global;
use std::marker::Model;

/// The places of numbers in a list of them, each looked up in constant time. Contracts see the
/// list.
///
/// The table has an entry for every number up to a greatest one, and only the entries of the
/// numbers in the list tell something: an entry is right where the list has the number there. So
/// the table begins as zeros, which need no other value for 'not in the list'.
#[derive(Drop)]
pub struct Places {
    numbers: Vec<u32>,
    table: Vec<u32>,
}

impl Model for Places {
    ghost use Rattle.std.specs.Prelude.{ℕ, List};
    ghost use Rattle.hide_restore.specs.Net.{ArePlaces};

    ghost Value = { List ℕ };

    ghost view = { λ p. p.numbers.items };

    ghost invariant = { λ p. ArePlaces p.numbers.items p.table.items };
}

impl Places {
    /// The places of the nodes' numbers, which are at most `most` and differ. In time linear in the
    /// nodes, but for the zeroing of `most` entries of 4 bytes each.
    ///
    /// # Errors
    ///
    /// `NoMemory` where there is no memory.
    pub fn of(alloc: Global, most: u32, nodes: &[NodeItem]) -> Result<Places, NoMemory>
        requires most { (v : ℕ) → Has v (numbers_of_nodes nodes.now) → v ≤ most }
        requires once { IsOnce (numbers_of_nodes nodes.now) }
        requires few { length nodes.now ≤ ARC_LIMIT }
        ensures { IfOk result (λ places. places ≡ numbers_of_nodes nodes.now) }
    {
        Places::of_numbers(alloc, most, numbers_of(alloc, nodes)?)
    }

    /// The places of numbers that are at most `most` and differ. In time linear in them, but for
    /// the zeroing of `most` entries of 4 bytes each.
    ///
    /// # Errors
    ///
    /// `NoMemory` where there is no memory.
    pub fn of_numbers(alloc: Global, most: u32, numbers: Row<u32>) -> Result<Places, NoMemory>
        requires most { (v : ℕ) → Has v numbers → v ≤ most }
        requires once { IsOnce numbers }
        requires few { length numbers ≤ ARC_LIMIT }
        ensures { IfOk result (λ places. places ≡ numbers) }
    {
        let numbers = numbers.into_vec();
        let table = table_of(alloc, most, numbers.as_slice())?;
        Ok(Places { numbers, table })
    }

    /// The numbers, in their order.
    pub fn numbers(&self) -> &[u32]
        ensures { result.now ≡ self.now }
    {
        self.numbers.as_slice()
    }

    /// The place of a number, and none exactly where the list hasn't the number.
    pub fn place(&self, number: u32) -> Option<u32>
        ensures { MatchOption result (Has number self.now → ⊥)
            (λ place. Has number self.now × (place ≡ place_of number self.now)) }
    {
        let place = *self.table.get(number as usize)?;
        if *self.numbers.get(place as usize)? == number {
            Some(place)
        } else {
            None
        }
    }
}

/// The numbers of the nodes.
fn numbers_of(alloc: Global, nodes: &[NodeItem]) -> Result<Row<u32>, NoMemory>
    ensures { IfOk result (λ numbers. numbers ≡ numbers_of_nodes nodes.now) }
{
    let mut numbers = Row::with_room(alloc, nodes.len())?;
    for node in nodes {
        numbers.push(node.0.serial)?;
    }
    Ok(numbers)
}

/// At each of the numbers its place, and 0 at the others.
fn table_of(alloc: Global, most: u32, numbers: &[u32]) -> Result<Vec<u32>, NoMemory>
    requires most { All (λ v. v ≤ most) numbers.now }
    requires once { IsOnce numbers.now }
    requires few { length numbers.now ≤ ARC_LIMIT }
    ensures { IfOk result (λ table.
        HavePlaces numbers.now most (length numbers.now) table.items) }
{
    let mut table = vec![in alloc; 0u32; most as usize + 1]?;
    for (place, number) in numbers.iter().enumerate() {
        table[*number as usize] = place as u32;
    }
    Ok(table)
}
