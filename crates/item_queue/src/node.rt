//! What a heap is made of, and which node goes before which.
ghost use Rattle.std.specs.Prelude.{◌≡◌, true, false, map, IfOk};
ghost use Rattle.std.specs.List.Sorted.{IsPermutation};
ghost use Rattle.item_queue.specs.Order.{IsBelow, IsAtMost, IsInOrder};

use item_pool::Item;
use std::alloc::{AllocError, Global};

/// A node of the heap. It has the priority of its item, so that nodes are compared with no look
/// into the pool, and a handle by which its place is found.
#[derive(Clone, Copy, Drop)]
pub struct Node {
    pub priority: i64,
    pub item: Item,
    pub handle: u32,
}

/// What the pool has of an item: the handle of its node, its priority and its information.
#[derive(Drop)]
pub struct Entry<I> {
    pub handle: u32,
    pub priority: i64,
    pub inf: I,
}

/// Whether `a` has the lesser pair of priority and serial.
#[inline]
pub fn is_below(a: Node, b: Node) -> bool
    ensures yes { result ≡ true → IsBelow a b }
    ensures no { result ≡ false → IsAtMost b a }
{
    if a.priority == b.priority {
        a.item.serial < b.item.serial
    } else {
        a.priority < b.priority
    }
}

/// The nodes in order, in a vector of their own.
pub fn sorted(nodes: &[Node], alloc: Global) -> Result<Vec<Node>, AllocError>
    ensures same { IfOk result (λ v. IsPermutation nodes.now v.items) }
    ensures order { IfOk result (λ v. IsInOrder v.items) }
{
    let mut nodes: Vec<Node> = nodes.iter().copied().collect(alloc)?;
    nodes.sort_unstable_by_key(|node| (node.priority, node.item.serial));
    Ok(nodes)
}

/// The items of the nodes, in their order.
pub fn items_of(nodes: &[Node], alloc: Global) -> Result<Vec<Item>, AllocError>
    ensures { IfOk result (λ v. v.items ≡ map (λ a. a.item) nodes.now) }
{
    nodes.iter().map(|node| node.item).collect(alloc)
}
