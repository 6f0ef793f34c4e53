//! The names of items in replies.
ghost use Rattle.std.specs.Prelude.{◌≡◌, map, IfOk};
ghost use Rattle.hide_restore.specs.Net.{numbers_of_nodes, numbers_of_edges};

use graph_core::{EdgeItem, NodeItem};
use hide_restore::Shown;
use leda_base::{ItemName, NoMemory, Row};
use reply_text::{Answer, Named};
use std::alloc::Global;

/// What has a number, and a name with it.
pub(crate) trait Numbered {
    ghost use Rattle.std.specs.Prelude.{◌≡◌, ℕ};
    ghost use Rattle.leda_base.specs.declared.ItemName.{ItemName};

    ghost number: { Self → ℕ };

    ghost name: { Self → ItemName };

    fn number(&self) -> u32
        ensures { result ≡ number self.now };

    fn name(&self) -> ItemName
        ensures { result ≡ name self.now };
}

impl Numbered for NodeItem {
    ghost use Rattle.leda_base.specs.declared.ItemName.TheVariants as items;

    ghost number = { λ v. v.0.serial };

    ghost name = { λ v. items.Node v.0.serial };

    fn number(&self) -> u32 {
        self.0.serial
    }

    fn name(&self) -> ItemName {
        ItemName::Node(self.0.serial)
    }
}

impl Numbered for EdgeItem {
    ghost use Rattle.leda_base.specs.declared.ItemName.TheVariants as items;

    ghost number = { λ e. e.0.serial };

    ghost name = { λ e. items.Edge e.0.serial };

    fn number(&self) -> u32 {
        self.0.serial
    }

    fn name(&self) -> ItemName {
        ItemName::Edge(self.0.serial)
    }
}

/// The numbers of the items.
fn numbers<T: Numbered>(alloc: Global, items: &[T]) -> Result<Row<u32>, NoMemory>
    ensures { IfOk result (λ row. row ≡ map T.number items.now) }
{
    let mut row = Row::with_room(alloc, items.len())?;
    for item in items {
        row.push(item.number())?;
    }
    Ok(row)
}

/// The names of the items.
pub(crate) fn names<T: Numbered>(alloc: Global, items: &[T]) -> Result<Row<ItemName>, NoMemory>
    ensures { IfOk result (λ row. row ≡ map T.name items.now) }
{
    let mut row = Row::with_room(alloc, items.len())?;
    for item in items {
        row.push(item.name())?;
    }
    Ok(row)
}

/// The answer, with the names of the nodes and edges that it numbers.
pub(crate) fn named(alloc: Global, shown: &Shown, answer: Answer) -> Result<Named, NoMemory>
    ensures nodes { IfOk result (λ named. named.nodes ≡ numbers_of_nodes shown.now.nodes) }
    ensures edges { IfOk result (λ named. named.edges ≡ numbers_of_edges shown.now.edges) }
    ensures answer { IfOk result (λ named. named.answer ≡ answer) }
{
    let nodes = numbers(alloc, shown.nodes.as_slice())?;
    let edges = numbers(alloc, shown.edges.as_slice())?;
    Ok(Named {
        nodes,
        edges,
        answer,
    })
}
