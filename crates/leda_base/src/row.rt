//! A vector that contracts see as a list.
ghost use Rattle.std.specs.Prelude.{◌≡◌, [], ◌∷◌, ◌++◌, IfOk, OnOk, OnErr};

use crate::memory::NoMemory;
use std::alloc::Global;
use std::marker::Model;

/// A vector that contracts see as the list of its entries.
#[derive(Drop)]
pub struct Row<T> {
    entries: Vec<T>,
}

impl<T> Model for Row<T> {
    ghost use Rattle.std.specs.Prelude.{List};

    ghost Value = { List T };

    ghost view = { λ row. row.entries.items };
}

impl<T: Drop> Row<T> {
    /// An empty row. It takes no memory.
    pub fn new(alloc: Global) -> Row<T>
        ensures { result ≡ [] }
    {
        Row {
            entries: Vec::new(alloc),
        }
    }

    /// An empty row with room for `n` entries.
    ///
    /// # Errors
    /// `NoMemory` where the room isn't given.
    pub fn with_room(alloc: Global, n: usize) -> Result<Row<T>, NoMemory>
        ensures { IfOk result (λ row. row ≡ []) }
    {
        Ok(Row {
            entries: Vec::with_capacity(alloc, n)?,
        })
    }

    /// A copy of the entries.
    ///
    /// # Errors
    /// `NoMemory` where there is no room for them.
    pub fn from_slice(alloc: Global, entries: &[T]) -> Result<Row<T>, NoMemory>
    where
        T: Copy,
        ensures { IfOk result (λ row. row ≡ entries.now) }
    {
        Ok(Row {
            entries: Vec::from_slice(alloc, entries)?,
        })
    }

    /// Where the room of the row comes from.
    pub fn alloc(&self) -> Global {
        *self.entries.allocator()
    }

    /// The entries of a vector. It takes no memory.
    pub fn from_vec(entries: Vec<T>) -> Row<T>
        ensures { result ≡ entries.items }
    {
        Row { entries }
    }

    /// The entries as a vector. It takes no memory.
    pub fn into_vec(self) -> Vec<T>
        ensures { result.items ≡ self }
    {
        let Row { entries } = self;
        entries
    }

    /// Appends an entry.
    ///
    /// # Errors
    /// `NoMemory` where the row can't grow. It is then as it was, and `v` is dropped.
    pub fn push(&mut self, v: T) -> Result<(), NoMemory>
        ensures ok { OnOk result (self.new ≡ self.old ++ v ∷ []) }
        ensures err { OnErr result (self.new ≡ self.old) }
    {
        self.entries.push(v)?;
        Ok(())
    }

    /// The entries in order.
    pub fn as_slice(&self) -> &[T]
        ensures { result.now ≡ self.now }
    {
        self.entries.as_slice()
    }
}

#[cfg(test)]
mod tests {
    use super::*;
    use std::test::Fail;

    #[test]
    fn entries_come_back_in_order(rt: HostRuntime) -> Result<(), Fail> {
        let mut row = Row::with_room(rt.alloc(), 1)?;
        row.push(7u32)?;
        row.push(3)?;
        assert_eq!(rt; row.as_slice(), [7, 3].as_slice());
        let empty: Row<u32> = Row::new(rt.alloc());
        assert_eq!(rt; empty.as_slice().len(), 0);
        let again = Row::from_vec(row.into_vec());
        assert_eq!(rt; again.as_slice(), [7, 3].as_slice());
        Ok(())
    }
}
