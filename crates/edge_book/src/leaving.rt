//! The edges of a book by the row that they leave.
ghost use Rattle.std.specs.Prelude.{◌≡◌, ℕ, ◌+◌, ◌≤◌, ◌<◌, ◌==◌, [], ◌∷◌, ◌++◌, length, OnOk, if◌then◌else◌};
ghost use Rattle.edge_book.specs.Leaving.{listed, HasRoom};

use pta_base::OutOfMemory;
use std::alloc::Global;

/// For each row a list of rows. A row past the end has the empty list.
#[derive(Drop)]
pub(crate) struct Leaving {
    pub(crate) lists: Vec<Vec<u32>>,
    alloc: Global,
}

impl Leaving {
    /// Empty lists for all rows.
    pub(crate) fn new(alloc: Global) -> Leaving
        ensures { result.lists.items ≡ [] }
    {
        Leaving {
            lists: Vec::new(alloc),
            alloc,
        }
    }

    /// Makes lists for all rows up to this one. No list changes.
    fn reach(&mut self, row: u32) -> Result<(), OutOfMemory>
        ensures same { (other : ℕ) → listed self.new.lists.items other ≡ listed self.old.lists.items other }
        ensures there { OnOk result (row < length self.new.lists.items) }
    {
        for _ in self.lists.len()..row as usize + 1 {
            self.lists.push(Vec::new(self.alloc))?;
        }
        Ok(())
    }

    /// Makes room for one row more at the end of a row's list. No list changes.
    pub(crate) fn reserve(&mut self, row: u32) -> Result<(), OutOfMemory>
        ensures same { (other : ℕ) → listed self.new.lists.items other ≡ listed self.old.lists.items other }
        ensures there { OnOk result (row < length self.new.lists.items) }
        ensures room { OnOk result (HasRoom self.new.lists.items row) }
    {
        self.reach(row)?;
        self.lists[row as usize].reserve(1)?;
        Ok(())
    }

    /// Adds a row at the end of a row's list, where there is room for it.
    pub(crate) fn push_reserved(&mut self, row: u32, to: u32)
        requires there { row < length self.old.lists.items }
        requires room { HasRoom self.old.lists.items row }
        ensures { (other : ℕ)
            → listed self.new.lists.items other ≡ listed self.old.lists.items other ++ (if row == other then to ∷ [] else []) }
    {
        self.lists[row as usize].push_reserved(to);
    }

    /// A row's list.
    pub(crate) fn of(&self, row: u32) -> &[u32]
        ensures { result.now ≡ listed self.now.lists.items row }
    {
        match self.lists.get(row as usize) {
            Some(list) => list.as_slice(),
            None => &[],
        }
    }
}
