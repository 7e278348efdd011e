//! An index is made while the table is in use.

ghost use Rattle.std.specs.Prelude.{◌≡◌, ◌<◌, OnOk, OnErr};
ghost use Rattle.index_making.specs.Making.{SomeCurrent};
ghost use Rattle.heap_write.specs.Heap.{slots_of};
ghost use Rattle.heap_write.specs.Making.{MakesIndex};
ghost use Rattle.tuple_header.specs.declared.version.TheConstants.{COLUMNS};

use crate::heap::HeapState;
use index_making::list_current;
use std::alloc::AllocError;

impl HeapState {
    /// Makes the index by this column, from 0 to 3: with one entry for each chain that holds a current row, and exact from the
    /// next id on. It is made beside the table, so that nothing has changed where memory is refused. An index that was there by
    /// the column goes. (The manual's CREATE INDEX; README.HOT.)
    pub fn make_index(&mut self, column: u8) -> Result<(), AllocError>
        requires { column < COLUMNS }
        ensures made { OnOk result (MakesIndex self.old self.new column) }
        ensures err { OnErr result (self.new ≡ self.old) }
        ensures refused { OnErr result (SomeCurrent self.old.statuses (slots_of self.old)) }
    {
        let index = list_current(self.alloc, &self.pages, &self.statuses, column)?;
        let since = self.statuses.next();
        self.indexes.put(column, index, since);
        Ok(())
    }
}
