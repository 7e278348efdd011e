//! Where roots of keys were made, as far as it is known, and what is found by that. Nothing here takes memory.

ghost use Rattle.std.specs.Prelude.{◌≡◌, pos, IfSome};
ghost use Rattle.visibility.specs.Reading.{IsSeenBy};
ghost use Rattle.index_lookup.specs.ByPlace.{FoundOrSeen, IsSeenUndeleted, IsVersionOf};
ghost use Rattle.table_indexes.specs.Indexes.{entries_in};
ghost use Rattle.heap_write.specs.Heap.{slots_of};

use crate::heap::HeapState;
use index_lookup::{row_by_place, undeleted_by_place};
use key_places::KeyPlaces;
use tuple_header::RowRef;
use visibility::Reader;
use xid_circle::Tid;

impl HeapState {
    /// Forgets where roots of keys were made, and notes it from now on, or never. With no places kept a get searches the index; no
    /// answer changes.
    pub fn keep_places(&mut self, are_wanted: bool)
        ensures { self.new ≡ self.old }
    {
        self.places = KeyPlaces::new(self.alloc, are_wanted);
    }

    /// Borrows the row of the key that the reader sees. It looks first where a root of the key was made last, if that is known, and
    /// along the index only if the row is not there.
    #[inline(always)]
    pub fn find_row(&self, key: u64, reader: &Reader<'_>) -> Option<RowRef<'_>>
        ensures { FoundOrSeen reader.now.statuses.now (IsSeenBy reader.now)
            (slots_of self.now) (entries_in self.now.indexes 0) (pos key) key result }
    {
        if let Some(root) = self.places.get(key) {
            if let Some(row) = row_by_place(&self.pages, root.place, root.from, key, reader) {
                return Some(row);
            }
        }
        self.row(key, reader)
    }
    /// Where the version of the key is that the reader sees, if it is found from where a root of the key was made last and nobody has
    /// deleted it. Then nothing keeps a session that reads so from writing the key: the law `undeleted_is_uncontested` of
    /// `refinement`.
    #[inline(always)]
    pub fn undeleted_place(&self, key: u64, reader: &Reader<'_>) -> Option<Tid>
        ensures { IfSome result
            (IsVersionOf (IsSeenUndeleted (IsSeenBy reader.now)) (slots_of self.now) key) }
    {
        let root = self.places.get(key)?;
        undeleted_by_place(&self.pages, root.place, root.from, key, reader)
    }
}
