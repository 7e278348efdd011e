//! Look-ups of steps: through the index by key, and along an index. Nothing here takes memory.

ghost use Rattle.std.specs.Prelude.{◌≡◌, ◌≤◌, length, pos};
ghost use Rattle.visibility.specs.Reading.{IsSeenBy, IsOtherWriterFor, IsNewerCommitFor};
ghost use Rattle.index_lookup.specs.Looking.{FirstFound, FirstPlace, IsIdOf};
ghost use Rattle.index_lookup.specs.Walking.{NextRow};
ghost use Rattle.index_lookup.specs.Keys.{NextKey};
ghost use Rattle.table_indexes.specs.Indexes.{entries_in};
ghost use Rattle.heap_write.specs.Heap.{slots_of};
ghost use Rattle.heap_pages.specs.declared.pages.TheConstants.{MOST_PAGES};

use crate::heap::HeapState;
use index_lookup::{
    IndexPosition, IndexRange, TableView, WriteCheck, check_write, next_key, next_row, row_of,
};
use root_index::PositionHint;
use tuple_header::RowRef;
use visibility::Reader;

impl HeapState {
    /// Borrows the row of the key that the reader sees. (The pages and the indexes are private, here and below.)
    pub fn row(&self, key: u64, reader: &Reader<'_>) -> Option<RowRef<'_>>
        ensures { FirstFound reader.now.statuses.now (IsSeenBy reader.now)
            (slots_of self.now) (entries_in self.now.indexes 0) (pos key) key result }
    {
        let value = i128::from(key);
        let table = TableView {
            pages: &self.pages,
            index: self.indexes.by_key(),
        };
        row_of(&table, value, key, reader)
    }

    /// Checks the versions of the key for a reader that is about to write it. It also tells where the key's last entry is, or would
    /// be, as a hint for [`HeapState::expect_entry`].
    pub fn check_write(&self, key: u64, reader: &Reader<'_>) -> (WriteCheck, PositionHint)
        ensures place { FirstPlace reader.now.statuses.now (IsSeenBy reader.now)
            (slots_of self.now) (entries_in self.now.indexes 0) (pos key) key
            result.0.place }
        ensures newer_commit { IsIdOf reader.now.statuses.now (IsNewerCommitFor reader.now)
            (slots_of self.now) (entries_in self.now.indexes 0) (pos key) key
            result.0.newer_commit }
        ensures other_writer { IsIdOf reader.now.statuses.now (IsOtherWriterFor reader.now)
            (slots_of self.now) (entries_in self.now.indexes 0) (pos key) key
            result.0.other_writer }
    {
        let value = i128::from(key);
        let table = TableView {
            pages: &self.pages,
            index: self.indexes.by_key(),
        };
        check_write(&table, value, key, reader)
    }

    /// Where the entry by key of the next new root is looked for first, if that is known. A wrong hint costs two looks, and changes no
    /// answer.
    pub fn expect_entry(&mut self, near: Option<PositionHint>)
        ensures { self.new ≡ self.old }
    {
        if let Some(near) = near {
            self.indexes.expect(near);
        }
    }

    /// The first place of the span, in the order of the index, where the reader sees a row, and a borrow of that row. An index that
    /// is not in use has none.
    pub fn next_row(
        &self,
        span: &IndexRange,
        reader: &Reader<'_>,
    ) -> Option<(IndexPosition, RowRef<'_>)>
        ensures { NextRow reader.now.statuses.now (IsSeenBy reader.now)
            (slots_of self.now) (entries_in self.now.indexes span.now.index) span.now result }
    {
        let pages = &self.pages;
        match self.indexes.get(span.index) {
            Some(index) => next_row(&TableView { pages, index }, span, reader),
            None => None,
        }
    }

    /// The first place of the span, in the order of the index, where a key shows. It shows by a page that is noted as all-visible,
    /// which is not looked at, or by a row that the reader sees. An index that is not in use has none.
    pub fn next_key(&self, span: &IndexRange, reader: &Reader<'_>) -> Option<IndexPosition>
        ensures { NextKey reader.now.statuses.now (IsSeenBy reader.now) self.now.pages
            (entries_in self.now.indexes span.now.index) span.now result }
    {
        let pages = &self.pages;
        match self.indexes.get(span.index) {
            Some(index) => next_key(&TableView { pages, index }, span, reader),
            None => None,
        }
    }

    /// How many pages are in use, at most 65536. (The pages are private.)
    pub fn page_count(&self) -> u32
        ensures count { result ≡ length self.now.pages.pages }
        ensures limit { result ≤ MOST_PAGES }
    {
        self.pages.len()
    }
}
