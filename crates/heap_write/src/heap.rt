//! The pages, the ids and the indexes of a table. These are private, so what asks only one of them is here.

ghost use Rattle.std.specs.Prelude.{◌≡◌, ◌≤◌, ◌<◌, ℕ, [], IfOk, Some, None, length, slice_get, option_copied, Contains};
ghost use Rattle.std.specs.Arc.{arc_value};
ghost use Rattle.xid_circle.specs.Circle.{IsNormal};
ghost use Rattle.commit_status.specs.Window.{IsActive, IsWindow};
ghost use Rattle.commit_status.specs.Changes.{numbers, Finishes};
ghost use Rattle.table_indexes.specs.Indexes.{index_at, entries_at, since_at, new_entries};
ghost use Rattle.heap_pages.specs.declared.pages.TheConstants.{MOST_PAGES};

use commit_status::{Status, StatusTable};
use heap_pages::Pages;
use key_places::KeyPlaces;
use page_slots::Page;
use root_index::RootIndex;
use space_maps::PruneHints;
use std::alloc::{AllocError, Global};
use std::marker::Model;
use std::sync::Arc;
use table_indexes::Indexes;
use thiserror::Error;
use tuple_header::COLUMNS;
use xid_circle::Xid;

/// Why a write was not done. An insert tests NoRoom before it asks for memory; an update asks for all that it needs before it
/// prunes, and finds only then that there is no room.
#[derive(Clone, Copy, Debug, PartialEq, Eq, Error)]
pub enum WriteFault {
    /// The write needs an id, and none can be given before old ids are frozen.
    #[error("old ids have to be frozen first")]
    NeedsFreeze,
    /// No page has room for the row, and there may be no further page.
    #[error("there is no room")]
    NoRoom,
    /// Memory was refused.
    #[error("there is no memory")]
    NoMemory,
}

/// The answer of a write: its id, or why it was not done.
pub type Answer = Result<Xid, WriteFault>;

/// The pages of a table, what became of each id, and the indexes.
#[derive(Debug, Drop)]
pub struct HeapState {
    pub(crate) alloc: Global,
    pub(crate) pages: Pages,
    pub(crate) statuses: StatusTable,
    // from which turn on a version on a page may be dead, and where, as far as it is known: it changes no answer
    pub(crate) hints: PruneHints,
    pub(crate) indexes: Indexes,
    // where the newest root of each key was made, as far as it is known: it changes no answer
    pub(crate) places: KeyPlaces,
    pub(crate) max_pages: u32,
}

impl Model for HeapState {
    ghost use Rattle.std.specs.Prelude.{◌≤◌};
    ghost use Rattle.heap_write.specs.Heap.{HeapView};
    ghost use Rattle.heap_write.specs.Hints.{AreTrueHints};
    ghost use Rattle.heap_pages.specs.declared.pages.TheConstants.{MOST_PAGES};

    ghost Value = { HeapView };

    ghost view = { λ h. record {
      pages = h.pages;
      statuses = h.statuses;
      indexes = h.indexes;
      max_pages = h.max_pages;
    } };

    ghost invariant = { λ h.
        (h.max_pages ≤ MOST_PAGES) × AreTrueHints h.statuses h.pages.pages h.hints.pages };
}

impl HeapState {
    /// A table without pages. It may have `max_pages` pages, up to 65,536, and its first id is `first`, a normal one. No id is
    /// given `stop_age` numbers, at most 2,144,483,648, from the oldest that is remembered, or further. It has an index by key, and
    /// one by each column where `indexed` is true.
    pub fn new(
        alloc: Global,
        first: Xid,
        stop_age: u32,
        max_pages: u32,
        indexed: [bool; COLUMNS],
    ) -> Self
        requires normal { IsNormal first.0 }
        requires limit { stop_age ≤ 2144483648 }
        requires few { max_pages ≤ MOST_PAGES }
        ensures pages { result.pages.pages ≡ [] }
        ensures marks { result.pages.marks ≡ [] }
        ensures indexes { (n : ℕ) → entries_at result.indexes n ≡ new_entries indexed n }
        ensures since { (n : ℕ) → since_at result.indexes n ≡ None }
        ensures max_pages { result.max_pages ≡ max_pages }
        ensures first { result.statuses.first ≡ first.0 }
        ensures stop_age { result.statuses.stop_age ≡ stop_age }
        ensures entries { result.statuses.entries ≡ [] }
        ensures window { IsWindow result.statuses }
    {
        let statuses = StatusTable::new(alloc, first, stop_age);
        statuses.fact_window();
        HeapState {
            alloc,
            pages: Pages::new(alloc),
            statuses,
            hints: PruneHints::new(alloc),
            indexes: Indexes::new(alloc, indexed),
            places: KeyPlaces::new(alloc, true),
            max_pages,
        }
    }

    /// The status of each id.
    pub fn statuses(&self) -> &StatusTable
        ensures { result.now ≡ self.now.statuses }
    {
        &self.statuses
    }

    /// The index of this number, if it is in use: 0 is that by key, and c + 1 that by column c. It has an entry for the root
    /// of each chain.
    pub fn index(&self, number: u8) -> Option<&RootIndex>
        ensures { option_copied result ≡ index_at self.now.indexes number }
    {
        self.indexes.get(number)
    }

    /// The page of this number, counted from 0, if it is in use.
    pub fn page(&self, number: u32) -> Option<&Page>
        ensures { option_copied result ≡ slice_get self.now.pages.pages number }
    {
        self.pages.page(number)
    }

    /// The page of this number as it is now, for readers to keep: as [`Pages::share`], since the pages are private.
    pub fn share(&mut self, number: u32, alloc: Global) -> Result<Arc<Box<Page>>, AllocError>
        requires { number < length self.old.pages.pages }
        ensures same { self.new ≡ self.old }
        ensures shared { IfOk result
            (λ page. slice_get self.old.pages.pages number ≡ Some (arc_value page).value) }
    {
        self.pages.share(number, alloc)
    }

    /// Gives these ids in progress their final status, all in one step. It takes no memory.
    pub fn finish(&mut self, ids: &[Xid], status: Status)
        requires { (x : ℕ) → Contains (numbers ids.now) x → IsActive self.old.statuses x }
        ensures pages { self.new.pages ≡ self.old.pages }
        ensures indexes { self.new.indexes ≡ self.old.indexes }
        ensures max_pages { self.new.max_pages ≡ self.old.max_pages }
        ensures finishes { Finishes self.old.statuses self.new.statuses (numbers ids.now) status }
        ensures window { IsWindow self.new.statuses }
    {
        self.statuses.finish(ids, status);
        self.statuses.fact_window();
        match status {
            Status::Aborted => self.hints.end_all(),
            _ => {}
        }
    }
}
