//! A new row.

ghost use Rattle.std.specs.Prelude.{◌≡◌, ◌≤◌, ◌⊎◌, false, IfErr, IfOk, OnErr};
ghost use Rattle.xid_circle.specs.Circle.{IsNormal};
ghost use Rattle.page_sheet.specs.Slots.{free_number};
ghost use Rattle.tuple_header.specs.Version.{rounded_size_of};
ghost use Rattle.commit_status.specs.Window.{IsWindow};
ghost use Rattle.table_indexes.specs.Indexes.{HasEntries, NeedsEntry};
ghost use Rattle.heap_write.specs.Heap.{page_on, Keeps};
ghost use Rattle.heap_write.specs.Writes.{PutsRoot, Inserts};
ghost use Rattle.write_ids.specs.Ids.{NeedsFreeze, NewestIsGiven, TakesIds, SameOwn};
ghost use Rattle.heap_write.specs.Refusals.{LacksForInsert, NeedsIds};
ghost use Rattle.heap_write.specs.Growth.{IsReserved, target_number};
ghost use Rattle.tuple_header.specs.declared.version.TheConstants.{MOST_SLOTS};

use crate::heap::{Answer, HeapState, WriteFault};
use crate::hints::expect_root;
use crate::target::{Target, put_version, reserve_place};
use key_places::RootHint;
use snapshot::OwnIds;
use tuple_header::{Row, row_size};
use write_ids::{needs_freeze, reserve_ids, take_ids};
use xid_circle::{Tid, Xid};

impl HeapState {
    /// Inserts a version of the row as a root, with an entry in each index, under the id of the session's newest level. It answers that
    /// id. Each level that has no id is given one before. It answers NeedsFreeze exactly where the levels lack more ids than can be
    /// given. Else it answers NoRoom exactly where all pages that there may be are in use and none has room. Else it answers NoMemory
    /// only where something has to grow. A refused insert changes nothing and gives no id. (PostgreSQL, `heap_insert` in
    /// src/backend/access/heap/heapam.c.)
    pub fn insert(&mut self, own: &mut OwnIds, row: &Row) -> Answer
        requires newest { NewestIsGiven self.old.statuses own.old }
        ensures ok { IfOk result (λ x. Inserts self.old self.new own.old own.new row.now x.0) }
        ensures fault { IfErr result (λ fault. LacksForInsert self.old own.old row.now fault) }
        ensures err { OnErr result (Keeps self.old self.new) }
        ensures own { OnErr result (SameOwn own.old own.new) }
        ensures window { IsWindow self.new.statuses }
        ensures normal { IfOk result (λ x. IsNormal x.0) }
    {
        self.statuses.fact_window();
        if needs_freeze(&self.statuses, own) {
            return Err(WriteFault::NeedsFreeze);
        }
        match reserve_place(
            self.alloc,
            &mut self.pages,
            &mut self.hints,
            row_size(row),
            self.max_pages,
        ) {
            Ok(Some(target)) => self.insert_at(target, own, row),
            Ok(None) => Err(WriteFault::NoRoom),
            Err(_) => Err(WriteFault::NoMemory),
        }
    }

    /// Inserts a version of the row where it goes, unless an index or a list of ids has to grow and cannot.
    fn insert_at(&mut self, target: Target, own: &mut OwnIds, row: &Row) -> Answer
        requires free { ¬ NeedsFreeze self.old.statuses own.old }
        requires newest { NewestIsGiven self.old.statuses own.old }
        requires ready { IsReserved self.old.pages (rounded_size_of row.now) target }
        ensures takes { IfOk result
            (λ x. TakesIds self.old.statuses self.new.statuses own.old own.new x.0) }
        ensures root { IfOk result
            (λ x. PutsRoot self.old self.new false x.0 row.now
            (target_number self.old.pages.pages target)) }
        ensures max_pages { self.new.max_pages ≡ self.old.max_pages }
        ensures needs { OnErr result
            (NeedsEntry self.old.indexes row.now ⊎ NeedsIds self.old own.old) }
        ensures fault { IfErr result (λ fault. fault ≡ WriteFault.NoMemory) }
        ensures err { OnErr result (Keeps self.old self.new) }
        ensures own { OnErr result (SameOwn own.old own.new) }
        ensures window { IsWindow self.new.statuses }
        ensures normal { IfOk result (λ x. IsNormal x.0) }
    {
        if self.indexes.make_room(row).is_err() || reserve_ids(&mut self.statuses, own).is_err() {
            self.statuses.fact_window();
            return Err(WriteFault::NoMemory);
        }
        let x = take_ids(&mut self.statuses, own);
        let _place = self.put_root(target, false, x, row);
        Ok(x)
    }

    /// Makes a version of the row as a root where one goes, with an entry for it in each index, and answers its place.
    pub(crate) fn put_root(&mut self, target: Target, updated: bool, x: Xid, row: &Row) -> Tid
        requires normal { IsNormal x.0 }
        requires ready { IsReserved self.old.pages (rounded_size_of row.now) target }
        requires entries { HasEntries self.old.indexes row.now }
        ensures root { PutsRoot self.old self.new updated x.0 row.now result.page }
        ensures page { result.page ≡ target_number self.old.pages.pages target }
        ensures slot { result.slot ≡ free_number (page_on self.old result.page).slots }
        ensures limit { result.slot ≤ MOST_SLOTS }
        ensures statuses { self.new.statuses ≡ self.old.statuses }
        ensures max_pages { self.new.max_pages ≡ self.old.max_pages }
    {
        let (key, cols) = (row.key, row.cols);
        // there are no more pages than entries can lead to
        let _count = self.pages.len();
        let tid = put_version(&mut self.pages, target, updated, x, row);
        self.indexes.enter(key, &cols, tid);
        let page = self.pages.page(tid.page);
        let begins = page.and_then(|page| page.place(tid.slot));
        let (from, _) = begins.unwrap_or((0, 0));
        let root = RootHint { place: tid, from };
        self.places.note(key, root, self.indexes.by_key().len());
        expect_root(&mut self.hints, &self.statuses, tid.page, x);
        self.hints.cover(self.pages.len() as usize);
        tid
    }
}
