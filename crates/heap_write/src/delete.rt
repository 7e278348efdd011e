//! A row is deleted.

ghost use Rattle.std.specs.Prelude.{IfErr, IfOk, OnErr};
ghost use Rattle.xid_circle.specs.Circle.{IsNormal};
ghost use Rattle.commit_status.specs.Window.{IsWindow};
ghost use Rattle.heap_write.specs.Writes.{Deletes};
ghost use Rattle.write_ids.specs.Ids.{NewestIsGiven, SameOwn};
ghost use Rattle.heap_write.specs.Refusals.{FailsDelete, VersionIsThere};

use crate::heap::{Answer, HeapState, WriteFault};
use crate::hints::expect_write;
use snapshot::OwnIds;
use tuple_writes::delete_version;
use write_ids::{needs_freeze, reserve_ids, take_ids};
use xid_circle::{Tid, Xid};

impl HeapState {
    /// Deletes the version at a place under the id of the session's newest level, and answers that id: each level that has
    /// none is given one before. The version points at itself, and no entry changes. It answers NeedsFreeze exactly where
    /// the levels lack more ids than can be given, else NoMemory only where the table of ids or the session's own list has
    /// to grow. A refused delete changes nothing and gives no id. (PostgreSQL, `heap_delete` in
    /// src/backend/access/heap/heapam.c.)
    pub fn delete(&mut self, own: &mut OwnIds, place: Tid) -> Answer
        requires newest { NewestIsGiven self.old.statuses own.old }
        requires there { VersionIsThere self.old place }
        ensures ok { IfOk result (λ x. Deletes self.old self.new own.old own.new place x.0) }
        ensures fault { IfErr result (λ fault. FailsDelete self.old self.new own.old fault) }
        ensures own { OnErr result (SameOwn own.old own.new) }
        ensures window { IsWindow self.new.statuses }
        ensures normal { IfOk result (λ x. IsNormal x.0) }
    {
        self.statuses.fact_window();
        if needs_freeze(&self.statuses, own) {
            return Err(WriteFault::NeedsFreeze);
        }
        if reserve_ids(&mut self.statuses, own).is_err() {
            self.statuses.fact_window();
            return Err(WriteFault::NoMemory);
        }
        let x = take_ids(&mut self.statuses, own);
        self.pages.write(
            place.page,
            |page| delete_version(page, place.page, place.slot, x),
        );
        expect_write(&mut self.hints, &self.statuses, place, x);
        Ok(x)
    }
}
