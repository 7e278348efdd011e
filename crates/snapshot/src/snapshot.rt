//! Snapshots.

ghost use Rattle.std.specs.Prelude.{◌≡◌, ◌≢◌, ◌<◌, ◌↔◌, ◌++◌, [], IsTrue, OnOk, OnErr, length, Contains};
ghost use Rattle.smallvec.specs.SmallVec.{HasRoomFor};
ghost use Rattle.xid_circle.specs.Circle.{IsNormal};
ghost use Rattle.commit_status.specs.Changes.{numbers};
ghost use Rattle.snapshot.specs.Snap.{Snap, Sees, SeesAlone, empty_at, listing};

use crate::horizon::earlier;
use crate::own::OwnIds;
use commit_status::StatusTable;
use smallvec::SmallVec;
use std::alloc::{AllocError, Global};
use std::marker::Model;
use xid_circle::{Xid, precedes};

/// Which transactions had finished at one moment.
#[derive(Drop)]
pub struct Snapshot {
    xmin: Xid,
    xmax: Xid,
    // the numbers of the ids: `SmallVec` asks for a default, and no id is one
    listed: SmallVec<u32, 8>,
    overflowed: bool,
}

impl Model for Snapshot {
    ghost use Rattle.xid_circle.specs.Circle.{IsNormal};
    ghost use Rattle.snapshot.specs.Snap.{Snap};

    ghost Value = { Snap };

    ghost view = { λ s. record {
      xmin = s.xmin.0;
      xmax = s.xmax.0;
      listed = s.listed.items;
      overflowed = s.overflowed;
    } };

    ghost invariant = { λ s. IsNormal s.xmin.0 × IsNormal s.xmax.0 };
}

impl Snapshot {
    /// The snapshot that is taken where no transaction is open and `next` is the next id.
    pub fn empty(alloc: Global, next: Xid) -> Self
        requires { IsNormal next.0 }
        ensures { result ≡ empty_at next.0 }
    {
        Snapshot {
            xmin: next,
            xmax: next,
            listed: SmallVec::new(alloc),
            overflowed: false,
        }
    }

    /// The earliest id that was in progress when it was taken, or else the next id then.
    pub fn xmin(&self) -> Xid
        ensures value { result.0 ≡ self.now.xmin }
        ensures normal { IsNormal result.0 }
    {
        self.xmin
    }

    /// The next id when it was taken.
    pub fn xmax(&self) -> Xid
        ensures value { result.0 ≡ self.now.xmax }
        ensures normal { IsNormal result.0 }
    {
        self.xmax
    }

    /// The numbers of the ids that are listed, in order of listing: they were in progress when it was taken. (The list is private.)
    pub fn listed_ids(&self) -> &[u32]
        ensures { result.now ≡ self.now.listed }
    {
        self.listed.as_slice()
    }

    /// Whether the children of some transaction are not listed, since they were more than 64.
    pub fn is_overflowed(&self) -> bool
        ensures { result ≡ self.now.overflowed }
    {
        self.overflowed
    }

    /// Whether an id is listed. (The list has numbers, and who asks has an id.)
    pub fn is_listed(&self, x: Xid) -> bool
        ensures { IsTrue result ↔ Contains self.now.listed x.0 }
    {
        self.listed_ids().contains(&x.0)
    }

    fn has_finished(&self, x: Xid) -> bool
        ensures { IsTrue result ↔ SeesAlone self.now x.0 }
    {
        if precedes(x, self.xmin) {
            return true;
        }
        precedes(x, self.xmax) && !self.is_listed(x)
    }

    /// Whether the transaction of an id had finished. Of an id between xmin and xmax the topmost parent is looked up
    /// where children are not listed.
    pub fn sees(&self, x: Xid, statuses: &StatusTable) -> bool
        ensures { IsTrue result ↔ Sees self.now statuses.now x.0 }
    {
        if precedes(x, self.xmin) {
            return true;
        }
        if !precedes(x, self.xmax) {
            return false;
        }
        if self.overflowed {
            return self.has_finished(statuses.top_of(x));
        }
        !self.is_listed(x)
    }

    /// Adds an open transaction by its own ids: the topmost one, and the others where they are at most 64. A
    /// transaction that has no id yet is not listed. It takes memory only where it is listed, and more than 8 ids are then.
    pub fn add_transaction(&mut self, own: &OwnIds) -> Result<(), AllocError>
        ensures listed { OnOk result (self.new ≡ listing self.old own.now.ids) }
        ensures refused { OnErr result (self.new ≡ self.old) }
        ensures no_memory { OnErr result (8 < length (listing self.old own.now.ids).listed) }
        ensures longer { OnErr result (own.now.ids ≢ []) }
    {
        let Some(top) = own.first() else {
            return Ok(());
        };
        let ids = own.as_slice();
        let are_many = ids.len() > MOST_LISTED + 1;
        let listed = if are_many { &ids[..1] } else { ids };
        let _held = self.listed.capacity();
        self.listed.reserve(listed.len())?;
        append(&mut self.listed, listed);
        self.xmin = earlier(self.xmin, top);
        self.overflowed = self.overflowed || are_many;
        Ok(())
    }
}

/// How many children of a transaction are listed.
const MOST_LISTED: usize = 64;

fn append(listed: &mut SmallVec<u32, 8>, ids: &[Xid])
    requires { HasRoomFor listed.old (length ids.now) }
    ensures { listed.new.items ≡ listed.old.items ++ numbers ids.now }
{
    for id in ids {
        listed.push_reserved(id.0);
    }
}
