//! The fate of a slot: what pruning would do to it.

ghost use Rattle.std.specs.Prelude.{◌≡◌};
ghost use Rattle.slot_fates.specs.Fates.{goes};

use commit_status::Status;
use xid_circle::Xid;

/// The id that deleted a version, and the status of that id.
#[derive(Clone, Copy, Debug, PartialEq, Eq)]
pub struct DeletedBy {
    /// The id.
    pub id: Xid,
    /// One that is not remembered counts as in progress. Where it has committed it is not before the horizon.
    pub status: Status,
}

/// The fate of a version under pruning: the first of these that holds.
#[derive(Clone, Copy, Debug, PartialEq, Eq)]
pub enum VersionFate {
    /// It goes: this id, which made it, was rolled back.
    RolledBack(Xid),
    /// It goes: this id, which deleted it, has committed and is before the horizon.
    Deleted(Xid),
    /// It goes, though it isn't dead: the last dead version after it in its chain is in this slot.
    GoesWith(u16),
    /// It stays. It was deleted by this id, if by any.
    Kept(Option<DeletedBy>),
}

/// The fate of a slot: what pruning would do to it.
#[derive(Clone, Copy, Debug, PartialEq, Eq)]
pub enum SlotFate {
    /// The page has no such slot.
    NoSlot,
    /// It is unused.
    Unused,
    /// It is dead, until a vacuum frees it.
    Dead,
    /// It leads to this slot.
    Redirect(u16),
    /// It holds a version.
    Version(VersionFate),
}

impl VersionFate {
    /// True where pruning takes the version.
    pub fn goes(self) -> bool
        ensures { result ≡ goes self }
    {
        match self {
            VersionFate::RolledBack(_) | VersionFate::Deleted(_) | VersionFate::GoesWith(_) => true,
            VersionFate::Kept(_) => false,
        }
    }
}
