//! Why a snapshot sees an id, or does not.

ghost use Rattle.std.specs.Prelude.{◌≡◌};
ghost use Rattle.reasons.specs.Sightings.{standing_counts, sighting_counts};

use xid_circle::Xid;

/// Where an id stands to a snapshot: the first of these that holds.
#[derive(Clone, Copy, Debug, PartialEq, Eq)]
pub enum XidStanding {
    /// It is before this id, the snapshot's xmin: it is seen.
    Before(Xid),
    /// It is not before this id, the snapshot's xmax: it is not seen.
    NotBefore(Xid),
    /// It is listed: it is not seen.
    Listed,
    /// It is not: it is seen.
    Unlisted,
}

/// By which id's standing a snapshot sees an id, or does not.
#[derive(Clone, Copy, Debug, PartialEq, Eq)]
pub enum Sighting {
    /// By its own.
    ByItself(XidStanding),
    /// By that of this topmost parent: the snapshot does not list all children.
    ByParent(Xid, XidStanding),
}

impl XidStanding {
    /// Whether an id that stands so is seen.
    pub fn is_seen(self) -> bool
        ensures { result ≡ standing_counts self }
    {
        match self {
            XidStanding::Before(_) | XidStanding::Unlisted => true,
            XidStanding::NotBefore(_) | XidStanding::Listed => false,
        }
    }
}

impl Sighting {
    /// Whether the id is seen.
    pub fn is_seen(self) -> bool
        ensures { result ≡ sighting_counts self }
    {
        match self {
            Sighting::ByItself(standing) | Sighting::ByParent(_, standing) => standing.is_seen(),
        }
    }
}
