//! Why a reader counts what an id did, or does not.

ghost use Rattle.std.specs.Prelude.{◌≡◌};
ghost use Rattle.reasons.specs.Reasons.{counts, counts_or, verdict_shows};

use crate::sighting::Sighting;
use xid_circle::Xid;

/// Why a reader counts what an id did, or does not: the first of these that holds.
#[derive(Clone, Copy, Debug, PartialEq, Eq)]
pub enum Reason {
    /// It is one of the reader's own, and not rolled back: it counts.
    Own,
    /// It is not remembered, or was never given: it does not count.
    Forgotten,
    /// It is in progress: it does not count.
    Running,
    /// It was rolled back: it does not count.
    Aborted,
    /// It has committed. It counts where the snapshot sees it.
    Committed(Sighting),
}

/// An id that made or deleted a version, and its reason.
#[derive(Clone, Copy, Debug, PartialEq, Eq)]
pub struct Touch {
    /// The id.
    pub id: Xid,
    /// Why the reader counts what it did, or does not.
    pub reason: Reason,
}

/// Why a reader sees a version, or does not.
#[derive(Clone, Copy, Debug, PartialEq, Eq)]
pub struct Verdict {
    /// Who made it; none where it is frozen, so that its making counts for everybody.
    pub maker: Option<Touch>,
    /// Who deleted it, if anybody did.
    pub deleter: Option<Touch>,
}

impl Reason {
    /// Whether what the id did counts.
    pub fn counts(self) -> bool
        ensures { result ≡ counts self }
    {
        match self {
            Reason::Own => true,
            Reason::Forgotten | Reason::Running | Reason::Aborted => false,
            Reason::Committed(sight) => sight.is_seen(),
        }
    }
}

/// Whether what was done counts, if somebody did it; else this.
fn counts_or(otherwise: bool, touch: Option<Touch>) -> bool
    ensures { result ≡ counts_or otherwise touch }
{
    match touch {
        None => otherwise,
        Some(touch) => touch.reason.counts(),
    }
}

impl Verdict {
    /// Whether the version is seen: its making counts, and no deletion does.
    pub fn shows(&self) -> bool
        ensures { result ≡ verdict_shows self.now }
    {
        counts_or(true, self.maker) && !counts_or(false, self.deleter)
    }
}
