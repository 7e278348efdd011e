//! The shapes.

use arrayvec::ArrayVec;
use commit_status::Status;
use index_entries::Entry;
use reasons::Verdict;
use slot_fates::SlotFate;
use tuple_header::{COLUMNS, Header};
use xid_circle::{Tid, Xid};

/// How many of the first bytes of a body a picture shows.
pub const BODY_START: usize = 8;

/// An id that is remembered.
#[derive(Clone, Copy)]
pub struct IdShape {
    /// The id.
    pub id: Xid,
    /// What became of it.
    pub status: Status,
    /// The open session whose own it is, if it is one's.
    pub owner: Option<u8>,
}

/// The horizon.
#[derive(Clone, Copy)]
pub struct HorizonShape {
    /// The horizon.
    pub horizon: Xid,
    /// The lowest session that holds it back, if one does.
    pub holder: Option<u8>,
}

/// An open session.
#[derive(Clone, Copy)]
pub struct SessionShape {
    /// Its number.
    pub session: u8,
    /// False where it reads by the snapshot of its beginning, true where each statement reads by one of its own.
    pub by_statement: bool,
    /// True where it can only be rolled back.
    pub failed: bool,
    /// A statement of it, begun now, reads what had committed when this was the next id.
    pub next: Xid,
    /// The session that it waits for, if it waits.
    pub waits_for: Option<u8>,
}

/// A page.
#[derive(Clone, Copy)]
pub struct PageShape {
    /// Its number.
    pub page: u32,
    /// Its change number.
    pub change: u64,
    /// Its bits of the visibility map: 1 where it is all-visible, 2 where it is all-frozen too, else 0.
    pub bits: u8,
    /// Its room.
    pub room: usize,
    /// How many slots it has.
    pub slots: u16,
}

/// What is told of a version.
#[derive(Drop)]
pub struct VersionShape {
    /// Its header.
    pub header: Header,
    /// The key of its row.
    pub key: u64,
    /// The columns.
    pub cols: [i64; COLUMNS],
    /// The first bytes of the body.
    pub body_start: ArrayVec<u8, BODY_START>,
    /// How many bytes the body has.
    pub body_bytes: usize,
}

/// A slot.
#[derive(Drop)]
pub struct SlotShape {
    /// Its place.
    pub place: Tid,
    /// Its fate.
    pub fate: SlotFate,
    /// True where it holds a version that is dead at the horizon.
    pub dead: bool,
    /// The version that it holds, if it holds one.
    pub version: Option<VersionShape>,
}

/// Why one slot leads to another.
#[derive(Clone, Copy)]
pub enum LinkKind {
    /// The chain goes on there.
    Chain,
    /// It is a redirect.
    Redirect,
}

/// An arrow from a slot to another of its page.
#[derive(Clone, Copy)]
pub struct LinkShape {
    /// Why it leads there.
    pub kind: LinkKind,
    /// Where it comes from.
    pub place: Tid,
    /// The slot that it leads to.
    pub to: u16,
}

/// An arrow from an entry of an index to the slot that it leads to.
#[derive(Clone, Copy)]
pub struct EntryShape {
    /// The number of the index.
    pub index: u8,
    /// The entry.
    pub entry: Entry,
}

/// A dot of a session beside a version.
#[derive(Clone, Copy)]
pub struct DotShape {
    /// The place of the version.
    pub place: Tid,
    /// The session.
    pub session: u8,
    /// True where a statement of the session, begun now, sees the version.
    pub filled: bool,
    /// Why it sees the version, or does not.
    pub verdict: Verdict,
}

/// A thing that a picture shows.
#[derive(Drop)]
pub enum Shape {
    /// The line of ids, where so many of the oldest are left out.
    Ids(u64),
    /// An id.
    Id(IdShape),
    /// The horizon.
    Horizon(HorizonShape),
    /// The next id to be given.
    Next(Xid),
    /// An open session.
    Session(SessionShape),
    /// A page.
    Page(PageShape),
    /// A slot of it.
    Slot(SlotShape),
    /// An arrow between two slots.
    Link(LinkShape),
    /// An arrow from an entry.
    Entry(EntryShape),
    /// A dot.
    Dot(DotShape),
}
