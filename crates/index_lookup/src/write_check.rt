//! The check before a write: all that a session must know of the versions of a key. Nothing here takes memory.

ghost use Rattle.std.specs.Prelude.{◌≡◌, ◌↔◌, IsTrue, None};
ghost use Rattle.tuple_header.specs.Faults.{header_fault};
ghost use Rattle.index_lookup.specs.Pages.{page_slots_of};
ghost use Rattle.visibility.specs.Reading.{IsSeenBy, IsOtherWriterFor, IsNewerCommitFor, IsPlainFor};
ghost use Rattle.index_lookup.specs.Looking.{SeenAt, FirstPlace, IsIdIn, IsIdAmong, IsIdAt, IsIdOf, IsPlaceIn, IsPlaceAmong, IsKept};

use crate::conflicts::{newer_commit_in, other_writer_in, sees_committed};
use crate::lookup::place_in;
use crate::search::{begin_search, go_on};
use crate::table_view::TableView;
use arrayvec::ArrayVec;
use heap_pages::Pages;
use hot_chain::list_chain;
use page_slots::Page;
use root_index::PositionHint;
use tuple_header::{Header, MOST_SLOT_NUMBERS};
use visibility::Reader;
use xid_circle::{Tid, Xid};

/// All that a session must know of the versions of a key before it writes the key.
#[derive(Clone, Copy, Debug, PartialEq, Eq)]
pub struct WriteCheck {
    /// The place of the version that it reads.
    pub place: Option<Tid>,
    /// A committed id that made or deleted a version, and that its snapshot does not see.
    pub newer_commit: Option<Xid>,
    /// An id in progress, none of its own, that made or deleted a version.
    pub other_writer: Option<Xid>,
}

/// True where nobody deleted the version, and it is frozen, or its inserter is committed and the reader's snapshot sees it. Then
/// the reader sees it, and it has no newer commit and no other writer: one look at its inserter tells all.
#[inline(always)]
fn is_plain(header: &Header, reader: &Reader<'_>) -> bool
    requires { header_fault header.now ≡ None }
    ensures { IsTrue result ↔ IsPlainFor reader.now header.now }
{
    header.xmax.0 == 0 && (header.is_frozen() || sees_committed(header.xmin, reader))
}

/// Keeps the place found before, or else takes that of this version, if the reader sees it.
fn place_or(before: Option<Tid>, place: Tid, header: &Header, reader: &Reader<'_>) -> Option<Tid>
    requires { header_fault header.now ≡ None }
    ensures { IsKept before (IsPlaceIn (IsSeenBy reader.now) place header.now) result }
{
    match before {
        Some(_) => before,
        None => place_in(place, header, reader),
    }
}

/// Keeps the id found before, or else takes that of a newer commit in this version.
fn newer_commit_or(before: Option<Xid>, header: &Header, reader: &Reader<'_>) -> Option<Xid>
    requires { header_fault header.now ≡ None }
    ensures { IsKept before (IsIdIn (IsNewerCommitFor reader.now) header.now) result }
{
    match before {
        Some(_) => before,
        None => newer_commit_in(header, reader),
    }
}

/// Keeps the id found before, or else takes that of another writer in this version.
fn other_writer_or(before: Option<Xid>, header: &Header, reader: &Reader<'_>) -> Option<Xid>
    requires { header_fault header.now ≡ None }
    ensures { IsKept before (IsIdIn (IsOtherWriterFor reader.now) header.now) result }
{
    match before {
        Some(_) => before,
        None => other_writer_in(header, reader),
    }
}

/// Fills the parts of the check that are still empty from the version of this header, at this place.
#[inline(always)]
fn with_version(before: WriteCheck, place: Tid, header: &Header, reader: &Reader<'_>) -> WriteCheck
    requires { header_fault header.now ≡ None }
    ensures place { IsKept before.place
        (IsPlaceIn (IsSeenBy reader.now) place header.now) result.place }
    ensures newer_commit { IsKept before.newer_commit
        (IsIdIn (IsNewerCommitFor reader.now) header.now) result.newer_commit }
    ensures other_writer { IsKept before.other_writer
        (IsIdIn (IsOtherWriterFor reader.now) header.now) result.other_writer }
{
    if is_plain(header, reader) {
        return WriteCheck {
            place: before.place.or(Some(place)),
            newer_commit: before.newer_commit,
            other_writer: before.other_writer,
        };
    }
    WriteCheck {
        place: place_or(before.place, place, header, reader),
        newer_commit: newer_commit_or(before.newer_commit, header, reader),
        other_writer: other_writer_or(before.other_writer, header, reader),
    }
}

/// Fills the parts of the check that are still empty from the versions in these slots, on the page of this number.
fn with_versions(
    before: WriteCheck,
    number: u32,
    page: &Page,
    slots: &[u16],
    reader: &Reader<'_>,
) -> WriteCheck
    ensures place { IsKept before.place
        (IsPlaceAmong (IsSeenBy reader.now) number page.now.slots slots.now) result.place }
    ensures newer_commit { IsKept before.newer_commit
        (IsIdAmong (IsNewerCommitFor reader.now) page.now.slots slots.now) result.newer_commit }
    ensures other_writer { IsKept before.other_writer
        (IsIdAmong (IsOtherWriterFor reader.now) page.now.slots slots.now) result.other_writer }
{
    let mut check = before;
    for slot in slots {
        if let Some(header) = page.header(*slot) {
            let place = Tid {
                page: number,
                slot: *slot,
            };
            check = with_version(check, place, &header, reader);
        }
    }
    check
}

/// Fills the parts of the check that are still empty from this root's chain. A page that is not in use has no chains.
fn with_chain(before: WriteCheck, pages: &Pages, root: Tid, reader: &Reader<'_>) -> WriteCheck
    ensures place { IsKept before.place
        (SeenAt reader.now.statuses.now (IsSeenBy reader.now)
        (page_slots_of pages.now) root) result.place }
    ensures newer_commit { IsKept before.newer_commit
        (IsIdAt reader.now.statuses.now (IsNewerCommitFor reader.now)
        (page_slots_of pages.now) root) result.newer_commit }
    ensures other_writer { IsKept before.other_writer
        (IsIdAt reader.now.statuses.now (IsOtherWriterFor reader.now)
        (page_slots_of pages.now) root) result.other_writer }
{
    let page = match pages.page(root.page) {
        Some(page) => page,
        None => return before,
    };
    match page.header(root.slot) {
        // it is its whole chain, which need not be listed
        Some(header) if !header.is_hot_updated() => with_version(before, root, &header, reader),
        _ => {
            let mut listed: ArrayVec<u16, MOST_SLOT_NUMBERS> = ArrayVec::new();
            list_chain(page, root.slot, reader.statuses, &mut listed);
            with_versions(before, root.page, page, listed.as_slice(), reader)
        }
    }
}

/// Checks the versions of this value and this key for a session: it goes once along the entries in their order, and along the chain
/// of each. It also tells where the last of the entries was, or where one would be: a hint for adding another. It takes no memory.
pub fn check_write(
    table: &TableView<'_>,
    value: i128,
    key: u64,
    reader: &Reader<'_>,
) -> (WriteCheck, PositionHint)
    ensures place { FirstPlace reader.now.statuses.now (IsSeenBy reader.now)
        (page_slots_of table.now.pages.now) table.now.index.now.entries
        value key result.0.place }
    ensures newer_commit { IsIdOf reader.now.statuses.now (IsNewerCommitFor reader.now)
        (page_slots_of table.now.pages.now) table.now.index.now.entries
        value key result.0.newer_commit }
    ensures other_writer { IsIdOf reader.now.statuses.now (IsOtherWriterFor reader.now)
        (page_slots_of table.now.pages.now) table.now.index.now.entries
        value key result.0.other_writer }
{
    table.index.fact_ascending();
    let mut check = WriteCheck {
        place: None,
        newer_commit: None,
        other_writer: None,
    };
    let mut search = begin_search(table.index, value, key);
    for _ in 0..table.index.len() {
        match search.next {
            None => return (check, search.near),
            Some(entry) => {
                check = with_chain(check, table.pages, entry.tid, reader);
                search = go_on(search, entry, table.index, value, key);
            }
        }
    }
    (check, search.near)
}
