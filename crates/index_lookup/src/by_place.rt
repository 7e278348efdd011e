//! Looking for a key at a place that may be wrong. Nothing here takes memory.

ghost use Rattle.std.specs.Prelude.{◌≡◌, IfSome, Some, None};
ghost use Rattle.tuple_header.specs.Faults.{header_fault};
ghost use Rattle.page_sheet.specs.Slots.{header_at, version_at};
ghost use Rattle.visibility.specs.Reading.{IsSeenBy};
ghost use Rattle.index_lookup.specs.Pages.{page_slots_of};
ghost use Rattle.index_lookup.specs.ByPlace.{IsSeenRowOf, IsSeenUndeleted, IsVersionOf};

use crate::lookup::seen_row;
use heap_pages::Pages;
use hot_chain::first_seen;
use page_slots::Page;
use tuple_header::{Header, RowRef};
use visibility::Reader;
use xid_circle::Tid;

/// The header and the row of the version in a slot. They are answered if its bytes begin at `from`, it is of the key, no HOT update
/// followed it, and the reader sees it. Where there is no answer nothing is said of the slot.
#[inline(always)]
fn seen_from<'a>(
    page: &'a Page,
    slot: u16,
    from: u16,
    key: u64,
    reader: &Reader<'_>,
) -> Option<(Header, RowRef<'a>)>
    ensures there { IfSome result (λ found. version_at page.now.slots slot
        ≡ Some (record { header = found.0; row = found.1 })) }
    ensures key { IfSome result (λ found. found.1.key ≡ key) }
    ensures seen { IfSome result (λ found. IsSeenBy reader.now found.0) }
{
    let (header, row) = page.version_from(slot, from)?;
    if row.key() == key && !header.is_hot_updated() && reader.sees(&header) {
        Some((header, row))
    } else {
        None
    }
}

/// Borrows the row of the version at a place, or of the one in its chain that the reader sees. It does so if that is a version of
/// the key and the reader sees it. Where there is none, there may be one elsewhere. The bytes of the one at the place begin at
/// `from`, perhaps: if they do it is found sooner. It takes no memory.
pub fn row_by_place<'a>(
    pages: &'a Pages,
    place: Tid,
    from: u16,
    key: u64,
    reader: &Reader<'_>,
) -> Option<RowRef<'a>>
    ensures { IfSome result
        (λ row. IsSeenRowOf (IsSeenBy reader.now) (page_slots_of pages.now) key row) }
{
    let page = pages.page(place.page)?;
    if let Some((_, row)) = seen_from(page, place.slot, from, key, reader) {
        return Some(row);
    }
    let slot = match page.header(place.slot) {
        // it is its whole chain
        Some(header) if !header.is_hot_updated() => place.slot,
        _ => first_seen(page, place.slot, reader)?,
    };
    let row = seen_row(page, slot, reader)?;
    if row.key() == key { Some(row) } else { None }
}

/// A slot that holds the newest version of a root's chain, nearly always, and the version's header. Any slot would do: what is found
/// there is tested.
#[inline(always)]
fn likely_newest(page: &Page, root: u16, reader: &Reader<'_>) -> Option<(u16, Header)>
    ensures there { IfSome result
        (λ found. header_at page.now.slots found.0 ≡ Some found.1) }
    ensures faultless { IfSome result (λ found. header_fault found.1 ≡ None) }
{
    let slot = page.redirect(root).unwrap_or(root);
    let header = page.header(slot)?;
    if !header.is_hot_updated() {
        return Some((slot, header));
    }
    let seen = first_seen(page, slot, reader)?;
    Some((seen, page.header(seen)?))
}

/// Where the version of the key is that the reader sees, if it is in the chain of this root, and nobody has deleted it.
#[inline(always)]
fn undeleted_in_chain(pages: &Pages, root: Tid, key: u64, reader: &Reader<'_>) -> Option<Tid>
    ensures { IfSome result
        (IsVersionOf (IsSeenUndeleted (IsSeenBy reader.now)) (page_slots_of pages.now) key) }
{
    let page = pages.page(root.page)?;
    let (slot, header) = likely_newest(page, root.slot, reader)?;
    if header.xmax.0 == 0 && reader.sees(&header) && page.key(slot) == Some(key) {
        Some(Tid {
            page: root.page,
            slot,
        })
    } else {
        None
    }
}

/// Where the version of the key is that the reader sees, if it is found from this place and nobody has deleted it. Where none is found,
/// there may be one elsewhere. The bytes of the version at the place begin at `from`, perhaps, as in [`row_by_place`]. It takes no
/// memory.
pub fn undeleted_by_place(
    pages: &Pages,
    root: Tid,
    from: u16,
    key: u64,
    reader: &Reader<'_>,
) -> Option<Tid>
    ensures { IfSome result
        (IsVersionOf (IsSeenUndeleted (IsSeenBy reader.now)) (page_slots_of pages.now) key) }
{
    let page = pages.page(root.page)?;
    match seen_from(page, root.slot, from, key, reader) {
        Some((header, _)) if header.xmax.0 == 0 => Some(root),
        _ => undeleted_in_chain(pages, root, key, reader),
    }
}
