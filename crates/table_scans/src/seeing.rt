//! Which slots of a page a reader sees.

ghost use Rattle.std.specs.Prelude.{IfSome};
ghost use Rattle.visibility.specs.Reading.{IsReadBy, IsSeenBy};
ghost use Rattle.index_lookup.specs.Walking.{SeenRow};
ghost use Rattle.table_scans.specs.Tickets.{rows_at, HasRows};
ghost use Rattle.table_scans.specs.Seen.{AreSeenOn};

use arrayvec::ArrayVec;
use index_lookup::seen_row;
use page_slots::Page;
use tuple_header::{MOST_SLOT_NUMBERS, RowRef};
use visibility::Reader;
use xid_circle::Xid;

/// Numbers of slots of one page.
pub(crate) type SlotNumbers = ArrayVec<u16, MOST_SLOT_NUMBERS>;

/// Borrows the row of the version in a slot of the page, if the reader sees it. `counted` is an id whose making the reader counts, if one
/// is known. What it made and nobody deleted is seen, so the neighbours that one id made are judged once. It takes no memory.
#[inline(always)]
pub(crate) fn seen_beside<'a>(
    page: &'a Page,
    slot: u16,
    reader: &Reader<'_>,
    counted: &mut Option<Xid>,
) -> Option<RowRef<'a>>
    requires { IfSome counted.old (λ x. IsReadBy reader.now x.0) }
    ensures row { SeenRow (IsSeenBy reader.now) page.now.slots slot result }
    ensures counted { IfSome counted.new (λ x. IsReadBy reader.now x.0) }
{
    if let Some(maker) = *counted {
        if let Some(row) = page.undeleted_row(slot, maker) {
            return Some(row);
        }
    }
    let header = page.header(slot)?;
    if !reader.sees(&header) {
        return None;
    }
    if !header.is_frozen() {
        *counted = Some(header.xmin);
    }
    page.row(slot)
}

/// The slots of the page whose versions the reader sees, in order. It takes no memory.
pub(crate) fn seen_slots(page: &Page, reader: &Reader<'_>) -> SlotNumbers
    ensures rows { AreSeenOn page.now reader.now (rows_at page.now.slots result.items) }
    ensures there { HasRows page.now.slots result.items }
{
    let mut seen = ArrayVec::new();
    let slots = page.slots();
    for slot in 0..slots + 1 {
        if let Some(_) = seen_row(page, slot, reader) {
            seen.push(slot);
        }
    }
    seen
}
