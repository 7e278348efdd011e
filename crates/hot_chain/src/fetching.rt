//! The version of a chain that a reader sees.

ghost use Rattle.std.specs.Prelude.{◌≡◌};
ghost use Rattle.page_sheet.specs.Slots.{version_at};
ghost use Rattle.visibility.specs.Reading.{IsSeenBy};
ghost use Rattle.hot_chain.specs.Chain.{has_aborted, SeenAlong, Fetched};

use crate::walk::{first, successor};
use page_slots::{Page, Slot};
use tuple_header::{MOST_SLOTS, Tuple};
use visibility::Reader;

/// The version in a slot, by value.
fn version_at(page: &Page, number: u16) -> Option<Tuple>
    ensures { result ≡ version_at page.now.slots number }
{
    match page.slot(number) {
        Some(Slot::Normal(version)) => Some(version),
        _ => None,
    }
}

/// The slot of the first version of a slot's chain that the reader sees. It goes no further along the chain, and lists nothing.
/// A walk that has made as many steps as the page has slots has met all of the chain, however its links go.
pub fn first_seen(page: &Page, number: u16, reader: &Reader<'_>) -> Option<u16>
    ensures { SeenAlong (has_aborted reader.now.statuses.now) (IsSeenBy reader.now)
        page.now.slots number result }
{
    // which are 291 at most
    let _count = page.slots();
    let mut at = first(page, number);
    for _ in 0..MOST_SLOTS + 1 {
        let Some(slot) = at else {
            return None;
        };
        let Some(header) = page.header(slot) else {
            return None;
        };
        if reader.sees(&header) {
            return Some(slot);
        }
        at = successor(page, &header, reader.statuses);
    }
    None
}

/// The first version of a slot's chain that the reader sees, by value. It takes no memory.
pub fn fetch(page: &Page, number: u16, reader: &Reader<'_>) -> Option<Tuple>
    ensures { Fetched (has_aborted reader.now.statuses.now) (IsSeenBy reader.now)
        page.now.slots number result }
{
    match first_seen(page, number, reader) {
        Some(slot) => version_at(page, slot),
        None => None,
    }
}
