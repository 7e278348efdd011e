//! The entries of a key.

ghost use Rattle.std.specs.Prelude.{◌≡◌};
ghost use Rattle.c_views.specs.Entries.{tid_of, place_of_tid, place_before, IsEntryAfter};

use session_core::Engine;
use xid_circle::Tid;

/// A place: a page, counted from 0, and a slot, counted from 1.
#[repr(C)]
#[derive(Clone, Copy)]
pub struct SandpiperPlace {
    pub page: u32,
    pub slot: u16,
}

/// The place, unless its slot is 0, which none is.
fn place_before(after: SandpiperPlace) -> Option<Tid>
    ensures { result ≡ place_before after }
{
    if after.slot == 0 {
        return None;
    }
    Some(Tid {
        page: after.page,
        slot: after.slot,
    })
}

/// The place to which the next entry of the key leads, in the order of the index by key. The next entry is the first after the entry
/// that leads to a place, or the first of all where the place's slot is 0 ([`session_core::Engine::next_entry`]).
pub fn next_entry(engine: &Engine, key: u64, after: SandpiperPlace) -> Option<SandpiperPlace>
    ensures { IsEntryAfter engine.now.engine.core key after result }
{
    match engine.next_entry(key, place_before(after)) {
        Some(place) => Some(SandpiperPlace {
            page: place.page,
            slot: place.slot,
        }),
        None => None,
    }
}
