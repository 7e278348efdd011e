//! The head of a page, and its slots.

ghost use Rattle.std.specs.Prelude.{◌≡◌};
ghost use Rattle.c_views.specs.Pages.{shown_slot, page_slot, head_in};

use page_slots::Slot;
use session_core::Engine;

/// What a page tells of itself.
#[repr(C)]
#[derive(Clone, Copy)]
pub struct SandpiperPage {
    /// How often a slot was changed otherwise than in hints, modulo 2^64.
    pub change: u64,
    /// The visibility map's bits: 1 where the page is all-visible, 2 where it is all-frozen too, else 0.
    pub bits: u32,
    /// How many slots it has.
    pub slots: u32,
}

/// The head of the page of this number, counted from 0, if it is in use.
pub fn head_of_page(engine: &Engine, number: u32) -> Option<SandpiperPage>
    ensures { result ≡ head_in engine.now.engine.core number }
{
    match (engine.page(number), engine.page_bits(number)) {
        (Some(page), Some(bits)) => Some(SandpiperPage {
            change: page.change(),
            bits: bits as u32,
            slots: page.slots() as u32,
        }),
        _ => None,
    }
}

/// A slot: its kind is 0 if it is unused, 1 for a version of a row, 2 if it leads to another slot, and 3 if it is dead. Fields that do not
/// apply are 0.
#[repr(C)]
#[derive(Clone, Copy)]
pub struct SandpiperSlot {
    pub kind: u32,
    /// Where it leads.
    pub target: u32,
    /// Who made the version, and who took it away.
    pub xmin: u32,
    pub xmax: u32,
    pub key: u64,
}

/// What C reads of a slot.
pub fn of_slot(slot: Slot) -> SandpiperSlot
    ensures { result ≡ shown_slot slot }
{
    let unused = SandpiperSlot {
        kind: 0,
        target: 0,
        xmin: 0,
        xmax: 0,
        key: 0,
    };
    match slot {
        Slot::Unused => unused,
        Slot::Normal(version) => SandpiperSlot {
            kind: 1,
            xmin: version.header.xmin.0,
            xmax: version.header.xmax.0,
            key: version.row.key,
            ..unused
        },
        Slot::Redirect(target) => SandpiperSlot {
            kind: 2,
            target: target as u32,
            ..unused
        },
        Slot::Dead => SandpiperSlot { kind: 3, ..unused },
    }
}

/// The slot of this number, counted from 1, of the page of this number, counted from 0.
pub fn slot_of_page(engine: &Engine, page: u32, number: u16) -> Option<Slot>
    ensures { result ≡ page_slot engine.now.engine.core page number }
{
    match engine.page(page) {
        Some(page) => page.slot(number),
        None => None,
    }
}
