//! The head of a page, and its slots, for whoever looks into it.

ghost use Rattle.std.specs.Prelude.{◌≡◌};
ghost use Rattle.sandpiper_c.specs.Calls.{StaysAsIs};
ghost use Rattle.sandpiper_c.specs.Pages.{ShowsSlot, ShowsSlotOf, ShowsHeadOf};

use crate::looks::tell;
use c_handles::{CallStatus, Sandpiper};
use c_views::{SandpiperPage, SandpiperSlot, head_of_page, of_slot, slot_of_page};
use page_slots::Slot;
use std::alloc::Global;

/// Writes the head of the page of this number, counted from 0, to `head`, if the page is in use.
#[unsafe(no_mangle)]
pub extern "C" fn sandpiper_page_at(
    alloc: Global,
    table: &mut Sandpiper,
    page: u32,
    head: &mut SandpiperPage,
) -> u32
    ensures stays { StaysAsIs table.old table.new }
    ensures head { ShowsHeadOf table.old page head.old result head.new }
{
    match table.take(alloc) {
        Some(held) => {
            let code = tell(head_of_page(&held.engine, page), CallStatus::NoRow, head);
            table.put(held);
            code
        }
        None => CallStatus::NoRow.number(),
    }
}

/// Writes the slot to C's place, if there is one.
fn put_slot(found: Option<Slot>, place: &mut SandpiperSlot) -> u32
    ensures { ShowsSlot found place.old result place.new }
{
    match found {
        Some(slot) => {
            *place = of_slot(slot);
            CallStatus::Found.number()
        }
        None => CallStatus::NoRow.number(),
    }
}

/// Writes the slot of this number, counted from 1, of the page of this number, counted from 0, to `slot`, if there is one.
#[unsafe(no_mangle)]
pub extern "C" fn sandpiper_slot_at(
    alloc: Global,
    table: &mut Sandpiper,
    page: u32,
    number: u16,
    slot: &mut SandpiperSlot,
) -> u32
    ensures stays { StaysAsIs table.old table.new }
    ensures slot { ShowsSlotOf table.old page number slot.old result slot.new }
{
    match table.take(alloc) {
        Some(held) => {
            let code = put_slot(slot_of_page(&held.engine, page, number), slot);
            table.put(held);
            code
        }
        None => CallStatus::NoRow.number(),
    }
}
