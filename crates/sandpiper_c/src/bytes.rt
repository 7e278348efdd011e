//! The bytes of a page, and the check of bytes that come from elsewhere.

ghost use Rattle.std.specs.Prelude.{◌≡◌};
ghost use Rattle.page_slots.specs.Faults.{page_fault};
ghost use Rattle.sandpiper_c.specs.Calls.{StaysAsIs};
ghost use Rattle.c_views.specs.Faults.{number_of_finding, slot_of_finding};
ghost use Rattle.sandpiper_c.specs.Bytes.{ShowsBytesOf};

use c_handles::{CallStatus, Sandpiper};
use c_views::{fault_in, put_page_of};
use std::alloc::Global;

/// Writes the 8192 bytes of the page of this number, counted from 0, to the first of C's own, if the page is in use.
#[unsafe(no_mangle)]
pub extern "C" fn sandpiper_page_bytes(
    alloc: Global,
    table: &mut Sandpiper,
    page: u32,
    bytes: &mut [u8],
) -> u32
    ensures stays { StaysAsIs table.old table.new }
    ensures bytes { ShowsBytesOf table.old page bytes.old result bytes.new }
{
    match table.take(alloc) {
        Some(held) => {
            let code = put_page_of(&held.engine, page, bytes);
            table.put(held);
            code
        }
        None => CallStatus::NoRow.number(),
    }
}

/// What is wrong first with these bytes, as those of a page, or 0. The slot that has the fault is written to `slot`, or 0.
#[unsafe(no_mangle)]
pub extern "C" fn sandpiper_check_page(bytes: &[u8], slot: &mut u32) -> u32
    ensures fault { result ≡ number_of_finding (page_fault bytes.now) }
    ensures slot { slot.new ≡ slot_of_finding (page_fault bytes.now) }
{
    fault_in(bytes, slot)
}
