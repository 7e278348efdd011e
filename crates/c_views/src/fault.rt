//! What is wrong with bytes that are to be a page.

ghost use Rattle.std.specs.Prelude.{◌≡◌};
ghost use Rattle.page_slots.specs.Faults.{page_fault};
ghost use Rattle.c_views.specs.Faults.{number_of_page_fault, slot_of_page_fault, number_of_finding, slot_of_finding};

use page_slots::{PageFault, check_page};

/// The number of a fault.
fn number_of(fault: PageFault) -> u32
    ensures { result ≡ number_of_page_fault fault }
{
    match fault {
        PageFault::Length => 1,
        PageFault::Header => 2,
        PageFault::Bounds => 3,
        PageFault::BadPointer(_) => 4,
        PageFault::BadTuple(_) => 5,
        PageFault::BadRedirect(_) => 6,
        PageFault::Overlap(_) => 7,
    }
}

/// The slot that a fault names, or 0.
fn slot_of(fault: PageFault) -> u32
    ensures { result ≡ slot_of_page_fault fault }
{
    match fault {
        PageFault::Length | PageFault::Header | PageFault::Bounds => 0,
        PageFault::BadPointer(slot) => u32::from(slot),
        PageFault::BadTuple(slot) => u32::from(slot),
        PageFault::BadRedirect(slot) => u32::from(slot),
        PageFault::Overlap(slot) => u32::from(slot),
    }
}

/// The number of what is wrong first with these bytes, as those of a page, or 0. The slot that has the fault is written to `slot`, or 0.
pub fn fault_in(bytes: &[u8], slot: &mut u32) -> u32
    ensures fault { result ≡ number_of_finding (page_fault bytes.now) }
    ensures slot { slot.new ≡ slot_of_finding (page_fault bytes.now) }
{
    match check_page(bytes) {
        Ok(_) => {
            *slot = 0;
            0
        }
        Err(fault) => {
            *slot = slot_of(fault);
            number_of(fault)
        }
    }
}
