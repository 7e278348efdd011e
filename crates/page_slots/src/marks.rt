//! Whether versions of a page share bytes: each takes whole units, which are marked in turn.

ghost use Rattle.std.specs.Prelude.{◌≡◌, ◌≤◌, ◌<◌, ◌+◌, ◌*◌, ℕ, length, Some, None, ◌%◌, IfSome, MatchOption, MatchResult};
ghost use Rattle.page_layout.specs.declared.faults.PageFault.{PageFault};
ghost use Rattle.tuple_header.specs.declared.version.TheConstants.{MOST_SLOTS};
ghost use Rattle.page_layout.specs.declared.units.TheConstants.{PAGE_UNITS};
ghost use Rattle.page_layout.specs.declared.sizes.TheConstants.{PAGE_BYTES};
ghost use Rattle.page_sheet.specs.Slots.{bytes_taken};
ghost use Rattle.page_layout.specs.Layout.{pointer_in, upper_in};
ghost use Rattle.page_sheet.specs.Layout.{slot_in};
ghost use Rattle.page_layout.specs.Sound.{IsPointer};
ghost use Rattle.page_slots.specs.Faults.{overlap_fault};
ghost use Rattle.page_layout.specs.Faults.{first_among};
ghost use Rattle.page_layout.specs.Units.{units_marked};
ghost use Rattle.page_slots.specs.Marking.{IsCovered, AreClear};

use page_layout::{PAGE_UNITS, PageFault, Pointer, mark, pointer_at};

/// Marks the units of the version at an index, if there is one, and answers how many they are. It answers none where the version
/// shares one with that of a lower slot.
fn mark_version(
    bytes: &[u8],
    count: usize,
    index: usize,
    marks: &mut [bool; PAGE_UNITS],
) -> Option<usize>
    requires long { length bytes.now ≡ PAGE_BYTES }
    requires few { count ≤ MOST_SLOTS }
    requires good { (i : ℕ) → i < count → IsPointer bytes.now count (pointer_in bytes.now i) }
    requires within { index < count }
    requires covered { IsCovered bytes.now index marks.old }
    ensures taken { IfSome result (λ units. 8 * units ≡ bytes_taken (slot_in bytes.now index)) }
    ensures counted { IfSome result
        (λ units. units_marked marks.new ≡ units_marked marks.old + units) }
    ensures covered { MatchOption result
        (overlap_fault bytes.now index ≡ Some (PageFault.Overlap (index + 1)))
        (λ units. IsCovered bytes.now (index + 1) marks.new) }
{
    match pointer_at(bytes, index) {
        Pointer::Normal(extent) => {
            let from = usize::from(extent.from);
            let size = usize::from(extent.len).next_multiple_of(8);
            if mark(marks, from / 8, (from + size) / 8) {
                Some(size / 8)
            } else {
                None
            }
        }
        _ => Some(0),
    }
}

/// How many units the versions of all slots take, or the fault of the lowest slot whose version overlaps that of a lower slot.
pub(crate) fn units_of(bytes: &[u8], count: usize) -> Result<usize, PageFault>
    requires long { length bytes.now ≡ PAGE_BYTES }
    requires few { count ≤ MOST_SLOTS }
    requires upper { upper_in bytes.now ≤ PAGE_BYTES }
    requires aligned { upper_in bytes.now % 8 ≡ 0 }
    requires good { (i : ℕ) → i < count → IsPointer bytes.now count (pointer_in bytes.now i) }
    ensures { MatchResult result (AreClear bytes.now count)
        (λ fault. first_among (overlap_fault bytes.now) count ≡ Some fault) }
{
    let mut marks = [false; PAGE_UNITS];
    let mut units = 0;
    for index in 0..count {
        match mark_version(bytes, count, index, &mut marks) {
            Some(more) => units += more,
            None => return Err(PageFault::Overlap(index as u16 + 1)),
        }
    }
    Ok(units)
}
