//! What is known of how the versions of a page lie, so that they are moved together without a look at each.

ghost use Rattle.std.specs.Prelude.{◌≤◌, ◌+◌, ◌*◌, sum_by};
ghost use Rattle.page_sheet.specs.declared.sheet.TheConstants.{MOST_BYTES};
ghost use Rattle.page_sheet.specs.Slots.{bytes_taken};
ghost use Rattle.page_sheet.specs.Layout.{slots_in};
ghost use Rattle.page_layout.specs.Sound.{IsSound};
ghost use Rattle.page_sheet.specs.Packing.{IsPacked};
ghost use Rattle.page_sheet.specs.Lying.{IsInOrderWithout, IsLying};

use crate::packing::pack_all;
use page_layout::{Extent, PAGE_BYTES, raise_pointers, slide, u16_at};

/// How the versions of a page lie, as far as it is known.
#[derive(Clone, Copy, Debug)]
pub(crate) enum Lying {
    /// In any way.
    Anyhow,
    /// One behind the other in the order of their slots, from the end of the page downward.
    InOrder,
    /// The same, but for a hole: the version of the slot at this index went, which stood there.
    Without(u16, Extent),
}

/// Moves up what lies below the hole that a version left, and answers how far down the versions reach then.
fn close_hole_at(bytes: &mut [u8], count: usize, first: usize, extent: Extent) -> usize
    requires sound { IsSound bytes.old count }
    requires room { 4 * count + sum_by bytes_taken (slots_in count bytes.old) ≤ MOST_BYTES }
    requires lying { IsInOrderWithout bytes.old count first extent }
    ensures { IsPacked bytes.old bytes.new count count result }
{
    let low = usize::from(u16_at(bytes, 14));
    let by = usize::from(extent.len).next_multiple_of(8);
    slide(bytes, low, usize::from(extent.from), by);
    raise_pointers(bytes, first, count, by as u32);
    low + by
}

/// Moves the versions together, and answers how far down they reach. Where it is known how they lie, it looks at none.
pub(crate) fn move_together(bytes: &mut [u8; PAGE_BYTES], count: usize, lying: Lying) -> usize
    requires sound { IsSound bytes.old count }
    requires room { 4 * count + sum_by bytes_taken (slots_in count bytes.old) ≤ MOST_BYTES }
    requires lying { IsLying bytes.old count lying }
    ensures { IsPacked bytes.old bytes.new count count result }
{
    match lying {
        Lying::Anyhow => pack_all(bytes, count),
        Lying::InOrder => usize::from(u16_at(bytes, 14)),
        Lying::Without(first, extent) => close_hole_at(bytes, count, usize::from(first), extent),
    }
}
