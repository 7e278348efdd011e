//! The versions of a page are moved together where the gap is too small.

ghost use Rattle.std.specs.Prelude.{◌≡◌, ◌≤◌, ◌<◌, ◌+◌, ◌-◌, ◌*◌, ◌%◌, length, sum_by, IfSome, MatchOption};
ghost use Rattle.page_sheet.specs.declared.sheet.TheConstants.{MOST_BYTES};
ghost use Rattle.page_layout.specs.declared.sizes.TheConstants.{PAGE_BYTES, PAGE_HEADER_BYTES};
ghost use Rattle.page_sheet.specs.Slots.{bytes_taken};
ghost use Rattle.page_sheet.specs.Layout.{slots_in};
ghost use Rattle.page_layout.specs.Sound.{IsSound};
ghost use Rattle.page_sheet.specs.Packing.{IsMoved, IsPacked, IsBlock};

use page_layout::{
    Extent, PAGE_BYTES, PAGE_HEADER_BYTES, Pointer, end_in, part, pointer_at, put_bytes,
    put_pointer, raise_pointers, slide, u16_at, u32_at,
};

/// Moves a version of the old bytes to a place below those that were moved, and lets the slot at an index lead there.
fn move_version(old: &[u8], extent: Extent, bytes: &mut [u8], index: usize, top: usize)
    requires whole { length bytes.old ≡ PAGE_BYTES }
    requires from { extent.from + extent.len ≤ length old.now }
    requires low { PAGE_HEADER_BYTES + 4 * (index + 1) ≤ top }
    requires high { top + extent.len ≤ PAGE_BYTES }
    ensures { IsMoved bytes.old bytes.new index top extent old.now }
{
    put_bytes(bytes, top, part(old, extent));
    let moved = Extent {
        from: top as u16,
        len: extent.len,
    };
    put_pointer(bytes, index, Pointer::Normal(moved));
}

/// Moves the version at an index of the old bytes, if there is one, right below those before it. It answers how far down they
/// reach then.
fn pack_one(old: &[u8], count: usize, bytes: &mut [u8], index: usize, upper: usize) -> usize
    requires sound { IsSound old.now count }
    requires within { index < count }
    requires room { 4 * count + sum_by bytes_taken (slots_in count old.now) ≤ MOST_BYTES }
    requires packed { IsPacked old.now bytes.old count index upper }
    ensures { IsPacked old.now bytes.new count (index + 1) result }
{
    match pointer_at(old, index) {
        Pointer::Normal(extent) => {
            let top = upper - usize::from(extent.len).next_multiple_of(8);
            move_version(old, extent, bytes, index, top);
            top
        }
        _ => upper,
    }
}

/// Moves the versions together, from the end of the page downward in the order of their slots, and answers how far down they
/// reach. The bytes are a copy of the old ones at first. The versions before an index are in their places, down to `top`.
fn pack(old: &[u8], count: usize, bytes: &mut [u8], first: usize, top: usize) -> usize
    requires sound { IsSound old.now count }
    requires within { first ≤ count }
    requires room { 4 * count + sum_by bytes_taken (slots_in count old.now) ≤ MOST_BYTES }
    requires packed { IsPacked old.now bytes.old count first top }
    ensures { IsPacked old.now bytes.new count count result }
{
    let mut upper = top;
    for index in first..count {
        upper = pack_one(old, count, bytes, index, upper);
    }
    upper
}

/// Goes over the slots from an index on, as long as their versions lie one behind the other, down from a place. It answers the
/// index of the first that does not, or the number of slots, and how far down those before it reach.
#[inline(always)]
fn run_from(bytes: &[u8], count: usize, first: usize, top: usize) -> (usize, usize)
    requires sound { IsSound bytes.now count }
    requires within { first ≤ count }
    requires page { top ≤ PAGE_BYTES }
    requires even { top % 8 ≡ 0 }
    ensures run { IsBlock bytes.now count first top result.0 result.1 }
    ensures bound { result.0 ≤ count }
{
    let mut edge = top as u32 + 32768;
    for index in first..count {
        let word = u32_at(bytes, PAGE_HEADER_BYTES + 4 * index);
        if end_in(word) == edge {
            edge = word % 131072;
        } else if word / 32768 % 4 == 1 {
            return (index, (edge - 32768) as usize);
        }
    }
    (count, (edge - 32768) as usize)
}

/// Whether the slots from an index on all hold versions, which lie one behind the other, down from a place: how far down they
/// reach then. It finds fewer runs than `run_from`, but goes over several slots at once.
#[inline(always)]
fn full_run_from(bytes: &[u8], count: usize, first: usize, top: usize) -> Option<usize>
    requires sound { IsSound bytes.now count }
    requires within { first < count }
    requires page { top ≤ PAGE_BYTES }
    requires even { top % 8 ≡ 0 }
    ensures { IfSome result (λ low. IsBlock bytes.now count first top count low) }
{
    let start = u32_at(bytes, PAGE_HEADER_BYTES + 4 * first);
    if end_in(start) != top as u32 + 32768 {
        return None;
    }
    let mut apart = 0u32;
    for index in first + 1..count {
        let above = u32_at(bytes, PAGE_HEADER_BYTES - 4 + 4 * index);
        let word = u32_at(bytes, PAGE_HEADER_BYTES + 4 * index);
        apart |= end_in(word) ^ above;
    }
    // a bit is set where a version does not end where the one before it begins
    if apart % 131072 > 0 {
        return None;
    }
    let last = u32_at(bytes, PAGE_HEADER_BYTES - 4 + 4 * count);
    Some((last % 131072 - 32768) as usize)
}

/// Where the version at an index ends, or another place, if there is none.
fn end_at(bytes: &[u8], count: usize, index: usize, otherwise: usize) -> usize
    requires sound { IsSound bytes.now count }
    requires page { otherwise ≤ PAGE_BYTES }
    requires even { otherwise % 8 ≡ 0 }
    ensures page { result ≤ PAGE_BYTES }
    ensures even { result % 8 ≡ 0 }
{
    if index < count {
        if let Pointer::Normal(extent) = pointer_at(bytes, index) {
            return usize::from(extent.from) + usize::from(extent.len).next_multiple_of(8);
        }
    }
    otherwise
}

/// Does what `run_from` does, first in the way that is faster.
#[inline(always)]
fn rest_from(bytes: &[u8], count: usize, first: usize, top: usize) -> (usize, usize)
    requires sound { IsSound bytes.now count }
    requires within { first ≤ count }
    requires page { top ≤ PAGE_BYTES }
    requires even { top % 8 ≡ 0 }
    ensures run { IsBlock bytes.now count first top result.0 result.1 }
    ensures bound { result.0 ≤ count }
{
    if first < count {
        if let Some(low) = full_run_from(bytes, count, first, top) {
            return (count, low);
        }
    }
    run_from(bytes, count, first, top)
}

/// Whether the last slot's version is the lowest, as it is when versions lie in slot order. It is asked for speed alone: what
/// `close_hole` promises does not depend on it.
#[inline(always)]
fn is_last_lowest(bytes: &[u8], count: usize) -> bool
    requires { IsSound bytes.now count }
{
    if count == 0 {
        return true;
    }
    match pointer_at(bytes, count - 1) {
        Pointer::Normal(extent) => extent.from == u16_at(bytes, 14),
        _ => true,
    }
}

/// Moves the versions together where one hole alone is in the way. Those before an index are in their places, down to `upper`, and
/// the others lie one behind the other. It answers how far down they reach then; or nothing, and then it has changed nothing.
fn close_hole(bytes: &mut [u8], count: usize, first: usize, upper: usize) -> Option<usize>
    requires sound { IsSound bytes.old count }
    requires within { first ≤ count }
    requires room { 4 * count + sum_by bytes_taken (slots_in count bytes.old) ≤ MOST_BYTES }
    requires placed { IsBlock bytes.old count 0 PAGE_BYTES first upper }
    ensures { MatchOption result (bytes.new ≡ bytes.old)
        (λ low. IsPacked bytes.old bytes.new count count low) }
{
    if !is_last_lowest(bytes, count) {
        return None;
    }
    let top = end_at(bytes, count, first, upper);
    let (end, low) = rest_from(bytes, count, first, top);
    if end < count || upper < top {
        return None;
    }
    let by = upper - top;
    slide(bytes, low, top, by);
    raise_pointers(bytes, first, count, by as u32);
    Some(low + by)
}

/// Moves the versions together, however they lie, and answers how far down they reach.
pub(crate) fn pack_all(bytes: &mut [u8; PAGE_BYTES], count: usize) -> usize
    requires sound { IsSound bytes.old count }
    requires room { 4 * count + sum_by bytes_taken (slots_in count bytes.old) ≤ MOST_BYTES }
    ensures { IsPacked bytes.old bytes.new count count result }
{
    let (first, upper) = run_from(bytes, count, 0, PAGE_BYTES);
    match close_hole(bytes, count, first, upper) {
        Some(low) => low,
        None => {
            let old = *bytes;
            pack(&old, count, bytes, first, upper)
        }
    }
}
