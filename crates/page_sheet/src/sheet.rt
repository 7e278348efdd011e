//! The bytes of a page, and what is read in them where it stands.

ghost use Rattle.std.specs.Prelude.{◌≡◌, ◌≢◌, ◌≤◌, ◌<◌, ◌+◌, ◌-◌, ◌*◌, ◌++◌, ◌∷◌, ℕ, List, [], length, sum_by, drop, slice_set, slice_index_or, true, false, ◌==◌, ◌&&◌, Some, None, IfSome, IsSome, IsTrue, ◌↔◌, MatchOption, if◌then◌else◌};
ghost use Rattle.std.specs.Option.{option_map};
ghost use Rattle.std.specs.List.{position_or_len};
ghost use Rattle.tuple_header.specs.Layout.{number_at, with_bytes, header_bytes};
ghost use Rattle.tuple_header.specs.declared.version.TheConstants.{BODY_START, MOST_SLOTS};
ghost use Rattle.tuple_header.specs.Version.{size_of, rounded_size_of};
ghost use Rattle.tuple_header.specs.Faults.{HeaderFits, header_fault};
ghost use Rattle.page_sheet.specs.declared.sheet.TheConstants.{MOST_BYTES};
ghost use Rattle.page_layout.specs.declared.sizes.TheConstants.{PAGE_BYTES, PAGE_HEADER_BYTES};
ghost use Rattle.page_sheet.specs.Slots.{is_unused, is_dead, is_undeleted_by, undeleted_row, redirects_to, with_header, version_of, target_of, head_of, bytes_taken};
ghost use Rattle.page_layout.specs.Layout.{pointer_in, part_of, slot_count_in, change_in, flags_in, upper_in};
ghost use Rattle.page_sheet.specs.Layout.{SomeRedirects, shown_by, slot_in, slots_in, SlotsBecome};
ghost use Rattle.page_sheet.specs.Packing.{LieInOrder};
ghost use Rattle.page_sheet.specs.Lying.{IsCleared, IsLying};
ghost use Rattle.page_sheet.specs.Placing.{no_places, places_of, places_without, loses_last, HasGap, IsPutBelow};
ghost use Rattle.page_sheet.specs.Standing.{StandsAt, BeginsAt, IsVersionAt};
ghost use Rattle.page_layout.specs.declared.pointer.Pointer.{Pointer as SpecPointer};
ghost use Rattle.page_layout.specs.Sound.{HoldsNoVersion, IsSound, IsPointer};

use crate::lying::{Lying, move_together};
use crate::slot::{Slot, SlotHead};
use page_layout::{
    Extent, PAGE_BYTES, PAGE_HEADER_BYTES, Pointer, part, pointer_at, put_pointer, put_u16,
    put_u64, u16_at, u32_at, u64_at,
};
use std::marker::Model;
use tuple_header::{
    BODY_START, Header, Row, RowRef, header_of, key_of, put_header, put_version, row_in, row_size,
    version_of,
};
use xid_circle::Xid;

/// What pointers and versions may take of a page.
pub const MOST_BYTES: usize = 8168;

const _: () = prove!(MOST_BYTES == PAGE_BYTES - PAGE_HEADER_BYTES);

/// The bytes of a page. They are private, so what reads or writes a number of them is a call here.
#[derive(Debug, Drop)]
pub struct Sheet {
    bytes: [u8; PAGE_BYTES],
    count: usize,
    // how the versions lie, as far as it is known
    lying: Lying,
}

impl Model for Sheet {
    ghost use Rattle.page_sheet.specs.Sheet.{SheetView};
    ghost use Rattle.page_layout.specs.Sound.{IsSound};
    ghost use Rattle.page_sheet.specs.Lying.{IsLying};

    ghost Value = { SheetView };

    ghost view = { λ s. record { bytes = s.bytes; count = s.count } };

    ghost invariant = { λ s. IsSound s.bytes s.count × IsLying s.bytes s.count s.lying };
}

/// Writes a header over that of the version in these bytes. Its contract speaks of all bytes, that of [`put_header`] of the version's.
fn write_header(bytes: &mut [u8], extent: Extent, header: Header)
    requires within { extent.from + extent.len ≤ length bytes.old }
    requires least { BODY_START ≤ extent.len }
    ensures bytes { bytes.new
        ≡ with_bytes extent.from (header_bytes header ++ drop 24 (part_of bytes.old extent))
        bytes.old }
    ensures fits { HeaderFits header }
{
    let from = usize::from(extent.from);
    put_header(&header, &mut bytes[from..from + usize::from(extent.len)]);
}

/// Puts a version at an index, below all others, where the gap has room for it.
fn put_below(bytes: &mut [u8; PAGE_BYTES], count: usize, index: usize, header: &Header, row: &Row)
    requires sound { IsSound bytes.old count }
    requires there { index < count }
    requires room { PAGE_HEADER_BYTES + 4 * count + rounded_size_of row.now ≤ upper_in bytes.old }
    requires faultless { header_fault header.now ≡ None }
    ensures sound { IsSound bytes.new count }
    ensures slots { SlotsBecome bytes.old bytes.new count
        (slice_set (slots_in count bytes.old) index
        (Slot.Normal (record { header = header.now; row = row.now }))) }
    ensures upper { upper_in bytes.new + rounded_size_of row.now ≡ upper_in bytes.old }
    ensures here { pointer_in bytes.new index
        ≡ SpecPointer.Normal (record { from = upper_in bytes.new; len = size_of row.now }) }
    ensures places { (i : ℕ) → i < count → i ≢ index
        → pointer_in bytes.new i ≡ pointer_in bytes.old i }
{
    let from = usize::from(u16_at(bytes, 14)) - row_size(row);
    let extent = Extent {
        from: from as u16,
        len: BODY_START as u16 + row.body.len() as u16,
    };
    put_version(header, row, &mut bytes[from..]);
    put_u16(bytes, 14, from as u16);
    put_pointer(bytes, index, Pointer::Normal(extent));
}

/// Whether these bytes of a version say that this id made it and nobody deleted it: both ids are read as one number.
#[inline(always)]
fn is_undeleted_by(part: &[u8], inserter: u32) -> bool
    requires { 8 ≤ length part.now }
    ensures { result
        ≡ ((number_at 0 4 part.now == inserter) && (number_at 4 4 part.now == 0)) }
{
    u64_at(part, 0) == u64::from(inserter)
}

impl Sheet {
    /// The bytes of a page with no slot, never changed, on which not all is visible to all.
    pub fn new() -> Sheet
        ensures count { result.count ≡ 0 }
        ensures change { change_in result.bytes ≡ 0 }
        ensures flags { flags_in result.bytes ≡ 0 }
        ensures places { places_of result ≡ no_places }
    {
        let mut bytes = [0; PAGE_BYTES];
        put_u16(&mut bytes, 12, PAGE_HEADER_BYTES as u16);
        put_u16(&mut bytes, 14, PAGE_BYTES as u16);
        put_u16(&mut bytes, 16, PAGE_BYTES as u16);
        put_u16(&mut bytes, 18, PAGE_BYTES as u16 + 4);
        Sheet {
            bytes,
            count: 0,
            lying: Lying::InOrder,
        }
    }

    /// The sheet of these bytes, which are those of a page with so many slots.
    pub fn of(bytes: [u8; PAGE_BYTES], count: usize) -> Sheet
        requires { IsSound bytes count }
        ensures { result ≡ record { bytes = bytes; count = count } }
    {
        Sheet {
            bytes,
            count,
            lying: Lying::Anyhow,
        }
    }

    /// Becomes equal to another.
    pub fn copy_from(&mut self, other: &Sheet)
        ensures { self.new ≡ other.now }
    {
        self.bytes = other.bytes;
        self.count = other.count;
        self.lying = other.lying;
    }

    /// How many slots there are.
    #[inline(always)]
    pub fn len(&self) -> usize
        ensures count { result ≡ self.now.count }
        ensures few { result ≤ MOST_SLOTS }
    {
        self.count
    }

    /// The change number.
    pub fn change(&self) -> u64
        ensures { result ≡ change_in self.now.bytes }
    {
        u64_at(&self.bytes, 0)
    }

    /// The flags.
    pub fn flags(&self) -> u16
        ensures { result ≡ flags_in self.now.bytes }
    {
        u16_at(&self.bytes, 10)
    }

    /// All bytes, where they stand.
    pub fn bytes(&self) -> &[u8]
        ensures bytes { result.now ≡ self.now.bytes }
        ensures long { length result.now ≡ PAGE_BYTES }
        ensures count { slot_count_in self.now.bytes ≡ self.now.count }
        ensures sound { IsSound self.now.bytes self.now.count }
    {
        let _count = self.count;
        &self.bytes
    }

    /// The pointer of the slot at an index. It asks for the index alone: that the bytes reach so far, the sheet knows.
    #[inline(always)]
    pub fn pointer(&self, index: usize) -> Pointer
        requires { index < self.now.count }
        ensures value { result ≡ pointer_in self.now.bytes index }
        ensures good { IsPointer self.now.bytes self.now.count result }
    {
        pointer_at(&self.bytes, index)
    }

    /// The slot at an index, by value.
    pub fn slot(&self, index: usize) -> Slot
        requires { index < self.now.count }
        ensures { result ≡ slot_in self.now.bytes index }
    {
        match self.pointer(index) {
            Pointer::Unused => Slot::Unused,
            Pointer::Normal(extent) => Slot::Normal(version_of(part(&self.bytes, extent))),
            Pointer::Redirect(target) => Slot::Redirect(target),
            Pointer::Dead => Slot::Dead,
        }
    }

    /// The bytes of the version at an index, if there is one, where they stand.
    #[inline(always)]
    pub fn version(&self, index: usize) -> Option<&[u8]>
        requires { index < self.now.count }
        ensures { MatchOption result (version_of (slot_in self.now.bytes index) ≡ None)
            (λ part. IsVersionAt self.now.bytes index part.now) }
    {
        match self.pointer(index) {
            Pointer::Normal(extent) => Some(part(&self.bytes, extent)),
            _ => None,
        }
    }

    /// Where the version at an index stands, if there is one.
    pub fn extent(&self, index: usize) -> Option<Extent>
        requires { index < self.now.count }
        ensures { MatchOption result (version_of (slot_in self.now.bytes index) ≡ None)
            (λ extent. StandsAt self.now.bytes index extent) }
    {
        let _count = self.count;
        match self.pointer(index) {
            Pointer::Normal(extent) => Some(extent),
            _ => None,
        }
    }

    /// The header of the version at an index, if there is one, read where it stands.
    #[inline(always)]
    pub fn header(&self, index: usize) -> Option<Header>
        requires { index < self.now.count }
        ensures value { result
            ≡ option_map (λ t. t.header) (version_of (slot_in self.now.bytes index)) }
        ensures faultless { IfSome result (λ header. header_fault header ≡ None) }
    {
        match self.version(index) {
            Some(part) => Some(header_of(part)),
            None => None,
        }
    }

    /// What the slot at an index tells without its row.
    #[inline(always)]
    pub fn head(&self, index: usize) -> SlotHead
        requires { index < self.now.count }
        ensures { result ≡ head_of (slot_in self.now.bytes index) }
    {
        match self.pointer(index) {
            Pointer::Normal(extent) => SlotHead::Version(header_of(part(&self.bytes, extent))),
            Pointer::Redirect(target) => SlotHead::Redirect(target),
            _ => SlotHead::Empty,
        }
    }

    /// The key of the version at an index, if there is one.
    pub fn key(&self, index: usize) -> Option<u64>
        requires { index < self.now.count }
        ensures { result
            ≡ option_map (λ t. t.row.key) (version_of (slot_in self.now.bytes index)) }
    {
        match self.version(index) {
            Some(part) => Some(key_of(part)),
            None => None,
        }
    }

    /// The row of the version at an index, where it stands, if there is one.
    pub fn row(&self, index: usize) -> Option<RowRef<'_>>
        requires { index < self.now.count }
        ensures { result ≡ option_map (λ t. t.row) (version_of (slot_in self.now.bytes index)) }
    {
        match self.version(index) {
            Some(part) => Some(row_in(part)),
            None => None,
        }
    }

    /// The bytes of the version at an index, where they stand, if they begin at `from`. The pointer has to say so, but they can be read
    /// before it is.
    #[inline(always)]
    fn part_from(&self, index: usize, from: u16) -> Option<&[u8]>
        requires { index < self.now.count }
        ensures { MatchOption result (¬ BeginsAt self.now.bytes index from)
            (λ part. BeginsAt self.now.bytes index from
            × IsVersionAt self.now.bytes index part.now) }
    {
        match self.pointer(index) {
            Pointer::Normal(extent) if extent.from == from => {
                let len = extent.len;
                Some(part(&self.bytes, Extent { from, len }))
            }
            _ => None,
        }
    }

    /// The header and the row of the version at an index, where they stand, if its bytes begin at `from`.
    #[inline(always)]
    pub fn version_from(&self, index: usize, from: u16) -> Option<(Header, RowRef<'_>)>
        requires { index < self.now.count }
        ensures value { MatchOption result (¬ BeginsAt self.now.bytes index from)
            (λ found. version_of (slot_in self.now.bytes index)
            ≡ Some (record { header = found.0; row = found.1 })) }
        ensures begins { IsSome result → BeginsAt self.now.bytes index from }
        ensures faultless { IfSome result (λ found. header_fault found.0 ≡ None) }
    {
        match self.part_from(index, from) {
            Some(part) => Some((header_of(part), row_in(part))),
            None => None,
        }
    }

    /// Whether the slot at an index is unused.
    #[inline(always)]
    pub fn is_unused(&self, index: usize) -> bool
        requires { index < self.now.count }
        ensures { result ≡ is_unused (slot_in self.now.bytes index) }
    {
        match self.pointer(index) {
            Pointer::Unused => true,
            Pointer::Normal(_extent) => false,
            Pointer::Redirect(_target) => false,
            Pointer::Dead => false,
        }
    }

    /// Whether the slot at an index is dead.
    pub fn is_dead(&self, index: usize) -> bool
        requires { index < self.now.count }
        ensures { result ≡ is_dead (slot_in self.now.bytes index) }
    {
        match self.pointer(index) {
            Pointer::Unused => false,
            Pointer::Normal(_extent) => false,
            Pointer::Redirect(_target) => false,
            Pointer::Dead => true,
        }
    }

    /// Whether the slot at an index is a redirect to the slot of this number. Words are compared, so no pointer is taken apart.
    #[inline(always)]
    pub fn redirects_to(&self, index: usize, number: u16) -> bool
        requires { index < self.now.count }
        ensures { result ≡ redirects_to number (slot_in self.now.bytes index) }
    {
        usize::from(number) <= self.count
            && u32_at(&self.bytes, PAGE_HEADER_BYTES + 4 * index) == u32::from(number) + 65536
    }

    /// Whether a slot is a redirect to the slot of this number. It goes over several slots at once.
    pub fn is_redirected(&self, number: u16) -> bool
        ensures { IsTrue result ↔ SomeRedirects self.now.bytes self.now.count number }
    {
        if usize::from(number) > self.count {
            return false;
        }
        let sought = u32::from(number) + 65536;
        let mut found = 0u32;
        for index in 0..self.count {
            if u32_at(&self.bytes, PAGE_HEADER_BYTES + 4 * index) == sought {
                found += 1;
            }
        }
        found > 0
    }

    /// Where the slot at an index leads, if it is a redirect.
    pub fn redirect(&self, index: usize) -> Option<u16>
        requires { index < self.now.count }
        ensures { result ≡ target_of (slot_in self.now.bytes index) }
    {
        match self.pointer(index) {
            Pointer::Unused => None,
            Pointer::Normal(_extent) => None,
            Pointer::Redirect(target) => Some(target),
            Pointer::Dead => None,
        }
    }

    /// Whether the slot at an index holds a version of this inserter, which nobody deleted.
    #[inline(always)]
    fn is_undeleted_by(&self, index: usize, inserter: Xid) -> bool
        requires { index < self.now.count }
        ensures { result
            ≡ is_undeleted_by inserter.0
            (slice_index_or (slots_in self.now.count self.now.bytes) index Slot.Unused) }
    {
        match self.version(index) {
            Some(part) => is_undeleted_by(part, inserter.0),
            None => false,
        }
    }

    /// The row of the version at an index, where it stands, if this id made it and nobody deleted it.
    #[inline(always)]
    pub fn undeleted_row(&self, index: usize, inserter: Xid) -> Option<RowRef<'_>>
        requires { index < self.now.count }
        ensures { result ≡ undeleted_row inserter.0 (slot_in self.now.bytes index) }
    {
        match self.version(index) {
            Some(part) => {
                if is_undeleted_by(part, inserter.0) {
                    Some(row_in(part))
                } else {
                    None
                }
            }
            None => None,
        }
    }

    /// The index of the first slot, from this one on, that holds anything but a version of this inserter which nobody deleted.
    /// Where there is none, it is the number of slots.
    #[tactic(auto, using(crate::proofs::Sounds::length_is))]
    pub fn next_unlike(&self, from: usize, inserter: Xid) -> usize
        ensures passed { (i : ℕ) → from ≤ i → i < result
            → is_undeleted_by inserter.0
            (slice_index_or (slots_in self.now.count self.now.bytes) i Slot.Unused) ≡ true }
        ensures found { result < self.now.count → (from ≤ result)
            × (is_undeleted_by inserter.0
            (slice_index_or (slots_in self.now.count self.now.bytes) result Slot.Unused) ≡ false) }
        ensures bound { result ≤ self.now.count }
        ensures few { result ≤ MOST_SLOTS }
    {
        for place in from..self.len() {
            if !self.is_undeleted_by(place, inserter) {
                return place;
            }
        }
        self.len()
    }

    /// How many of the first `count` slots are left without those at their end that hold a version of this inserter which nobody
    /// deleted.
    #[inline(always)]
    pub fn last_unlike(&self, count: usize, inserter: Xid) -> usize
        requires { count ≤ self.now.count }
        ensures passed { (i : ℕ) → result ≤ i → i < count
            → is_undeleted_by inserter.0
            (slice_index_or (slots_in self.now.count self.now.bytes) i Slot.Unused) ≡ true }
        ensures found { 1 ≤ result
            → is_undeleted_by inserter.0
            (slice_index_or (slots_in self.now.count self.now.bytes) (result - 1) Slot.Unused)
            ≡ false }
        ensures bound { result ≤ count }
    {
        let mut left = count;
        while left > 0 {
            if !self.is_undeleted_by(left - 1, inserter) {
                return left;
            }
            left -= 1;
        }
        0
    }

    /// How many bytes the version at an index takes.
    #[inline(always)]
    pub fn version_size(&self, index: usize) -> usize
        requires { index < self.now.count }
        ensures { result ≡ bytes_taken (slot_in self.now.bytes index) }
    {
        let _count = self.count;
        match self.pointer(index) {
            Pointer::Unused => 0,
            Pointer::Normal(extent) => usize::from(extent.len).next_multiple_of(8),
            Pointer::Redirect(_target) => 0,
            Pointer::Dead => 0,
        }
    }

    /// The index of the first unused slot, or the number of slots, where none below `from` is unused.
    pub fn first_unused_from(&self, from: usize) -> usize
        requires { from ≤ position_or_len is_unused (slots_in self.now.count self.now.bytes) }
        ensures index { result
            ≡ position_or_len is_unused (slots_in self.now.count self.now.bytes) }
        ensures bound { result ≤ self.now.count }
    {
        for index in from..self.count {
            if self.is_unused(index) {
                return index;
            }
        }
        self.count
    }
}

impl Sheet {
    /// Sets the change number.
    pub fn set_change(&mut self, change: u64)
        ensures count { self.new.count ≡ self.old.count }
        ensures slots { slots_in self.new.count self.new.bytes
            ≡ slots_in self.old.count self.old.bytes }
        ensures change { change_in self.new.bytes ≡ change }
        ensures flags { flags_in self.new.bytes ≡ flags_in self.old.bytes }
        ensures places { places_of self.new ≡ places_of self.old }
    {
        put_u64(&mut self.bytes, 0, change);
    }

    /// Sets the all-visible flag.
    pub fn set_flag(&mut self, flag: bool)
        ensures count { self.new.count ≡ self.old.count }
        ensures slots { slots_in self.new.count self.new.bytes
            ≡ slots_in self.old.count self.old.bytes }
        ensures change { change_in self.new.bytes ≡ change_in self.old.bytes }
        ensures flags { flags_in self.new.bytes ≡ (if flag then 4 else 0) }
        ensures places { places_of self.new ≡ places_of self.old }
    {
        put_u16(&mut self.bytes, 10, if flag { 4 } else { 0 });
    }

    /// Gives the version at an index, if there is one, another header, which has no fault.
    pub fn set_header(&mut self, index: usize, header: Header)
        requires there { index < self.old.count }
        requires faultless { header_fault header ≡ None }
        ensures count { self.new.count ≡ self.old.count }
        ensures slots { SlotsBecome self.old.bytes self.new.bytes self.new.count
            (slice_set (slots_in self.old.count self.old.bytes) index
            (with_header (slot_in self.old.bytes index) header)) }
        ensures places { places_of self.new ≡ places_of self.old }
    {
        if let Pointer::Normal(extent) = self.pointer(index) {
            write_header(&mut self.bytes, extent, header);
        }
    }

    /// What is known of how the versions lie, once the slot at an index holds none.
    #[inline(always)]
    fn lying_without(&self, index: usize) -> Lying
        requires { index < self.now.count }
        ensures { (new : List ℕ) → IsCleared self.now.bytes new self.now.count index
            → IsLying new self.now.count result }
    {
        match self.lying {
            Lying::Anyhow => Lying::Anyhow,
            Lying::InOrder => match self.pointer(index) {
                Pointer::Normal(extent) => Lying::Without(index as u16, extent),
                _ => Lying::InOrder,
            },
            Lying::Without(first, extent) => match self.pointer(index) {
                Pointer::Normal(_extent) => Lying::Anyhow,
                _ => Lying::Without(first, extent),
            },
        }
    }

    /// Lets a slot without a version be at an index.
    fn set_pointer(&mut self, index: usize, pointer: Pointer)
        requires there { index < self.old.count }
        requires bare { HoldsNoVersion self.old.count pointer }
        ensures count { self.new.count ≡ self.old.count }
        ensures slots { SlotsBecome self.old.bytes self.new.bytes self.new.count
            (slice_set (slots_in self.old.count self.old.bytes) index (shown_by [] pointer)) }
        ensures upper { upper_in self.new.bytes ≡ upper_in self.old.bytes }
        ensures others { (i : ℕ) → i < self.old.count → i ≢ index
            → pointer_in self.new.bytes i ≡ pointer_in self.old.bytes i }
    {
        let lying = self.lying_without(index);
        put_pointer(&mut self.bytes, index, pointer);
        self.lying = lying;
    }

    /// Lets a slot without a version be at an index. Where that takes away the last version, the gap reaches to the end of the page.
    pub fn clear(&mut self, index: usize, pointer: Pointer, last: bool)
        requires there { index < self.old.count }
        requires bare { HoldsNoVersion self.old.count pointer }
        requires last { last
            ≡ loses_last (slots_in self.old.count self.old.bytes)
            (slice_set (slots_in self.old.count self.old.bytes) index (shown_by [] pointer)) }
        ensures count { self.new.count ≡ self.old.count }
        ensures slots { SlotsBecome self.old.bytes self.new.bytes self.new.count
            (slice_set (slots_in self.old.count self.old.bytes) index (shown_by [] pointer)) }
        ensures places { places_of self.new
            ≡ places_without (slots_in self.old.count self.old.bytes)
            (slots_in self.new.count self.new.bytes) (index + 1) (places_of self.old) }
    {
        self.set_pointer(index, pointer);
        if last {
            self.lift_upper();
        }
    }

    /// Where the versions begin: none lies below.
    #[inline(always)]
    fn upper(&self) -> usize
        ensures { result ≡ upper_in self.now.bytes }
    {
        usize::from(u16_at(&self.bytes, 14))
    }

    /// Adds a last slot, which is unused. There are fewer than a page may have, and the gap has room for its pointer.
    fn grow(&mut self)
        requires few { self.old.count < MOST_SLOTS }
        requires room { PAGE_HEADER_BYTES + 4 * (self.old.count + 1) ≤ upper_in self.old.bytes }
        ensures count { self.new.count ≡ self.old.count + 1 }
        ensures slots { SlotsBecome self.old.bytes self.new.bytes self.new.count
            (slots_in self.old.count self.old.bytes ++ Slot.Unused ∷ []) }
        ensures upper { upper_in self.new.bytes ≡ upper_in self.old.bytes }
        ensures pointers { (i : ℕ) → i < self.old.count
            → pointer_in self.new.bytes i ≡ pointer_in self.old.bytes i }
        ensures last { pointer_in self.new.bytes self.old.count ≡ SpecPointer.Unused }
    {
        put_pointer(&mut self.bytes, self.count, Pointer::Unused);
        self.count += 1;
        put_u16(
            &mut self.bytes,
            12,
            (PAGE_HEADER_BYTES + 4 * self.count) as u16,
        );
    }

    /// Moves the versions together at the end of the page, in the order of their slots from the end downward. No slot changes.
    #[inline(never)]
    fn compact(&mut self)
        requires room { 4 * self.old.count
            + sum_by bytes_taken (slots_in self.old.count self.old.bytes) ≤ MOST_BYTES }
        ensures count { self.new.count ≡ self.old.count }
        ensures slots { SlotsBecome self.old.bytes self.new.bytes self.new.count
            (slots_in self.old.count self.old.bytes) }
        ensures upper { upper_in self.new.bytes
            + sum_by bytes_taken (slots_in self.old.count self.old.bytes) ≡ PAGE_BYTES }
        ensures order { LieInOrder self.new.bytes (slots_in self.old.count self.old.bytes)
            self.new.count }
    {
        let upper = move_together(&mut self.bytes, self.count, self.lying);
        put_u16(&mut self.bytes, 14, upper as u16);
        self.lying = Lying::InOrder;
    }

    /// Makes the gap between pointers and versions as wide as so many bytes. Versions are moved only where it is not.
    fn make_way(&mut self, size: usize)
        requires room { 4 * self.old.count
            + sum_by bytes_taken (slots_in self.old.count self.old.bytes) + size ≤ MOST_BYTES }
        ensures count { self.new.count ≡ self.old.count }
        ensures slots { SlotsBecome self.old.bytes self.new.bytes self.new.count
            (slots_in self.old.count self.old.bytes) }
        ensures gap { HasGap self.new.count (upper_in self.new.bytes) size }
        ensures stays { HasGap self.old.count (upper_in self.old.bytes) size
            → self.new ≡ self.old }
        ensures order { ¬ HasGap self.old.count (upper_in self.old.bytes) size
            → LieInOrder self.new.bytes (slots_in self.old.count self.old.bytes) self.new.count }
        ensures packed { ¬ HasGap self.old.count (upper_in self.old.bytes) size
            → upper_in self.new.bytes
            + sum_by bytes_taken (slots_in self.old.count self.old.bytes) ≡ PAGE_BYTES }
    {
        if self.upper() < PAGE_HEADER_BYTES + 4 * self.len() + size {
            self.compact();
        }
    }

    /// Puts a version in the place of the slot at an index.
    pub fn add(&mut self, index: usize, header: &Header, row: &Row)
        requires there { index < self.old.count }
        requires room { 4 * self.old.count
            + sum_by bytes_taken (slots_in self.old.count self.old.bytes)
            + rounded_size_of row.now ≤ MOST_BYTES }
        requires faultless { header_fault header.now ≡ None }
        ensures count { self.new.count ≡ self.old.count }
        ensures slots { SlotsBecome self.old.bytes self.new.bytes self.new.count
            (slice_set (slots_in self.old.count self.old.bytes) index
            (Slot.Normal (record { header = header.now; row = row.now }))) }
        ensures places { IsPutBelow (slots_in self.old.count self.old.bytes) (places_of self.old)
            (places_of self.new) (index + 1) (rounded_size_of row.now) (rounded_size_of row.now) }
    {
        self.make_way(row_size(row));
        put_below(&mut self.bytes, self.count, index, header, row);
        self.lying = Lying::Anyhow;
    }

    /// Puts a version behind all slots, of which there are fewer than a page may have.
    pub fn push(&mut self, header: &Header, row: &Row)
        requires few { self.old.count < MOST_SLOTS }
        requires room { 4 * self.old.count
            + sum_by bytes_taken (slots_in self.old.count self.old.bytes)
            + (rounded_size_of row.now + 4) ≤ MOST_BYTES }
        requires faultless { header_fault header.now ≡ None }
        ensures count { self.new.count ≡ self.old.count + 1 }
        ensures slots { SlotsBecome self.old.bytes self.new.bytes self.new.count
            (slots_in self.old.count self.old.bytes
            ++ Slot.Normal (record { header = header.now; row = row.now }) ∷ []) }
        ensures places { IsPutBelow (slots_in self.old.count self.old.bytes) (places_of self.old)
            (places_of self.new) (self.old.count + 1) (rounded_size_of row.now)
            (rounded_size_of row.now + 4) }
    {
        self.make_way(row_size(row) + 4);
        let index = self.count;
        self.grow();
        put_below(&mut self.bytes, self.count, index, header, row);
    }

    /// Lets the gap reach to the end of the page, on which no version is.
    fn lift_upper(&mut self)
        requires none { sum_by bytes_taken (slots_in self.old.count self.old.bytes) ≡ 0 }
        ensures count { self.new.count ≡ self.old.count }
        ensures slots { SlotsBecome self.old.bytes self.new.bytes self.new.count
            (slots_in self.old.count self.old.bytes) }
        ensures upper { upper_in self.new.bytes ≡ PAGE_BYTES }
        ensures pointers { (i : ℕ) → i < self.old.count
            → pointer_in self.new.bytes i ≡ pointer_in self.old.bytes i }
    {
        let _count = self.count;
        put_u16(&mut self.bytes, 14, PAGE_BYTES as u16);
        self.lying = Lying::InOrder;
    }
}
