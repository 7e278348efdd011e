//! Pages. What only asks or changes the sheet is here since that is private: callers see a page as its slots.

ghost use Rattle.std.specs.Prelude.{◌≡◌, ◌⊎◌, ◌≤◌, ◌<◌, ◌+◌, ◌*◌, ℕ, sum_by, [], true, false, length, IfSome, IsSome, IsTrue, ◌↔◌, Some, None, MatchOption, Err, OnOk, OnErr, IfOk};
ghost use Rattle.std.specs.Option.{option_map};
ghost use Rattle.tuple_header.specs.Faults.{header_fault};
ghost use Rattle.tuple_header.specs.Version.{rounded_size_of};
ghost use Rattle.page_sheet.specs.declared.sheet.TheConstants.{MOST_BYTES};
ghost use Rattle.page_layout.specs.declared.sizes.TheConstants.{PAGE_BYTES};
ghost use Rattle.page_sheet.specs.Layout.{shown_by};
ghost use Rattle.page_slots.specs.Reading.{page_of};
ghost use Rattle.page_slots.specs.Faults.{AreSoundRedirects, page_fault};
ghost use Rattle.page_sheet.specs.Standing.{length_at, LiesWithin};
ghost use Rattle.page_sheet.specs.Placing.{no_places, start_at, gap_wanted, IsPutBelow};
ghost use Rattle.page_slots.specs.View.{with_bare_slot};
ghost use Rattle.page_layout.specs.Sound.{HoldsNoVersion};
ghost use Rattle.page_sheet.specs.Slots.{is_unused, is_dead, is_undeleted_by, redirects_to, head_of, slot_at, version_at, header_at, row_at, undeleted_row_at, key_at, redirect_at, IsRedirected, SlotIsThere, IsNormalAt, the_slot, with_header_at, has_unused, free_number, with_added, bytes_taken, free_bytes, room_of, next_change, change_unless, differs_in_hints_alone};

use page_layout::Pointer;
use page_sheet::{MOST_BYTES, Sheet, Slot, SlotHead};
use std::marker::Model;
use thiserror::Error;
use tuple_header::{Header, MOST_SLOTS, Row, RowRef, Tuple, differ_in_hints_alone, row_size};
use xid_circle::Xid;

/// Why a version was not added.
#[derive(Clone, Copy, Debug, PartialEq, Eq, Error)]
pub enum AddFault {
    /// The version's size is over the page's room.
    #[error("there is no room on the page")]
    Full,
}

/// A page of the table: at most 291 slots, whose pointers and versions take at most 8168 bytes.
#[derive(Debug, Drop)]
pub struct Page {
    pub(crate) sheet: Sheet,
    // The index of the first unused slot, or how many slots there are.
    pub(crate) free: usize,
    // How many bytes the versions take, each rounded up.
    pub(crate) taken_bytes: usize,
}

impl Model for Page {
    ghost use Rattle.std.specs.Prelude.{◌==◌, not};
    ghost use Rattle.page_slots.specs.View.{PageView, AreTallied};
    ghost use Rattle.page_layout.specs.Layout.{change_in, flags_in};
    ghost use Rattle.page_sheet.specs.Layout.{slots_in};
    ghost use Rattle.page_sheet.specs.Placing.{places_in};

    ghost Value = { PageView };

    ghost view = { λ p. record {
      slots = slots_in p.sheet.count p.sheet.bytes;
      change = change_in p.sheet.bytes;
      flag = not (flags_in p.sheet.bytes == 0);
      places = places_in p.sheet.count p.sheet.bytes;
    } };

    ghost invariant = { λ p.
        AreTallied (slots_in p.sheet.count p.sheet.bytes) p.free p.taken_bytes };
}

/// The index in the list of slots that this number stands for, unless it is 0.
#[inline(always)]
fn index_of(number: u16) -> Option<usize>
    ensures { MatchOption result (number ≡ 0) (λ index. number ≡ index + 1) }
{
    usize::from(number).checked_sub(1)
}

impl Page {
    /// A page with no slot, never changed, on which not all is visible to all.
    pub fn new() -> Self
        ensures slots { result.slots ≡ [] }
        ensures change { result.change ≡ 0 }
        ensures flag { result.flag ≡ false }
        ensures places { result.places ≡ no_places }
    {
        Page {
            sheet: Sheet::new(),
            free: 0,
            taken_bytes: 0,
        }
    }

    /// Becomes equal to another page, byte for byte, of which its contract says what a page shows. It takes no memory.
    pub fn copy_from(&mut self, other: &Page)
        ensures { self.new ≡ other.now }
    {
        self.sheet.copy_from(&other.sheet);
        self.free = other.free;
        self.taken_bytes = other.taken_bytes;
    }

    /// The number of slots, at most 291.
    pub fn slots(&self) -> u16
        ensures count { result ≡ length self.now.slots }
        ensures limit { result ≤ MOST_SLOTS }
    {
        self.sheet.len() as u16
    }

    /// How often a slot was changed otherwise than in hints, modulo 2^64.
    pub fn change(&self) -> u64
        ensures { result ≡ self.now.change }
    {
        self.sheet.change()
    }

    /// Whether all versions are visible to all, as last set.
    pub fn flag(&self) -> bool
        ensures { result ≡ self.now.flag }
    {
        self.sheet.flags() != 0
    }

    /// Sets whether all versions are visible to all. The change number stays.
    pub fn set_flag(&mut self, flag: bool)
        ensures { self.new ≡ record self.old { flag = flag } }
    {
        self.sheet.set_flag(flag);
    }

    /// The 8192 bytes of the page, where they stand. Where each redirect leads to a heap-only version they have no fault.
    pub fn bytes(&self) -> &[u8]
        ensures page { page_of result.now ≡ self.now }
        ensures long { length result.now ≡ PAGE_BYTES }
        ensures accepted { AreSoundRedirects self.now.slots → page_fault result.now ≡ None }
    {
        self.sheet.bytes()
    }

    /// The slot of this number, by value, if there is one. It takes no memory.
    pub fn slot(&self, number: u16) -> Option<Slot>
        ensures value { result ≡ slot_at self.now.slots number }
        ensures there { IsSome result ↔ SlotIsThere self.now.slots number }
    {
        let index = index_of(number)?;
        if index < self.sheet.len() {
            Some(self.sheet.slot(index))
        } else {
            None
        }
    }

    /// The header of the version in the slot of this number, if that is there and normal.
    pub fn header(&self, number: u16) -> Option<Header>
        ensures value { result ≡ header_at self.now.slots number }
        ensures there { IsSome result → SlotIsThere self.now.slots number }
        ensures normal { IsSome result ↔ IsNormalAt self.now.slots number }
        ensures faultless { IfSome result (λ header. header_fault header ≡ None) }
    {
        let index = index_of(number)?;
        if index < self.sheet.len() {
            self.sheet.header(index)
        } else {
            None
        }
    }

    /// What the slot of this number, which is there, tells without its row, by one look.
    #[inline(always)]
    pub fn head(&self, number: u16) -> SlotHead
        requires { SlotIsThere self.now.slots number }
        ensures { result ≡ head_of (the_slot self.now.slots number) }
    {
        self.sheet.head(usize::from(number) - 1)
    }

    /// The key of the version in the slot of this number, if that is there and normal.
    pub fn key(&self, number: u16) -> Option<u64>
        ensures value { result ≡ key_at self.now.slots number }
        ensures there { IsSome result → SlotIsThere self.now.slots number }
        ensures normal { IsSome result ↔ IsNormalAt self.now.slots number }
    {
        let index = index_of(number)?;
        if index < self.sheet.len() {
            self.sheet.key(index)
        } else {
            None
        }
    }

    /// The row of the version in the slot of this number, where it stands, if that is there and normal.
    pub fn row(&self, number: u16) -> Option<RowRef<'_>>
        ensures value { result ≡ row_at self.now.slots number }
        ensures there { IsSome result → SlotIsThere self.now.slots number }
        ensures normal { IsSome result ↔ IsNormalAt self.now.slots number }
    {
        let index = index_of(number)?;
        if index < self.sheet.len() {
            self.sheet.row(index)
        } else {
            None
        }
    }

    /// The header and the row of the version in the slot of this number, where they stand, if that is there and normal, and its bytes
    /// begin at `from`. So who knows where they begin waits for them beside the pointer, and not after it.
    #[inline(always)]
    pub fn version_from(&self, number: u16, from: u16) -> Option<(Header, RowRef<'_>)>
        ensures value { IfSome result (λ found. version_at self.now.slots number
            ≡ Some (record { header = found.0; row = found.1 })) }
        ensures faultless { IfSome result (λ found. header_fault found.0 ≡ None) }
        ensures begins { IsSome result ↔ (start_at self.now.places number ≡ Some from) }
    {
        let index = index_of(number)?;
        if index < self.sheet.len() {
            self.sheet.version_from(index, from)
        } else {
            None
        }
    }

    /// The row of the version in the slot of this number, where it stands, if that is there and normal, this id made it, and nobody
    /// deleted it.
    #[inline(always)]
    pub fn undeleted_row(&self, number: u16, inserter: Xid) -> Option<RowRef<'_>>
        ensures { result ≡ undeleted_row_at self.now.slots inserter.0 number }
    {
        let index = index_of(number)?;
        if index < self.sheet.len() {
            self.sheet.undeleted_row(index, inserter)
        } else {
            None
        }
    }

    /// Where the bytes of the version in the slot of this number begin, and how many they are, if it is there and normal.
    pub fn place(&self, number: u16) -> Option<(u16, u16)>
        ensures normal { IsSome result ↔ IsNormalAt self.now.slots number }
        ensures size { IfSome result (λ place. length_at self.now.slots number ≡ Some place.1) }
        ensures within { IfSome result (λ place. LiesWithin place.0 place.1) }
        ensures start { option_map (λ place. place.0) result ≡ start_at self.now.places number }
    {
        let index = index_of(number)?;
        if index < self.sheet.len() {
            match self.sheet.extent(index) {
                Some(extent) => Some((extent.from, extent.len)),
                None => None,
            }
        } else {
            None
        }
    }

    /// Where the slot of this number leads, if that is there and a redirect.
    pub fn redirect(&self, number: u16) -> Option<u16>
        ensures value { result ≡ redirect_at self.now.slots number }
        ensures there { IsSome result → SlotIsThere self.now.slots number }
    {
        let index = index_of(number)?;
        if index < self.sheet.len() {
            self.sheet.redirect(index)
        } else {
            None
        }
    }

    /// Whether the slot of this number, which is there, is a redirect to another.
    #[inline(always)]
    pub fn redirects_to(&self, number: u16, target: u16) -> bool
        requires { SlotIsThere self.now.slots number }
        ensures { result ≡ redirects_to target (the_slot self.now.slots number) }
    {
        self.sheet.redirects_to(usize::from(number) - 1, target)
    }

    /// Whether some slot is a redirect to the slot of this number.
    pub fn is_redirected(&self, number: u16) -> bool
        ensures { IsTrue result ↔ IsRedirected self.now.slots number }
    {
        self.sheet.is_redirected(number)
    }

    /// Whether the slot of this number is there and dead.
    pub fn is_dead(&self, number: u16) -> bool
        ensures { IsTrue result ↔ (slot_at self.now.slots number ≡ Some Slot.Dead) }
    {
        match index_of(number) {
            Some(index) => index < self.sheet.len() && self.sheet.is_dead(index),
            None => false,
        }
    }

    /// The number of the first slot, from the number `from` on, that holds anything but a version of this inserter which nobody
    /// deleted. Where there is none, it is one more than the last slot's. From 0 on is from 1 on.
    #[tactic(auto, using(page_sheet::proofs::Sounds::length_is))]
    pub fn next_unlike(&self, from: u16, inserter: Xid) -> u16
        ensures passed { (n : ℕ) → from ≤ n → 1 ≤ n → n < result
            → is_undeleted_by inserter.0 (the_slot self.now.slots n) ≡ true }
        ensures found { result ≤ length self.now.slots → (from ≤ result)
            × (is_undeleted_by inserter.0 (the_slot self.now.slots result) ≡ false) }
        ensures there { (1 ≤ result) × (result ≤ length self.now.slots + 1) }
    {
        self.sheet
            .next_unlike(usize::from(from).saturating_sub(1), inserter) as u16
            + 1
    }

    /// The number of the last slot, up to the number `upto`, that holds anything but a version of this inserter which nobody
    /// deleted. It is 0 where there is none. The number `upto` is not over the last slot's.
    #[inline(always)]
    #[tactic(auto, using(page_sheet::proofs::Sounds::length_is))]
    pub fn last_unlike(&self, upto: u16, inserter: Xid) -> u16
        requires { upto ≤ length self.now.slots }
        ensures passed { (n : ℕ) → result < n → n ≤ upto
            → is_undeleted_by inserter.0 (the_slot self.now.slots n) ≡ true }
        ensures found { 1 ≤ result
            → is_undeleted_by inserter.0 (the_slot self.now.slots result) ≡ false }
        ensures bound { result ≤ upto }
    {
        self.sheet.last_unlike(usize::from(upto), inserter) as u16
    }

    /// How many bytes the version in the slot of this number takes, which is there: 0 where it holds none.
    pub fn version_size(&self, number: u16) -> usize
        requires { SlotIsThere self.now.slots number }
        ensures { result ≡ bytes_taken (the_slot self.now.slots number) }
    {
        self.sheet.version_size(usize::from(number) - 1)
    }

    /// The number that the next version added gets: of the lowest unused slot, or else of a new last one. It is 292 where
    /// there is no place.
    #[tactic(auto, using(page_sheet::proofs::SlotLemmas::first_within))]
    pub fn free_number(&self) -> u16
        ensures value { result ≡ free_number self.now.slots }
        ensures limit { result ≤ MOST_SLOTS + 1 }
    {
        self.free as u16 + 1
    }

    /// What of 8168 bytes neither versions nor pointers of 4 bytes take.
    #[tactic(auto, using(page_sheet::proofs::Sounds::length_is))]
    pub fn free_bytes(&self) -> usize
        ensures value { result ≡ free_bytes self.now.slots }
        ensures all { result + (4 * length self.now.slots + sum_by bytes_taken self.now.slots)
            ≡ MOST_BYTES }
    {
        MOST_BYTES - (4 * self.sheet.len() + self.taken_bytes)
    }

    /// The largest size of a version that fits, in bytes, as if versions were moved together. It is what neither
    /// versions nor pointers of 4 bytes take of 8168 bytes, less 4 for a new slot where none is unused.
    #[tactic(auto, using(page_sheet::proofs::SlotLemmas::first_within, page_sheet::proofs::Sounds::length_is))]
    pub fn room(&self) -> usize
        ensures value { result ≡ room_of self.now.slots }
        ensures limit { result ≤ 8164 }
        ensures place { 0 < result → free_number self.now.slots ≤ MOST_SLOTS }
    {
        let count = self.sheet.len();
        let free_bytes = self.free_bytes();
        if self.free < count {
            free_bytes
        } else if count < usize::from(MOST_SLOTS) {
            free_bytes.saturating_sub(4)
        } else {
            0
        }
    }

    /// Adds a version in the lowest unused slot, or else in a new last one, and answers the slot's number. It answers Full
    /// exactly where the version's size is over the room, and then changes no slot. It takes no memory.
    pub fn add(&mut self, version: Tuple) -> Result<u16, AddFault>
        ensures full { (result ≡ Err AddFault.Full)
            ↔ (room_of self.old.slots < rounded_size_of version.row) }
        ensures number { IfOk result (λ n. n ≡ free_number self.old.slots) }
        ensures limit { IfOk result (λ n. n ≤ MOST_SLOTS) }
        ensures slots { OnOk result
            (self.new.slots ≡ with_added self.old.slots (Slot.Normal version)) }
        ensures change { OnOk result (self.new.change ≡ next_change self.old.change) }
        ensures flag { self.new.flag ≡ self.old.flag }
        ensures places { IfOk result (λ n. IsPutBelow self.old.slots self.old.places
            self.new.places n (rounded_size_of version.row)
            (gap_wanted self.old.slots (rounded_size_of version.row))) }
        ensures err { OnErr result (self.new ≡ self.old) }
    {
        if row_size(&version.row) > self.room() {
            return Err(AddFault::Full);
        }
        let _free = self.free;
        Ok(self.add_row(version.header, &version.row))
    }

    /// Adds a version with this header of this row, which it copies nowhere but into its place. The version goes in the lowest
    /// unused slot, or else in a new last one, and the slot's number is the answer. The header has no fault, and the version's
    /// size is not over the room. It goes right below the others, which are moved together first where the gap is too small. It
    /// takes no memory.
    pub fn add_row(&mut self, header: Header, row: &Row) -> u16
        requires faultless { header_fault header ≡ None }
        requires room { rounded_size_of row.now ≤ room_of self.old.slots }
        ensures number { result ≡ free_number self.old.slots }
        ensures limit { result ≤ MOST_SLOTS }
        ensures slots { self.new.slots
            ≡ with_added self.old.slots (Slot.Normal (record { header = header; row = row.now })) }
        ensures change { self.new.change ≡ next_change self.old.change }
        ensures flag { self.new.flag ≡ self.old.flag }
        ensures places { IsPutBelow self.old.slots self.old.places self.new.places result
            (rounded_size_of row.now) (gap_wanted self.old.slots (rounded_size_of row.now)) }
    {
        let _room = self.room();
        let index = self.free;
        if index < self.sheet.len() {
            self.sheet.add(index, &header, row);
        } else {
            self.sheet.push(&header, row);
        }
        self.free = self.sheet.first_unused_from(index + 1);
        self.taken_bytes += row_size(row);
        self.raise();
        index as u16 + 1
    }

    /// Gives the version in the slot of this number, which is there and normal, another header, which has no fault. The
    /// change number is raised where the header differs otherwise than in hints.
    pub fn set_header(&mut self, number: u16, header: Header)
        requires normal { IsNormalAt self.old.slots number }
        requires faultless { header_fault header ≡ None }
        ensures slots { self.new.slots ≡ with_header_at self.old.slots number header }
        ensures change { self.new.change
            ≡ change_unless
            (differs_in_hints_alone (the_slot self.old.slots number) header) self.old.change }
        ensures flag { self.new.flag ≡ self.old.flag }
        ensures places { self.new.places ≡ self.old.places }
    {
        let index = usize::from(number) - 1;
        let hints_alone = match self.sheet.header(index) {
            Some(old) => differ_in_hints_alone(&old, &header),
            None => true,
        };
        self.sheet.set_header(index, header);
        if !hints_alone {
            self.raise();
        }
    }

    // Counts one more change.
    fn raise(&mut self)
        ensures { self.new ≡ record self.old { change = next_change self.old.change } }
    {
        let change = self.sheet.change();
        self.sheet.set_change(change.wrapping_add(1));
    }

    /// Makes the slot of this number, which is there, unused. The change number is raised where it was not unused.
    pub fn set_unused(&mut self, number: u16)
        requires { SlotIsThere self.old.slots number }
        ensures { self.new ≡ with_bare_slot self.old number Slot.Unused
            (is_unused (the_slot self.old.slots number)) }
    {
        let same = self.sheet.is_unused(usize::from(number) - 1);
        self.put(number, Pointer::Unused, same);
    }

    /// Makes the slot of this number, which is there, dead. The change number is raised where it was not dead.
    pub fn set_dead(&mut self, number: u16)
        requires { SlotIsThere self.old.slots number }
        ensures { self.new ≡ with_bare_slot self.old number Slot.Dead
            (is_dead (the_slot self.old.slots number)) }
    {
        let same = self.sheet.is_dead(usize::from(number) - 1);
        self.put(number, Pointer::Dead, same);
    }

    /// Makes the slot of this number lead to the slot `target`. Both are there. The change number is raised where it did not
    /// lead there.
    pub fn set_redirect(&mut self, number: u16, target: u16)
        requires there { SlotIsThere self.old.slots number }
        requires target_there { SlotIsThere self.old.slots target }
        ensures { self.new ≡ with_bare_slot self.old number (Slot.Redirect target)
            (redirects_to target (the_slot self.old.slots number)) }
    {
        let same = self.sheet.redirects_to(usize::from(number) - 1, target);
        self.put(number, Pointer::Redirect(target), same);
    }

    // Lets a slot without a version be at this number.
    fn put(&mut self, number: u16, pointer: Pointer, same: bool)
        requires there { SlotIsThere self.old.slots number }
        requires bare { HoldsNoVersion (length self.old.slots) pointer }
        ensures { self.new ≡ with_bare_slot self.old number (shown_by [] pointer) same }
    {
        let index = usize::from(number) - 1;
        let from = match pointer {
            Pointer::Unused => self.free.min(index),
            _ => self.free,
        };
        let taken = self.sheet.version_size(index);
        self.taken_bytes -= taken;
        let last = taken > 0 && self.taken_bytes == 0;
        self.sheet.clear(index, pointer, last);
        self.free = self.sheet.first_unused_from(from);
        if !same {
            self.raise();
        }
    }
}
