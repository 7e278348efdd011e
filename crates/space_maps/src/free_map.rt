//! The free space map: a byte for each page, and the greatest of each group of 256.

ghost use Rattle.std.specs.Prelude.{◌≡◌, ℕ, ◌+◌, ◌*◌, ◌<◌, ◌≤◌, [], ◌∷◌, ◌++◌, length, max, min, slice_get, slice_set, slice_index, OnOk, OnErr};
ghost use Rattle.space_maps.specs.FreeSpace.{FindsNextByte, NoByte, FindsRoom};

use std::alloc::{AllocError, Global};
use std::marker::Model;

// A free-space byte counts so many bytes of room, and no more than that many times.
const UNIT: usize = 32;

const MOST: usize = 255;

// So many bytes make a group.
const GROUP: usize = 256;

// So many bytes make a run, of which the processor finds the greatest in a few instructions.
const RUN: usize = 16;

/// A byte for each of at most 65536 pages. A look-up looks at 256 groups at most, for the greatest byte that is noted of each. Where that
/// is large enough, it looks at the group's bytes, in runs. What is noted may be up to twice too high. PostgreSQL keeps a tree
/// of such bytes (src/backend/storage/freespace/README); this one has two levels, as many as 65536 pages need. As PostgreSQL remembers the
/// page that took a table's last version (RelationGetTargetBlock), the map remembers where its last look-up ended.
#[derive(Debug, Drop)]
pub struct FreeMap {
    bytes: Vec<u8>,
    // the greatest byte of each group, 0 where it has none
    tops: [u8; 256],
    // No byte before that of the page `before` is `least` or more: one memory for all sizes.
    before: u32,
    least: u8,
}

impl Model for FreeMap {
    ghost use Rattle.std.specs.Prelude.{◌-◌, vec_len, vec_capacity};
    ghost use Rattle.space_maps.specs.FreeSpace.{FreeView, IsMap, IsPassed};

    ghost Value = { FreeView };

    ghost view = { λ m. record {
      bytes = m.bytes.items;
      spare = vec_capacity m.bytes - vec_len m.bytes;
    } };

    ghost invariant = { λ m. IsMap m.tops m.bytes.items × IsPassed m.bytes.items m.before m.least };
}

impl FreeMap {
    /// A map of no page.
    pub fn new(alloc: Global) -> Self
        ensures { result.bytes ≡ [] }
    {
        FreeMap {
            bytes: Vec::new(alloc),
            tops: [0; 256],
            before: 0,
            least: 0,
        }
    }

    /// Makes room in memory for the bytes of `count` more pages. No byte changes, also where memory is refused. (They are private,
    /// here and below.)
    pub fn make_room(&mut self, count: usize) -> Result<(), AllocError>
        ensures room { OnOk result (count ≤ self.new.spare) }
        ensures refused { OnErr result (self.old.spare < count) }
        ensures spare { self.old.spare ≤ self.new.spare }
        ensures bytes { self.new.bytes ≡ self.old.bytes }
    {
        self.bytes.try_reserve(count)
    }

    /// Adds a new last page, of this byte. There is room for it in memory, and there are fewer than 65536 pages.
    pub fn add_page(&mut self, byte: u8)
        requires room { 0 < self.old.spare }
        requires few { length self.old.bytes < 65536 }
        ensures bytes { self.new.bytes ≡ self.old.bytes ++ byte ∷ [] }
        ensures spare { self.old.spare ≡ self.new.spare + 1 }
    {
        let group = self.bytes.len() / GROUP;
        self.bytes.push_reserved(byte);
        self.tops[group] = self.tops[group].max(byte);
    }

    /// The byte of the page of this number, if it is in use.
    pub fn byte(&self, number: u32) -> Option<u8>
        ensures { result ≡ slice_get self.now.bytes number }
    {
        self.bytes.get(number as usize).copied()
    }

    /// Notes this byte of the page of this number, which is in use. The group is looked at anew only where the byte falls to
    /// half of what is noted of it, or below, from over that. So what is noted is at most twice too high, and a page that fills costs eight looks.
    pub fn note(&mut self, number: u32, byte: u8)
        requires { number < length self.old.bytes }
        ensures bytes { self.new.bytes ≡ slice_set self.old.bytes number byte }
        ensures spare { self.new.spare ≡ self.old.spare }
    {
        if byte >= self.least && number < self.before {
            self.before = number;
        }
        let index = number as usize;
        let group = index / GROUP;
        let half = self.tops[group] / 2;
        let falls = self.bytes[index] > half && byte <= half;
        self.bytes[index] = byte;
        if falls {
            let end = (GROUP * group + GROUP).min(self.bytes.len());
            self.tops[group] = greatest(&self.bytes, GROUP * group, end);
        } else {
            self.tops[group] = self.tops[group].max(byte);
        }
    }

    /// The first page whose byte promises room for a version of this size in bytes: that it holds 32 bytes as often as the size
    /// needs. No byte changes. It begins where the last look-up ended, if that was for a version as large or smaller, else at
    /// page 0: so where two sizes alternate, every second look-up does.
    pub fn find(&mut self, size: usize) -> Option<u32>
        ensures found { FindsRoom self.old.bytes size result }
        ensures same { self.new ≡ self.old }
    {
        let _bytes = self.bytes.len();
        let least = size.div_ceil(UNIT);
        if least > MOST {
            return None;
        }
        self.find_byte(least as u8)
    }

    // The first page whose byte is `least` or more, if there is one. The next look-up begins there.
    fn find_byte(&mut self, least: u8) -> Option<u32>
        ensures found { FindsNextByte self.old.bytes 0 (length self.old.bytes) least result }
        ensures same { self.new ≡ self.old }
    {
        let found = self.next_at_once(self.start_of(least), least);
        self.remember(least, found);
        found
    }

    // Where a look-up begins: no page before that has a byte that is `least` or more.
    fn start_of(&self, least: u8) -> u32
        ensures { NoByte self.now.bytes 0 result least }
    {
        if least < self.least { 0 } else { self.before }
    }

    // The same as `next`, in a few instructions where the page of this number is the one.
    fn next_at_once(&self, from: u32, least: u8) -> Option<u32>
        ensures { FindsNextByte self.now.bytes from (length self.now.bytes) least result }
    {
        match self.byte(from) {
            Some(byte) if byte >= least => Some(from),
            _ => self.next(from, least),
        }
    }

    // Notes how a look-up for `least` ended.
    fn remember(&mut self, least: u8, found: Option<u32>)
        requires { FindsNextByte self.old.bytes 0 (length self.old.bytes) least found }
        ensures { self.new ≡ self.old }
    {
        self.before = found.unwrap_or(self.bytes.len() as u32);
        self.least = least;
    }

    /// The first page from this number on whose byte is `least` or more, if there is one.
    pub fn next(&self, from: u32, least: u8) -> Option<u32>
        ensures { FindsNextByte self.now.bytes from (length self.now.bytes) least result }
    {
        for group in from as usize / GROUP..self.bytes.len().div_ceil(GROUP) {
            if let Some(number) = self.next_of_group(group, from as usize, least) {
                return Some(number);
            }
        }
        None
    }

    // The same in one group, whose bytes are looked at only where the greatest of them is large enough.
    fn next_of_group(&self, group: usize, from: usize, least: u8) -> Option<u32>
        requires { group < GROUP }
        ensures { FindsNextByte self.now.bytes (max from (GROUP * group))
            (min (GROUP * group + GROUP) (length self.now.bytes)) least result }
    {
        if self.tops[group] < least {
            return None;
        }
        let end = (GROUP * group + GROUP).min(self.bytes.len());
        let start = pass_runs(&self.bytes, from.max(GROUP * group), end, least);
        next_between(&self.bytes, start, end, least)
    }
}

fn greatest(bytes: &[u8], from: usize, to: usize) -> u8
    requires { to ≤ length bytes.now }
    ensures { (k : ℕ) → from ≤ k → k < to → slice_index bytes.now k ≤ result }
{
    let mut greatest = 0;
    for number in from..to {
        greatest = bytes[number].max(greatest);
    }
    greatest
}

/// The number from which on one has to look at each byte: the runs before it have none that is large enough.
fn pass_runs(bytes: &[u8], from: usize, to: usize, least: u8) -> usize
    requires { to ≤ length bytes.now }
    ensures from { from ≤ result }
    ensures passed { NoByte bytes.now from result least }
{
    let mut start = from;
    while start < to && to - start >= RUN && greatest(bytes, start, start + RUN) < least {
        start += RUN;
    }
    start
}

fn next_between(bytes: &[u8], from: usize, to: usize, least: u8) -> Option<u32>
    requires few { length bytes.now ≤ 65536 }
    requires within { to ≤ length bytes.now }
    ensures { FindsNextByte bytes.now from to least result }
{
    for number in from..to {
        if bytes[number] >= least {
            return Some(number as u32);
        }
    }
    None
}
