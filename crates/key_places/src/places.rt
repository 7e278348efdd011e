//! A list of places, each near a position that its key gives.

use std::alloc::Global;
use std::mem::size_of;
use xid_circle::Tid;

/// How many positions a list begins with. It is a power of two, and stays one.
const FIRST_COUNT: usize = 256;

/// How many positions a place may stand at: those that differ from that of its key in the last three bits. They are 64 bytes.
const GROUP: usize = 8;

/// Where a root of a key was made, perhaps.
#[derive(Clone, Copy, Debug)]
pub struct RootHint {
    /// Its place.
    pub place: Tid,
    /// Where on its page its bytes begin.
    pub from: u16,
}

/// A hint, and what tells most keys apart, as one number. From its top stand 29 bits of the key, 16 of the page, 9 of the slot, and
/// 10 of where the bytes begin, which is a multiple of 8. So eight stand in 64 bytes. Slots are counted from 1.
#[derive(Clone, Copy, Debug)]
struct KeyPlace {
    bits: u64,
}

const _: () = prove!(size_of::<KeyPlace>() == 8);

/// That no place is noted.
const NOTHING: KeyPlace = KeyPlace { bits: 0 };

impl KeyPlace {
    /// The hint of a key of this tag. Of a number that has too many bits the upper ones are lost: there is none of a page or a slot.
    #[inline(always)]
    fn new(tag: u32, root: RootHint) -> KeyPlace {
        let page = u64::from(root.place.page) % (1 << 16);
        let slot = u64::from(root.place.slot) % (1 << 9);
        let from = u64::from(root.from) / 8 % (1 << 10);
        KeyPlace {
            bits: u64::from(tag) << 35 | page << 19 | slot << 10 | from,
        }
    }

    /// What is kept of the key.
    #[inline(always)]
    fn tag(self) -> u32 {
        (self.bits >> 35) as u32
    }

    /// Whether no place is noted.
    #[inline(always)]
    fn is_empty(self) -> bool {
        self.bits >> 10 & 0x1ff == 0
    }

    /// What is noted.
    #[inline(always)]
    fn root(self) -> RootHint {
        let place = Tid {
            page: (self.bits >> 19 & 0xffff) as u32,
            slot: (self.bits >> 10 & 0x1ff) as u16,
        };
        RootHint {
            place,
            from: (self.bits & 0x3ff) as u16 * 8,
        }
    }
}

/// The last 29 bits of a key, into which its other bits are folded. So the first keys have a position each, keys near each other
/// have positions near each other, and keys that differ in their upper bits alone have different ones too.
#[inline(always)]
fn tag_of(key: u64) -> u32 {
    let mut bits = key ^ key >> 29 ^ key >> 58;
    bits ^= bits >> 19;
    bits ^= bits >> 11;
    bits ^= bits >> 7;
    (bits % (1 << 29)) as u32
}

/// Where the newest root of each key was made, as far as it is known: a hint. It may name a place of another key, or none, so
/// whoever takes it looks there. Nothing is promised of what it holds.
#[derive(Debug, Drop)]
pub struct KeyPlaces {
    // none, or as many as a power of two says
    places: Vec<KeyPlace>,
    are_wanted: bool,
}

impl KeyPlaces {
    /// No place is noted, nor ever will be unless places are wanted.
    pub fn new(alloc: Global, are_wanted: bool) -> Self {
        KeyPlaces {
            places: Vec::new(alloc),
            are_wanted,
        }
    }

    /// Where a root of the key was made last, perhaps.
    #[inline(always)]
    pub fn get(&self, key: u64) -> Option<RootHint> {
        let tag = tag_of(key);
        let position = self.position(tag);
        for n in 0..GROUP {
            let noted = self.places.get(position ^ n)?;
            if noted.tag() == tag {
                return Some(noted.root());
            }
        }
        None
    }

    /// Notes where a root of the key was made, and that the index by key has so many entries. Where more memory is
    /// wanted and refused, less is noted.
    #[inline(always)]
    pub fn note(&mut self, key: u64, root: RootHint, entries: u64) {
        if !self.are_wanted {
            return;
        }
        if entries > self.places.len() as u64 {
            self.grow();
        }
        self.put(KeyPlace::new(tag_of(key), root));
    }

    /// Puts a place at the first of its positions that has another of its tag, or none; or at the first of all.
    #[inline(always)]
    fn put(&mut self, noted: KeyPlace) {
        let position = self.position(noted.tag());
        for n in 0..GROUP {
            if let Some(old) = self.places.get_mut(position ^ n) {
                if old.tag() == noted.tag() || old.is_empty() {
                    *old = noted;
                    return;
                }
            }
        }
        if let Some(old) = self.places.get_mut(position) {
            *old = noted;
        }
    }

    /// The first position of the key of this tag.
    #[inline(always)]
    fn position(&self, tag: u32) -> usize {
        tag as usize & self.places.len().wrapping_sub(1)
    }

    /// Twice as many positions, if there is memory.
    #[inline(never)]
    fn grow(&mut self) {
        if self.places.is_empty() {
            self.begin();
        } else {
            self.double();
        }
    }

    /// As many positions as a list begins with.
    fn begin(&mut self) {
        if self.places.try_reserve(FIRST_COUNT).is_err() {
            return;
        }
        for _ in 0..FIRST_COUNT {
            self.places.push_reserved(NOTHING);
        }
    }

    /// Makes two positions of each. The tag of a place tells to which of the two it goes.
    fn double(&mut self) {
        let count = self.places.len();
        if self.places.try_reserve(count).is_err() {
            return;
        }
        for n in 0..count {
            let noted = self.places[n];
            if noted.tag() as usize & count == 0 {
                self.places.push_reserved(NOTHING);
            } else {
                self.places[n] = NOTHING;
                self.places.push_reserved(noted);
            }
        }
    }
}
