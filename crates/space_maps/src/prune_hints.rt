//! What is known of when pruning a page may take something, and from where.

ghost use Rattle.std.specs.Prelude.{◌≡◌, ◌≢◌, ℕ, ◌+◌, ◌-◌, ◌≤◌, ◌<◌, [], ◌∷◌, ◌++◌, Option, Some, None, IsTrue, length, map, slice_set, vec_len, vec_capacity, OnOk, OnErr};
ghost use Rattle.space_maps.specs.Hints.{hint_on, hint_in, nothing_known, AddsDoubt, Lowers};

use std::alloc::{AllocError, Global};
use std::marker::Model;
use std::mem::size_of;

/// How many slots of a page may be noted as doubtful.
pub const DOUBT_PLACES: usize = 7;

/// The only slots of a page whose versions may be dead, now or later, where they are known and at most seven: their numbers, and 0
/// for none.
pub type Doubts = Option<[u16; DOUBT_PLACES]>;

/// What was noted of a page, and in which epoch: later it says nothing.
#[derive(Clone, Copy, Debug)]
struct PruneHint {
    epoch: u64,
    turn: Option<u32>,
    doubts: Doubts,
}

const _: () = prove!(size_of::<PruneHint>() == 32);

impl PruneHint {
    /// A hint of this epoch that says nothing.
    fn nothing(epoch: u64) -> PruneHint
        ensures epoch { result.epoch ≡ epoch }
        ensures turn { result.turn ≡ None }
        ensures doubts { result.doubts ≡ None }
    {
        PruneHint {
            epoch,
            turn: None,
            doubts: None,
        }
    }

    /// Lowers what it says to this turn, where that is earlier, and adds a slot to its doubts.
    fn lower(&mut self, turn: u32, slot: u16)
        ensures epoch { self.new.epoch ≡ self.old.epoch }
        ensures lowers { Lowers (record { turn = self.old.turn; doubts = self.old.doubts })
            turn slot (record { turn = self.new.turn; doubts = self.new.doubts }) }
    {
        self.turn = self.turn.map(|known| known.min(turn));
        add_doubt(&mut self.doubts, slot);
    }

    /// A hint of this epoch that says what this one says in it.
    fn in_epoch(self, epoch: u64) -> PruneHint
        ensures epoch { result.epoch ≡ epoch }
        ensures says { record { turn = result.turn; doubts = result.doubts }
            ≡ hint_in epoch self.epoch self.turn self.doubts }
    {
        if self.epoch == epoch {
            self
        } else {
            PruneHint::nothing(epoch)
        }
    }
}

/// Puts one more slot among these, and answers whether there was a place for it.
fn put_doubt(numbers: &mut [u16; DOUBT_PLACES], slot: u16) -> bool
    ensures { IsTrue result → AddsDoubt (Some numbers.old) slot (Some numbers.new) }
{
    for place in 0..DOUBT_PLACES {
        if numbers[place] == 0 || numbers[place] == slot {
            numbers[place] = slot;
            return true;
        }
    }
    false
}

/// Adds one more slot, where there are at most seven then.
fn add_doubt(doubts: &mut Doubts, slot: u16)
    ensures { AddsDoubt doubts.old slot doubts.new }
{
    let has_place = match doubts {
        Some(numbers) => put_doubt(numbers, slot),
        None => true,
    };
    if !has_place {
        *doubts = None;
    }
}

/// These slots and one more, where there are at most seven then.
pub fn with_doubt(doubts: Doubts, slot: u16) -> Doubts
    ensures { AddsDoubt doubts slot result }
{
    let mut more = doubts;
    add_doubt(&mut more, slot);
    more
}

/// For each page the turn from which on a version on it may be dead, and the slots whose versions may be, as far as they are known. All
/// that is known ends at once where an epoch does. PostgreSQL keeps one id on each page, as pd_prune_xid; this is kept beside the pages.
#[derive(Debug, Drop)]
pub struct PruneHints {
    epoch: u64,
    hints: Vec<PruneHint>,
}

impl Model for PruneHints {
    ghost use Rattle.std.specs.Prelude.{◌-◌, ◌≤◌, map, vec_len, vec_capacity};
    ghost use Rattle.std.specs.List.{All};
    ghost use Rattle.space_maps.specs.Hints.{HintsView, hint_in};

    ghost Value = { HintsView };

    ghost view = { λ h. record {
      pages = map (λ hint. hint_in h.epoch hint.epoch hint.turn hint.doubts) h.hints.items;
      spare = vec_capacity h.hints - vec_len h.hints;
    } };

    ghost invariant = { λ h. All (λ hint. hint.epoch ≤ h.epoch) h.hints.items };
}

impl PruneHints {
    /// Hints on no page.
    pub fn new(alloc: Global) -> Self
        ensures pages { result.pages ≡ [] }
    {
        PruneHints {
            epoch: 0,
            hints: Vec::new(alloc),
        }
    }

    /// The turn from which on a version of the page of this number may be dead, if it is known. (The hints are private, here and below.)
    pub fn turn(&self, number: u32) -> Option<u32>
        ensures { result ≡ (hint_on self.now.pages number).turn }
    {
        self.hint(number).turn
    }

    /// The slots of the page of this number whose versions may be dead, if they are known.
    pub fn doubts(&self, number: u32) -> Doubts
        ensures { result ≡ (hint_on self.now.pages number).doubts }
    {
        self.hint(number).doubts
    }

    /// Notes this turn of a page. A page beyond those that have a hint gets none.
    pub fn note(&mut self, number: u32, turn: u32)
        ensures pages { self.new.pages ≡ slice_set self.old.pages number
            (record (hint_on self.old.pages number) { turn = Some turn }) }
        ensures spare { self.new.spare ≡ self.old.spare }
    {
        let mut hint = self.hint(number);
        hint.turn = Some(turn);
        self.put(number, hint);
    }

    /// Notes which slots of a page are doubtful, or that it isn't known.
    pub fn note_doubts(&mut self, number: u32, doubts: Doubts)
        ensures pages { self.new.pages ≡ slice_set self.old.pages number
            (record (hint_on self.old.pages number) { doubts = doubts }) }
        ensures spare { self.new.spare ≡ self.old.spare }
    {
        let mut hint = self.hint(number);
        hint.doubts = doubts;
        self.put(number, hint);
    }

    /// Notes that a version in this slot of a page may be dead from this turn on. What is known of the page is lowered to this turn,
    /// where that is earlier. Where nothing is known, nothing is after it.
    pub fn lower(&mut self, number: u32, turn: u32, slot: u16)
        ensures here { Lowers (hint_on self.old.pages number) turn slot
            (hint_on self.new.pages number) }
        ensures others { (m : ℕ) → m ≢ number
            → hint_on self.new.pages m ≡ hint_on self.old.pages m }
        ensures spare { self.new.spare ≡ self.old.spare }
    {
        let index = number as usize;
        if index < self.hints.len() && self.hints[index].epoch == self.epoch {
            self.hints[index].lower(turn, slot);
        }
    }

    /// Nothing is known of a page any more.
    pub fn end(&mut self, number: u32)
        ensures pages { self.new.pages ≡ slice_set self.old.pages number nothing_known }
        ensures spare { self.new.spare ≡ self.old.spare }
    {
        let hint = PruneHint::nothing(self.epoch);
        self.put(number, hint);
    }

    /// Nothing is known of any page any more.
    pub fn end_all(&mut self)
        ensures none { (n : ℕ) → hint_on self.new.pages n ≡ nothing_known }
        ensures count { length self.new.pages ≡ length self.old.pages }
        ensures spare { self.new.spare ≡ self.old.spare }
    {
        if self.epoch < u64::MAX {
            self.epoch += 1;
        } else {
            self.end_each();
        }
    }

    /// Makes room in memory for the hints on `count` more pages. No hint changes, also where memory is refused. (They are private.)
    pub fn make_room(&mut self, count: usize) -> Result<(), AllocError>
        ensures room { OnOk result (count ≤ self.new.spare) }
        ensures refused { OnErr result (self.old.spare < count) }
        ensures spare { self.old.spare ≤ self.new.spare }
        ensures pages { self.new.pages ≡ self.old.pages }
    {
        self.hints.try_reserve(count)
    }

    /// Extends the hints to the first `count` pages, within the memory set aside. Nothing is known of the pages that it adds.
    pub fn cover(&mut self, count: usize)
        ensures each { (n : ℕ) → hint_on self.new.pages n ≡ hint_on self.old.pages n }
        ensures keeps { length self.old.pages ≤ length self.new.pages }
        ensures spare { length self.new.pages + self.new.spare
            ≡ length self.old.pages + self.old.spare }
        ensures reaches { count ≤ length self.old.pages + self.old.spare
            → count ≤ length self.new.pages }
    {
        let end = count.min(self.hints.capacity());
        if self.hints.len() < end {
            self.fill_up(end);
        }
    }

    // What is known of a page, as a hint of this epoch.
    #[inline(always)]
    fn hint(&self, number: u32) -> PruneHint
        ensures says { record { turn = result.turn; doubts = result.doubts }
            ≡ hint_on self.now.pages number }
    {
        match self.hints.get(number as usize) {
            Some(hint) => hint.in_epoch(self.epoch),
            None => PruneHint::nothing(self.epoch),
        }
    }

    // Adds hints that say nothing, until there are so many.
    fn fill_up(&mut self, count: usize)
        requires more { length self.old.pages ≤ count }
        requires room { count ≤ length self.old.pages + self.old.spare }
        ensures each { (n : ℕ) → hint_on self.new.pages n ≡ hint_on self.old.pages n }
        ensures count { length self.new.pages ≡ count }
        ensures spare { count + self.new.spare ≡ length self.old.pages + self.old.spare }
    {
        let nothing = PruneHint::nothing(self.epoch);
        for _ in self.hints.len()..count {
            self.hints.push_reserved(nothing);
        }
    }

    // Says of a page what this hint says, where the page has one.
    fn put(&mut self, number: u32, hint: PruneHint)
        ensures pages { self.new.pages ≡ slice_set self.old.pages number
            (record { turn = hint.turn; doubts = hint.doubts }) }
        ensures spare { self.new.spare ≡ self.old.spare }
    {
        let of_now = PruneHint {
            epoch: self.epoch,
            turn: hint.turn,
            doubts: hint.doubts,
        };
        if (number as usize) < self.hints.len() {
            self.hints[number as usize] = of_now;
        }
    }

    // The same as a new epoch, where there are no more numbers for one.
    fn end_each(&mut self)
        ensures none { (n : ℕ) → hint_on self.new.pages n ≡ nothing_known }
        ensures count { length self.new.pages ≡ length self.old.pages }
        ensures spare { self.new.spare ≡ self.old.spare }
    {
        let count = self.hints.len();
        self.hints.clear();
        self.fill_up(count);
    }
}
