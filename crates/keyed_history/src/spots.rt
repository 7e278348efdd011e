//! Where keys were written.

ghost use Rattle.std.specs.Prelude.{◌≡◌, ◌<◌, ℕ, ◌==◌, ◌&&◌, if◌then◌else◌, OnOk, OnErr, MatchOption, Some, None};
ghost use Rattle.keyed_history.specs.Spots.{noted_at};

use std::alloc::{AllocError, Global};
use std::collections::BTreeMap;

/// Of each key and each number of a transaction the place of a write, if there is one.
#[derive(Drop)]
pub(crate) struct Spots {
    places: BTreeMap<(u64, usize), usize>,
}

impl Spots {
    pub(crate) fn new(alloc: Global) -> Spots
        ensures { (key n : ℕ) → noted_at result.places key n ≡ None }
    {
        Spots {
            places: BTreeMap::new(alloc),
        }
    }

    /// Notes the place of a write.
    pub(crate) fn note(&mut self, key: u64, n: usize, place: usize) -> Result<(), AllocError>
        ensures ok { OnOk result ((k m : ℕ) → noted_at self.new.places k m
            ≡ (if key == k && n == m then Some place else noted_at self.old.places k m)) }
        ensures err { OnErr result
            ((k m : ℕ) → noted_at self.new.places k m ≡ noted_at self.old.places k m) }
    {
        self.places.insert((key, n), place)?;
        Ok(())
    }

    /// Forgets the place of a write.
    pub(crate) fn forget(&mut self, key: u64, n: usize)
        ensures { (k m : ℕ) → noted_at self.new.places k m
            ≡ (if key == k && n == m then None else noted_at self.old.places k m) }
    {
        let _ = self.places.remove(&(key, n));
    }

    /// The last transaction below n that wrote the key, and where.
    pub(crate) fn last_below(&self, key: u64, n: usize) -> Option<(usize, usize)>
        ensures { MatchOption result
            ((m : ℕ) → m < n → noted_at self.now.places key m ≡ None)
            (λ p. (p.0 < n) × (noted_at self.now.places key p.0 ≡ Some p.1)
            × ((m : ℕ) → p.0 < m → m < n → noted_at self.now.places key m ≡ None)) }
    {
        let first = (key, 0);
        let end = (key, n);
        match self.places.range(first..end).next_back() {
            Some((spot, place)) => Some((spot.1, *place)),
            None => None,
        }
    }
}
