//! For whom each session waits.

ghost use Rattle.std.specs.Prelude.{◌≡◌, ◌==◌, ◌↔◌, not, false, length, map, replicate, slice_set, IsTrue, Some, None};
ghost use Rattle.history.specs.Cursors.{kept_where};
ghost use Rattle.history.specs.World.{ClosesRing};
ghost use Rattle.calls.specs.declared.step.TheConstants.{MOST_SESSIONS};
ghost use Rattle.waits.specs.View.{wait_in};

use crate::ring::{closes_ring, wait_of};
use std::marker::Model;

/// For whom each of 64 sessions waits, if it waits for another. A session of another number waits for nobody.
#[derive(Drop)]
pub struct Waits {
    places: [Option<u8>; 64],
    // where it is false nobody waits, and nothing has to be looked for
    may_wait: bool,
}

impl Model for Waits {
    ghost use Rattle.std.specs.Prelude.{◌≡◌, List, Option, ℕ, None, false, replicate};
    ghost use Rattle.calls.specs.declared.step.TheConstants.{MOST_SESSIONS};

    ghost Value = { List (Option ℕ) };

    ghost view = { λ w. w.places };

    ghost invariant = { λ w. w.may_wait ≡ false → w.places ≡ replicate MOST_SESSIONS None };
}

impl Waits {
    /// Nobody waits.
    pub fn new() -> Waits
        ensures { result ≡ replicate MOST_SESSIONS None }
    {
        Waits {
            places: [None; 64],
            may_wait: false,
        }
    }

    /// The session s waits for o.
    pub fn begin(&mut self, s: u8, o: u8)
        ensures { self.new ≡ slice_set self.old s (Some o) }
    {
        put(&mut self.places, s, Some(o));
        self.may_wait = true;
    }

    /// The session's own wait ends.
    pub fn end(&mut self, s: u8)
        ensures { self.new ≡ slice_set self.old s None }
    {
        if self.may_wait {
            put(&mut self.places, s, None);
        }
    }

    /// Nobody waits for the session any more.
    pub fn wake(&mut self, s: u8)
        ensures { self.new ≡ map (kept_where (λ o. not (o == s))) self.old }
    {
        if self.may_wait {
            wake_all(&mut self.places, s);
            self.may_wait = any_waits(&self.places);
        }
    }

    /// For whom the session waits, if for anybody. (The places are private to this type, here and below.)
    pub fn of(&self, s: u8) -> Option<u8>
        ensures { result ≡ wait_in self.now s }
    {
        wait_of(&self.places, s)
    }

    /// Would a wait of s for o close a ring?
    pub fn closes_ring(&self, s: u8, o: u8) -> bool
        ensures { IsTrue result ↔ ClosesRing (wait_in self.now) s o }
    {
        closes_ring(&self.places, s, o)
    }
}

/// Who has no place waits for nobody.
#[tactic(auto, using(crate::proofs::WaitLemmas::set_beyond))]
fn put(waits: &mut [Option<u8>], s: u8, wait: Option<u8>)
    ensures { waits.new ≡ slice_set waits.old s wait }
{
    if s as usize >= waits.len() {
        return;
    }
    waits[s as usize] = wait;
}

/// Whether anyone waits.
fn any_waits(waits: &[Option<u8>]) -> bool
    ensures { result ≡ false → waits.now ≡ replicate (length waits.now) None }
{
    for wait in waits {
        if wait.is_some() {
            return true;
        }
    }
    false
}

/// Nobody waits for the session any more.
pub fn wake_all(waits: &mut [Option<u8>], s: u8)
    ensures { waits.new ≡ map (kept_where (λ o. not (o == s))) waits.old }
{
    for wait in waits.iter_mut() {
        wake_one(wait, s);
    }
}

fn wake_one(wait: &mut Option<u8>, s: u8)
    ensures { wait.new ≡ kept_where (λ o. not (o == s)) wait.old }
{
    if let Some(o) = *wait {
        if o == s {
            *wait = None;
        }
    }
}
