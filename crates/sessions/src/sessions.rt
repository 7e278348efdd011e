//! The places of the sessions.

ghost use Rattle.std.specs.Prelude.{◌≡◌, ◌≢◌, ◌<◌, suc, length, replicate, None, Some, IfOk, slice_get};
ghost use Rattle.std.specs.Borrow.{sem};
ghost use Rattle.calls.specs.declared.step.TheConstants.{MOST_SESSIONS};
ghost use Rattle.sessions.specs.Session.{open_bits};
ghost use Rattle.sessions.specs.Places.{open_at, HoldsOpen};
ghost use Rattle.sessions.specs.Lending.{LendsPlace, LendsOpen};
ghost use Rattle.sessions.specs.Marks.{MarksAll};
ghost use Rattle.tuple_header.specs.declared.version.TheConstants.{COLUMNS};

use crate::marking::mark_all;
use crate::session::Session;
use calls::MOST_SESSIONS;
use std::alloc::{AllocError, Global};
use std::marker::Model;

/// Places for 64 sessions. A look at every open session goes over the places that were used so far, and no further.
#[derive(Drop)]
pub struct Sessions {
    places: Vec<Option<Session>>,
    used: usize,
}

impl Model for Sessions {
    ghost use Rattle.std.specs.Prelude.{List, Option};
    ghost use Rattle.sessions.specs.declared.session.Session.{Session};
    ghost use Rattle.sessions.specs.Places.{ArePlaces};

    ghost Value = { List (Option Session) };

    ghost view = { λ s. s.places.items };

    ghost invariant = { λ s. ArePlaces s.used s.places.items };
}

impl Sessions {
    /// Places that are all idle.
    pub fn new(alloc: Global) -> Result<Sessions, AllocError>
        ensures { IfOk result (λ sessions. sessions ≡ replicate MOST_SESSIONS None) }
    {
        let mut places = Vec::with_capacity(alloc, MOST_SESSIONS)?;
        for _ in 0..MOST_SESSIONS {
            places.push(None)?;
        }
        Ok(Sessions { places, used: 0 })
    }

    /// The place of a session, which is idle or has it.
    pub fn place(&self, s: u8) -> &Option<Session>
        requires { s < length self.now }
        ensures { slice_get self.now s ≡ Some result.now }
    {
        &self.places[s as usize]
    }

    /// The place of a session, to be changed.
    pub fn place_mut(&mut self, s: u8) -> &mut Option<Session>
        requires { s < length self.old }
        ensures* writes_back { sem 𝓛 (LendsPlace self.entry s result) }
        ensures value { open_at self.old s ≡ result.now }
    {
        self.used = self.used.max(s as usize + 1);
        &mut self.places[s as usize]
    }

    /// The open session in a place, to be changed.
    pub fn open_mut(&mut self, s: u8) -> &mut Session
        requires { open_at self.old s ≢ None }
        ensures* writes_back { sem 𝓛 (LendsOpen self.entry s result) }
        ensures value { open_at self.old s ≡ Some result.now }
    {
        match self.place_mut(s) {
            Some(session) => session,
            None => unreachable!(),
        }
    }

    /// Notes of each open session that the index by the column is made now: by snapshot it may not scan it.
    pub fn mark(&mut self, column: u8)
        requires { column < COLUMNS }
        ensures { MarksAll (suc column) self.old self.new }
    {
        let count = self.places.len();
        mark_all(&mut self.places, count, column);
    }

    /// The places that were used so far. Every open session has one of them.
    pub fn places_in_use(&self) -> &[Option<Session>]
        ensures { HoldsOpen result.now self.now }
    {
        &self.places[..self.used]
    }

    /// Which sessions are open: a bit for each of the 64 places, the lowest for session 0.
    pub fn open_bits(&self) -> u64
        requires { length self.now ≡ MOST_SESSIONS }
        ensures { result ≡ open_bits self.now }
    {
        let mut bits = 0u64;
        for passed in 0..64u8 {
            bits = match self.place(63 - passed) {
                Some(_) => 2 * bits + 1,
                None => 2 * bits,
            };
        }
        bits
    }
}
