//! What shows why an answer is wrong: who wrote a key, and how much of the history a session reads. The lists that are asked are private to
//! the crate.

ghost use Rattle.std.specs.Prelude.{◌≡◌, ◌≢◌, ℕ, ◌+◌, ◌↔◌, IsTrue, MatchOption};
ghost use Rattle.std.specs.Option.{option_map};
ghost use Rattle.history.specs.History.{IsLate};
ghost use Rattle.history.specs.World.{Holds, start_now};
ghost use Rattle.plain_history.specs.Plain.{world_of};

use crate::lookup::{holder, holds};
use crate::plain::PlainHistory;

impl PlainHistory {
    /// How many transactions had committed when the snapshot was taken by which the session reads now, if it is open.
    pub fn start_of(&self, s: u8) -> Option<usize>
        ensures { result
            ≡ option_map (start_now self.now.history) ((world_of self.now).session s) }
    {
        match &self.sessions[s as usize] {
            Some(session) => Some(session.start_now(&self.history)),
            None => None,
        }
    }

    /// Whether the session is open, and has written the key.
    pub fn holds_key(&self, s: u8, key: u64) -> bool
        ensures { IsTrue result ↔ Holds (world_of self.now) s key }
    {
        holds(&self.sessions[s as usize], key)
    }

    /// Another open session that has written the key.
    pub fn holder_of(&self, s: u8, key: u64) -> Option<u8>
        ensures { MatchOption result ((o : ℕ) → o ≢ s → ¬ Holds (world_of self.now) o key)
            (λ o. (o ≢ s) × Holds (world_of self.now) o key) }
    {
        holder(&self.sessions, s, key)
    }

    /// The place in the history of the last transaction that wrote the key.
    pub fn last_writer_of(&self, key: u64) -> Option<usize>
        ensures { MatchOption result (¬ IsLate self.now.history 0 key)
            (λ n. IsLate self.now.history n key × (¬ IsLate self.now.history (n + 1) key)) }
    {
        self.history.last_writer(key)
    }
}
