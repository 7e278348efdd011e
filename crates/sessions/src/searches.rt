//! Searches among the open sessions.

ghost use Rattle.std.specs.Prelude.{◌≡◌, ◌≢◌, ◌≤◌, ◌↔◌, ℕ, length, [], Some, IsTrue, MatchOption, Contains};
ghost use Rattle.xid_circle.specs.Circle.{Precedes};
ghost use Rattle.commit_status.specs.Changes.{numbers};
ghost use Rattle.sessions.specs.Places.{open_at};
ghost use Rattle.calls.specs.declared.step.TheConstants.{MOST_SESSIONS};

use crate::session::Session;
use xid_circle::{Xid, precedes};

/// The session that has the id.
pub fn owner(sessions: &[Option<Session>], x: Xid) -> Option<u8>
    requires { length sessions.now ≤ MOST_SESSIONS }
    ensures { MatchOption result
        ((s : ℕ) (e : _) → open_at sessions.now s ≡ Some e → Contains e.own.ids x.0 → ⊥)
        (λ s. (e : _) × (open_at sessions.now s ≡ Some e) × Contains e.own.ids x.0) }
{
    for s in 0..sessions.len() {
        if let Some(session) = &sessions[s] {
            if session.own.contains(x) {
                return Some(s as u8);
            }
        }
    }
    None
}

/// The first open session that has an id.
pub fn first_with_id(sessions: &[Option<Session>]) -> Option<u8>
    requires { length sessions.now ≤ MOST_SESSIONS }
    ensures { MatchOption result
        ((s : ℕ) (e : _) → open_at sessions.now s ≡ Some e → e.own.ids ≡ [])
        (λ s. (e : _) × (open_at sessions.now s ≡ Some e) × (e.own.ids ≢ [])) }
{
    for s in 0..sessions.len() {
        if let Some(session) = &sessions[s] {
            if !session.own.is_empty() {
                return Some(s as u8);
            }
        }
    }
    None
}

/// True where none of these ids precedes the cutoff.
fn are_from(ids: &[Xid], cutoff: Xid) -> bool
    ensures { IsTrue result
        ↔ ((x : ℕ) → Contains (numbers ids.now) x → ¬ Precedes x cutoff.0) }
{
    for x in ids {
        if precedes(*x, cutoff) {
            return false;
        }
    }
    true
}

/// True where no open session has an id that precedes the cutoff.
pub fn own_from(sessions: &[Option<Session>], cutoff: Xid) -> bool
    ensures { IsTrue result ↔ ((s : ℕ) (e : _) (x : ℕ)
        → open_at sessions.now s ≡ Some e → Contains e.own.ids x → ¬ Precedes x cutoff.0) }
{
    for s in 0..sessions.len() {
        if let Some(session) = &sessions[s] {
            if !are_from(session.own.as_slice(), cutoff) {
                return false;
            }
        }
    }
    true
}
