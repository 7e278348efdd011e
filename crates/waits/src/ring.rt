//! Rings of waits.

ghost use Rattle.std.specs.Prelude.{◌≡◌, ◌<◌, ◌↔◌, ℕ, IsTrue, Some};
ghost use Rattle.history.specs.World.{ClosesRing};
ghost use Rattle.waits.specs.View.{wait_in};

use arrayvec::ArrayVec;

/// Would a wait of s for o close a ring?
pub fn closes_ring(waits: &[Option<u8>], s: u8, o: u8) -> bool
    ensures { IsTrue result ↔ ClosesRing (wait_in waits.now) s o }
{
    let mut seen: ArrayVec<u8, 256> = ArrayVec::new();
    let mut at = Some(o);
    'walk: while let Some(t) = at {
        if t == s {
            return true;
        }
        if seen.contains(&t) {
            break;
        }
        seen.push(t);
        at = wait_of(waits, t);
    }
    false
}

/// For whom a session waits, if for anybody.
pub(crate) fn wait_of(waits: &[Option<u8>], s: u8) -> Option<u8>
    ensures value { result ≡ wait_in waits.now s }
    ensures small { (o : ℕ) → result ≡ Some o → o < 256 }
{
    match waits.get(s as usize) {
        Some(Some(o)) => Some(*o),
        Some(None) => None,
        None => None,
    }
}
