//! Notes where a transaction wrote each key.

ghost use Rattle.std.specs.Prelude.{◌≡◌, ℕ, OnOk, OnErr, None, take};
ghost use Rattle.keyed_history.specs.Spots.{noted_at};
ghost use Rattle.keyed_history.specs.Places.{HaveNoted, HaveForgotten};

use crate::spots::Spots;
use crate::write::{PlainLevel, PlainWrite};
use std::alloc::AllocError;

// Where memory is refused the first of them are noted.
fn note_all(spots: &mut Spots, n: usize, writes: &[PlainWrite]) -> Result<(), AllocError>
    requires { (key : ℕ) → noted_at spots.old.places key n ≡ None }
    ensures ok { OnOk result (HaveNoted spots.old.places spots.new.places n writes.now) }
    ensures err { OnErr result
        ((i : ℕ) × HaveNoted spots.old.places spots.new.places n (take i writes.now)) }
{
    for i in 0..writes.len() {
        spots.note(writes[i].key(), n, i)?;
    }
    Ok(())
}

fn forget_all(spots: &mut Spots, n: usize, writes: &[PlainWrite])
    ensures { HaveForgotten spots.old.places spots.new.places n writes.now }
{
    for i in 0..writes.len() {
        spots.forget(writes[i].key(), n);
    }
}

/// Notes where the transaction of this number, of which nothing is noted yet, wrote each key last. Where memory is refused all is as it
/// was.
pub(crate) fn note_transaction(
    spots: &mut Spots,
    n: usize,
    transaction: &PlainLevel,
) -> Result<(), AllocError>
    requires { (key : ℕ) → noted_at spots.old.places key n ≡ None }
    ensures ok { OnOk result (HaveNoted spots.old.places spots.new.places n transaction.now) }
    ensures err { OnErr result
        ((key m : ℕ) → noted_at spots.new.places key m ≡ noted_at spots.old.places key m) }
{
    match note_all(spots, n, transaction.writes()) {
        Ok(()) => Ok(()),
        Err(fault) => {
            forget_all(spots, n, transaction.writes());
            Err(fault)
        }
    }
}
