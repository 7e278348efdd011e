//! The steps of a vacuum.

ghost use Rattle.std.specs.Prelude.{◌≡◌, Some};
ghost use Rattle.calls.specs.declared.step.Step.TheVariants as step;
ghost use Rattle.sandpiper_c.specs.Calls.{Does, TakesShowing};
ghost use Rattle.sandpiper_c.specs.Pieces.{mode_of, piece_in, ShowsPiece, StepsVacuum};

use crate::steps::{do_step, held_step};
use c_handles::{CallStatus, Held, Sandpiper};
use c_views::{SandpiperPiece, of_piece};
use session_core::{Mode, Reply, Step};
use std::alloc::Global;

/// The mode of a vacuum.
fn mode(aggressive: bool) -> Mode
    ensures { result ≡ mode_of aggressive }
{
    if aggressive {
        Mode::Aggressive
    } else {
        Mode::Normal
    }
}

/// Writes what the reply says of the vacuum to C's place, if it says anything.
fn put_piece(reply: &Reply, piece: &mut SandpiperPiece)
    ensures { ShowsPiece (piece_in (Some reply.now)) piece.old piece.new }
{
    match reply {
        Reply::Worked(did) => *piece = of_piece(*did),
        Reply::Ended(oldest) => {
            *piece = SandpiperPiece {
                kind: 0,
                number: 0,
                oldest: *oldest,
            };
        }
        _ => {}
    }
}

/// The vacuum does its next step, and what it did is written to C's place.
fn held_vacuum_step(held: &mut Held, piece: &mut SandpiperPiece) -> u32
    ensures { TakesShowing held.old step.VacuumStep result held.new
        (λ reply. ShowsPiece (piece_in reply) piece.old piece.new) }
{
    let code = held_step(held, Step::VacuumStep);
    put_piece(&held.reply, piece);
    code
}

/// Begins a vacuum: an aggressive one passes over no page that has anything to freeze, and lets old ids be forgotten at its end.
#[unsafe(no_mangle)]
pub extern "C" fn sandpiper_vacuum_begin(
    alloc: Global,
    table: &mut Sandpiper,
    aggressive: bool,
) -> u32
    ensures { Does table.old (step.VacuumBegin (mode_of aggressive)) result table.new }
{
    do_step(alloc, table, Step::VacuumBegin(mode(aggressive)))
}

/// Does the next step of the vacuum, and writes what it did, or that the vacuum has ended, to `piece`.
#[unsafe(no_mangle)]
pub extern "C" fn sandpiper_vacuum_step(
    alloc: Global,
    table: &mut Sandpiper,
    piece: &mut SandpiperPiece,
) -> u32
    ensures { StepsVacuum table.old piece.old result piece.new table.new }
{
    match table.take(alloc) {
        Some(mut held) => {
            let code = held_vacuum_step(&mut held, piece);
            table.put(held);
            code
        }
        None => CallStatus::NoEngine.number(),
    }
}

/// Drops the vacuum. What it did stays.
#[unsafe(no_mangle)]
pub extern "C" fn sandpiper_vacuum_cancel(alloc: Global, table: &mut Sandpiper) -> u32
    ensures { Does table.old step.VacuumCancel result table.new }
{
    do_step(alloc, table, Step::VacuumCancel)
}
