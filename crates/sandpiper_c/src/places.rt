//! Whether it is noted where keys are.

ghost use Rattle.sandpiper_c.specs.Calls.{StaysAsIs, TellsWhetherOpen};

use c_handles::{CallStatus, Sandpiper};
use std::alloc::Global;

/// Forgets where keys were put, and notes it from now on, or never, as [`session_core::Engine::keep_places`] does.
#[unsafe(no_mangle)]
pub extern "C" fn sandpiper_keep_places(
    alloc: Global,
    table: &mut Sandpiper,
    are_wanted: bool,
) -> u32
    ensures stays { StaysAsIs table.old table.new }
    ensures status { TellsWhetherOpen table.old result }
{
    match table.take(alloc) {
        Some(mut held) => {
            held.engine.keep_places(are_wanted);
            table.put(held);
            CallStatus::Done.number()
        }
        None => CallStatus::NoEngine.number(),
    }
}
