//! What a table is like, for whoever wants to know.

ghost use Rattle.std.specs.Prelude.{◌≡◌};
ghost use Rattle.sandpiper_c.specs.Calls.{StaysAsIs};
ghost use Rattle.sandpiper_c.specs.State.{ShowsStateOf};

use c_handles::{CallStatus, Sandpiper};
use c_views::{SandpiperState, of_engine};
use std::alloc::Global;

/// Writes what the table is like to `state`.
#[unsafe(no_mangle)]
pub extern "C" fn sandpiper_state_of(
    alloc: Global,
    table: &mut Sandpiper,
    state: &mut SandpiperState,
) -> u32
    ensures stays { StaysAsIs table.old table.new }
    ensures state { ShowsStateOf table.old state.old result state.new }
{
    match table.take(alloc) {
        Some(held) => {
            *state = of_engine(&held.engine);
            table.put(held);
            CallStatus::Done.number()
        }
        None => CallStatus::NoEngine.number(),
    }
}
