//! Making an engine, and ending it.

ghost use Rattle.std.specs.Prelude.{◌≡◌, IfOk, IfErr};
ghost use Rattle.calls.specs.declared.reply.Reply.TheVariants as reply;
ghost use Rattle.calls.specs.Words.{FirstFault};
ghost use Rattle.session_core.specs.Clauses.{IsNewWaiting};
ghost use Rattle.c_views.specs.Settings.{settings_of};
ghost use Rattle.sandpiper_c.specs.Calls.{OpensTable, ClosesTable};

use c_handles::{CallStatus, Held, Sandpiper};
use c_views::{SandpiperSettings, settings_of};
use session_core::{Engine, Reply, SettingsFault};
use std::alloc::Global;
use table_scans::no_row;

/// An engine of these settings, on the heap.
fn new_held(alloc: Global, settings: &SandpiperSettings) -> Result<Box<Held>, SettingsFault>
    ensures new { IfOk result (λ b. IsNewWaiting (settings_of settings.now) b.value.engine) }
    ensures reply { IfOk result (λ b. b.value.reply ≡ reply.Done) }
    ensures fault { IfErr result (λ fault. FirstFault (settings_of settings.now) fault) }
{
    let engine = Engine::new(alloc, settings_of(settings))?;
    let held = Held {
        engine,
        reply: Reply::Done,
        row: no_row(),
    };
    match Box::new(alloc, held) {
        Ok(held) => Ok(held),
        Err(_) => Err(SettingsFault::NoMemory),
    }
}

/// Makes an engine of these settings. The status is that it is done, or names the first setting that is out of its range, or memory.
#[unsafe(no_mangle)]
pub extern "C" fn sandpiper_open(
    alloc: Global,
    settings: &SandpiperSettings,
    table: &mut Sandpiper,
) -> u32
    ensures { OpensTable settings.now table.old result table.new }
{
    if table.is_open {
        return CallStatus::HasEngine.number();
    }
    match new_held(alloc, settings) {
        Ok(held) => {
            table.put(held);
            CallStatus::Done.number()
        }
        Err(fault) => CallStatus::of_fault(fault).number(),
    }
}

/// Ends the engine, and gives all its memory back.
#[unsafe(no_mangle)]
pub extern "C" fn sandpiper_close(alloc: Global, table: &mut Sandpiper) -> u32
    ensures { ClosesTable table.old result table.new }
{
    match table.take(alloc) {
        Some(held) => {
            drop(held);
            CallStatus::Done.number()
        }
        None => CallStatus::NoEngine.number(),
    }
}
