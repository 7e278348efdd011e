//! What a table is like.

ghost use Rattle.std.specs.Prelude.{◌≡◌};
ghost use Rattle.c_views.specs.State.{entry_count, has_index, number_of_mode, vacuum_mode, ShowsState};

use session_core::{Engine, Mode};

/// What a table is like at a moment.
#[repr(C)]
#[derive(Clone, Copy)]
pub struct SandpiperState {
    /// The id that is given next.
    pub next_id: u32,
    /// The oldest id that is remembered, or the next one where none is.
    pub oldest_id: u32,
    /// How many more ids can be given, one after another, before NeedsFreeze.
    pub ids_left: u32,
    /// How many pages are in use.
    pub pages: u32,
    /// A bit for each session, the lowest for session 0: 1 where it is open.
    pub open_sessions: u64,
    /// How many entries each index has: 0 where there is none.
    pub entries: [u64; 5],
    /// Whether there is an index of that number.
    pub has_index: [bool; 5],
    /// 0 where no vacuum runs, 1 where a normal one does, 2 where an aggressive one does.
    pub vacuum: u32,
}

/// How many entries the index of this number has: 0 where there is none.
fn entries(engine: &Engine, number: u8) -> u64
    ensures { result ≡ entry_count engine.now.engine.core number }
{
    match engine.index(number) {
        Some(index) => index.len(),
        None => 0,
    }
}

/// Whether there is an index of this number.
fn has_index(engine: &Engine, number: u8) -> bool
    ensures { result ≡ has_index engine.now.engine.core number }
{
    match engine.index(number) {
        Some(_) => true,
        None => false,
    }
}

/// The number that C has for the mode of a vacuum, or for none.
pub(crate) fn number_of_mode(mode: Option<Mode>) -> u32
    ensures { result ≡ number_of_mode mode }
{
    match mode {
        None => 0,
        Some(Mode::Normal) => 1,
        Some(Mode::Aggressive) => 2,
    }
}

/// What C reads of the engine.
pub fn of_engine(engine: &Engine) -> SandpiperState
    ensures { ShowsState engine.now result }
{
    let (next, oldest) = engine.ids();
    SandpiperState {
        next_id: next.0,
        oldest_id: oldest.0,
        ids_left: engine.ids_left(),
        pages: engine.pages(),
        open_sessions: engine.open_sessions(),
        entries: [
            entries(engine, 0),
            entries(engine, 1),
            entries(engine, 2),
            entries(engine, 3),
            entries(engine, 4),
        ],
        has_index: [
            has_index(engine, 0),
            has_index(engine, 1),
            has_index(engine, 2),
            has_index(engine, 3),
            has_index(engine, 4),
        ],
        vacuum: number_of_mode(engine.vacuum_mode()),
    }
}
