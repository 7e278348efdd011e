//! The vacuum that is running.

ghost use Rattle.std.specs.Prelude.{◌≡◌};
ghost use Rattle.std.specs.Option.{option_map};
ghost use Rattle.c_views.specs.Vacuums.{number_of_phase, index_in_phase, shown_vacuum};

use crate::state::number_of_mode;
use session_core::Engine;
use vacuum_passes::{Phase, Vacuum};

/// The vacuum that is running.
#[repr(C)]
#[derive(Clone, Copy)]
pub struct SandpiperVacuum {
    /// 1 if it is normal, 2 if it is aggressive.
    pub mode: u32,
    /// The work of its next step: 0 to visit a page, 1 to go through an index, 2 to free collected slots.
    pub phase: u32,
    /// Of phase 1 the index, else 0.
    pub index: u32,
    /// The next page that it visits.
    pub next: u32,
    /// How many slots it has collected that are not freed yet.
    pub collected: usize,
    /// The horizon of its beginning.
    pub horizon: u32,
    /// It freezes what an id before this one made.
    pub cutoff: u32,
}

/// The number of a phase.
fn number_of_phase(phase: Phase) -> u32
    ensures { result ≡ number_of_phase phase }
{
    match phase {
        Phase::Heap => 0,
        Phase::Index(_, _) => 1,
        Phase::Free => 2,
    }
}

/// The index through which a phase goes, if it goes through one, else 0.
fn index_in_phase(phase: Phase) -> u32
    ensures { result ≡ index_in_phase phase }
{
    match phase {
        Phase::Index(index, _) => index as u32,
        Phase::Heap | Phase::Free => 0,
    }
}

/// What C reads of a vacuum.
fn of_vacuum(vacuum: &Vacuum) -> SandpiperVacuum
    ensures { result ≡ shown_vacuum vacuum.now }
{
    SandpiperVacuum {
        mode: number_of_mode(Some(vacuum.mode())),
        phase: number_of_phase(vacuum.phase()),
        index: index_in_phase(vacuum.phase()),
        next: vacuum.next(),
        collected: vacuum.collected_count(),
        horizon: vacuum.horizon().0,
        cutoff: vacuum.cutoff().0,
    }
}

/// The vacuum that is running, if one is ([`session_core::Engine::vacuum`]).
pub fn vacuum_in(engine: &Engine) -> Option<SandpiperVacuum>
    ensures { result ≡ option_map shown_vacuum engine.now.engine.vacuum }
{
    match engine.vacuum() {
        Some(vacuum) => Some(of_vacuum(vacuum)),
        None => None,
    }
}
