//! The horizon, and who holds it back.

ghost use Rattle.std.specs.Prelude.{◌≡◌};
ghost use Rattle.c_views.specs.Horizon.{shown_horizon, IsHorizonShown};

use session_core::{Engine, Hold, HorizonHolder, Xid};

/// The horizon, and the lowest session that holds it back.
#[repr(C)]
#[derive(Clone, Copy)]
pub struct SandpiperHorizon {
    /// The horizon: no open session, nor one that begins now, misses what committed before this id.
    pub id: u32,
    /// 0 where nobody holds it back, so that it is the next id; 1 where a session does by its snapshot, 2 where one does by its first id.
    pub holder: u32,
    /// The lowest session that does, else 0.
    pub session: u32,
}

/// What C reads of it.
fn of_holder(horizon: Xid, holder: Option<HorizonHolder>) -> SandpiperHorizon
    ensures { result ≡ shown_horizon horizon.0 holder }
{
    let id = horizon.0;
    match holder {
        None => SandpiperHorizon {
            id,
            holder: 0,
            session: 0,
        },
        Some(
            HorizonHolder {
                session,
                by: Hold::BySnapshot,
            },
        ) => SandpiperHorizon {
            id,
            holder: 1,
            session: session as u32,
        },
        Some(
            HorizonHolder {
                session,
                by: Hold::ById,
            },
        ) => SandpiperHorizon {
            id,
            holder: 2,
            session: session as u32,
        },
    }
}

/// The engine's horizon and its holder ([`session_core::Engine::horizon_holder`]).
pub fn horizon_in(engine: &Engine) -> SandpiperHorizon
    ensures { IsHorizonShown engine.now.engine.core result }
{
    of_holder(engine.horizon(), engine.horizon_holder())
}
