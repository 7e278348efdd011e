//! What became of an id, and whose it is.

ghost use Rattle.std.specs.Prelude.{◌≡◌};
ghost use Rattle.c_views.specs.Ids.{number_of_id_status, number_of_state, shown_id, IsIdShown};

use session_core::{Engine, Status, Xid};

/// What became of an id, and the open session that has it, if one has.
#[repr(C)]
#[derive(Clone, Copy)]
pub struct SandpiperId {
    /// 0 if the id was not given, or is forgotten; 1 in progress, 2 committed, 3 rolled back.
    pub status: u32,
    /// Whether it is an open session's own.
    pub is_owned: bool,
    /// That session, else 0.
    pub session: u8,
}

/// The number of a status.
pub(crate) fn number_of_id_status(status: Status) -> u32
    ensures { result ≡ number_of_id_status status }
{
    match status {
        Status::InProgress => 1,
        Status::Committed => 2,
        Status::Aborted => 3,
    }
}

/// The number of what became of an id, if it is remembered.
fn number_of_state(state: Option<Status>) -> u32
    ensures { result ≡ number_of_state state }
{
    match state {
        None => 0,
        Some(status) => number_of_id_status(status),
    }
}

/// What C reads of an id.
fn of_id(state: Option<Status>, owner: Option<u8>) -> SandpiperId
    ensures { result ≡ shown_id state owner }
{
    let status = number_of_state(state);
    match owner {
        None => SandpiperId {
            status,
            is_owned: false,
            session: 0,
        },
        Some(session) => SandpiperId {
            status,
            is_owned: true,
            session,
        },
    }
}

/// What became of an id, and whose it is ([`session_core::Engine::status_of`], [`session_core::Engine::owner_of`]).
pub fn id_in(engine: &mut Engine, id: u32) -> SandpiperId
    ensures same { engine.new ≡ engine.old }
    ensures shown { IsIdShown engine.old.engine.core id result }
{
    let owner = engine.owner_of(Xid(id));
    let state = engine.status_of(Xid(id));
    of_id(state, owner)
}
