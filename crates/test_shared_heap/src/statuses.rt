//! What became of an id: no script asks for it.

use crate::rows::SETTINGS;
use arrayvec::ArrayVec;
use session_core::{Engine, Row, SettingsFault, Status, Xid};
use std::alloc::Global;

/// Each function that calls the engine promises nothing: what the call does would be carried along by the proofs of those above.
fn new_engine(alloc: Global) -> Result<Engine, SettingsFault> {
    Engine::new(alloc, SETTINGS)
}

/// Session 0 inserts a row, under the first id, and commits.
fn insert_one(engine: &mut Engine) -> bool {
    let row = Row {
        key: 1,
        cols: [5, 0, 0, 0],
        body: ArrayVec::new(),
    };
    engine.begin(0).is_ok() && engine.insert(0, &row).is_ok() && engine.commit(0).is_ok()
}

fn status(engine: &mut Engine, x: u32) -> Option<Status> {
    engine.status_of(Xid(x))
}

/// What became of the first id, and of the next, in an engine with one row.
fn two_statuses(alloc: Global) -> Option<(Option<Status>, Option<Status>)> {
    let mut engine = new_engine(alloc).ok()?;
    if insert_one(&mut engine) {
        Some((status(&mut engine, 3), status(&mut engine, 4)))
    } else {
        None
    }
}

// Nothing is known of an id that was never given.
#[test]
fn what_became_of_an_id(rt: HostRuntime) {
    assert_eq!(rt;
        two_statuses(rt.alloc()),
        Some((Some(Status::Committed), None))
    );
}
