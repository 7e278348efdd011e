//! The open sessions.

ghost use Rattle.std.specs.Prelude.{◌≡◌, ◌<◌, not, OnOk};
ghost use Rattle.calls.specs.declared.step.TheConstants.{MOST_SESSIONS};
ghost use Rattle.session_steps.specs.State.{session_at};
ghost use Rattle.sessions.specs.Session.{statement_snapshot, reads_by_snapshot};
ghost use Rattle.shapes.specs.Shapes.{Adds, AreSessions, IsSessionPiece, IsSessionShape};

use session_core::{Engine, Session, SessionIsolation};
use shape_list::{SessionShape, Shape};
use std::alloc::AllocError;
use xid_circle::Xid;

/// What was the next id for a statement that is begun now: it reads what had committed then.
fn next_for(engine: &Engine, isolation: &SessionIsolation) -> Xid
    ensures { result.0
        ≡ (statement_snapshot engine.now.engine.core.heap.statuses isolation.now).xmax }
{
    match isolation {
        SessionIsolation::BySnapshot(snapshot) => snapshot.xmax(),
        SessionIsolation::ByStatement(_) => engine.ids().0,
    }
}

fn is_by_statement(isolation: &SessionIsolation) -> bool
    ensures { result ≡ not (reads_by_snapshot isolation.now) }
{
    match isolation {
        SessionIsolation::BySnapshot(_) => false,
        SessionIsolation::ByStatement(_) => true,
    }
}

fn session_shape(engine: &Engine, s: u8, of: &Session) -> SessionShape
    ensures { IsSessionShape engine.now s of.now result }
{
    SessionShape {
        session: s,
        by_statement: is_by_statement(&of.isolation),
        failed: of.failed,
        next: next_for(engine, &of.isolation),
        waits_for: engine.wait_of(s),
    }
}

/// Adds the session, if it is open.
fn add_session(engine: &Engine, s: u8, shapes: &mut Vec<Shape>) -> Result<(), AllocError>
    requires { s < MOST_SESSIONS }
    ensures { OnOk result
        (Adds (IsSessionPiece engine.now s (session_at engine.now.engine.core s))
        shapes.old.items shapes.new.items) }
{
    match engine.session(s) {
        Ok(of) => {
            shapes.push(Shape::Session(session_shape(engine, s, of)))?;
            Ok(())
        }
        Err(_) => Ok(()),
    }
}

/// Adds the open sessions.
pub(crate) fn add_sessions(engine: &Engine, shapes: &mut Vec<Shape>) -> Result<(), AllocError>
    ensures { OnOk result (Adds (AreSessions engine.now) shapes.old.items shapes.new.items) }
{
    for s in 0..64u8 {
        add_session(engine, s, shapes)?;
    }
    Ok(())
}
