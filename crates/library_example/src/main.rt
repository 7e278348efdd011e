//! Uses the engine from code: two sessions that write one key, a scan, a deletion and a pruning. `crates/session_core/CALLING.md`
//! walks through it.
#![tactic(auto)]

ghost use Rattle.std.specs.Prelude.{◌≡◌, Some, IfSome};
ghost use Rattle.history.specs.World.{World, OpenSession, view};
ghost use Rattle.session_steps.specs.Agrees.{Agrees};

use arrayvec::ArrayVec;
use session_core::{Ack, Engine, Refusal, Reply, Row, Settings, Step};
use std::io;
use std::process::ExitCode;

/// A table of at most 4 pages, with an index by key alone.
const SETTINGS: Settings = Settings {
    max_pages: 4,
    stop_age: 1000,
    freeze_min_age: 0,
    first_xid: 3,
    dead_limit: 4096,
    indexed: [false; 4],
};

/// A row of one value.
fn row(key: u64, value: i64) -> Row {
    Row {
        key,
        cols: [value, 0, 0, 0],
        body: ArrayVec::new(),
    }
}

/// The row of the key in the session's view, if the session is open and its view has one.
fn row_in_view(engine: &Engine, session: u8, key: u64) -> Option<Row>
    ensures { (w : World) → Agrees engine.now.engine.core w → IfSome result
        (λ row. (m : OpenSession) × (w.session session ≡ Some m)
        × (Some row ≡ view w.history m key)) }
{
    match engine.read(session, key) {
        Ok(row) => row,
        Err(_) => None,
    }
}

/// Prints what a call answered.
fn tell(rt: &impl Print, what: &str, answer: Result<Ack, Refusal>) -> io::Result<()> {
    match answer {
        Ok(_) => println!(rt; "{what}: done"),
        Err(Refusal::Busy(other)) => println!(rt; "{what}: busy, by session {other}"),
        Err(refusal) => println!(rt; "{what}: {refusal:?}"),
    }
}

/// Does a step that has no call of its own, and prints its reply.
fn tell_step(rt: &impl Print, engine: &mut Engine, what: &str, step: Step) -> io::Result<()> {
    match engine.step(step) {
        Reply::Rows(rows) => {
            for row in &rows {
                println!(rt; "{what}: key {} has {}", row.key, row.cols[0])?;
            }
            Ok(())
        }
        Reply::Refused(refusal) => println!(rt; "{what}: {refusal:?}"),
        _ => println!(rt; "{what}: done"),
    }
}

/// Session 0 writes two rows and commits them.
fn write_rows(rt: &impl Print, engine: &mut Engine) -> io::Result<()> {
    tell(rt, "0 begins", engine.begin(0))?;
    tell(rt, "0 inserts key 1", engine.insert(0, &row(1, 10)))?;
    tell(rt, "0 inserts key 2", engine.insert(0, &row(2, 20)))?;
    tell(rt, "0 commits", engine.commit(0))
}

/// Sessions 1 and 2 write one key: the first to commit wins, and the other goes on to read what was there before.
fn write_one_key(rt: &impl Print, engine: &mut Engine) -> io::Result<()> {
    tell(rt, "1 begins", engine.begin(1))?;
    tell(rt, "2 begins", engine.begin(2))?;
    tell(rt, "1 updates key 1", engine.update(1, &row(1, 11)))?;
    tell(rt, "2 updates key 1", engine.update(2, &row(1, 12)))?;
    tell(rt, "1 commits", engine.commit(1))?;
    tell(rt, "2 updates key 1", engine.update(2, &row(1, 12)))?;
    if let Some(row) = row_in_view(engine, 2, 1) {
        println!(rt; "2 still sees {}", row.cols[0])?;
    }
    tell(rt, "2 aborts", engine.abort(2))
}

/// Session 3 scans the table and deletes a row; then its page is pruned.
fn scan_and_delete(rt: &impl Print, engine: &mut Engine) -> io::Result<()> {
    tell(rt, "3 begins", engine.begin(3))?;
    tell_step(rt, engine, "3 opens a scan", Step::OpenHeap(3))?;
    tell_step(rt, engine, "3 scans", Step::Next(3, 10))?;
    tell_step(rt, engine, "3 ends its scan", Step::Close(3))?;
    tell(rt, "3 deletes key 2", engine.delete(3, 2))?;
    tell(rt, "3 commits", engine.commit(3))?;
    tell_step(rt, engine, "page 0 is pruned", Step::Prune(0))
}

fn tour(rt: &impl Print, engine: &mut Engine) -> io::Result<()> {
    write_rows(rt, engine)?;
    write_one_key(rt, engine)?;
    scan_and_delete(rt, engine)
}

fn main(rt: HostRuntime) -> ExitCode {
    let Ok(mut engine) = Engine::new(rt.alloc(), SETTINGS) else {
        return ExitCode::from(1);
    };
    match tour(&rt, &mut engine) {
        Ok(()) => ExitCode::SUCCESS,
        Err(_) => ExitCode::from(1),
    }
}
