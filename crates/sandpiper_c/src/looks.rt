//! Looks: why a session sees a version, who holds the horizon back, what pruning would do. They change nothing.

ghost use Rattle.std.specs.Prelude.{◌≡◌};
ghost use Rattle.std.specs.Option.{option_map};
ghost use Rattle.c_views.specs.Sessions.{IsOwnId, AreIdsAt, IsListedId};
ghost use Rattle.sandpiper_c.specs.Calls.{StaysAsIs};
ghost use Rattle.sandpiper_c.specs.Looks.{Tells, TellsOrRefuses, NextEntryBy, NextEntryOf, Explains, ExplainsOf, TellsSession, ShowsSession, ShowsSessionOf, ShowsId, OwnIdOf, IdsAtOf, ListedIdOf, ShowsHorizonOf, ShowsFate, FateOf, VacuumOf, IdOf};

use c_handles::{CallStatus, Sandpiper};
use c_views::{
    SandpiperFate, SandpiperHorizon, SandpiperId, SandpiperPlace, SandpiperSession, SandpiperShown,
    SandpiperVacuum, explanation, fate_at, horizon_in, id_in, ids_at_savepoint, listed_id,
    next_entry, own_id, session_in, vacuum_in,
};
use session_core::{Engine, Refusal};
use std::alloc::Global;

/// Writes what was found to C's place, if anything was.
pub(crate) fn tell<T: Copy>(found: Option<T>, otherwise: CallStatus, place: &mut T) -> u32
    ensures { Tells found otherwise place.old result place.new }
{
    match found {
        Some(found) => {
            *place = found;
            CallStatus::Found.number()
        }
        None => otherwise.number(),
    }
}

/// The same of what a look answers that asks for an open session.
fn tell_or_refuse<T: Copy>(answer: Result<Option<T>, Refusal>, place: &mut T) -> u32
    ensures { TellsOrRefuses answer place.old result place.new }
{
    match answer {
        Ok(found) => tell(found, CallStatus::NoRow, place),
        Err(refusal) => CallStatus::Refused(refusal).number(),
    }
}

/// Writes to `place` where the next entry of the key leads. The next entry is the first after the entry that leads to the place that is
/// there, or the first of all where the slot is 0.
#[unsafe(no_mangle)]
pub extern "C" fn sandpiper_next_entry(
    alloc: Global,
    table: &mut Sandpiper,
    key: u64,
    place: &mut SandpiperPlace,
) -> u32
    ensures stays { StaysAsIs table.old table.new }
    ensures entry { NextEntryOf table.old key place.old result place.new }
{
    match table.take(alloc) {
        Some(held) => {
            let code = tell(
                next_entry(&held.engine, key, *place),
                CallStatus::NoRow,
                place,
            );
            table.put(held);
            code
        }
        None => CallStatus::NoEngine.number(),
    }
}

/// Why the session sees a version, for the engine.
fn explain(
    engine: &Engine,
    session: u8,
    entry: SandpiperPlace,
    n: usize,
    shown: &mut SandpiperShown,
) -> u32
    ensures { Explains engine.now.engine.core session entry n shown.old result shown.new }
{
    tell_or_refuse(explanation(engine, session, entry, n), shown)
}

/// Writes to `shown` the version at a place of the chain to which an entry leads, counted from 0, if the chain is so long. What is
/// written also says why a statement of the session, begun now, sees it, or does not.
#[unsafe(no_mangle)]
pub extern "C" fn sandpiper_explain(
    alloc: Global,
    table: &mut Sandpiper,
    session: u8,
    entry: &SandpiperPlace,
    n: usize,
    shown: &mut SandpiperShown,
) -> u32
    ensures stays { StaysAsIs table.old table.new }
    ensures shown { ExplainsOf table.old session entry.now n shown.old result shown.new }
{
    match table.take(alloc) {
        Some(held) => {
            let code = explain(&held.engine, session, *entry, n, shown);
            table.put(held);
            code
        }
        None => CallStatus::NoEngine.number(),
    }
}

/// Writes what a session is like to C's place, if it is open.
fn tell_session(answer: Result<SandpiperSession, Refusal>, place: &mut SandpiperSession) -> u32
    ensures { TellsSession answer place.old result place.new }
{
    match answer {
        Ok(found) => tell(Some(found), CallStatus::NoRow, place),
        Err(refusal) => CallStatus::Refused(refusal).number(),
    }
}

/// What a session is like, for the engine.
fn show_session(engine: &Engine, session: u8, shown: &mut SandpiperSession) -> u32
    ensures { ShowsSession engine.now session shown.old result shown.new }
{
    tell_session(session_in(engine, session), shown)
}

/// Writes what an open session is like to `shown`, be it failed or not.
#[unsafe(no_mangle)]
pub extern "C" fn sandpiper_session_of(
    alloc: Global,
    table: &mut Sandpiper,
    session: u8,
    shown: &mut SandpiperSession,
) -> u32
    ensures stays { StaysAsIs table.old table.new }
    ensures session { ShowsSessionOf table.old session shown.old result shown.new }
{
    match table.take(alloc) {
        Some(held) => {
            let code = show_session(&held.engine, session, shown);
            table.put(held);
            code
        }
        None => CallStatus::NoEngine.number(),
    }
}

/// Writes to `id` the own id of an open session of this number, counted from 0, in the order of giving, if it has so many.
#[unsafe(no_mangle)]
pub extern "C" fn sandpiper_own_id(
    alloc: Global,
    table: &mut Sandpiper,
    session: u8,
    n: usize,
    id: &mut u32,
) -> u32
    ensures stays { StaysAsIs table.old table.new }
    ensures id { OwnIdOf table.old session n id.old result id.new }
{
    match table.take(alloc) {
        Some(held) => {
            let code = tell_or_refuse(own_id(&held.engine, session, n), id);
            table.put(held);
            code
        }
        None => CallStatus::NoEngine.number(),
    }
}

/// Writes to `count` how many own ids an open session had at a savepoint, 0 the newest, if it has so many savepoints.
#[unsafe(no_mangle)]
pub extern "C" fn sandpiper_ids_at_savepoint(
    alloc: Global,
    table: &mut Sandpiper,
    session: u8,
    savepoint: usize,
    count: &mut usize,
) -> u32
    ensures stays { StaysAsIs table.old table.new }
    ensures ids { IdsAtOf table.old session savepoint count.old result count.new }
{
    match table.take(alloc) {
        Some(held) => {
            let code = tell_or_refuse(ids_at_savepoint(&held.engine, session, savepoint), count);
            table.put(held);
            code
        }
        None => CallStatus::NoEngine.number(),
    }
}

/// Writes to `id` the id of this number, counted from 0, that the snapshot of an open session lists, if it lists so many.
#[unsafe(no_mangle)]
pub extern "C" fn sandpiper_listed_id(
    alloc: Global,
    table: &mut Sandpiper,
    session: u8,
    n: usize,
    id: &mut u32,
) -> u32
    ensures stays { StaysAsIs table.old table.new }
    ensures id { ListedIdOf table.old session n id.old result id.new }
{
    match table.take(alloc) {
        Some(held) => {
            let code = tell_or_refuse(listed_id(&held.engine, session, n), id);
            table.put(held);
            code
        }
        None => CallStatus::NoEngine.number(),
    }
}

/// Writes the horizon, and who holds it back, to `horizon`.
#[unsafe(no_mangle)]
pub extern "C" fn sandpiper_horizon_of(
    alloc: Global,
    table: &mut Sandpiper,
    horizon: &mut SandpiperHorizon,
) -> u32
    ensures stays { StaysAsIs table.old table.new }
    ensures horizon { ShowsHorizonOf table.old horizon.old result horizon.new }
{
    match table.take(alloc) {
        Some(held) => {
            *horizon = horizon_in(&held.engine);
            table.put(held);
            CallStatus::Found.number()
        }
        None => CallStatus::NoEngine.number(),
    }
}

/// What pruning would do to a slot, for the engine.
fn show_fate(engine: &Engine, page: u32, slot: u16, fate: &mut SandpiperFate) -> u32
    ensures { ShowsFate engine.now.engine.core page slot fate.old result fate.new }
{
    tell(
        fate_at(engine, page, slot),
        CallStatus::Refused(Refusal::NoSuchPage),
        fate,
    )
}

/// Writes to `fate` what pruning would do now to the slot of this number, counted from 1, of a page, counted from 0.
#[unsafe(no_mangle)]
pub extern "C" fn sandpiper_fate_of(
    alloc: Global,
    table: &mut Sandpiper,
    page: u32,
    slot: u16,
    fate: &mut SandpiperFate,
) -> u32
    ensures stays { StaysAsIs table.old table.new }
    ensures fate { FateOf table.old page slot fate.old result fate.new }
{
    match table.take(alloc) {
        Some(held) => {
            let code = show_fate(&held.engine, page, slot, fate);
            table.put(held);
            code
        }
        None => CallStatus::NoEngine.number(),
    }
}

/// Writes the vacuum that is running to `vacuum`, if one is.
#[unsafe(no_mangle)]
pub extern "C" fn sandpiper_vacuum_of(
    alloc: Global,
    table: &mut Sandpiper,
    vacuum: &mut SandpiperVacuum,
) -> u32
    ensures stays { StaysAsIs table.old table.new }
    ensures vacuum { VacuumOf table.old vacuum.old result vacuum.new }
{
    match table.take(alloc) {
        Some(held) => {
            let code = tell(
                vacuum_in(&held.engine),
                CallStatus::Refused(Refusal::NoVacuum),
                vacuum,
            );
            table.put(held);
            code
        }
        None => CallStatus::NoEngine.number(),
    }
}

/// Writes to `shown` what became of an id, and whose it is.
#[unsafe(no_mangle)]
pub extern "C" fn sandpiper_id_of(
    alloc: Global,
    table: &mut Sandpiper,
    id: u32,
    shown: &mut SandpiperId,
) -> u32
    ensures stays { StaysAsIs table.old table.new }
    ensures id { IdOf table.old id shown.old result shown.new }
{
    match table.take(alloc) {
        Some(mut held) => {
            *shown = id_in(&mut held.engine, id);
            table.put(held);
            CallStatus::Found.number()
        }
        None => CallStatus::NoEngine.number(),
    }
}
