//! The steps that are drawn.

ghost use Rattle.std.specs.Prelude.{◌⊎◌, ◌≤◌, Contains};

use crate::bodies::Bodies;
use crate::generator::Generator;
use session_core::{Mode, RowIn, Step};
use side_by_side::Standing;
use std::alloc::{AllocError, Global};

/// The keys: few, so that sessions meet.
pub(crate) const KEYS: [u64; 12] = [
    0,
    1,
    2,
    3,
    5,
    8,
    13,
    4_294_967_295,
    4_294_967_296,
    9_223_372_036_854_775_808,
    18_446_744_073_709_551_614,
    18_446_744_073_709_551_615,
];

/// One of the keys.
pub(crate) fn draw_key(generator: &mut Generator) -> u64 {
    KEYS[generator.below(12) as usize]
}

/// One of the first three keys: a session that has written them all meets nobody's write.
pub(crate) fn draw_key_of_few(generator: &mut Generator) -> u64 {
    KEYS[generator.below(3) as usize]
}

/// A session of those given, and now and then a number that is none.
pub(crate) fn draw_session(generator: &mut Generator, sessions: &[u8]) -> u8
    ensures { Contains sessions.now result ⊎ (64 ≤ result) }
{
    if sessions.is_empty() || generator.below(200) == 0 {
        return 64 + generator.below(192) as u8;
    }
    generator.choose(sessions)
}

fn draw_length(generator: &mut Generator) -> u16 {
    match generator.below(32) {
        0..=7 => 0,
        8..=16 => 1024,
        17 => 1025,
        18 => 1016 + generator.below(9) as u16,
        _ => generator.below(400) as u16,
    }
}

// A value of a column: mostly one of a few, so that updates often leave it as it is.
fn draw_column(generator: &mut Generator) -> i64 {
    match generator.below(16) {
        0 => generator.number().cast_signed(),
        1 => i64::MIN,
        2 => i64::MAX,
        3 | 4 => -1,
        5..=8 => 1,
        _ => 0,
    }
}

fn draw_row(
    generator: &mut Generator,
    bodies: &Bodies,
    key: u64,
    length: u16,
) -> Result<RowIn, AllocError> {
    let cols = [
        draw_column(generator),
        draw_column(generator),
        draw_column(generator),
        draw_column(generator),
    ];
    let from = generator.below(3000) as u16;
    Ok(RowIn {
        key,
        cols,
        body: bodies.body(from, length)?,
    })
}

/// A write of the key, with a body of this length. One in eight asks for what the session doesn't read: a row, or none.
pub(crate) fn draw_write(
    generator: &mut Generator,
    bodies: &Bodies,
    s: u8,
    key: u64,
    reads: bool,
    length: u16,
) -> Result<Step, AllocError> {
    let has_row = reads != (generator.below(8) == 0);
    if !has_row {
        Ok(Step::Insert(s, draw_row(generator, bodies, key, length)?))
    } else if generator.below(4) == 0 {
        Ok(Step::Delete(s, key))
    } else {
        Ok(Step::Update(s, draw_row(generator, bodies, key, length)?))
    }
}

/// A write of the key that the session can do, with an empty body: it deletes the row, or inserts one.
pub(crate) fn write_of(alloc: Global, s: u8, key: u64, reads: bool) -> Step {
    if reads {
        Step::Delete(s, key)
    } else {
        Step::Insert(
            s,
            RowIn {
                key,
                cols: [0; 4],
                body: Vec::new(alloc),
            },
        )
    }
}

/// A write of the key that leaves a row of it, with an empty body: it updates the row, or inserts one. No column changes from one such
/// write to the next.
pub(crate) fn put_of(alloc: Global, s: u8, key: u64, reads: bool) -> Step {
    let row = RowIn {
        key,
        cols: [0; 4],
        body: Vec::new(alloc),
    };
    if reads {
        Step::Update(s, row)
    } else {
        Step::Insert(s, row)
    }
}

// A bound of a cursor: a key, or a number that is none.
fn draw_bound(generator: &mut Generator) -> i128 {
    match generator.below(8) {
        0 => i128::MIN,
        1 => i128::MAX,
        2 => -1,
        _ => i128::from(draw_key(generator)),
    }
}

// A cursor, often in the primary index. One in eight has its bounds as they come.
fn draw_open_index(generator: &mut Generator, s: u8) -> Step {
    let index = match generator.below(16) {
        0 => generator.below(256) as u8,
        1..=6 => 1 + generator.below(4) as u8,
        _ => 0,
    };
    let low = draw_bound(generator);
    let high = draw_bound(generator);
    if high < low && generator.below(8) > 0 {
        Step::OpenIndex(s, index, high, low)
    } else {
        Step::OpenIndex(s, index, low, high)
    }
}

// A cursor over keys alone, often over all. One in eight has its bounds as they come.
fn draw_open_keys(generator: &mut Generator, s: u8) -> Step {
    let low = draw_bound(generator);
    let high = draw_bound(generator);
    match generator.below(8) {
        0 => Step::OpenKeys(s, low, high),
        1..=3 => Step::OpenKeys(s, i128::MIN, i128::MAX),
        _ => Step::OpenKeys(s, low.min(high), low.max(high)),
    }
}

fn draw_next(generator: &mut Generator, s: u8) -> Step {
    let count = match generator.below(16) {
        0 => 0,
        1 => 65535,
        _ => 1 + generator.below(4) as u16,
    };
    Step::Next(s, count)
}

// Any step, but a beginning seldom.
fn draw_any(
    generator: &mut Generator,
    bodies: &Bodies,
    s: u8,
    key: u64,
    reads: bool,
    pages: u32,
) -> Result<Step, AllocError> {
    Ok(match generator.below(100) {
        0..=7 => Step::Get(s, key),
        8 => Step::TakePage(s, generator.below(pages.saturating_add(1))),
        9..=11 => draw_open_index(generator, s),
        12..=13 => draw_open_keys(generator, s),
        14 => Step::OpenHeap(s),
        15..=69 => {
            let length = draw_length(generator);
            draw_write(generator, bodies, s, key, reads, length)?
        }
        70..=74 => Step::Savepoint(s),
        75..=77 => Step::RollbackTo(s),
        78..=80 => Step::Release(s),
        81..=87 => Step::Commit(s),
        88..=90 => Step::Abort(s),
        91 => draw_begin(generator, s),
        92 => draw_next(generator, s),
        93 => Step::Close(s),
        94 => Step::CreateIndex(generator.below(5) as u8),
        _ => Step::Prune(generator.below(pages.saturating_add(1))),
    })
}

// A step of a session that has a cursor open: it can read, and seldom asks for anything else.
fn draw_with_cursor(
    generator: &mut Generator,
    bodies: &Bodies,
    s: u8,
    key: u64,
    reads: bool,
    pages: u32,
) -> Result<Step, AllocError> {
    match generator.below(16) {
        0..=10 => Ok(draw_next(generator, s)),
        11 => Ok(Step::Get(s, key)),
        12 | 13 => Ok(Step::Close(s)),
        _ => draw_any(generator, bodies, s, key, reads, pages),
    }
}

/// A session begins: one in two reads by one snapshot, the other by statements.
pub(crate) fn draw_begin(generator: &mut Generator, s: u8) -> Step {
    if generator.below(2) == 0 {
        Step::Begin(s)
    } else {
        Step::BeginReadCommitted(s)
    }
}

/// A step of the session, or the pruning of a page. A closed session mostly begins, and one that has failed is often ended.
pub(crate) fn draw_step(
    generator: &mut Generator,
    bodies: &Bodies,
    s: u8,
    key: u64,
    standing: Standing,
    has_cursor: bool,
    pages: u32,
) -> Result<Step, AllocError> {
    let choice = generator.below(8);
    let reads = matches!(standing, Standing::Reads);
    match standing {
        Standing::Closed if choice < 7 => Ok(draw_begin(generator, s)),
        Standing::Failed if choice < 2 => Ok(Step::Commit(s)),
        Standing::Failed if choice < 4 => Ok(Step::Abort(s)),
        Standing::Failed if choice < 6 => Ok(Step::RollbackTo(s)),
        Standing::Reads | Standing::ReadsNone if has_cursor => {
            draw_with_cursor(generator, bodies, s, key, reads, pages)
        }
        _ => draw_any(generator, bodies, s, key, reads, pages),
    }
}

// A step of a session that stays open for long. Once its newest level has an id, it soon sets a savepoint or releases one.
fn draw_in_level(
    generator: &mut Generator,
    bodies: &Bodies,
    s: u8,
    key: u64,
    reads: bool,
    lacks_id: bool,
) -> Result<Step, AllocError> {
    match (generator.below(1000), lacks_id) {
        (0, _) => Ok(Step::Commit(s)),
        (1..=2, _) => Ok(Step::Abort(s)),
        (3..=19, _) => Ok(Step::RollbackTo(s)),
        (20..=89, _) => Ok(Step::Get(s, key)),
        (90..=579, false) | (90..=189, true) => Ok(Step::Savepoint(s)),
        (580..=929, false) | (190..=229, true) => Ok(Step::Release(s)),
        _ => {
            let length = generator.below(7) as u16;
            draw_write(generator, bodies, s, key, reads, length)
        }
    }
}

/// A step of a session that makes many levels. After a conflict it goes back to a savepoint, or else ends.
pub(crate) fn draw_step_in_levels(
    generator: &mut Generator,
    bodies: &Bodies,
    s: u8,
    key: u64,
    standing: Standing,
    lacks_id: bool,
) -> Result<Step, AllocError> {
    match standing {
        Standing::Closed => Ok(draw_begin(generator, s)),
        Standing::Failed if generator.below(8) == 0 => Ok(Step::Abort(s)),
        Standing::Failed => Ok(Step::RollbackTo(s)),
        Standing::Reads => draw_in_level(generator, bodies, s, key, true, lacks_id),
        Standing::ReadsNone => draw_in_level(generator, bodies, s, key, false, lacks_id),
    }
}

// Two of three vacuums are aggressive.
fn draw_mode(generator: &mut Generator) -> Mode {
    if generator.below(3) == 0 {
        Mode::Normal
    } else {
        Mode::Aggressive
    }
}

/// A step of a vacuum: mostly the next of the one that runs, or a beginning where none does. Now and then it is broken off, or the step is
/// refused.
pub(crate) fn draw_vacuum(generator: &mut Generator, is_running: bool) -> Step {
    match generator.below(64) {
        0 => Step::VacuumCancel,
        1 => Step::VacuumBegin(draw_mode(generator)),
        2 => Step::VacuumStep,
        _ if is_running => Step::VacuumStep,
        _ => Step::VacuumBegin(draw_mode(generator)),
    }
}
