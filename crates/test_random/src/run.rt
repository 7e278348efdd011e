//! Runs of steps on a new engine.

use crate::bodies::Bodies;
use crate::counts::Counts;
use crate::draw::{
    KEYS, draw_begin, draw_key, draw_key_of_few, draw_session, draw_step, draw_step_in_levels,
    draw_vacuum, draw_write, put_of, write_of,
};
use crate::generator::Generator;
use crate::passage::{HALF, Passage};
use crate::rings::Rings;
use session_core::{Mode, Reply, Settings, Step};
use side_by_side::{Difference, Pair, Standing};
use std::alloc::{AllocError, Global};
use xid_circle::Xid;

/// How many runs there are.
pub(crate) const RUNS: u64 = 4400;

// A few sessions, also the last ones. Of more than eight writers a snapshot asks for memory.
const SESSIONS: [u8; 12] = [0, 63, 1, 2, 3, 62, 4, 5, 6, 31, 32, 33];

// The session that makes many levels, in the runs where one does.
const NESTING: u8 = 7;

// So many transactions that write pass the turn.
const MOST_TRANSACTIONS: usize = 100;

// A vacuum of so few pages, that nobody disturbs, takes fewer steps.
const MOST_VACUUM_STEPS: u32 = 20_000;

// The ids end in the runs of the second: the next one after them is 3.
const FIRST_IDS: [u32; 4] = [3, 4_294_967_290, 2_147_483_640, 1000];

/// Where a run ended early: how many steps were done, the step after these, and what is not as it has to be.
#[derive(Debug, Drop)]
pub(crate) struct Failure {
    pub(crate) done: u64,
    pub(crate) step: Option<Step>,
    pub(crate) difference: Difference,
}

// Whether one session makes many levels in the run. Such a run has 600 steps.
fn is_nested(run: u64) -> bool {
    run % 10 == 9
}

// Whether the ids of the run begin shortly before the end of the circle or its half, and few may be given before old ones are frozen.
fn is_turning(run: u64) -> bool {
    run % 11 < 4 && !is_nested(run)
}

// Whether the run goes on with writes under early ids, when its table has been cleared.
fn has_early_ids(run: u64) -> bool {
    run % 8 == 5 && !is_turning(run)
}

fn first_xid_of(run: u64) -> u32 {
    let before = 1 + (run % 10) as u32;
    match (is_turning(run), run / 11 % 2) {
        (true, 0) => u32::MAX - before,
        (true, _) => HALF - before,
        _ => FIRST_IDS[(run / 4 % 4) as usize],
    }
}

fn stop_age_of(run: u64) -> u32 {
    match run % 7 {
        _ if is_turning(run) => 6 + (run % 13) as u32,
        5 => 10,
        6 => 25,
        _ => 1_000_000,
    }
}

fn freeze_min_age_of(run: u64) -> u32 {
    match run % 5 {
        0 if is_turning(run) => 2,
        _ if is_turning(run) => 0,
        0 => 3,
        1 => 7,
        2 => 1_000_000_000,
        _ => 0,
    }
}

fn settings_of(run: u64) -> Settings {
    Settings {
        // The session that makes many levels keeps old rows from being pruned.
        max_pages: if is_nested(run) {
            8
        } else {
            1 + (run % 4) as u32
        },
        stop_age: stop_age_of(run),
        freeze_min_age: freeze_min_age_of(run),
        first_xid: first_xid_of(run),
        dead_limit: [64, 1, 3, 4096][(run / 3 % 4) as usize],
        indexed: [run % 3 == 1, run % 3 == 2, false, run % 6 == 1],
    }
}

fn sessions_of(run: u64) -> &'static [u8] {
    match run / 16 % 5 {
        3 | 4 if is_turning(run) => &SESSIONS[..3],
        0 => &SESSIONS[..2],
        1 => &SESSIONS[..3],
        2 => &SESSIONS[..5],
        3 => &SESSIONS[..8],
        _ => &SESSIONS,
    }
}

// How many steps are drawn in the run: 200 to 600.
fn steps_of(run: u64) -> u64 {
    if is_turning(run) {
        500
    } else {
        200 + run % 5 * 100
    }
}

// How many of a hundred steps are a vacuum's.
fn vacuum_share(run: u64) -> u32 {
    if is_turning(run) { 25 } else { 10 }
}

// The next step: whose it is, and what the session asks for as it stands. Now and then the session for which it waits in the end writes
// one of its keys.
fn draw_next_step(
    generator: &mut Generator,
    bodies: &Bodies,
    pair: &Pair,
    rings: &Rings,
    run: u64,
) -> Result<Step, AllocError> {
    if generator.below(100) < vacuum_share(run) {
        return Ok(draw_vacuum(generator, pair.has_vacuum()));
    }
    if is_nested(run) && generator.below(4) > 0 {
        let key = draw_key_of_few(generator);
        let standing = pair.standing(NESTING, key);
        let lacks_id = pair.lacking(NESTING) > 0;
        return draw_step_in_levels(generator, bodies, NESTING, key, standing, lacks_id);
    }
    let s = draw_session(generator, sessions_of(run));
    if is_turning(run) && generator.below(4) == 0 {
        return Ok(Step::Commit(s));
    }
    if let Some((other, key)) = rings.closing_write(s) {
        if generator.below(4) == 0 {
            let reads = matches!(pair.standing(other, key), Standing::Reads);
            return draw_write(generator, bodies, other, key, reads, 0);
        }
    }
    let key = draw_key(generator);
    let standing = pair.standing(s, key);
    let has_cursor = pair.has_cursor(s);
    let pages = settings_of(run).max_pages;
    draw_step(generator, bodies, s, key, standing, has_cursor, pages)
}

fn new_pair(alloc: Global, settings: Settings) -> Result<Pair, Failure> {
    match Pair::new(alloc, settings, &KEYS) {
        Ok(pair) => Ok(pair),
        Err(difference) => Err(Failure {
            done: 0,
            step: None,
            difference,
        }),
    }
}

/// A run: what it is done on, and how far it has come.
#[derive(Drop)]
struct Run {
    number: u64,
    pair: Pair,
    done: u64,
    passage: Passage,
    rings: Rings,
}

impl Run {
    fn new(alloc: Global, number: u64) -> Result<Run, Failure> {
        let settings = settings_of(number);
        Ok(Run {
            number,
            pair: new_pair(alloc, settings)?,
            done: 0,
            passage: Passage::new(Xid(settings.first_xid)),
            rings: Rings::new(),
        })
    }

    fn failure(&self, step: Option<Step>, difference: Difference) -> Failure {
        Failure {
            done: self.done,
            step,
            difference,
        }
    }

    fn count(&mut self, counts: &mut Counts, step: &Step, reply: &Reply, slots: u64) {
        counts.add_step(step, reply);
        self.passage.follow(reply, self.pair.next_id());
        self.rings.follow(step, reply);
        match (step, reply) {
            (Step::Begin(_), Reply::Done) => counts.add_begun(self.pair.children(NESTING)),
            (Step::Insert(_, _) | Step::Update(_, _), Reply::Done) => {
                if self.pair.slots() == slots {
                    counts.add_reused();
                }
            }
            (_, Reply::Ended(_)) if self.pair.makings() > 0 => counts.add_cleaned(),
            (_, Reply::Keys(_)) if self.pair.has_all_visible() => counts.add_noted_keys(),
            _ => {}
        }
    }

    // Does the step, has its reply judged and counts it.
    fn do_step(&mut self, alloc: Global, counts: &mut Counts, step: Step) -> Result<(), Failure> {
        let slots = self.pair.slots();
        match self.pair.step(alloc, &step) {
            Ok(reply) => self.count(counts, &step, &reply, slots),
            Err(difference) => return Err(self.failure(Some(step), difference)),
        }
        self.done = self.done.saturating_add(1);
        Ok(())
    }

    // Has judged what all sessions read, and looks at the maps and the indexes.
    fn compare(&mut self, sessions: &[u8]) -> Result<(), Failure> {
        if let Err(difference) = self.pair.compare_views(sessions) {
            return Err(self.failure(None, difference));
        }
        match self.pair.look() {
            Ok(()) => Ok(()),
            Err(difference) => Err(self.failure(None, difference)),
        }
    }

    // Makes an index while a session by snapshot and one by statement are open, and none has an id. All that were open are ended before.
    // Both then ask for a cursor by it.
    fn make_index(&mut self, alloc: Global, counts: &mut Counts) -> Result<(), Failure> {
        self.end_all(alloc, counts)?;
        self.do_step(alloc, counts, Step::Begin(0))?;
        self.do_step(alloc, counts, Step::BeginReadCommitted(63))?;
        let before = self.pair.makings();
        self.do_step(alloc, counts, Step::CreateIndex(2))?;
        if self.pair.makings() > before {
            counts.add_made();
        }
        self.do_step(alloc, counts, Step::OpenIndex(0, 3, i128::MIN, i128::MAX))?;
        self.do_step(alloc, counts, Step::OpenIndex(63, 3, i128::MIN, i128::MAX))
    }

    // Does the steps that are drawn, and every 50 steps compares what all sessions read.
    fn do_drawn(
        &mut self,
        alloc: Global,
        bodies: &Bodies,
        counts: &mut Counts,
    ) -> Result<(), Failure> {
        let mut generator = Generator::new(self.number);
        for i in 0..steps_of(self.number) {
            let drawn = draw_next_step(
                &mut generator,
                bodies,
                &self.pair,
                &self.rings,
                self.number,
            );
            let Ok(step) = drawn else {
                return Err(self.failure(None, Difference::NoMemory));
            };
            self.do_step(alloc, counts, step)?;
            if i == steps_of(self.number) / 2 && !is_nested(self.number) {
                self.make_index(alloc, counts)?;
            }
            if i % 50 == 49 {
                self.compare(sessions_of(self.number))?;
                self.compare(&[NESTING])?;
            }
        }
        Ok(())
    }

    // Ends all sessions, and the vacuum that runs.
    fn end_all(&mut self, alloc: Global, counts: &mut Counts) -> Result<(), Failure> {
        for s in 0..64u8 {
            if self.pair.is_open(s) {
                self.do_step(alloc, counts, Step::Abort(s))?;
            }
        }
        self.do_step(alloc, counts, Step::VacuumCancel)
    }

    // Does a whole vacuum while no session is open, and compares what it leaves with the rows.
    fn clear(&mut self, alloc: Global, counts: &mut Counts) -> Result<(), Failure> {
        self.do_step(alloc, counts, Step::VacuumBegin(Mode::Aggressive))?;
        for _ in 0..MOST_VACUUM_STEPS {
            if self.pair.has_vacuum() {
                self.do_step(alloc, counts, Step::VacuumStep)?;
            }
        }
        self.do_step(alloc, counts, Step::Begin(0))?;
        if let Err(difference) = self.pair.compare_bare(0) {
            return Err(self.failure(None, difference));
        }
        self.compare(&[0])?;
        self.do_step(alloc, counts, Step::Commit(0))
    }

    // A transaction of session 0 that writes the key, and so takes an id.
    fn do_transaction(
        &mut self,
        alloc: Global,
        counts: &mut Counts,
        key: u64,
    ) -> Result<(), Failure> {
        self.do_step(alloc, counts, Step::Begin(0))?;
        let reads = matches!(self.pair.standing(0, key), Standing::Reads);
        self.do_step(alloc, counts, write_of(alloc, 0, key, reads))?;
        self.do_step(alloc, counts, Step::Commit(0))
    }

    // The session leaves a row of the key, as it finds one or none.
    fn put(&mut self, alloc: Global, counts: &mut Counts, s: u8, key: u64) -> Result<(), Failure> {
        let reads = matches!(self.pair.standing(s, key), Standing::Reads);
        self.do_step(alloc, counts, put_of(alloc, s, key, reads))
    }

    fn prune_all(&mut self, alloc: Global, counts: &mut Counts) -> Result<(), Failure> {
        for number in 0..settings_of(self.number).max_pages {
            self.do_step(alloc, counts, Step::Prune(number))?;
        }
        Ok(())
    }

    // An early id deletes a version that a later one made. Session 0, by statement, takes its id by a write of another key.
    // Session 2 takes the next, and holds the horizon back to it. Session 1 updates the row and commits; then session 0 does. So
    // the version between is dead, the one before it is not yet, and a pruning takes both. No session is open before and after.
    fn write_under_early_id(
        &mut self,
        alloc: Global,
        counts: &mut Counts,
        generator: &mut Generator,
    ) -> Result<(), Failure> {
        let place = generator.below(12) as usize;
        let key = KEYS[place];
        self.do_step(alloc, counts, Step::Begin(0))?;
        self.put(alloc, counts, 0, key)?;
        self.do_step(alloc, counts, Step::Commit(0))?;
        self.do_step(alloc, counts, Step::BeginReadCommitted(0))?;
        self.do_step(alloc, counts, draw_begin(generator, 1))?;
        self.do_step(alloc, counts, Step::BeginReadCommitted(2))?;
        self.put(alloc, counts, 0, KEYS[(place + 1) % 12])?;
        self.put(alloc, counts, 2, KEYS[(place + 2) % 12])?;
        self.put(alloc, counts, 1, key)?;
        self.do_step(alloc, counts, Step::Commit(1))?;
        self.put(alloc, counts, 0, key)?;
        self.do_step(alloc, counts, Step::Commit(0))?;
        self.prune_all(alloc, counts)?;
        self.compare(&[2])?;
        self.do_step(alloc, counts, Step::Abort(2))
    }

    // Takes ids until they have passed the turn, and vacuums where no more are given. No session is open before and after.
    fn pass_turn(&mut self, alloc: Global, counts: &mut Counts) -> Result<(), Failure> {
        for i in 0..MOST_TRANSACTIONS {
            if !self.passage.is_whole() {
                self.do_transaction(alloc, counts, KEYS[i % 12])?;
            }
            if self.passage.is_stopped() {
                self.clear(alloc, counts)?;
            }
        }
        Ok(())
    }

    fn count_pages(&self, counts: &mut Counts) {
        for number in 0..settings_of(self.number).max_pages {
            if let Some(page) = self.pair.page(number) {
                counts.add_page(page, number);
            }
        }
    }

    // Each run has sessions, so that a view was compared in each.
    fn count_views(&self, counts: &mut Counts) -> Result<(), Failure> {
        match self.pair.views() {
            Ok(views) => {
                counts.add_views(views);
                counts.add_cuts(self.pair.cuts());
                Ok(())
            }
            Err(difference) => Err(self.failure(None, difference)),
        }
    }

    // (It borrows the run, which would otherwise be given up wherever a step fails.)
    fn do_all(
        &mut self,
        alloc: Global,
        bodies: &Bodies,
        counts: &mut Counts,
    ) -> Result<(), Failure> {
        self.do_drawn(alloc, bodies, counts)?;
        self.count_pages(counts);
        self.end_all(alloc, counts)?;
        self.clear(alloc, counts)?;
        if has_early_ids(self.number) {
            self.write_under_early_id(alloc, counts, &mut Generator::new(self.number))?;
        }
        if is_turning(self.number) {
            self.pass_turn(alloc, counts)?;
            counts.add_turning(self.passage.is_whole());
        }
        self.count_views(counts)
    }
}

/// Does the steps of the run, and has each reply judged. At its end the table is vacuumed while no session is open.
pub(crate) fn do_run(
    alloc: Global,
    bodies: &Bodies,
    number: u64,
    counts: &mut Counts,
) -> Result<(), Failure> {
    let mut run = Run::new(alloc, number)?;
    run.do_all(alloc, bodies, counts)
}
