//! The steps of sessions, and of those who clean the table.

ghost use Rattle.std.specs.Prelude.{◌≡◌, ◌<◌, length, IfOk, OnOk, OnErr, IfErr};
ghost use Rattle.calls.specs.Bounds.{HasBounds};
ghost use Rattle.calls.specs.Words.{FitsRow, row_of};
ghost use Rattle.calls.specs.Writes.{HasBody};

use crate::reply::Refusal;
use crate::vacuum::Mode;
use prune_actions::Action;
use std::alloc::{AllocError, Global};
use std::marker::Model;
use tuple_header::{COLUMNS, MOST_BODY, Row};

/// A row to be written, whose body may be of any length.
#[derive(Debug, Drop)]
pub struct RowIn {
    /// The row's own key.
    pub key: u64,
    /// The columns 0 to 3.
    pub cols: [i64; COLUMNS],
    /// At most 1024 bytes, else the step is refused as TooLarge.
    pub body: Vec<u8>,
}

impl Model for RowIn {
    ghost use Rattle.calls.specs.Words.{RowToWrite};

    ghost Value = { RowToWrite };

    ghost view = { λ r. record { key = r.key; cols = r.cols; body = r.body.items } };
}

/// A plan of what is done to the slots of a page, of any length; anyone may have made it.
#[derive(Debug, Drop)]
pub struct PlanIn {
    /// The change number of the page that it was made for.
    pub change: u64,
    /// What is done to which slot, in order of slots, else the step is refused as Stale.
    pub actions: Vec<(u16, Action)>,
}

impl Model for PlanIn {
    ghost use Rattle.calls.specs.Words.{PlanToApply};

    ghost Value = { PlanToApply };

    ghost view = { λ p. record { change = p.change; actions = p.actions.items } };
}

/// How many sessions there are: their numbers begin with 0.
pub const MOST_SESSIONS: usize = 64;

/// One call, most of a session, which is named by its number, from 0 to 63.
#[derive(Debug, Drop)]
pub enum Step {
    /// Opens the session: it reads what was committed by now.
    Begin(u8),
    /// Opens the session: each of its statements reads what was committed by then.
    BeginReadCommitted(u8),
    /// Reads the row of a key.
    Get(u8, u64),
    /// Writes a row of a key that has none.
    Insert(u8, RowIn),
    /// Writes another row of a key that has one.
    Update(u8, RowIn),
    /// Takes the row of a key away.
    Delete(u8, u64),
    /// Sets a savepoint, above those that the session has: at most 32.
    Savepoint(u8),
    /// Takes back what the session wrote since its newest savepoint, which stays. A session that has failed is usable again.
    RollbackTo(u8),
    /// Forgets the newest savepoint, and keeps what the session wrote since.
    Release(u8),
    /// Makes what the session wrote part of the history, unless it has failed, and closes it.
    Commit(u8),
    /// Drops what the session wrote, and closes it.
    Abort(u8),
    /// Opens a cursor over the rows that the session reads whose value in an index lies within two bounds, both included. The
    /// fields are the session, the index (0 by key, c + 1 by column c), the lower and the upper bound.
    OpenIndex(u8, u8, i128, i128),
    /// Opens a cursor over all rows that the session reads.
    OpenHeap(u8),
    /// Opens a cursor over the keys of the rows that the session reads which lie within two bounds, both included. The fields are
    /// the session, the lower and the upper bound. It hands out keys alone, by the index by key, and looks at no page that is noted
    /// as all-visible.
    OpenKeys(u8, i128, i128),
    /// Asks the cursor for rows, or for keys. In an index it asks for the next so many, where 0 counts as 1, or all that are left. In
    /// the heap it asks for those of a page.
    Next(u8, u16),
    /// Closes the cursor.
    Close(u8),
    /// Reads all rows of a page, counted from 0, that the session reads.
    TakePage(u8, u32),
    /// Takes from a page, counted from 0, what nobody can see any more.
    Prune(u32),
    /// Does on a page, counted from 0, what a plan names, where the plan still checks.
    ApplyPlan(u32, PlanIn),
    /// Begins a vacuum, of which one runs at a time.
    VacuumBegin(Mode),
    /// Does the next step of the vacuum: it visits one page, goes through one piece of an index, or frees the collected slots of
    /// one page. Where nothing is left to do it ends.
    VacuumStep,
    /// Drops the vacuum. What it did stays.
    VacuumCancel,
    /// Makes the index of a column, from 0 to 3, unless it is there.
    CreateIndex(u8),
}

/// Equal elements. None take no memory.
fn copy_of<T: Copy>(alloc: Global, elements: &[T]) -> Result<Vec<T>, AllocError>
    ensures copy { IfOk result (λ copy. copy.items ≡ elements.now) }
    ensures refused { OnErr result (0 < length elements.now) }
{
    let mut copy = Vec::new(alloc);
    match copy.extend_from_slice(elements) {
        Ok(()) => Ok(copy),
        Err(fault) => Err(fault),
    }
}

impl PlanIn {
    /// An equal plan. It takes no memory where no slot is named.
    pub fn copy(&self, alloc: Global) -> Result<PlanIn, AllocError>
        ensures copy { IfOk result (λ plan. plan ≡ self.now) }
        ensures refused { OnErr result (0 < length self.now.actions) }
    {
        Ok(PlanIn {
            change: self.change,
            actions: copy_of(alloc, self.actions.as_slice())?,
        })
    }
}

impl RowIn {
    /// An equal row. It takes no memory where the body is empty.
    pub fn copy(&self, alloc: Global) -> Result<RowIn, AllocError>
        ensures copy { IfOk result (λ row. row ≡ self.now) }
        ensures refused { OnErr result (0 < length self.now.body) }
    {
        Ok(RowIn {
            key: self.key,
            cols: self.cols,
            body: copy_of(alloc, self.body.as_slice())?,
        })
    }
}

/// Writes the row of the table in the place of another, unless the body has more than 1024 bytes. Refusals: TooLarge.
pub fn fill_row(place: &mut Row, row: &RowIn) -> Result<(), Refusal>
    ensures filled { OnOk result (FitsRow row.now × (place.new ≡ row_of row.now)) }
    ensures fault { IfErr result
        (λ refusal. (refusal ≡ Refusal.TooLarge) × (MOST_BODY < length row.now.body)) }
{
    place.key = row.key;
    place.cols = row.cols;
    place.body.clear();
    match place.body.try_extend_from_slice(row.body.as_slice()) {
        Ok(()) => Ok(()),
        Err(_) => Err(Refusal::TooLarge),
    }
}

impl Step {
    /// The bounds of a cursor are numbers of their type. It does nothing: its contract is the law.
    pub fn fact_bounds(&self)
        ensures { HasBounds self.now }
    {
        if let Step::OpenIndex(_, _, low, high) | Step::OpenKeys(_, low, high) = self {
            let _low = *low;
            let _high = *high;
        }
    }

    /// An equal step. It takes no memory but for a body or a plan that is not empty.
    pub fn copy(&self, alloc: Global) -> Result<Step, AllocError>
        ensures copy { IfOk result (λ step. step ≡ self.now) }
        ensures refused { OnErr result (HasBody self.now) }
    {
        match self {
            Step::Begin(s) => Ok(Step::Begin(*s)),
            Step::BeginReadCommitted(s) => Ok(Step::BeginReadCommitted(*s)),
            Step::Get(s, key) => Ok(Step::Get(*s, *key)),
            Step::Insert(s, row) => Ok(Step::Insert(*s, row.copy(alloc)?)),
            Step::Update(s, row) => Ok(Step::Update(*s, row.copy(alloc)?)),
            Step::Delete(s, key) => Ok(Step::Delete(*s, *key)),
            Step::Savepoint(s) => Ok(Step::Savepoint(*s)),
            Step::RollbackTo(s) => Ok(Step::RollbackTo(*s)),
            Step::Release(s) => Ok(Step::Release(*s)),
            Step::Commit(s) => Ok(Step::Commit(*s)),
            Step::Abort(s) => Ok(Step::Abort(*s)),
            Step::OpenIndex(s, index, low, high) => Ok(Step::OpenIndex(*s, *index, *low, *high)),
            Step::OpenHeap(s) => Ok(Step::OpenHeap(*s)),
            Step::OpenKeys(s, low, high) => Ok(Step::OpenKeys(*s, *low, *high)),
            Step::Next(s, count) => Ok(Step::Next(*s, *count)),
            Step::Close(s) => Ok(Step::Close(*s)),
            Step::TakePage(s, page) => Ok(Step::TakePage(*s, *page)),
            Step::Prune(page) => Ok(Step::Prune(*page)),
            Step::ApplyPlan(page, plan) => Ok(Step::ApplyPlan(*page, plan.copy(alloc)?)),
            Step::VacuumBegin(mode) => Ok(Step::VacuumBegin(*mode)),
            Step::VacuumStep => Ok(Step::VacuumStep),
            Step::VacuumCancel => Ok(Step::VacuumCancel),
            Step::CreateIndex(column) => Ok(Step::CreateIndex(*column)),
        }
    }
}
