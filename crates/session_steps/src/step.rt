//! A step of the engine.

ghost use Rattle.std.specs.Prelude.{◌≡◌, MatchResult, Some, true, false};
ghost use Rattle.history.specs.World.{World, OpenSession, view, world_sessions};
ghost use Rattle.session_steps.specs.State.{is_answered_above};
ghost use Rattle.calls.specs.Bars.{BarsOpen};
ghost use Rattle.session_steps.specs.Agrees.{Agrees};
ghost use Rattle.session_steps.specs.Exact.{AnswersStep};

use crate::engine::SessionEngine;
use crate::get::copy_of;
use crate::outcome::put_reply;
use calls::{Refusal, Reply, Row, Step};

impl SessionEngine {
    /// Does one step, and puts its reply in the place of an earlier one. Whatever world of the history the engine agrees with,
    /// the history allows the reply, and the engine agrees with the next world. A step that is refused names the first reason
    /// that holds, in the order of the table in docs/rules.md, or NoMemory, as is said below that table. A vacuum's step and the
    /// making of an index, which are done above the sessions, change nothing, and leave the earlier reply. A reply has room for a
    /// row, over a kilobyte; who does many steps needs one alone. The earlier one is dropped only when the new one is there, so
    /// the rows of two answers of a cursor may be in memory at once.
    pub fn step_into(&mut self, step: Step, reply: &mut Reply)
        ensures answers { is_answered_above step ≡ false
            → AnswersStep self.old step reply.new self.new }
        ensures stays { is_answered_above step ≡ true
            → (reply.new ≡ reply.old) × (self.new ≡ self.old) }
    {
        step.fact_bounds();
        let answer = match step {
            Step::Get(s, key) => return self.get(s, key, reply),
            Step::Next(s, n) => return self.next_into(s, n, reply),
            Step::TakePage(s, page) => return self.read_page(s, page, reply),
            Step::Begin(s) => self.begin(s),
            Step::BeginReadCommitted(s) => self.begin_read_committed(s),
            Step::Insert(s, row) => self.insert(s, row),
            Step::Update(s, row) => self.update(s, row),
            Step::Delete(s, key) => self.delete(s, key),
            Step::Savepoint(s) => self.savepoint(s),
            Step::RollbackTo(s) => self.rollback_to(s),
            Step::Release(s) => self.release(s),
            Step::OpenIndex(s, index, low, high) => self.open_index(s, index, low, high),
            Step::OpenHeap(s) => self.open_heap(s),
            Step::OpenKeys(s, low, high) => self.open_keys(s, low, high),
            Step::Close(s) => self.close_cursor(s),
            Step::Commit(s) => self.commit(s),
            Step::Abort(s) => self.abort(s),
            Step::Prune(page) => self.prune(page),
            Step::ApplyPlan(page, plan) => self.apply_plan(page, &plan),
            Step::VacuumBegin(_) | Step::VacuumStep | Step::VacuumCancel | Step::CreateIndex(_) => {
                return;
            }
        };
        put_reply(answer, reply)
    }

    /// The row of the key that the session reads, also in a transaction that has failed. It is no step, and takes no
    /// memory. Refusals in order: NoSuchSession, NotOpen.
    pub fn read(&self, s: u8, key: u64) -> Result<Option<Row>, Refusal>
        ensures { (w : World) → Agrees self.now w → MatchResult result
            (λ row. (m : OpenSession) × (w.session s ≡ Some m) × (row ≡ view w.history m key))
            (λ refusal. BarsOpen (world_sessions w) s refusal) }
    {
        let session = self.open_session(s)?;
        let mut place = None;
        Ok(copy_of(self.heap.find_row(key, &self.reader(session, &mut place))))
    }
}
