//! An index by a column is made while sessions are open.

ghost use Rattle.std.specs.Prelude.{◌≡◌, ◌↔◌, IsTrue, MatchOption, MatchResult};
ghost use Rattle.session_steps.specs.Making.{SomeoneHasId, LacksIndexOn, HasOrMakes, RefusesIndexOn};

use crate::engine::SessionEngine;
use calls::Refusal;
use sessions::first_with_id;

impl SessionEngine {
    /// An open session that has an id, if one has. (What the other says of places is said here of the engine.)
    fn writer(&self) -> Option<u8>
        ensures { MatchOption result (¬ SomeoneHasId self.now) (λ _. SomeoneHasId self.now) }
    {
        first_with_id(self.sessions.places_in_use())
    }

    /// True where there is no index by the column, and there may be one.
    pub fn lacks_index(&self, column: u8) -> bool
        ensures { IsTrue result ↔ LacksIndexOn self.now column }
    {
        if column > 3 {
            return false;
        }
        match self.index(column + 1) {
            Some(_) => false,
            None => true,
        }
    }

    /// Makes the index by a column, of the rows that are current, unless it is there. Sessions that are open by snapshot may not scan
    /// it. Refusals in order: NoSuchIndex, IndexBusy, NoMemory. IndexBusy comes while an open session has an id, be it failed or all
    /// rolled back. NoMemory changes nothing, and comes only where a row is current.
    pub fn make_index(&mut self, column: u8) -> Result<(), Refusal>
        ensures { MatchResult result (λ _. HasOrMakes self.old self.new column)
            (λ refusal. RefusesIndexOn self.old column refusal × (self.new ≡ self.old)) }
    {
        if column > 3 {
            return Err(Refusal::NoSuchIndex);
        }
        if let Some(_) = self.index(column + 1) {
            return Ok(());
        }
        if let Some(_) = self.writer() {
            return Err(Refusal::IndexBusy);
        }
        match self.heap.make_index(column) {
            Ok(()) => {}
            Err(_) => return Err(Refusal::NoMemory),
        }
        self.sessions.mark(column);
        Ok(())
    }
}
