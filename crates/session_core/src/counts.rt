//! How much an engine has, and which vacuum it runs. Its parts are private to the crate, so what asks one of them is here too.

ghost use Rattle.std.specs.Prelude.{◌≡◌, ◌↔◌, ◌≤◌, ℕ, length};
ghost use Rattle.std.specs.Option.{option_map};
ghost use Rattle.commit_status.specs.Changes.{CanGive};
ghost use Rattle.table_indexes.specs.Indexes.{entries_in};
ghost use Rattle.sessions.specs.Session.{open_bits};
ghost use Rattle.vacuum_passes.specs.View.{VacuumView};

use crate::engine::Engine;
use calls::Mode;
use commit_status::StatusTable;

/// How many more ids can be given. So many that it could never be more are halved until the last that can be given is found.
fn ids_left(statuses: &StatusTable) -> u32
    ensures { (n : ℕ) → CanGive statuses.now n ↔ (n ≤ result) }
{
    statuses.fact_window();
    let mut can = 0u32;
    let mut cannot = 2144483649u32;
    'halves: while can + 1 < cannot {
        let middle = (can + cannot) / 2;
        if statuses.can_give(middle) {
            can = middle;
        } else {
            cannot = middle;
        }
    }
    can
}

impl Engine {
    /// How many pages are in use.
    pub fn pages(&self) -> u32
        ensures { result ≡ length self.now.engine.core.heap.pages.pages }
    {
        self.core.pages()
    }

    /// How many entries the index has that has the most.
    pub fn most_entries(&self) -> u64
        ensures { (i : ℕ) → length (entries_in self.now.engine.core.heap.indexes i) ≤ result }
    {
        self.core.fact_set_up();
        let mut most = 0;
        for number in 0..5u8 {
            if let Some(index) = self.core.index(number) {
                most = most.max(index.len());
            }
        }
        most
    }

    /// How many more ids can be given, one after another, before NeedsFreeze.
    pub fn ids_left(&self) -> u32
        ensures { (n : ℕ) → CanGive self.now.engine.core.heap.statuses n ↔ (n ≤ result) }
    {
        ids_left(self.core.statuses())
    }

    /// Which sessions are open: a bit for each, the lowest for session 0.
    pub fn open_sessions(&self) -> u64
        ensures { result ≡ open_bits self.now.engine.core.sessions }
    {
        self.core.open_sessions()
    }

    /// The mode of the vacuum that is running, if one is.
    pub fn vacuum_mode(&self) -> Option<Mode>
        ensures { result ≡ option_map (λ (v : VacuumView). v.mode) self.now.engine.vacuum }
    {
        let vacuum = self.vacuum.as_ref()?;
        match vacuum.forgets_before() {
            Some(_) => Some(Mode::Aggressive),
            None => Some(Mode::Normal),
        }
    }
}
