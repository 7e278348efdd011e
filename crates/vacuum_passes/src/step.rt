//! The next step of a vacuum.

ghost use Rattle.std.specs.Prelude.{◌≡◌, ◌≢◌, ◌⊎◌, ℕ, [], Some, None, is_some, MatchOption};
ghost use Rattle.std.specs.Option.{option_map};
ghost use Rattle.space_maps.specs.View.{mark_on};
ghost use Rattle.vacuum_passes.specs.declared.vacuum.Phase.TheVariants as phase;
ghost use Rattle.vacuum_passes.specs.View.{skips, counted, at_end, is_sweeping};
ghost use Rattle.vacuum_passes.specs.Visits.{IsNextPage, NoPageLeft, Visits};
ghost use Rattle.vacuum_passes.specs.Steps.{Steps, Sweeps, Frees, Drops};

use crate::freeing::{after_freeing, free_from};
use crate::sweeping::sweep_piece;
use crate::vacuum::{Phase, Vacuum};
use crate::visiting::clean_and_collect;
use calls::{Mode, Piece};
use heap_write::HeapState;
use root_index::Entry;
use xid_circle::Xid;

impl Vacuum {
    /// Does the next step at the present horizon, and answers what it did; nothing where the vacuum has ended.
    pub fn step(&mut self, heap: &mut HeapState, horizon: Xid) -> Option<Piece>
        ensures { Steps heap.old heap.new self.old horizon.0
            (option_map (λ _. self.new) result) result }
    {
        match self.phase {
            Phase::Heap => self.step_heap(heap, horizon),
            Phase::Index(_, _) => self.step_index(heap),
            Phase::Free => {
                let page = self.free(heap, horizon);
                self.count();
                Some(Piece::Free(page))
            }
        }
    }

    /// Does the next step if that goes through an index: it asks for no horizon. Else it does nothing.
    pub fn step_index(&mut self, heap: &mut HeapState) -> Option<Piece>
        ensures exact { is_some result ≡ is_sweeping self.old.phase }
        ensures step { MatchOption result ((self.new ≡ self.old) × (heap.new ≡ heap.old))
            (λ piece. (horizon : ℕ)
            → Steps heap.old heap.new self.old horizon (Some self.new) (Some piece)) }
    {
        let Phase::Index(index, from) = self.phase else {
            return None;
        };
        self.sweep(heap, index, from);
        self.count();
        Some(Piece::Index(index))
    }

    /// Visits the next page. Where none is left the indexes begin, and if nothing is collected the vacuum has ended.
    fn step_heap(&mut self, heap: &mut HeapState, horizon: Xid) -> Option<Piece>
        requires phase { self.old.phase ≡ phase.Heap }
        ensures { Steps heap.old heap.new self.old horizon.0
            (option_map (λ _. self.new) result) result }
    {
        match self.next_page(heap) {
            Some(number) => {
                self.visit(heap, number, horizon);
                self.count();
                Some(Piece::Heap(number))
            }
            None => self.leave_heap(heap),
        }
    }

    /// Begins with the indexes, where no page is left. If nothing is collected the vacuum has ended.
    fn leave_heap(&mut self, heap: &mut HeapState) -> Option<Piece>
        requires phase { self.old.phase ≡ phase.Heap }
        requires none_left { NoPageLeft heap.old self.old }
        ensures { (horizon : ℕ) → Steps heap.old heap.new self.old horizon
            (option_map (λ _. self.new) result) result }
    {
        if self.store.is_empty() {
            return None;
        }
        self.begin_indexes(heap);
        self.count();
        Some(Piece::Index(0))
    }

    /// True where the vacuum passes over the page of this number.
    fn skips(&self, heap: &HeapState, number: u32) -> bool
        ensures { result ≡ skips self.now.mode (mark_on heap.now.pages.marks number) }
    {
        match heap.mark(number) {
            Some(mark) => match self.mode {
                Mode::Normal => mark.is_visible(),
                Mode::Aggressive => mark.is_frozen(),
            },
            None => false,
        }
    }

    /// The next page to visit, if one is left.
    fn next_page(&self, heap: &HeapState) -> Option<u32>
        ensures { MatchOption result (NoPageLeft heap.now self.now) (IsNextPage heap.now self.now) }
    {
        let end = self.pages.min(heap.page_count());
        for number in self.next..end {
            if !self.skips(heap, number) {
                return Some(number);
            }
        }
        None
    }

    /// Visits the page of this number, the next one, and collects its dead slots as far as there is space.
    fn visit(&mut self, heap: &mut HeapState, number: u32, horizon: Xid)
        requires phase { self.old.phase ≡ phase.Heap }
        requires next { IsNextPage heap.old self.old number }
        ensures { Visits heap.old heap.new self.old self.new horizon.0 number }
    {
        let limit = self.limit as usize;
        let (next, phase) = clean_and_collect(
            heap,
            &mut self.store,
            number,
            horizon,
            self.cutoff,
            limit,
        );
        self.next = next;
        self.phase = phase;
    }

    /// Begins with the indexes, once no page is left.
    fn begin_indexes(&mut self, heap: &mut HeapState)
        requires phase { self.old.phase ≡ phase.Heap }
        requires some { self.old.store ≢ [] }
        ensures { Sweeps heap.old heap.new (at_end self.old) self.new 0 None }
    {
        self.next = self.pages;
        let (phase, near) = sweep_piece(heap, &self.store, 0, None, self.near);
        self.phase = phase;
        self.near = near;
    }

    /// Goes through the next piece of an index.
    fn sweep(&mut self, heap: &mut HeapState, index: u8, from: Option<Entry>)
        requires { self.old.phase ≡ phase.Index index from }
        ensures { Sweeps heap.old heap.new self.old self.new index from }
    {
        let (phase, near) = sweep_piece(heap, &self.store, index, from, self.near);
        self.phase = phase;
        self.near = near;
    }

    /// Makes the collected slots of the lowest page unused, if that is in use. It answers the page.
    fn free(&mut self, heap: &mut HeapState, horizon: Xid) -> u32
        requires phase { self.old.phase ≡ phase.Free }
        ensures { Frees heap.old heap.new self.old self.new horizon.0 result
            ⊎ Drops heap.old heap.new self.old self.new result }
    {
        let (page, count) = free_from(heap, &self.store, self.freed, horizon);
        let (freed, phase) = after_freeing(&mut self.store, self.freed + count);
        self.freed = freed;
        self.phase = phase;
        page
    }

    /// Counts one more of its own steps.
    fn count(&mut self)
        ensures { self.new ≡ counted self.old }
    {
        if self.alone {
            self.steps = self.steps.saturating_add(1);
        }
    }
}
