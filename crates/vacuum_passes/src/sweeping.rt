//! A piece of an index is gone through.

ghost use Rattle.root_index.specs.declared.progress.Progress.TheVariants.{Done};
ghost use Rattle.heap_write.specs.Cleaning.{SweepsAt};
ghost use Rattle.vacuum_passes.specs.Steps.{PhaseAfter};
ghost use Rattle.vacuum_passes.specs.Working.{SweepsPiece};

use crate::vacuum::Phase;
use dead_places::DeadSet;
use heap_write::HeapState;
use root_index::{Entry, PositionHint, Progress};

/// Goes through a piece of the index of this number, after `from`, or from its beginning: its entries to dead places go. It answers
/// what comes next, and where the piece ended, from where the next one goes on without a search.
pub(crate) fn sweep_piece(
    heap: &mut HeapState,
    dead: &DeadSet,
    index: u8,
    from: Option<Entry>,
    near: PositionHint,
) -> (Phase, PositionHint)
    ensures { SweepsPiece heap.old heap.new dead.now index from result.0 }
{
    let (progress, near) = sweep(heap, dead, index, from, near);
    (phase_after_piece(heap, index, progress), near)
}

/// Goes through a piece of an index. In one that is not in use there is nothing to go through.
fn sweep(
    heap: &mut HeapState,
    dead: &DeadSet,
    index: u8,
    from: Option<Entry>,
    near: PositionHint,
) -> (Progress, PositionHint)
    ensures { SweepsAt heap.old heap.new index dead.now from result.0 }
{
    if heap.index(index).is_none() {
        return (Progress::Done, near);
    }
    heap.sweep(index, dead, from, near)
}

/// The next phase after a piece of an index with this progress.
fn phase_after_piece(heap: &HeapState, index: u8, progress: Progress) -> Phase
    ensures { PhaseAfter heap.now.indexes index progress result }
{
    match progress {
        Progress::More(last) => Phase::Index(index, Some(last)),
        Progress::Done => phase_after(heap, index),
    }
}

/// The next phase after an index: the next index, or the freeing of the dead slots.
fn phase_after(heap: &HeapState, index: u8) -> Phase
    ensures { PhaseAfter heap.now.indexes index Done result }
{
    match heap.next_index(index) {
        Some(next) => Phase::Index(next, None),
        None => Phase::Free,
    }
}
