//! The lanes of the arrows between slots, so that no two of a page run over each other, and a short one stays inside a long one.

use script_text::{RefusedGrowth, push_item};
use shape_list::Shape;
use std::alloc::Global;

/// How an arrow runs down or up a page, and in which lane, counted from the slots.
#[derive(Clone, Copy, Drop)]
pub(crate) struct Run {
    page: u32,
    pub(crate) from: u16,
    pub(crate) to: u16,
    pub(crate) lane: u32,
}

/// The lane of one that has none yet.
const NO_LANE: u32 = 4294967295;

/// How many slots it passes.
fn length_of(run: &Run) -> u16 {
    run.from.max(run.to) - run.from.min(run.to)
}

/// True where one runs beside the other.
fn are_beside(a: &Run, b: &Run) -> bool {
    a.page == b.page && a.from.min(a.to) < b.from.max(b.to) && b.from.min(b.to) < a.from.max(a.to)
}

/// True where none beside it has this lane.
fn is_free(runs: &[Run], run: &Run, lane: u32) -> bool {
    for other in runs {
        if other.lane == lane && are_beside(other, run) {
            return false;
        }
    }
    true
}

/// The lowest lane that is free.
fn free_lane(runs: &[Run], run: &Run) -> u32 {
    for lane in 0..291u32 {
        if is_free(runs, run, lane) {
            return lane;
        }
    }
    291
}

/// The arrows of all pages, in their order, without lanes.
pub(crate) fn runs_of(alloc: Global, shapes: &[Shape]) -> Result<Vec<Run>, RefusedGrowth> {
    let mut runs = Vec::new(alloc);
    for shape in shapes {
        if let Shape::Link(link) = shape {
            push_item(
                &mut runs,
                Run {
                    page: link.place.page,
                    from: link.place.slot,
                    to: link.to,
                    lane: NO_LANE,
                },
            )?;
        }
    }
    Ok(runs)
}

/// Gives lanes to those of this length.
fn give_lanes_of(runs: &mut [Run], length: u16) {
    for i in 0..runs.len() {
        let run = runs[i];
        if length_of(&run) == length {
            let lane = free_lane(runs, &run);
            runs[i].lane = lane;
        }
    }
}

/// Gives each a lane, the shortest first.
pub(crate) fn give_lanes(runs: &mut [Run]) {
    for length in 0..292u16 {
        give_lanes_of(runs, length);
    }
}

/// How many lanes there are.
pub(crate) fn lanes_in(runs: &[Run]) -> u32 {
    let mut count = 0u32;
    for run in runs {
        count = count.max(run.lane.saturating_add(1));
    }
    count
}
