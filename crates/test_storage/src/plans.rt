//! Plans of a page whose versions each replaced the one before, at three horizons.

use crate::statuses::table_with;
use arrayvec::ArrayVec;
use commit_status::StatusTable;
use page_slots::Page;
use prune::{Action, plan};
use std::alloc::Global;
use tuple_header::{Header, Row, Tuple, fault_of};
use xid_circle::{Tid, Xid};

/// The inserter and the deleter of a version, the slot of its ctid, and its marks in `mask2` and in `mask`. HOT-updated is 0x4000 and
/// heap-only 0x8000 in the one, and that nobody deleted it is 0x0800 in the other.
type Life = (u32, u32, u16, u16, u16);

static LIVES: [Life; 3] = [
    (3, 4, 2, 0x4000, 0),
    (4, 5, 3, 0xc000, 0),
    (5, 0, 3, 0x8000, 0x0800),
];

/// Adds a version of key 1, if its header has no fault.
fn add(page: &mut Page, (xmin, xmax, slot, marks, mask): Life) {
    let header = Header {
        xmin: Xid(xmin),
        xmax: Xid(xmax),
        ctid: Tid { page: 0, slot },
        mask2: Header::ATTRIBUTES | marks,
        mask,
    };
    let row = Row {
        key: 1,
        cols: [5, 0, 0, 0],
        body: ArrayVec::new(),
    };
    if fault_of(&header).is_none() {
        let _ = page.add(Tuple { header, row });
    }
}

fn page_of(lives: &[Life]) -> Page {
    let mut page = Page::new();
    for life in lives {
        add(&mut page, *life);
    }
    page
}

/// Whether the plan at a horizon names these.
fn is_plan(page: &Page, statuses: &StatusTable, horizon: u32, named: &[(u16, Action)]) -> bool {
    plan(page, statuses, Xid(horizon)).actions.as_slice() == named
}

/// What goes at each horizon. All ids on the page are committed.
static PLANS: [(u32, &'static [(u16, Action)]); 3] = [
    (4, &[]),
    (5, &[(1, Action::Redirect(2))]),
    (6, &[(1, Action::Redirect(3)), (2, Action::Unuse)]),
];

/// The first horizon at which something else goes.
fn first_other(alloc: Global) -> Option<u32> {
    let statuses = table_with(alloc, 4);
    let page = page_of(&LIVES);
    for (horizon, named) in &PLANS {
        if page.slots() != 3 || !is_plan(&page, &statuses, *horizon, *named) {
            return Some(*horizon);
        }
    }
    None
}

#[test]
fn a_plan_takes_what_precedes_its_horizon(rt: HostRuntime) {
    assert_eq!(rt; first_other(rt.alloc()), None);
}
