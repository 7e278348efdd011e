//! What a pruning takes before it is dead.
//!
//! Where a session reads by statement, an id that was given early may delete a version that a later one made. So a dead version may
//! stand in a chain behind one that is not dead yet, and a pruning cuts past both. No reader sees either.

use page_slots::Page;
use std::alloc::{AllocError, Global};
use tuple_header::Header;
use xid_circle::{Xid, precedes};

/// The headers of a page's versions, by the number of their slot.
#[derive(Drop)]
pub(crate) struct Chains {
    pub(crate) page: u32,
    headers: Vec<Option<Header>>,
}

/// The versions that stand on the page of this number.
pub(crate) fn chains_of(alloc: Global, page: &Page, number: u32) -> Result<Chains, AllocError> {
    let mut headers = Vec::new(alloc);
    for slot in 0..page.slots() + 1 {
        headers.push(page.header(slot))?;
    }
    Ok(Chains {
        page: number,
        headers,
    })
}

impl Chains {
    fn header(&self, slot: u16) -> Option<Header> {
        *self.headers.get(usize::from(slot))?
    }

    // The slot of the version that came after this one, on the same page.
    fn next_of(&self, header: Header) -> Option<u16> {
        let next = self.header(header.ctid.slot)?;
        if header.ctid.page == self.page && next.xmin == header.xmax && header.xmax.is_normal() {
            Some(header.ctid.slot)
        } else {
            None
        }
    }

    // Whether a version of the chain, from this one on, is still there.
    fn goes_on(&self, header: Header, page: &Page) -> bool {
        let mut header = header;
        for _ in 0..self.headers.len() {
            match self.next_of(header) {
                Some(slot) if page.header(slot).is_some() => return true,
                Some(slot) => match self.header(slot) {
                    Some(next) => header = next,
                    None => return false,
                },
                None => return false,
            }
        }
        false
    }
}

// Whether the id is the horizon or comes after it.
fn is_not_before(x: Xid, horizon: Xid) -> bool {
    x.is_normal() && horizon.is_normal() && !precedes(x, horizon)
}

/// How many versions of these are gone from the page, though who deleted them is not before the horizon, and a later version of the
/// chain is still there. (What was rolled back goes with all that comes behind it.)
pub(crate) fn count_cuts(chains: &Chains, page: &Page, horizon: Xid) -> u64 {
    let mut cuts: u64 = 0;
    for slot in 1..page.slots() + 1 {
        if let (Some(header), None) = (chains.header(slot), page.header(slot)) {
            if is_not_before(header.xmax, horizon) && chains.goes_on(header, page) {
                cuts = cuts.saturating_add(1);
            }
        }
    }
    cuts
}
