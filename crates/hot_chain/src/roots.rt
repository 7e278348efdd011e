//! The root whose chain holds a slot.

ghost use Rattle.std.specs.Prelude.{◌≡◌, ◌↔◌, ◌<◌, IsTrue};
ghost use Rattle.hot_chain.specs.Chain.{has_aborted, is_root, LeadsTo, IsLowestRoot};

use crate::walk::chain;
use commit_status::StatusTable;
use page_slots::Page;

/// True where an index entry may lead to a slot: it holds a version that isn't heap-only, or is a redirect.
pub fn is_root(page: &Page, number: u16) -> bool
    ensures { result ≡ is_root page.now.slots number }
{
    match page.header(number) {
        Some(header) => !header.is_heap_only(),
        None => page.redirect(number).is_some(),
    }
}

/// True where `root` is a root or a redirect and its chain holds `slot`.
fn leads_to(page: &Page, root: u16, slot: u16, statuses: &StatusTable) -> bool
    ensures { IsTrue result ↔ LeadsTo (has_aborted statuses.now) page.now.slots root slot }
{
    is_root(page, root) && chain(page, root, statuses).contains(&slot)
}

/// The lowest root or redirect whose chain holds a slot.
pub fn root_of(page: &Page, slot: u16, statuses: &StatusTable) -> Option<u16>
    ensures { IsLowestRoot (has_aborted statuses.now) page.now.slots slot result }
{
    for root in 1..page.slots() + 1 {
        if leads_to(page, root, slot, statuses) {
            return Some(root);
        }
    }
    None
}
