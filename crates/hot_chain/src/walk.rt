//! The walk along a chain. It trusts nothing that it reads: it returns on any page, and visits no slot twice.

ghost use Rattle.std.specs.Prelude.{◌≡◌, IfSome};
ghost use Rattle.page_sheet.specs.Slots.{SlotIsThere};
ghost use Rattle.hot_chain.specs.Chain.{has_aborted, first_of, is_replaced, successor, next_in_chain, IsChain};
ghost use Rattle.hot_chain.specs.Laws.{ChainIsOne};

use arrayvec::ArrayVec;
use commit_status::StatusTable;
use page_slots::Page;
use tuple_header::{Header, MOST_SLOT_NUMBERS};

/// Where the chain of a slot starts.
pub(crate) fn first(page: &Page, number: u16) -> Option<u16>
    ensures value { result ≡ first_of page.now.slots number }
    ensures there { IfSome result (λ n. SlotIsThere page.now.slots n) }
{
    let to = page.redirect(number).unwrap_or(number);
    match page.header(to) {
        Some(_) => Some(to),
        None => None,
    }
}

/// True where a HOT update that has not aborted replaced this version.
fn is_replaced(header: &Header, statuses: &StatusTable) -> bool
    ensures { result ≡ is_replaced (has_aborted statuses.now) header.now }
{
    header.is_hot_updated() && header.xmax.0 != 0 && !statuses.is_aborted(header.xmax)
}

/// Where the chain goes on from the version of this header: to the heap-only version in the slot of its ctid that its deleter
/// made.
pub(crate) fn successor(page: &Page, header: &Header, statuses: &StatusTable) -> Option<u16>
    ensures value { result ≡ successor (has_aborted statuses.now) page.now.slots header.now }
    ensures there { IfSome result (λ n. SlotIsThere page.now.slots n) }
{
    if !is_replaced(header, statuses) {
        return None;
    }
    match page.header(header.ctid.slot) {
        Some(later) if later.is_heap_only() && later.xmin.0 == header.xmax.0 => Some(
            header.ctid.slot,
        ),
        _ => None,
    }
}

/// Where a chain goes on from a slot, on any page: to no slot, or to one that is there. It takes no memory.
pub fn next_in_chain(page: &Page, number: u16, statuses: &StatusTable) -> Option<u16>
    ensures value { result ≡ next_in_chain (has_aborted statuses.now) page.now.slots number }
    ensures there { IfSome result (λ n. SlotIsThere page.now.slots n) }
{
    let header = page.header(number)?;
    successor(page, &header, statuses)
}

/// Lists the slots of the chain that a slot leads to, in order, on any page. The list is cleared first. It takes no memory.
pub fn list_chain(
    page: &Page,
    number: u16,
    statuses: &StatusTable,
    visited: &mut ArrayVec<u16, MOST_SLOT_NUMBERS>,
)
    ensures { IsChain (has_aborted statuses.now) page.now.slots number visited.new.items }
{
    let _count = page.slots();
    visited.clear();
    let mut at = first(page, number);
    'walk: while let Some(n) = at {
        if visited.contains(&n) {
            break;
        }
        visited.push(n);
        at = next_in_chain(page, n, statuses);
    }
}

/// The slots of the chain that a slot leads to, in order, on any page. This list of over half a kilobyte is handed on by
/// value, where [`list_chain`] fills one that is there. It takes no memory.
pub fn chain(page: &Page, number: u16, statuses: &StatusTable) -> ArrayVec<u16, MOST_SLOT_NUMBERS>
    ensures { IsChain (has_aborted statuses.now) page.now.slots number result.items }
{
    let mut listed: ArrayVec<u16, MOST_SLOT_NUMBERS> = ArrayVec::new();
    list_chain(page, number, statuses, &mut listed);
    listed
}

/// The law of chains: a slot has one. It does nothing; its contract is the law.
pub fn chain_is_one()
    ensures { ChainIsOne }
{}
