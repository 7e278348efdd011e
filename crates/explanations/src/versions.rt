//! The versions of a chain.

ghost use Rattle.std.specs.Prelude.{◌≡◌};
ghost use Rattle.explanations.specs.Shown.{IsShownOn};

use hot_chain::chain;
use page_slots::Page;
use reasons::{Verdict, verdict_on};
use visibility::Reader;

/// A version, and why a reader sees it, or does not.
#[derive(Clone, Copy, Debug, PartialEq, Eq)]
pub struct ShownVersion {
    /// Its slot.
    pub slot: u16,
    /// Its maker and its deleter, with their reasons.
    pub verdict: Verdict,
}

/// The version at a place of the chain that a slot leads to, counted from 0, if the chain is so long. It takes no memory.
pub fn shown_version(
    page: &Page,
    number: u16,
    n: usize,
    reader: &Reader<'_>,
) -> Option<ShownVersion>
    ensures { IsShownOn reader.now page.now.slots number n result }
{
    let listed = chain(page, number, reader.statuses);
    let slot = match listed.as_slice().get(n) {
        Some(slot) => *slot,
        None => return None,
    };
    match page.header(slot) {
        Some(header) => Some(ShownVersion {
            slot,
            verdict: verdict_on(reader, &header),
        }),
        None => None,
    }
}
