//! Where a new root goes, with the memory that it takes.

ghost use Rattle.std.specs.Prelude.{◌≡◌, ◌≤◌, ◌<◌, IfOk, IfSome, OnOk, OnErr};
ghost use Rattle.xid_circle.specs.Circle.{IsNormal};
ghost use Rattle.page_sheet.specs.Slots.{free_number};
ghost use Rattle.tuple_header.specs.Version.{rounded_size_of};
ghost use Rattle.heap_pages.specs.Choice.{IsPlaceFor};
ghost use Rattle.heap_write.specs.Growth.{SamePages, page_in, IsFreshPage, IsReserved, place_of_target, target_number, PutsVersion};
ghost use Rattle.heap_pages.specs.declared.pages.TheConstants.{MOST_PAGES};

use heap_pages::{Pages, Placement};
use page_slots::Page;
use space_maps::PruneHints;
use std::alloc::{AllocError, Global};
use tuple_header::{MOST_SLOTS, Row};
use tuple_writes::add_root;
use xid_circle::{Tid, Xid};

/// Where a new root goes.
#[derive(Debug, Drop)]
pub(crate) enum Target {
    /// On the page of this number.
    Page(u32),
    /// On this page, which is to come after all others. It is boxed, for mostly there is none: so a target is moved at no cost.
    New(Box<Page>),
}

/// Makes room in memory for one more page and the hint on it, and answers the page.
fn reserve_page(
    alloc: Global,
    pages: &mut Pages,
    hints: &mut PruneHints,
) -> Result<Box<Page>, AllocError>
    ensures fresh { IfOk result (λ page. IsFreshPage page.value) }
    ensures room { OnOk result (0 < pages.new.spare) }
    ensures pages { pages.new.pages ≡ pages.old.pages }
    ensures marks { pages.new.marks ≡ pages.old.marks }
    ensures hints { hints.new.pages ≡ hints.old.pages }
{
    pages.make_room(1)?;
    hints.make_room(1)?;
    Ok(Box::new(alloc, Page::new())?)
}

/// Makes room in memory for the page that a new root of this size takes, if it takes a new one while at most `limit` pages may be in
/// use. It answers where the root goes, if it goes anywhere.
pub(crate) fn reserve_place(
    alloc: Global,
    pages: &mut Pages,
    hints: &mut PruneHints,
    size: usize,
    limit: u32,
) -> Result<Option<Target>, AllocError>
    requires fits { size ≤ 8164 }
    requires few { limit ≤ MOST_PAGES }
    ensures same { SamePages pages.old pages.new }
    ensures chosen { IfOk result
        (λ found. IsPlaceFor pages.old.pages limit size (place_of_target found)) }
    ensures ready { IfOk result
        (λ found. IfSome found (λ target. IsReserved pages.new size target)) }
    ensures needs { OnErr result (IsPlaceFor pages.old.pages limit size Placement.NewPage) }
    ensures hints { hints.new.pages ≡ hints.old.pages }
{
    match pages.place_for(size, limit) {
        Placement::Page(number) => Ok(Some(Target::Page(number))),
        Placement::NewPage => Ok(Some(Target::New(reserve_page(alloc, pages, hints)?))),
        Placement::Nowhere => Ok(None),
    }
}

/// Makes a version of the row as a root where one goes, and answers its place.
pub(crate) fn put_version(
    pages: &mut Pages,
    target: Target,
    updated: bool,
    x: Xid,
    row: &Row,
) -> Tid
    requires normal { IsNormal x.0 }
    requires ready { IsReserved pages.old (rounded_size_of row.now) target }
    ensures page { result.page ≡ target_number pages.old.pages target }
    ensures slot { result.slot ≡ free_number (page_in pages.old.pages result.page).slots }
    ensures limit { result.slot ≤ MOST_SLOTS }
    ensures puts { PutsVersion pages.old pages.new updated x.0 row.now result.page }
{
    match target {
        Target::Page(number) => {
            let slot = pages.write(number, |page| add_root(page, number, updated, x, row));
            Tid { page: number, slot }
        }
        Target::New(mut page) => {
            let number = pages.len();
            let fresh: &mut Page = &mut page;
            let slot = add_root(fresh, number, updated, x, row);
            pages.push_page(page);
            Tid { page: number, slot }
        }
    }
}
