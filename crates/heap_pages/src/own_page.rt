//! A page of the table, with a copy that readers may share.

ghost use Rattle.std.specs.Prelude.{◌≡◌, None, IfOk};
ghost use Rattle.std.specs.Arc.{arc_value};
ghost use Rattle.std.specs.Borrow.{sem};
ghost use Rattle.heap_pages.specs.Lending.{LendsPage};

use page_slots::Page;
use std::alloc::{AllocError, Global};
use std::marker::Model;
use std::sync::Arc;

/// A page in memory of its own: so none is copied where the table of pages grows. Beside it is the copy that readers were last given,
/// until the page is changed.
#[derive(Debug, Drop)]
pub(crate) struct OwnPage {
    own: Box<Page>,
    shared: Option<Arc<Box<Page>>>,
}

impl Model for OwnPage {
    ghost use Rattle.page_slots.specs.View.{PageView};
    ghost use Rattle.heap_pages.specs.View.{IsCopy};

    ghost Value = { PageView };

    ghost view = { λ p. p.own.value };

    ghost invariant = { λ p. IsCopy p.own.value p.shared };
}

/// Lets go of a copy that readers were given. It is a function of its own, so that a change of a page that nobody shares stays
/// short.
#[inline(never)]
fn forget(shared: &mut Option<Arc<Box<Page>>>)
    ensures { shared.new ≡ None }
{
    *shared = None;
}

impl OwnPage {
    /// The page that this box holds.
    pub(crate) fn of(page: Box<Page>) -> Self
        ensures { result ≡ page.value }
    {
        OwnPage {
            own: page,
            shared: None,
        }
    }

    /// Borrows the page.
    #[inline(always)]
    pub(crate) fn page(&self) -> &Page
        ensures { result.now ≡ self.now }
    {
        &self.own
    }

    /// The page, to be changed in place. The copy that readers share is let go first: they keep what they were given.
    #[inline(always)]
    pub(crate) fn page_mut(&mut self) -> &mut Page
        ensures* writes_back { sem 𝓛 (LendsPage self.entry result) }
        ensures value { result.now ≡ self.old }
    {
        if self.shared.is_some() {
            forget(&mut self.shared);
        }
        &mut self.own
    }

    /// The page as it is now, for readers to keep. It is copied where it was changed since they were last given it.
    pub(crate) fn share(&mut self, alloc: Global) -> Result<Arc<Box<Page>>, AllocError>
        ensures same { self.new ≡ self.old }
        ensures shared { IfOk result (λ page. (arc_value page).value ≡ self.old) }
    {
        if let Some(shared) = &self.shared {
            return Arc::try_clone(shared);
        }
        let mut copy = Box::new(alloc, Page::new())?;
        copy.copy_from(&self.own);
        let shared = Arc::new(alloc, copy)?;
        let theirs = Arc::try_clone(&shared);
        self.shared = Some(shared);
        theirs
    }
}
