//! The pages of a table. What asks only one of their parts is here since the parts are private.

ghost use Rattle.std.specs.Prelude.{◌≡◌, ◌≤◌, false, ◌<◌, ◌+◌, [], ◌∷◌, ◌++◌, length, OnOk, OnErr, IfOk, Some, slice_get, slice_set, option_copied};
ghost use Rattle.std.specs.Fn.{FnOnceTakesAtMut};
ghost use Rattle.std.specs.Arc.{arc_value};
ghost use Rattle.page_slots.specs.View.{PageView};
ghost use Rattle.heap_pages.specs.View.{Edits, NotesMark, WritesOn};
ghost use Rattle.heap_pages.specs.Choice.{Promises, HasRoom, FindsFirstPage, IsPlaceFor};

use crate::choice::{first_with_room, free_byte};
use crate::own_page::OwnPage;
use page_slots::Page;
use space_maps::{FreeMap, Mark, VisibilityMap};
use std::alloc::{AllocError, Global};
use std::marker::Model;
use std::sync::Arc;

/// A table has at most so many pages.
pub const MOST_PAGES: u32 = 65536;

/// Where a new version goes.
#[derive(Clone, Copy, Debug, PartialEq, Eq)]
pub enum Placement {
    /// On the page of this number.
    Page(u32),
    /// On a new page, after all others.
    NewPage,
    /// No page has room, and there may be no further one.
    Nowhere,
}

/// The pages of a table, numbered from 0.
///
/// A page with room is found by a map of the pages' free-space bytes, as PostgreSQL finds one
/// (src/backend/storage/freespace/README), and not by a look at each. A page is changed through [`Pages::edit`] or [`Pages::write`], which
/// note its byte anew: so after every call each byte is that of its page. A session writes through [`Pages::write`], which also takes back
/// what the visibility map says of the page. A vacuum notes what it says anew by [`Pages::note`], which changes the page's flag alone.
#[derive(Debug, Drop)]
pub struct Pages {
    pages: Vec<OwnPage>,
    free: FreeMap,
    marks: VisibilityMap,
    // how many pages can be added without memory, here and in the maps
    spare: usize,
}

impl Model for Pages {
    ghost use Rattle.std.specs.Prelude.{◌-◌, vec_len, vec_capacity};
    ghost use Rattle.heap_pages.specs.View.{PagesView, IsPageTable};

    ghost Value = { PagesView };

    ghost view = { λ p. record { pages = p.pages.items; marks = p.marks.marks; spare = p.spare } };

    ghost invariant = { λ p. IsPageTable p.pages.items p.free p.marks p.spare
        (vec_capacity p.pages - vec_len p.pages) };
}

impl Pages {
    /// A table without pages.
    pub fn new(alloc: Global) -> Self
        ensures pages { result.pages ≡ [] }
        ensures marks { result.marks ≡ [] }
    {
        Pages {
            pages: Vec::new(alloc),
            free: FreeMap::new(alloc),
            marks: VisibilityMap::new(alloc),
            spare: 0,
        }
    }

    /// The number of pages, at most 65536.
    pub fn len(&self) -> u32
        ensures count { result ≡ length self.now.pages }
        ensures limit { result ≤ MOST_PAGES }
    {
        self.pages.len() as u32
    }

    /// The page of this number, if it is in use.
    pub fn page(&self, number: u32) -> Option<&Page>
        ensures { option_copied result ≡ slice_get self.now.pages number }
    {
        match self.pages.get(number as usize) {
            Some(own) => Some(own.page()),
            None => None,
        }
    }

    /// The page of this number, which is in use.
    pub fn page_at(&self, number: u32) -> &Page
        requires { number < length self.now.pages }
        ensures { slice_get self.now.pages number ≡ Some result.now }
    {
        self.pages[number as usize].page()
    }

    /// Changes the page of this number, which is in use, as `change` does, and answers what that answers. All other pages, and
    /// what is noted of any, stay as they are. It takes no memory but what the change takes. It is inlined, so that a large
    /// answer is copied once less.
    #[inline(always)]
    pub fn edit<R, F: FnOnce(&mut Page) -> R>(&mut self, number: u32, change: F) -> R
        requires within { number < length self.old.pages }
        requires ready { (page : PageView) → slice_get self.old.pages number ≡ Some page
            → FnOnceTakesAtMut F.FnOnce change page }
        ensures edits { Edits F.FnOnce change self.old self.new number result }
    {
        let page = self.pages[number as usize].page_mut();
        let result = change(page);
        self.free.note(number, free_byte(page));
        result
    }

    /// Changes the page of this number as a session's write does. It is as [`Pages::edit`], but nothing is noted of the page any
    /// more, in the map and in the page's flag, before `change` is done. (The manual's "Visibility Map"; `visibilitymap_clear`.)
    pub fn write<R, F: FnOnce(&mut Page) -> R>(&mut self, number: u32, change: F) -> R
        requires within { number < length self.old.pages }
        requires ready { (page : PageView) → slice_get self.old.pages number ≡ Some page
            → FnOnceTakesAtMut F.FnOnce change (record page { flag = false }) }
        ensures writes { WritesOn F.FnOnce change self.old self.new number result }
    {
        self.marks.note(number, Mark::Nothing);
        let target = self.pages[number as usize].page_mut();
        target.set_flag(false);
        let result = change(target);
        self.free.note(number, free_byte(target));
        result
    }

    /// The page of this number, which is in use, as it is now, for readers to keep whatever is written later. Memory is asked for where
    /// the page was changed since it was last shared, or never was. (An `OwnPage` is
    /// private to this crate.)
    pub fn share(&mut self, number: u32, alloc: Global) -> Result<Arc<Box<Page>>, AllocError>
        requires { number < length self.old.pages }
        ensures same { self.new ≡ self.old }
        ensures shared { IfOk result
            (λ page. slice_get self.old.pages number ≡ Some (arc_value page).value) }
    {
        self.pages[number as usize].share(alloc)
    }

    /// Makes room in memory for `count` more pages, so that the next `count` pages are added without asking for any. Where
    /// memory is refused, all stays as it was.
    pub fn make_room(&mut self, count: usize) -> Result<(), AllocError>
        ensures room { OnOk result (count ≤ self.new.spare) }
        ensures refused { OnErr result (self.old.spare < count) }
        ensures spare { self.old.spare ≤ self.new.spare }
        ensures pages { self.new.pages ≡ self.old.pages }
        ensures marks { self.new.marks ≡ self.old.marks }
        ensures err { OnErr result (self.new ≡ self.old) }
    {
        self.pages.try_reserve(count)?;
        self.free.make_room(count)?;
        self.marks.make_room(count)?;
        self.spare = self.spare.max(count);
        Ok(())
    }

    /// Adds a page after all others. There is room for it in the table's memory, and fewer than 65536 pages are in use.
    pub fn push_page(&mut self, page: Box<Page>)
        requires room { 0 < self.old.spare }
        requires few { length self.old.pages < MOST_PAGES }
        ensures pages { self.new.pages ≡ self.old.pages ++ page.value ∷ [] }
        ensures marks { self.new.marks ≡ self.old.marks ++ Mark.Nothing ∷ [] }
        ensures spare { self.old.spare ≡ self.new.spare + 1 }
    {
        let own = OwnPage::of(page);
        self.free.add_page(free_byte(own.page()));
        self.marks.add_page();
        self.pages.push_reserved(own);
        self.spare -= 1;
    }

    /// The mark that was last noted of the page of this number, if it is in use. (The marks are private to this type.)
    pub fn mark(&self, number: u32) -> Option<Mark>
        ensures { result ≡ slice_get self.now.marks number }
    {
        self.marks.mark(number)
    }

    /// Notes this of the page of this number, which is in use: in the map, and whether it is all-visible in the page's flag too.
    pub fn note(&mut self, number: u32, mark: Mark)
        requires { number < length self.old.pages }
        ensures { NotesMark self.old self.new number mark }
    {
        self.pages[number as usize]
            .page_mut()
            .set_flag(mark.is_visible());
        self.marks.note(number, mark);
    }

    /// The first page whose free-space byte promises room for a version of this size, if there is one. Else a new page is
    /// needed, or a page whose exact room is enough. The size is in bytes, as [`tuple_header::row_size`] counts them. It
    /// looks at the free space map alone: at its 256 groups at most, and at the bytes of those that may have such a page. The
    /// map remembers where the look-up ended; nothing else changes. (The contract speaks of the pages, that of the map of its bytes.)
    pub fn page_for(&mut self, size: usize) -> Option<u32>
        ensures found { FindsFirstPage self.old.pages (Promises size) result }
        ensures same { self.new ≡ self.old }
    {
        self.free.find(size)
    }

    /// The first page in which a version of this size fits, if there is one. The size is in bytes, as
    /// [`tuple_header::row_size`] counts them. It looks at each page before it whose byte leaves open whether it fits. (The search asks
    /// that the bytes are those of the pages, which this type knows.)
    pub fn page_with_room(&self, size: usize) -> Option<u32>
        ensures { FindsFirstPage self.now.pages (HasRoom size) result }
    {
        first_with_room(&self.pages, &self.free, size)
    }

    /// Where a new version of this size goes, where at most `limit` pages may be in use. It goes to the first page whose
    /// free-space byte promises the room, else to a new page. Else, where there may be no new page, it goes to the first
    /// page in which it fits. The size is in bytes, as [`tuple_header::row_size`] counts them. Nothing changes but what the
    /// map remembers.
    pub fn place_for(&mut self, size: usize, limit: u32) -> Placement
        ensures place { IsPlaceFor self.old.pages limit size result }
        ensures same { self.new ≡ self.old }
    {
        if let Some(number) = self.page_for(size) {
            return Placement::Page(number);
        }
        if self.len() < limit {
            return Placement::NewPage;
        }
        match self.page_with_room(size) {
            Some(number) => Placement::Page(number),
            None => Placement::Nowhere,
        }
    }
}
