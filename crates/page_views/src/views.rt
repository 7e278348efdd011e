//! Pages as they were.

ghost use Rattle.std.specs.Prelude.{◌≡◌, length};
ghost use Rattle.page_views.specs.View.{PagesAt, pages_behind};

use commit_status::StatusTable;
use page_slots::Page;
use std::marker::Model;
use std::sync::Arc;
use xid_circle::Xid;

/// Pages as they were at one moment, each with its number, and what a plan of their pruning needs besides: the statuses of the ids, and the
/// horizon.
#[derive(Drop)]
pub struct PageViews {
    pages: Vec<(u32, Arc<Box<Page>>)>,
    statuses: StatusTable,
    horizon: Xid,
}

impl Model for PageViews {
    ghost use Rattle.page_views.specs.View.{PagesAt, pages_behind};

    ghost Value = { PagesAt };

    ghost view = { λ v. record {
      pages = pages_behind v.pages.items;
      statuses = v.statuses;
      horizon = v.horizon.0;
    } };
}

impl PageViews {
    /// These pages, with these statuses and this horizon.
    pub fn of(pages: Vec<(u32, Arc<Box<Page>>)>, statuses: StatusTable, horizon: Xid) -> PageViews
        ensures pages { result.pages ≡ pages_behind pages.items }
        ensures statuses { result.statuses ≡ statuses }
        ensures horizon { result.horizon ≡ horizon.0 }
    {
        PageViews {
            pages,
            statuses,
            horizon,
        }
    }

    /// The pages, each beside its number. (The list is private to this type.)
    pub fn pages(&self) -> &[(u32, Arc<Box<Page>>)]
        ensures { pages_behind result.now ≡ self.now.pages }
    {
        self.pages.as_slice()
    }

    /// The statuses of the ids.
    pub fn statuses(&self) -> &StatusTable
        ensures { result.now ≡ self.now.statuses }
    {
        &self.statuses
    }

    /// The horizon.
    pub fn horizon(&self) -> Xid
        ensures { result.0 ≡ self.now.horizon }
    {
        self.horizon
    }
}
