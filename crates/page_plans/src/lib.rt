//! Plans of the pruning of many pages, made in several threads while the table goes on.
//!
//! Pages are taken as they are under the latch (`page_views`), and planned without it. A plan is one that a single thread would
//! make, and is applied only where it still checks, no matter who made it.
//!
//! Why it is built so: docs/DECISIONS.md, under its name.
#![tactic(auto)]

mod plans;

pub use page_views::PageViews;
pub use plans::{plan_pages, plan_pages_into};
pub use prune::{Action, PrunePlan};
