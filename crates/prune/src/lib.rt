//! Pruning: what no reader can see any more is taken from the chains of a page.
//!
//! Of the chain of each root or redirect the prefix goes, up to and with its last dead version. Heap-only versions leave
//! their slots unused, since no index entry leads to them; the root becomes a redirect to the first version that is kept,
//! or dead if none is. An aborted heap-only version that no chain reaches goes too (README.HOT, "Pruning"; the manual's
//! "Heap-Only Tuples" and "Routine Vacuuming").
//!
//! [`plan`] says what is to be done without changing the page. [`check_plan`] says whether a plan may be applied, no matter who made
//! it and when. [`apply_actions`] does what a plan names and nothing else, and [`prune`] is the first and the last of these three.
//! Where no version on the page is dead there is nothing to do: [`first_death`] tells whether one is, and else when one may be. All
//! of them go over the headers once (`glance.rt`), and walk only the chains that may hold a dead version (`marks.rt`). Where it is
//! known in which slots versions may be dead, now or later, [`plan_by_doubts`] looks at these alone, and mostly finds one
//! (`one_doubt.rt`). [`room_after`] tells beforehand how much room the page has once a plan is applied. `specs/Cutting.antt` defines
//! what is cut, by a chain's list on any page and by its links. `specs/Pruning.antt` defines what becomes of each slot, and
//! `specs/Checks.antt` which plans check. `Sound` and `Readers` of `sound_page` define on which pages no reader misses anything.
//! Those who see a page as a list of slots use `Removes` (what goes would be cut), `IsPruned` (the outcome slot by slot) and the
//! laws. The laws are contracts of functions that do nothing.
//!
//! Why it is built so: docs/DECISIONS.md, under its name.
#![tactic(auto)]

mod action;
mod applying;
mod checking;
mod dead;
mod glance;
pub mod laws;
mod marks;
mod one_doubt;
mod planning;
mod room;

pub use action::PrunePlan;
pub use applying::{apply_actions, prune};
pub use checking::{check_actions, check_plan};
pub use dead::first_death;
pub use marks::cut_count;
pub use planning::{plan, plan_by_doubts};
pub use prune_actions::Action;
pub use room::room_after;
