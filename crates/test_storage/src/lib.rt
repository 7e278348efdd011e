//! Tests of what a table is stored in: ids and their statuses, versions and their bytes, pages, what goes from them, and indexes.
//!
//! Each value was reckoned by hand, or by a list of slots, and not taken from the program. They stand apart from the crates that they
//! test, so that those are not checked a second time for their sake.
#![tactic(auto)]

#[cfg(test)]
mod entries;
#[cfg(test)]
mod headers;
#[cfg(test)]
mod held_statuses;
#[cfg(test)]
mod ids;
#[cfg(test)]
mod page_faults;
#[cfg(test)]
mod plans;
#[cfg(test)]
mod prune_hints;
#[cfg(test)]
mod random_changes;
#[cfg(test)]
mod slot_list;
#[cfg(test)]
mod slots;
#[cfg(test)]
mod statuses;
#[cfg(test)]
mod steps;
