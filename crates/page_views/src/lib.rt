//! Pages as they were at one moment, with what a plan of their pruning needs: to be read while the table goes on.
#![tactic(auto)]

mod views;

pub use views::PageViews;
