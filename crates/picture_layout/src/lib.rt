//! Where the shapes of a picture stand.
//!
//! [`lay_out`] works it out, and promises nothing but a spot for each: that is looked at in a browser. The columns of the boxes are as wide
//! as the longest word in them, and the arrows between slots run in lanes that don't cross.
#![tactic(auto)]

mod lanes;
mod layout;
mod widths;

pub use layout::{Layout, Spot, lay_out};
