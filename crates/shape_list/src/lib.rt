//! The shapes that a picture of the table is made of.
//!
//! These are plain values. `shapes` says which of them a picture has, and `svg_text` how each is written.
//!
//! Why it is built so: docs/DECISIONS.md, under its name.
#![tactic(auto)]

mod shape;

pub use shape::{
    BODY_START, DotShape, EntryShape, HorizonShape, IdShape, LinkKind, LinkShape, PageShape,
    SessionShape, Shape, SlotShape, VersionShape,
};
