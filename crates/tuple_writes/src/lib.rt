//! Writes on one page, and what they keep.
//!
//! An insert adds a version as a root. A delete, and an update whose new version goes to another page, take a version
//! away. A HOT update replaces it by a heap-only one on the same page (README.HOT). `specs/Headers.antt` and
//! `specs/Writes.antt` say exactly what each leaves, and the functions promise that. None takes memory: the caller has
//! tested the room.
//!
//! The laws say that a sound page, as pruning asks for, stays sound, and that index entries stay right. Both hold under
//! each write by an id in progress, and when ids are given or finish (`specs/Laws.antt`).
//!
//! Why it is built so: docs/DECISIONS.md, under its name.
#![tactic(auto)]

mod headers;
pub mod laws;
mod writes;

pub use headers::{heap_only, replace_header, root};
pub use writes::{add_root, delete_version, hot_update, mark_cold_updated};
