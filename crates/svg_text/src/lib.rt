//! The text of a picture, as SVG.
//!
//! [`tell_picture`] adds the text of a list of shapes to another: an element for each shape, in their order, as `specs/Svg.antt` spells
//! it. The text has the reasons of each dot as sentences (`specs/Sentences.antt`). Where each shape stands `picture_layout` works out.
//! The arrows' heads are paths, since a browser draws no markers of a hidden picture.
#![tactic(auto)]

mod arrows;
mod dots;
mod ids;
mod open_sessions;
mod parts;
mod picture;
mod sentences;
mod slots;

pub use picture::tell_picture;
pub use sentences::tell_verdict;
