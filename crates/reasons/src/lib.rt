//! Why a reader sees a version, or does not.
//!
//! [`reason_for`] tells why a `Reader` counts what an id did, or does not, and [`verdict_on`] the same of a version's maker and its
//! deleter. Both do so on any page, of any number, and without memory. `specs/Sightings.antt` and `specs/Reasons.antt` define what each
//! reason says. The laws (`specs/Laws.antt`) say that there is exactly one reason. They also say that what a reader reads and sees is
//! exactly what the reasons say. So whoever is told the reasons can add up the verdict.
#![tactic(auto)]

pub mod laws;
mod looking;
mod reason;
mod sighting;

pub use looking::{reason_for, sighting_of, verdict_on};
pub use reason::{Reason, Touch, Verdict};
pub use sighting::{Sighting, XidStanding};
