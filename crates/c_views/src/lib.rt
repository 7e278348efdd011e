//! What C reads of an engine, and writes for it: structs, the numbers in them, and what goes into a buffer.
//!
//! Each function asks one look of [`session_core::Engine`] and says the answer again in a struct that C can read, with no memory of its
//! own. `specs/` say which struct that is. The exports of `sandpiper_c` write it to the caller's place. The bytes of a page and the picture
//! of a table go into a buffer of the caller's. Where that is too small, it is left as it was, and the status says so.
//!
//! Why it is built so: docs/DECISIONS.md, under its name.
#![tactic(auto)]

mod bytes;
mod entry;
mod fate;
mod fault;
mod horizon;
mod id;
mod page;
mod picture;
mod piece;
mod plan;
mod reason;
mod session;
mod settings;
mod state;
mod vacuum;

pub use bytes::put_page_of;
pub use entry::{SandpiperPlace, next_entry};
pub use fate::{SandpiperFate, fate_at};
pub use fault::fault_in;
pub use horizon::{SandpiperHorizon, horizon_in};
pub use id::{SandpiperId, id_in};
pub use page::{SandpiperPage, SandpiperSlot, head_of_page, of_slot, slot_of_page};
pub use picture::show_picture;
pub use piece::{SandpiperPiece, of_piece};
pub use plan::{SandpiperAction, action_of, put_actions};
pub use reason::{SandpiperReason, SandpiperShown, explanation};
pub use session::{
    SandpiperSession, SandpiperSnapshot, ids_at_savepoint, listed_id, own_id, session_in,
};
pub use settings::{SandpiperSettings, settings_of};
pub use state::{SandpiperState, of_engine};
pub use vacuum::{SandpiperVacuum, vacuum_in};
