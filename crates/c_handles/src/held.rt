//! What lies behind a handle.

use session_core::{Engine, Reply, Row};

/// An engine, a place for its last reply, and one for the row that it writes next. Each has room for a row, over a kilobyte, and is
/// made once.
#[derive(Drop)]
pub struct Held {
    pub engine: Engine,
    pub reply: Reply,
    pub row: Row,
}
