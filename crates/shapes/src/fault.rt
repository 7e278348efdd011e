//! How much is shown, and why there may be no picture.

/// How many ids a picture shows at most.
pub const MOST_IDS: u64 = 40;

/// How many pages a picture shows at most.
pub const MOST_PAGES: usize = 64;

/// Why there is no picture: the first of these that holds.
#[derive(Clone, Copy, Debug, PartialEq, Eq)]
pub enum PictureFault {
    /// More than 64 pages were asked for.
    TooManyPages,
    /// The page of this number, the first such one that was asked for, is not in use.
    NoSuchPage(u32),
    /// Memory was refused.
    NoMemory,
}
