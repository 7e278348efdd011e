//! How large a page is.

/// The bytes of a page.
pub const PAGE_BYTES: usize = 8192;

/// The bytes of a page's header, which come first. The line pointers are right behind them.
pub const PAGE_HEADER_BYTES: usize = 24;
