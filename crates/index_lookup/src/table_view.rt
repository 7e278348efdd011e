//! A table, where a reader looks.

use heap_pages::Pages;
use root_index::RootIndex;

/// A table, as it is looked at through one of its indexes.
#[derive(Clone, Copy)]
pub struct TableView<'a> {
    /// Its pages.
    pub pages: &'a Pages,
    /// The index.
    pub index: &'a RootIndex,
}
