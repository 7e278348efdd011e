//! Writes, and their rows as they stand on pages.

ghost use Rattle.std.specs.Prelude.{◌≡◌, ◌<◌, ◌≤◌, ◌+◌, ◌↔◌, IsTrue, length};
ghost use Rattle.std.specs.Int.{next_multiple_of};
ghost use Rattle.tuple_header.specs.declared.version.TheConstants.{BODY_START};

use session_core::{RowIn, Step};
use tuple_header::{BODY_START, MOST_BODY};

/// The session that would write, if the step is a write.
pub(crate) fn writer_of(step: &Step) -> Option<u8> {
    match step {
        Step::Insert(s, _) | Step::Update(s, _) | Step::Delete(s, _) => Some(*s),
        _ => None,
    }
}

/// The row that would be written, if the step is a write of one.
pub(crate) fn row_to_write(step: &Step) -> Option<&RowIn> {
    match step {
        Step::Insert(_, row) | Step::Update(_, row) => Some(row),
        _ => None,
    }
}

/// Whether its body has more bytes than a row of the table may have.
pub(crate) fn is_too_large(row: &RowIn) -> bool
    ensures { IsTrue result ↔ (MOST_BODY < length row.now.body) }
{
    row.body.len() > MOST_BODY
}

/// How many bytes a version of the row takes on a page: 66 and its body, rounded up to a multiple of 8.
pub(crate) fn size_on_page(row: &RowIn) -> usize
    requires { length row.now.body ≤ MOST_BODY }
    ensures { result ≡ next_multiple_of (BODY_START + length row.now.body) 8 }
{
    (BODY_START + row.body.len()).next_multiple_of(8)
}
