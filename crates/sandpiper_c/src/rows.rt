//! Rows, as C writes them.

ghost use Rattle.std.specs.Prelude.{◌≡◌, ◌<◌, ◌≤◌, IfOk};
ghost use Rattle.tuple_header.specs.declared.version.TheConstants.{MOST_BODY};
ghost use Rattle.calls.specs.Words.{row_of};
ghost use Rattle.sandpiper_c.specs.Rows.{IsText, text_within};

use session_core::{Row, RowIn, RowPlace};
use std::alloc::{AllocError, Global};
use tuple_header::RowRef;

/// Makes a row equal to C's, whose length is at most 1024, where it stands. It takes no memory.
#[inline(always)]
pub(crate) fn fill(row: &mut Row, from: &RowPlace)
    requires { from.now.length ≤ MOST_BODY }
    ensures { row.new ≡ row_of (text_within from.now) }
{
    let count = from.length as usize;
    RowRef::new(from.key, from.cols, &from.body[..count]).copy_to(row)
}

/// C's row, whose length is over 1024, with as many zeros as its body: no table takes it.
pub(crate) fn too_large(alloc: Global, row: &RowPlace) -> Result<RowIn, AllocError>
    requires { MOST_BODY < row.now.length }
    ensures { IfOk result (λ text. IsText row.now text) }
{
    Ok(RowIn {
        key: row.key,
        cols: row.cols,
        body: Vec::from_elem(alloc, 0u8, row.length as usize)?,
    })
}
