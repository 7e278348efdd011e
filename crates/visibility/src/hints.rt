//! Hints: what became of a version's inserter and deleter, noted in its header.

ghost use Rattle.std.specs.Prelude.{◌≡◌, None, ◌==◌};
ghost use Rattle.tuple_header.specs.Faults.{header_fault};
ghost use Rattle.visibility.specs.Hints.{maker_marks, deleter_marks, hinted, AreTrue, HintsChangeNothing};

use commit_status::{Status, StatusTable};
use tuple_header::Header;

/// The marks of a version's inserter: frozen, or else what became of it.
fn maker_marks(frozen: bool, status: Status) -> u16
    ensures { result ≡ maker_marks frozen status }
{
    if frozen {
        return Header::XMIN_FROZEN;
    }
    match status {
        Status::InProgress => 0,
        Status::Committed => Header::XMIN_COMMITTED,
        Status::Aborted => Header::XMIN_INVALID,
    }
}

/// The marks of a version's deleter: none, or else what became of it.
fn deleter_marks(none: bool, status: Status) -> u16
    ensures { result ≡ deleter_marks none status }
{
    if none {
        return Header::XMAX_INVALID;
    }
    match status {
        Status::InProgress => 0,
        Status::Committed => Header::XMAX_COMMITTED,
        Status::Aborted => Header::XMAX_INVALID,
    }
}

/// A header with hints.
fn header_with_hints(header: &Header, statuses: &StatusTable) -> Header
    ensures { result ≡ hinted statuses.now header.now }
{
    let inserter = maker_marks(header.is_frozen(), statuses.status(header.xmin));
    let deleter = deleter_marks(header.xmax.0 == 0, statuses.status(header.xmax));
    Header {
        xmin: header.xmin,
        xmax: header.xmax,
        ctid: header.ctid,
        mask2: header.mask2,
        mask: inserter | deleter | header.mask & Header::UPDATED,
    }
}

/// Notes in a header what became of its inserter and its deleter, if they have finished. Nothing else changes, and no
/// verdict does.
pub fn set_hints(header: &mut Header, statuses: &StatusTable)
    requires { header_fault header.old ≡ None }
    ensures hints { header.new ≡ hinted statuses.now header.old }
    ensures true_hints { AreTrue statuses.now header.new }
    ensures faultless { header_fault header.new ≡ None }
{
    let with_hints = header_with_hints(header, statuses);
    *header = with_hints;
}

/// The law of hints: no verdict of a reader changes with them. It does nothing; its contract is the law.
pub fn hints_change_no_verdict()
    ensures { HintsChangeNothing }
{}
