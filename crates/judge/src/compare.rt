//! When two replies are the same.

ghost use Rattle.std.specs.Prelude.{◌≡◌, ◌↔◌, IsTrue};
ghost use Rattle.one_answer.specs.OneAnswer.{TellTheSame};

use calls::{Refusal, Reply};
use tuple_header::{COLUMNS, Row};

/// Whether both refusals have one name, and Busy one session.
fn same_refusal(a: Refusal, b: Refusal) -> bool
    ensures { IsTrue result ↔ (a ≡ b) }
{
    a == b
}

fn same_columns(a: &[i64; COLUMNS], b: &[i64; COLUMNS]) -> bool
    ensures { IsTrue result ↔ (a.now ≡ b.now) }
{
    *a == *b
}

fn same_body(a: &[u8], b: &[u8]) -> bool
    ensures { IsTrue result ↔ (a.now ≡ b.now) }
{
    a == b
}

pub(crate) fn same_row(a: &Row, b: &Row) -> bool
    ensures { IsTrue result ↔ (a.now ≡ b.now) }
{
    a.key == b.key
        && same_columns(&a.cols, &b.cols)
        && same_body(a.body.as_slice(), b.body.as_slice())
}

pub(crate) fn same_rows(a: &[Row], b: &[Row]) -> bool
    ensures { IsTrue result ↔ (a.now ≡ b.now) }
{
    if a.len() != b.len() {
        return false;
    }
    for i in 0..a.len() {
        if !same_row(&a[i], &b[i]) {
            return false;
        }
    }
    true
}

fn same_keys(a: &[u64], b: &[u64]) -> bool
    ensures { IsTrue result ↔ (a.now ≡ b.now) }
{
    a == b
}

fn same_found(a: &Option<Row>, b: &Option<Row>) -> bool
    ensures { IsTrue result ↔ (a.now ≡ b.now) }
{
    match (a, b) {
        (Some(a), Some(b)) => same_row(a, b),
        (None, None) => true,
        _ => false,
    }
}

/// Whether both replies are the same, rows and keys and all.
pub(crate) fn same_reply(a: &Reply, b: &Reply) -> bool
    ensures { IsTrue result ↔ TellTheSame a.now b.now }
{
    match (a, b) {
        (Reply::Done, Reply::Done) => true,
        (Reply::Found(a), Reply::Found(b)) => same_found(a, b),
        (Reply::Committed, Reply::Committed) => true,
        (Reply::RolledBack, Reply::RolledBack) => true,
        (Reply::Rows(a), Reply::Rows(b)) => same_rows(a.as_slice(), b.as_slice()),
        (Reply::Keys(a), Reply::Keys(b)) => same_keys(a.as_slice(), b.as_slice()),
        (Reply::End, Reply::End) => true,
        (Reply::Worked(a), Reply::Worked(b)) => *a == *b,
        (Reply::Ended(a), Reply::Ended(b)) => *a == *b,
        (Reply::Refused(a), Reply::Refused(b)) => same_refusal(*a, *b),
        _ => false,
    }
}
