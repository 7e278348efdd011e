//! Why a script ends early, or a page is not shown.

ghost use Rattle.std.specs.Prelude.{◌≡◌};
ghost use Rattle.script.specs.Status.{exit_status_of};

use crate::page_words::PageWords;
use page_slots::PageFault;
use thiserror::Error;

/// Why a script ended before its end, or a page was not shown. The words are those of the program's standard error.
#[derive(Clone, Copy, Debug, PartialEq, Eq, Error)]
pub enum ShellFault {
    /// The line of this number, counted from 1, isn't allowed.
    #[error("bad line {0}")]
    BadLine(u64),
    /// The bytes that were read are no page.
    #[error("bad page {}", PageWords(*.0))]
    BadPage(PageFault),
    /// The reader answered an error that is no interruption, or its reads were interrupted over and over.
    #[error("input fault")]
    Input,
    /// The writer answered such an error, took nothing, or its writes were interrupted over and over.
    #[error("output fault")]
    Output,
    /// A growth was refused.
    #[error("no memory")]
    NoMemory,
    /// The numbers of lines, which end at 2^64 - 2, ran out.
    #[error("too many lines")]
    TooManyLines,
}

impl ShellFault {
    /// The status that the program ends with. It is 1 after a bad line or a bad page, 2 after a fault of the reader or the writer, and 3
    /// for want of memory or of numbers.
    pub fn status(&self) -> u8
        ensures { result ≡ exit_status_of self.now }
    {
        match self {
            ShellFault::BadLine(_) | ShellFault::BadPage(_) => 1,
            ShellFault::Input | ShellFault::Output => 2,
            ShellFault::NoMemory | ShellFault::TooManyLines => 3,
        }
    }
}
