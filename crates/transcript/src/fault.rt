//! Why nothing is said of a transcript.

ghost use Rattle.std.specs.Prelude.{◌≡◌};
ghost use Rattle.transcript.specs.Transcripts.{exit_status_for};

use thiserror::Error;

/// Why a transcript was not judged to its end, or what was said of it was not written. The words are those of the program's standard
/// error.
#[derive(Clone, Copy, Debug, PartialEq, Eq, Error)]
pub enum Fault {
    /// The line of this number, counted from 1, can't be read.
    #[error("bad line {0}")]
    BadLine(u64),
    /// The reader answered an error.
    #[error("input fault")]
    Input,
    /// The writer answered an error.
    #[error("output fault")]
    Output,
    /// Memory was refused.
    #[error("no memory")]
    NoMemory,
}

impl Fault {
    /// The status that the program ends with.
    pub fn status(&self) -> u8
        ensures { result ≡ exit_status_for self.now }
    {
        match self {
            Fault::BadLine(_) => 1,
            Fault::Input | Fault::Output => 2,
            Fault::NoMemory => 3,
        }
    }
}
