//! How the beginning of a session is read.

ghost use Rattle.std.specs.Prelude.{◌≡◌};
ghost use Rattle.transcript.specs.Transcripts.{judged_as as judged_as_of};

use calls::Step;

/// How sessions are judged: by one snapshot or by statement.
#[derive(Clone, Copy, Debug, PartialEq, Eq)]
pub enum Begins {
    /// Each as its line says.
    AsWritten,
    /// All as if they had begun by statement.
    ByStatement,
    /// All as if they had begun by snapshot.
    BySnapshot,
}

/// How far a transcript is judged.
#[derive(Clone, Copy, Debug, PartialEq, Eq)]
pub enum Until {
    /// Up to the first wrong answer.
    FirstWrong,
    /// To its end. After a wrong answer the history goes on as if what is due had been answered.
    End,
}

impl Begins {
    // The step that is judged in place of this one.
    pub(crate) fn judged_as(self, step: Step) -> Step
        ensures { result ≡ judged_as_of self step }
    {
        match (self, step) {
            (Begins::ByStatement, Step::Begin(s)) => Step::BeginReadCommitted(s),
            (Begins::BySnapshot, Step::BeginReadCommitted(s)) => Step::Begin(s),
            (_, step) => step,
        }
    }
}
