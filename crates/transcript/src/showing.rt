//! What shows that an answer is wrong.

ghost use Rattle.std.specs.Prelude.{◌≡◌};
ghost use Rattle.plain_history.specs.Plain.{world_of};
ghost use Rattle.transcript.specs.Showing.{ShowsWhy, session_and_key as session_and_key_of};

use calls::Step;
use plain_history::PlainHistory;

/// Of the history, and of a session and a key that a step names.
#[derive(Clone, Copy)]
pub(crate) struct Shown {
    pub(crate) session: u8,
    pub(crate) key: u64,
    /// How many transactions had committed when the session's snapshot was taken.
    pub(crate) reads: usize,
    /// The place of the last transaction that wrote the key.
    pub(crate) writer: Option<usize>,
    /// Another open session that has written it.
    pub(crate) holder: Option<u8>,
}

// The session and the key that a step names.
fn session_and_key(step: &Step) -> Option<(u8, u64)>
    ensures { result ≡ session_and_key_of step.now }
{
    match step {
        Step::Get(s, key) => Some((*s, *key)),
        Step::Insert(s, row) => Some((*s, row.key)),
        Step::Update(s, row) => Some((*s, row.key)),
        Step::Delete(s, key) => Some((*s, *key)),
        _ => None,
    }
}

// What shows why an answer to the step is wrong.
pub(crate) fn shown_by(plain: &PlainHistory, step: &Step) -> Option<Shown>
    ensures { ShowsWhy (world_of plain.now) step.now result }
{
    let Some((session, key)) = session_and_key(step) else {
        return None;
    };
    let Some(reads) = plain.start_of(session) else {
        return None;
    };
    Some(Shown {
        session,
        key,
        reads,
        writer: plain.last_writer_of(key),
        holder: plain.holder_of(session, key),
    })
}
