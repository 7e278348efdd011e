//! What every run of steps and replies keeps, and what an engine that agrees with the history tells a writer.

ghost use Rattle.refinement.specs.Allowed.{RunsAreLawful};
ghost use Rattle.refinement.specs.Laws.{UndeletedIsUncontested};

/// In every run that the history allows, these four laws are true. The first committer wins. What an open session has
/// written, nobody has who committed since the snapshot of that write was taken. No two open sessions have written one key.
/// Who holds a key has written.
pub fn runs_are_lawful()
    ensures { RunsAreLawful }
{}

/// Let an open session see a version that nobody has deleted, whatever world its engine agrees with. Then nobody has committed its
/// key since the session's statement began, and no other open session holds it. So a writer that finds such a version needs no
/// search.
pub fn undeleted_is_uncontested()
    ensures { UndeletedIsUncontested }
{}
