//! The laws of reasons. Each function does nothing: its contract is the law.

ghost use Rattle.reasons.specs.Laws.{EachHasAReason, ReasonIsOne, VerdictIsOne, ReasonsDecide, VerdictsDecide};

/// An id has a reason for each reader, and a version a verdict.
pub fn each_has_a_reason()
    ensures { EachHasAReason }
{}

/// An id has no two reasons for a reader.
pub fn reason_is_one()
    ensures { ReasonIsOne }
{}

/// A version has no two verdicts for a reader.
pub fn verdict_is_one()
    ensures { VerdictIsOne }
{}

/// A reader counts what an id did exactly where its reason counts.
pub fn reasons_decide()
    ensures { ReasonsDecide }
{}

/// A reader sees a version exactly where its verdict shows it.
pub fn verdicts_decide()
    ensures { VerdictsDecide }
{}
