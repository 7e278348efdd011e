//! What the judge's words mean.

ghost use Rattle.judge.specs.Laws.{BrokenIsNotAllowed};

/// After every run that the history allows, an answer that breaks a rule is not allowed.
pub fn what_breaks_a_rule_is_not_allowed()
    ensures { BrokenIsNotAllowed }
{}
