//! The laws of looks. Each function does nothing: its contract is the law.

ghost use Rattle.session_looks.specs.Explaining.{ExplanationsShowTheView, FatesForeseePruning};

/// Of all that an explanation of a key shows an open session, exactly one version is seen, with the row of its view; or none, where the
/// view has none.
pub fn explanations_show_the_view()
    ensures { ExplanationsShowTheView }
{}

/// Where a page is pruned, a version goes exactly where its fate said so before.
pub fn fates_foresee_pruning()
    ensures { FatesForeseePruning }
{}
