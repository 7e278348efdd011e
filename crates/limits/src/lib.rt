//! The limits of the product, by their numbers. Contracts name a limit by its constant; here it is said once how much each is, so that
//! no constant can change unseen.
#![tactic(auto)]

ghost use Rattle.limits.specs.Limits.{LimitsAre};

/// How much each limit is. It does nothing; its contract is the law.
pub fn limits_are()
    ensures { LimitsAre }
{}
