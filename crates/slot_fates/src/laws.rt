//! The laws of fates. Each function does nothing: its contract is the law.

ghost use Rattle.slot_fates.specs.Laws.{FateIsOne, FatesDecide};

/// The version in a slot has one fate.
pub fn fate_is_one()
    ensures { FateIsOne }
{}

/// Of a sound page pruning takes a version exactly where its fate says so.
pub fn fates_decide()
    ensures { FatesDecide }
{}
