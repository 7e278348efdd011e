//! What holds of the world after every run of steps and replies.

ghost use Rattle.history.specs.World.{World};
ghost use Rattle.one_answer.specs.OneAnswer.{RunsHaveOneAnswer, IsOpenIndeed};

/// After every run that the history allows, no two answers to a step are allowed that the history doesn't leave open. Where a
/// refusal is due, it is the one answer.
pub fn runs_have_one_answer()
    ensures { RunsHaveOneAnswer }
{}

/// What is left open is open indeed: where a step may be done, each refusal that is left open may be answered in its place.
pub fn what_is_left_open_is_open()
    ensures { (w : World) → IsOpenIndeed w }
{}
