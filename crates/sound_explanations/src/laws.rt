//! The laws of explanations. Each function does nothing: its contract is the law.

ghost use Rattle.sound_explanations.specs.Showing.{ExplanationsShowWhatIsFound, EachIsShownOnce};

/// An explanation shows as seen just what is found of a key: exactly one version, with that row, or none.
pub fn explanations_show_what_is_found()
    ensures { ExplanationsShowWhatIsFound }
{}

/// Through sound entries a version is shown but once: at one place, of one entry, with one verdict.
pub fn each_is_shown_once()
    ensures { EachIsShownOnce }
{}
