//! A sound page: what every operation on a page keeps, and what readers find on it.
//!
//! `specs/Links.antt` says where a chain goes on from a slot. `specs/Sound.antt` says which slots are in a root's chain,
//! which pages are sound, and what of their chains a change keeps. `specs/Dead.antt` says which slots hold a dead version,
//! and `specs/Readers.antt` what a reader finds in a slot. Each operation on a page (`prune`, `freeze`, `tuple_writes`) is
//! said to keep these. The lemmas that they share about the chains of any page are in `proofs/`; the laws are contracts of
//! functions that do nothing.
#![tactic(auto)]

ghost use Rattle.sound_page.specs.Laws.{EmptyPageIsSound, SoundIsUnshared, OpenReadersAreReaders};

/// A page without slots is sound.
pub fn empty_page_is_sound()
    ensures { EmptyPageIsSound }
{}

/// On a sound page no slot is in the chains of two roots or redirects.
pub fn sound_is_unshared()
    ensures { SoundIsUnshared }
{}

/// A reader whose snapshot is not before the horizon, and whose own ids are in progress, counts what committed before the horizon,
/// and nothing that is aborted.
pub fn open_readers_are_readers()
    ensures { OpenReadersAreReaders }
{}
