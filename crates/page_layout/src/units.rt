//! The units of 8 bytes of a page, which are marked in turn.

ghost use Rattle.std.specs.Prelude.{◌≤◌, MatchBool};
ghost use Rattle.page_layout.specs.declared.units.TheConstants.{PAGE_UNITS};
ghost use Rattle.page_layout.specs.Units.{AreMarked, SomeIsMarked};

/// How many units of 8 bytes a page has.
pub const PAGE_UNITS: usize = 1024;

/// Marks the units from one to before another, where none of them is marked yet. Else it answers false.
pub fn mark(marks: &mut [bool; PAGE_UNITS], from: usize, to: usize) -> bool
    requires order { from ≤ to }
    requires within { to ≤ PAGE_UNITS }
    ensures { MatchBool result (AreMarked marks.old marks.new from to)
        (SomeIsMarked marks.old from to) }
{
    for unit in from..to {
        if marks[unit] {
            return false;
        }
        marks[unit] = true;
    }
    true
}
