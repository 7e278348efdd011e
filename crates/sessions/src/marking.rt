//! Notes for each open session that an index is made.

ghost use Rattle.std.specs.Prelude.{◌≡◌, ◌<◌, suc, length};
ghost use Rattle.sessions.specs.Marks.{MarksPlace, MarksAll};
ghost use Rattle.tuple_header.specs.declared.version.TheConstants.{COLUMNS};

use crate::session::Session;

/// Notes it of the session in a place, if one is open there: the index by the column is made now.
fn mark_place(place: &mut Option<Session>, column: u8)
    requires { column < COLUMNS }
    ensures { MarksPlace (suc column) place.old place.new }
{
    if let Some(session) = place {
        session.mark(column);
    }
}

/// Notes it of each session.
pub(crate) fn mark_all(places: &mut Vec<Option<Session>>, count: usize, column: u8)
    requires column { column < COLUMNS }
    requires count { count ≡ length places.old.items }
    ensures { MarksAll (suc column) places.old.items places.new.items }
{
    for s in 0..count {
        mark_place(&mut places[s], column);
    }
}
