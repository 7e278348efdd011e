//! What is known of when pruning a page may take something. No script tells hints from none.

use space_maps::PruneHints;
use std::alloc::{AllocError, Global};

/// What is known of a page of which a turn is noted, once there is room for two.
fn turn_known(alloc: Global, number: u32, turn: u32) -> Result<Option<u32>, AllocError> {
    let mut hints = PruneHints::new(alloc);
    hints.make_room(2)?;
    hints.cover(2);
    hints.note(number, turn);
    Ok(hints.turn(number))
}

#[test]
fn hints_take_the_room_that_they_ask_for(rt: HostRuntime) -> Result<(), AllocError> {
    assert_eq!(rt; turn_known(rt.alloc(), 1, 9)?, Some(9));
    assert_eq!(rt; turn_known(rt.alloc(), 2, 9)?, None);
    Ok(())
}
