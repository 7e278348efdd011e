//! The ids of a write: those that the levels of its session lack.

ghost use Rattle.std.specs.Prelude.{◌≡◌, ◌+◌, ◌-◌, ◌<◌, ◌≤◌, ◌⊎◌, ◌↔◌, ◌∷◌, ◌++◌, [], Some, IsTrue, OnOk, OnErr};
ghost use Rattle.xid_circle.specs.Circle.{IsNormal, distance_of};
ghost use Rattle.commit_status.specs.Window.{IsWindow, next_id};
ghost use Rattle.commit_status.specs.Changes.{Gives};
ghost use Rattle.snapshot.specs.Own.{unassigned_levels, current_xid, saved_with};
ghost use Rattle.write_ids.specs.Ids.{SameIds, NeedsFreeze, NewestIsGiven, TakesIds, SameOwn, HasIds};

use commit_status::StatusTable;
use snapshot::OwnIds;
use std::alloc::AllocError;
use xid_circle::Xid;

/// True where more levels lack an id than ids can be given.
pub fn needs_freeze(statuses: &StatusTable, own: &OwnIds) -> bool
    ensures { IsTrue result ↔ NeedsFreeze statuses.now own.now }
{
    !statuses.can_give(own.unassigned_levels())
}

/// Makes room in memory for the ids that the levels lack.
pub fn reserve_ids(statuses: &mut StatusTable, own: &mut OwnIds) -> Result<(), AllocError>
    ensures room { OnOk result (HasIds statuses.new own.new) }
    ensures refused { OnErr result
        ((statuses.old.spare < unassigned_levels own.old.ids own.old.saved)
        ⊎ (own.old.spare < unassigned_levels own.old.ids own.old.saved)) }
    ensures ids { SameIds statuses.old statuses.new }
    ensures own { SameOwn own.old own.new }
    ensures none { unassigned_levels own.old.ids own.old.saved ≡ 0 → statuses.new ≡ statuses.old }
{
    let count = own.unassigned_levels() as usize;
    if count == 0 {
        return Ok(());
    }
    statuses.make_room(count)?;
    own.make_room(count)
}

/// Gives the next id to the lowest of the newest levels that have none, under the id of the level below it.
fn give_id(statuses: &mut StatusTable, own: &mut OwnIds)
    requires lacking { 0 < unassigned_levels own.old.ids own.old.saved }
    requires near { distance_of statuses.old.first (next_id statuses.old) < statuses.old.stop_age }
    requires in_table { 0 < statuses.old.spare }
    requires in_own { 0 < own.old.spare }
    requires newest { NewestIsGiven statuses.old own.old }
    ensures gives { Gives statuses.old statuses.new (current_xid own.old.ids own.old.saved) }
    ensures ids { own.new.ids ≡ own.old.ids ++ next_id statuses.old ∷ [] }
    ensures saved { own.new.saved
        ≡ saved_with (unassigned_levels own.old.ids own.old.saved - 1)
        (next_id statuses.old) own.old.saved }
    ensures spare { statuses.old.spare ≤ statuses.new.spare + 1 }
    ensures own_spare { own.old.spare ≡ own.new.spare + 1 }
    ensures window { IsWindow statuses.new }
{
    match statuses.give(own.current_xid()) {
        Ok(x) => own.add(x),
        Err(_) => unreachable!(),
    }
    statuses.fact_window();
}

/// Gives an id to each level that has none, and answers the newest level's. It takes no memory.
pub fn take_ids(statuses: &mut StatusTable, own: &mut OwnIds) -> Xid
    requires free { ¬ NeedsFreeze statuses.old own.old }
    requires room { HasIds statuses.old own.old }
    requires newest { NewestIsGiven statuses.old own.old }
    ensures takes { TakesIds statuses.old statuses.new own.old own.new result.0 }
    ensures normal { IsNormal result.0 }
    ensures window { IsWindow statuses.new }
{
    statuses.fact_window();
    own.fact_prefixes();
    for _ in 0..own.unassigned_levels() {
        give_id(statuses, own);
    }
    match own.current_xid() {
        Some(x) => x,
        None => unreachable!(),
    }
}
