//! The ids.

ghost use Rattle.std.specs.Prelude.{◌≡◌, OnOk};
ghost use Rattle.xid_circle.specs.Circle.{next_of, given};
ghost use Rattle.commit_status.specs.Window.{status_of, turns as turns_between, next_id};
ghost use Rattle.shapes.specs.Shapes.{Adds, AreIds, IsIdShape, IsHolderShown, IsHorizonShape, left_out as left_out_of};

use crate::fault::MOST_IDS;
use commit_status::Status;
use session_core::Engine;
use shape_list::{HorizonShape, IdShape, Shape};
use std::alloc::AllocError;
use xid_circle::Xid;

/// The id that is given after this one.
fn following(x: Xid) -> Xid
    ensures { result.0 ≡ next_of x.0 }
{
    if x.0 == u32::MAX {
        Xid::FIRST_NORMAL
    } else {
        Xid(x.0 + 1)
    }
}

/// The id that is given so many turns after the first.
fn id_after(first: Xid, turns: u64) -> Xid
    ensures { result.0 ≡ given first.0 turns }
{
    let mut x = first;
    for _ in 0..turns {
        x = following(x);
    }
    x
}

/// How many turns after the first an id is given.
fn turns(first: Xid, x: Xid) -> u64
    ensures { result ≡ turns_between first.0 x.0 }
{
    if first.0 <= x.0 {
        u64::from(x.0 - first.0)
    } else {
        (u64::from(x.0) + 4294967293).saturating_sub(u64::from(first.0))
    }
}

/// How many of the ids that are remembered are left out.
pub(crate) fn left_out(engine: &Engine) -> u64
    ensures { result ≡ left_out_of engine.now.engine.core.heap.statuses }
{
    let (next, first) = engine.ids();
    turns(first, next).saturating_sub(MOST_IDS)
}

/// What became of an id. One that is not remembered counts as in progress.
fn status(engine: &mut Engine, id: Xid) -> Status
    ensures same { engine.new ≡ engine.old }
    ensures value { result ≡ status_of engine.old.engine.core.heap.statuses id.0 }
{
    match engine.status_of(id) {
        Some(status) => status,
        None => Status::InProgress,
    }
}

fn id_shape(engine: &mut Engine, id: Xid) -> IdShape
    ensures same { engine.new ≡ engine.old }
    ensures shape { IsIdShape engine.old.engine.core id.0 result }
{
    let owner = engine.owner_of(id);
    let status = status(engine, id);
    IdShape { id, status, owner }
}

/// Adds the last of the ids that are remembered.
pub(crate) fn add_ids(engine: &mut Engine, shapes: &mut Vec<Shape>) -> Result<(), AllocError>
    ensures same { engine.new ≡ engine.old }
    ensures ids { OnOk result
        (Adds (AreIds engine.old.engine.core) shapes.old.items shapes.new.items) }
{
    let (next, first) = engine.ids();
    let left_out = left_out(engine);
    let mut id = id_after(first, left_out);
    for _ in 0..turns(first, next) - left_out {
        let shape = id_shape(engine, id);
        shapes.push(Shape::Id(shape))?;
        id = following(id);
    }
    Ok(())
}

/// The session that holds the horizon back, if one does.
fn holder(engine: &Engine) -> Option<u8>
    ensures { IsHolderShown engine.now.engine.core result }
{
    match engine.horizon_holder() {
        Some(holder) => Some(holder.session),
        None => None,
    }
}

/// The horizon, and who holds it back.
pub(crate) fn horizon_shape(engine: &Engine) -> HorizonShape
    ensures { IsHorizonShape engine.now.engine.core result }
{
    HorizonShape {
        horizon: engine.horizon(),
        holder: holder(engine),
    }
}
