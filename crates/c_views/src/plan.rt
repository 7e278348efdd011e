//! The plan that a pruning would follow.

ghost use Rattle.std.specs.Prelude.{◌≡◌, ◌≤◌, length};
ghost use Rattle.c_views.specs.Actions.{action_of_kind, kind_of_action, target_of_action, shown_action, with_actions};

use prune_actions::Action;

/// What is done to a slot, counted from 1: of kind 0 it becomes unused, of kind 1 dead, and of kind 2 it leads to the slot `target`. Of
/// another kind it leads to slot 0, and no plan with it checks.
#[repr(C)]
#[derive(Clone, Copy)]
pub struct SandpiperAction {
    pub slot: u16,
    pub kind: u16,
    /// Where it leads, of kind 2; else it is not looked at.
    pub target: u16,
}

/// What is done, by C's kind of it.
pub fn action_of(kind: u16, target: u16) -> Action
    ensures { result ≡ action_of_kind kind target }
{
    match kind {
        0 => Action::Unuse,
        1 => Action::Kill,
        2 => Action::Redirect(target),
        _ => Action::Redirect(0),
    }
}

/// The kind of what is done.
fn kind_of_action(action: Action) -> u16
    ensures { result ≡ kind_of_action action }
{
    match action {
        Action::Unuse => 0,
        Action::Kill => 1,
        Action::Redirect(_) => 2,
    }
}

/// Where the slot is to lead, else 0.
fn target_of_action(action: Action) -> u16
    ensures { result ≡ target_of_action action }
{
    match action {
        Action::Redirect(target) => target,
        Action::Unuse | Action::Kill => 0,
    }
}

/// What C reads of what is done to a slot.
fn of_action(slot: u16, action: Action) -> SandpiperAction
    ensures { result ≡ shown_action (slot, action) }
{
    SandpiperAction {
        slot,
        kind: kind_of_action(action),
        target: target_of_action(action),
    }
}

/// Writes what is done to the first of C's places, which are enough.
pub fn put_actions(actions: &[(u16, Action)], places: &mut [SandpiperAction])
    requires { length actions.now ≤ length places.old }
    ensures { places.new ≡ with_actions actions.now places.old }
{
    for number in 0..actions.len() {
        let (slot, action) = actions[number];
        places[number] = of_action(slot, action);
    }
}
