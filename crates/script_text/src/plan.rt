//! The words of a plan, and their text.

ghost use Rattle.std.specs.Prelude.{◌≡◌, ◌-◌, ◌^◌, ◌++◌, [], IfOk, OnOk};
ghost use Rattle.std.specs.Option.{option_map};
ghost use Rattle.script_text.specs.Grammar.{action_text, actions_text, spaced};
ghost use Rattle.script_text.specs.Reading.{action_of, actions_of, number_of, plan_of, redirect_of, words_of};

use crate::answer::put_unsigned;
use crate::growth::{RefusedGrowth, push, push_action};
use crate::words::{cut, cut_at, number};
use calls::{Action, PlanIn};
use std::alloc::Global;

fn slot(word: &[u8]) -> Option<u16>
    ensures { result ≡ number_of 65535 word.now }
{
    let n = number(word, u64::from(u16::MAX))?;
    Some(n as u16)
}

// A slot, and that to which it is to lead.
#[tactic(auto, unfolding(crate::specs::Reading::redirect_of))]
fn redirect(word: &[u8]) -> Option<(u16, Action)>
    ensures { option_map (λ a. (a.0, a.1)) result ≡ redirect_of word.now }
{
    let (from, to) = cut_at(word, b':')?;
    let n = slot(from)?;
    let target = slot(to)?;
    Some((n, Action::Redirect(target)))
}

// Reads an action, and the slot that it is done to.
#[tactic(auto, unfolding(crate::specs::Reading::action_of))]
fn action(word: &[u8]) -> Option<(u16, Action)>
    ensures { option_map (λ a. (a.0, a.1)) result ≡ action_of word.now }
{
    if word.is_empty() {
        return None;
    }
    let rest = &word[1..];
    match word[0] {
        b'u' => slot(rest).map(|n| (n, Action::Unuse)),
        b'd' => slot(rest).map(|n| (n, Action::Kill)),
        b'r' => redirect(rest),
        _ => None,
    }
}

// Reads actions, one at least.
fn actions(alloc: Global, words: &[u8]) -> Result<Option<Vec<(u16, Action)>>, RefusedGrowth>
    ensures { IfOk result (λ o. option_map (λ v. v.items) o ≡ actions_of (words_of words.now)) }
{
    let mut actions = Vec::new(alloc);
    for word in words.split(|b| *b == b' ') {
        let Some((n, action)) = action(word) else {
            return Ok(None);
        };
        push_action(&mut actions, n, action)?;
    }
    Ok(Some(actions))
}

// A change number alone: nothing is done.
fn idle_plan(alloc: Global, word: &[u8]) -> Option<PlanIn>
    ensures { result
        ≡ option_map (λ n. record { change = n; actions = [] }) (number_of (2 ^ 64 - 1) word.now) }
{
    let change = number(word, u64::MAX)?;
    Some(PlanIn {
        change,
        actions: Vec::new(alloc),
    })
}

// A change number, and what is done to slots, if anything.
pub(crate) fn plan(alloc: Global, text: &[u8]) -> Result<Option<PlanIn>, RefusedGrowth>
    ensures { IfOk result (λ o. o ≡ plan_of (words_of text.now)) }
{
    let Some((word, words)) = cut(text) else {
        return Ok(idle_plan(alloc, text));
    };
    let Some(change) = number(word, u64::MAX) else {
        return Ok(None);
    };
    let Some(actions) = actions(alloc, words)? else {
        return Ok(None);
    };
    Ok(Some(PlanIn { change, actions }))
}

fn put_action(out: &mut Vec<u8>, slot: u16, action: Action) -> Result<(), RefusedGrowth>
    ensures { OnOk result (out.new.items ≡ out.old.items ++ spaced (action_text (slot, action))) }
{
    push(out, b' ')?;
    match action {
        Action::Unuse => {
            push(out, b'u')?;
            put_unsigned(out, u64::from(slot))
        }
        Action::Kill => {
            push(out, b'd')?;
            put_unsigned(out, u64::from(slot))
        }
        Action::Redirect(target) => {
            push(out, b'r')?;
            put_unsigned(out, u64::from(slot))?;
            push(out, b':')?;
            put_unsigned(out, u64::from(target))
        }
    }
}

/// Adds what is done to slots, each behind a space.
pub fn put_actions(out: &mut Vec<u8>, actions: &[(u16, Action)]) -> Result<(), RefusedGrowth>
    ensures { OnOk result (out.new.items ≡ out.old.items ++ actions_text actions.now) }
{
    for (slot, action) in actions {
        put_action(out, *slot, *action)?;
    }
    Ok(())
}
