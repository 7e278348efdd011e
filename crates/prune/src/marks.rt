//! Marks that say what pruning makes of each slot, in a fixed array. They are made by one walk along the chain of each root
//! that may lose a version, except where a header tells that the chain is of one version.

ghost use Rattle.std.specs.Prelude.{◌≡◌, ◌≤◌, ◌<◌, ◌+◌, ℕ, None, Some, IfSome, Bool, [], ◌∷◌, length, nat_eq, slice_get, if◌then◌else◌};
ghost use Rattle.std.specs.List.{list_any};
ghost use Rattle.hot_chain.specs.Chain.{has_aborted, IsChain};
ghost use Rattle.prune.specs.Cutting.{IsCutCount};
ghost use Rattle.prune.specs.Pruning.{root_action};
ghost use Rattle.prune.specs.Marks.{AreNumbers, verdict_of, mark_at, marked, MarksChain, IsVerdict, IsSingle, ListsDoubtful};
ghost use Rattle.tuple_header.specs.declared.version.TheConstants.{MOST_SLOT_NUMBERS};

use crate::dead::is_dead_at;
use crate::glance::Numbers;
use arrayvec::ArrayVec;
use commit_status::StatusTable;
use hot_chain::{is_root, list_chain};
use page_slots::Page;
use prune_actions::Action;
use tuple_header::MOST_SLOT_NUMBERS;
use visibility::{Fate, fate_of};
use xid_circle::Xid;

/// The mark of a slot.
#[derive(Clone, Copy, Debug, PartialEq, Eq)]
pub(crate) enum PruneVerdict {
    /// It is neither a root nor in the chain of one, or each such chain is spared: it holds no dead version.
    Orphan,
    /// It is, and nothing is done to it.
    Kept,
    /// It is, and this is done to it.
    Goes(Action),
}

impl PruneVerdict {
    /// The mark of a root, or of a slot in a chain, by the action on it, if there is one.
    fn verdict_of(action: Option<Action>) -> PruneVerdict
        ensures { result ≡ verdict_of action }
    {
        match action {
            Some(action) => PruneVerdict::Goes(action),
            None => PruneVerdict::Kept,
        }
    }
}

/// A mark for each number from 0 to 291.
pub(crate) type Marks = [PruneVerdict; MOST_SLOT_NUMBERS];

/// How many of these versions there are up to the last dead one.
pub fn cut_count(page: &Page, chain: &[u16], statuses: &StatusTable, horizon: Xid) -> usize
    ensures { IsCutCount statuses.now horizon.0 page.now.slots chain.now result }
{
    let mut cut = 0;
    for (i, number) in chain.iter().enumerate() {
        if is_dead_at(page, *number, statuses, horizon) {
            cut = i + 1;
        }
    }
    cut
}

/// The action for a root when the first `cut` versions of its chain go.
pub(crate) fn root_action(cut: usize, chain: &[u16]) -> Option<Action>
    requires { cut ≤ length chain.now }
    ensures { result ≡ root_action cut (slice_get chain.now cut) }
{
    if cut == 0 {
        None
    } else if cut < chain.len() {
        Some(Action::Redirect(chain[cut]))
    } else {
        Some(Action::Kill)
    }
}

/// Marks each of these slots with this action, or as kept if there is none.
fn mark_all(marks: &mut Marks, numbers: &[u16], action: Option<Action>)
    requires { AreNumbers numbers.now }
    ensures { (n : ℕ)
        → mark_at marks.new n
        ≡ (if list_any (nat_eq n) numbers.now then verdict_of action else mark_at marks.old n) }
{
    for number in numbers {
        marks[usize::from(*number)] = PruneVerdict::verdict_of(action);
    }
}

/// The only slot of a root's chain, and whether its version is dead, where the header there tells that no later version
/// replaced it.
fn single_of(page: &Page, root: u16, statuses: &StatusTable, horizon: Xid) -> Option<(u16, bool)>
    ensures { IfSome result
        (λ single. IsSingle statuses.now horizon.0 page.now.slots root single.0 single.1) }
{
    let start = page.redirect(root).unwrap_or(root);
    let header = page.header(start)?;
    if header.is_hot_updated() {
        return None;
    }
    Some((
        start,
        matches!(fate_of(&header, horizon, statuses), Fate::Dead),
    ))
}

/// Notes what becomes of a root whose chain is this slot, and of the slot.
fn mark_single(marks: &mut Marks, root: u16, start: u16, is_dead: bool)
    requires root { root < MOST_SLOT_NUMBERS }
    requires start { start < MOST_SLOT_NUMBERS }
    ensures { (n : ℕ)
        → mark_at marks.new n
        ≡ marked root (start ∷ []) (if is_dead then 1 else 0) n (mark_at marks.old n) }
{
    if is_dead {
        marks[usize::from(start)] = PruneVerdict::Goes(Action::Unuse);
        marks[usize::from(root)] = PruneVerdict::Goes(Action::Kill);
    } else {
        marks[usize::from(start)] = PruneVerdict::Kept;
        marks[usize::from(root)] = PruneVerdict::Kept;
    }
}

/// Notes what becomes of a root with this chain, and of the chain's slots.
fn mark_chain(
    marks: &mut Marks,
    chain: &[u16],
    page: &Page,
    root: u16,
    statuses: &StatusTable,
    horizon: Xid,
)
    requires number { root < MOST_SLOT_NUMBERS }
    requires chain { IsChain (has_aborted statuses.now) page.now.slots root chain.now }
    ensures { MarksChain statuses.now horizon.0 page.now.slots root marks.old marks.new }
{
    let _limit = page.slots();
    let cut = cut_count(page, chain, statuses, horizon);
    mark_all(marks, chain, None);
    mark_all(marks, &chain[..cut], Some(Action::Unuse));
    marks[usize::from(root)] = PruneVerdict::verdict_of(root_action(cut, chain));
}

/// Notes what becomes of a root and of the slots of its chain, which is listed only where it may have more than one.
fn mark_root(
    marks: &mut Marks,
    listed: &mut Numbers,
    page: &Page,
    root: u16,
    statuses: &StatusTable,
    horizon: Xid,
)
    requires number { root < MOST_SLOT_NUMBERS }
    ensures { MarksChain statuses.now horizon.0 page.now.slots root marks.old marks.new }
{
    let _limit = page.slots();
    match single_of(page, root, statuses, horizon) {
        Some((start, is_dead)) => mark_single(marks, root, start, is_dead),
        None => {
            list_chain(page, root, statuses, listed);
            mark_chain(marks, listed.as_slice(), page, root, statuses, horizon);
        }
    }
}

/// Notes the mark of each slot whose chain holds a dead version. A root that is not listed has no dead version in its chain, as a
/// glance told. Nothing is noted before.
pub(crate) fn mark_page(
    marks: &mut Marks,
    doubtful: &[u16],
    page: &Page,
    statuses: &StatusTable,
    horizon: Xid,
)
    requires blank { (n : ℕ) → mark_at marks.old n ≡ PruneVerdict.Orphan }
    requires doubtful { ListsDoubtful statuses.now horizon.0 page.now.slots doubtful.now }
    ensures { (n : ℕ) → IsVerdict statuses.now horizon.0 page.now.slots n (mark_at marks.new n) }
{
    let _limit = page.slots();
    let mut listed: Numbers = ArrayVec::new();
    for root in doubtful {
        if is_root(page, *root) {
            mark_root(marks, &mut listed, page, *root, statuses, horizon);
        }
    }
}
