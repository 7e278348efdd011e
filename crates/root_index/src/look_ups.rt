//! Where among nodes a look-up finds its first entry, and where an insert puts one.

ghost use Rattle.std.specs.Prelude.{Some, IfOk, IfErr};
ghost use Rattle.index_entries.specs.Order.{IsAscending};
ghost use Rattle.index_entries.specs.Sets.{IsAfter, IsAt, IsBelow, IsGapFor};
ghost use Rattle.index_nodes.specs.Nodes.{all, rank_in, AreNeat, IsEntryIn, IsPositionIn, IsStartIn};

use index_entries::{Entry, Node};
use index_nodes::nodes::{self, TreePosition};
use xid_circle::Tid;

/// Where the entries after this one begin, or all, where there is none.
pub(crate) fn position_after<N: Node>(nodes: &[N], from: Option<Entry>) -> TreePosition<N::Position>
    requires neat { AreNeat N.IsNeat N.size nodes.now }
    requires ascending { IsAscending (all N.entries nodes.now) }
    ensures { IsStartIn N.entries N.rank N.IsPosition nodes.now (IsAfter from) result }
{
    match from {
        None => nodes::first::<N>(),
        Some(entry) => match nodes::search(nodes, &entry) {
            Ok(position) => nodes::behind::<N>(position),
            Err(position) => position,
        },
    }
}

/// Where the entries after this one begin, or all, where there is none. If the entry is still at the given position, no search is
/// needed.
#[inline(always)]
pub(crate) fn position_near<N: Node>(
    nodes: &[N],
    from: Option<Entry>,
    near: TreePosition<N::Position>,
) -> TreePosition<N::Position>
    requires neat { AreNeat N.IsNeat N.size nodes.now }
    requires ascending { IsAscending (all N.entries nodes.now) }
    ensures { IsStartIn N.entries N.rank N.IsPosition nodes.now (IsAfter from) result }
{
    match from {
        Some(entry) => position_behind(nodes, entry, near),
        None => position_after(nodes, None),
    }
}

/// Where the entries after this one begin. If the entry is still at the given position, no search is needed.
#[inline(always)]
fn position_behind<N: Node>(
    nodes: &[N],
    from: Entry,
    near: TreePosition<N::Position>,
) -> TreePosition<N::Position>
    requires neat { AreNeat N.IsNeat N.size nodes.now }
    requires ascending { IsAscending (all N.entries nodes.now) }
    ensures { IsStartIn N.entries N.rank N.IsPosition nodes.now (IsAfter (Some from)) result }
{
    if nodes::stands_at(nodes, &from, near) {
        return nodes::behind::<N>(near);
    }
    position_after(nodes, Some(from))
}

/// Where the entries begin that are not below this value and this key.
pub(crate) fn position_from<N: Node>(
    nodes: &[N],
    value: i128,
    key: u64,
) -> TreePosition<N::Position>
    requires neat { AreNeat N.IsNeat N.size nodes.now }
    requires ascending { IsAscending (all N.entries nodes.now) }
    ensures { IsStartIn N.entries N.rank N.IsPosition nodes.now (λ e. ¬ IsBelow value key e)
        result }
{
    let tid = Tid { page: 0, slot: 0 };
    match nodes::search(nodes, &Entry { value, key, tid }) {
        Ok(position) => position,
        Err(position) => position,
    }
}

/// Where the entry is, or would go. If a position is given and the entry goes right before or behind it, no search is needed.
pub(crate) fn position_for<N: Node>(
    nodes: &[N],
    sought: &Entry,
    near: Option<TreePosition<N::Position>>,
) -> Result<TreePosition<N::Position>, TreePosition<N::Position>>
    requires neat { AreNeat N.IsNeat N.size nodes.now }
    requires ascending { IsAscending (all N.entries nodes.now) }
    ensures entry { IfOk result (IsEntryIn N.IsEntry nodes.now) }
    ensures found { IfOk result
        (λ position. IsAt (all N.entries nodes.now) sought.now
        (rank_in N.entries N.rank nodes.now position)) }
    ensures position { IfErr result (IsPositionIn N.IsPosition nodes.now) }
    ensures absent { IfErr result
        (λ position. IsGapFor (all N.entries nodes.now) sought.now
        (rank_in N.entries N.rank nodes.now position)) }
{
    match near {
        Some(near) => position_beside(nodes, sought, near),
        None => nodes::search(nodes, sought),
    }
}

/// Where the entry is, or would go. If it goes right before or behind this position, no search is needed.
fn position_beside<N: Node>(
    nodes: &[N],
    sought: &Entry,
    near: TreePosition<N::Position>,
) -> Result<TreePosition<N::Position>, TreePosition<N::Position>>
    requires neat { AreNeat N.IsNeat N.size nodes.now }
    requires ascending { IsAscending (all N.entries nodes.now) }
    ensures entry { IfOk result (IsEntryIn N.IsEntry nodes.now) }
    ensures found { IfOk result
        (λ position. IsAt (all N.entries nodes.now) sought.now
        (rank_in N.entries N.rank nodes.now position)) }
    ensures position { IfErr result (IsPositionIn N.IsPosition nodes.now) }
    ensures absent { IfErr result
        (λ position. IsGapFor (all N.entries nodes.now) sought.now
        (rank_in N.entries N.rank nodes.now position)) }
{
    match nodes::gap_near(nodes, sought, near, true) {
        Some(position) => Err(position),
        None => nodes::search(nodes, sought),
    }
}
