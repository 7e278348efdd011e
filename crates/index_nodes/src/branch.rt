//! A branch: nodes that stand together in memory.

ghost use Rattle.std.specs.Prelude.{◌≡◌, ◌≤◌, ◌++◌, [], suc, length, sum_by, vec_len, vec_capacity};
ghost use Rattle.std.proofs.Common.{arith};
ghost use Rattle.index_nodes.specs.Rows.{none_without, some_with, many_with, halves_with, rank_within, rank_inside, entry_is_position};
ghost use Rattle.index_nodes.specs.Nodes.{all, rank_in, AreNeat, IsPositionIn, IsEntryIn, AreLeft, HavePlaces};

use crate::nodes::{self, Spares, TreePosition};
use dead_places::DeadSet;
use index_entries::{Entry, HALF, Half, MOST_PARTS, Node, Swept};
use std::alloc::{AllocError, Global};
use std::marker::Model;
use std::mem;

/// At most 128 nodes. There is always room for all of them in memory.
#[derive(Debug, Drop)]
pub struct Branch<N> {
    nodes: Vec<N>,
}

impl<N> Model for Branch<N> {
    ghost use Rattle.std.specs.Prelude.{List, length, vec_capacity};
    ghost use Rattle.index_nodes.specs.Keeps.{IsBranch};

    ghost Value = { List N };

    ghost view = { λ b. b.nodes.items };

    ghost invariant = { λ b. IsBranch (length b.nodes.items) (vec_capacity b.nodes) };
}

// What a `Node` is asked, a branch asks of its list, mostly by functions of `nodes`, which are proved of any list of nodes.
impl<N: Node> Node for Branch<N> {
    type Position = TreePosition<N::Position>;

    type Spares = Spares<N, N::Spares>;

    ghost entries = { λ b. all N.entries b };

    ghost size = { λ b. length b };

    ghost nodes = { λ b. suc (sum_by N.nodes b) };

    ghost long = { λ b. sum_by N.long b };

    ghost Fits = { N.Fits };

    ghost IsNeat = { λ b. AreNeat N.IsNeat N.size b };

    ghost IsPosition = { λ b position. IsPositionIn N.IsPosition b position };

    ghost IsEntry = { λ b position. IsEntryIn N.IsEntry b position };

    ghost rank = { λ b position. rank_in N.entries N.rank b position };

    ghost HasLeft = { λ spares k. AreLeft N.HasLeft (vec_len spares.nodes) spares.below k };

    ghost HasPlaces = { λ spares. HavePlaces N.HasPlaces (vec_capacity spares.nodes) spares.below };

    ghost HasReserve = { λ spares. N.HasReserve spares.below };

    fn new(alloc: Global) -> Result<Self, AllocError> {
        let nodes = Vec::with_capacity(alloc, MOST_PARTS)?;
        Ok(Branch { nodes })
    }

    fn clear(&mut self) {
        self.nodes.clear();
    }

    fn len(&self) -> usize {
        self.nodes.len()
    }

    fn begins_after(&self, sought: &Entry) -> bool {
        self.nodes[0].begins_after(sought)
    }

    fn search(
        &self,
        sought: &Entry,
    ) -> Result<TreePosition<N::Position>, TreePosition<N::Position>> {
        nodes::search(&self.nodes, sought)
    }

    #[inline(always)]
    fn stands_at(&self, sought: &Entry, position: TreePosition<N::Position>) -> bool {
        nodes::stands_at(&self.nodes, sought, position)
    }

    fn first() -> TreePosition<N::Position> {
        nodes::first::<N>()
    }

    fn behind(position: TreePosition<N::Position>) -> TreePosition<N::Position> {
        nodes::behind::<N>(position)
    }

    #[inline(always)]
    fn entry_at(&self, position: TreePosition<N::Position>) -> Option<Entry> {
        nodes::entry_at(&self.nodes, position)
    }

    #[inline(always)]
    fn look_at(&self, position: TreePosition<N::Position>) -> Option<(Entry, bool)> {
        nodes::look_at(&self.nodes, position)
    }

    fn gap_near(
        &self,
        sought: &Entry,
        near: TreePosition<N::Position>,
        is_last: bool,
    ) -> Option<TreePosition<N::Position>> {
        nodes::gap_near(&self.nodes, sought, near, is_last)
    }

    fn split(
        &mut self,
        upper: &mut Self,
        position: TreePosition<N::Position>,
    ) -> Half<TreePosition<N::Position>> {
        move_half(&mut self.nodes, &mut upper.nodes);
        if position.node < HALF {
            Half::Lower(position)
        } else {
            Half::Upper(TreePosition {
                node: position.node - HALF,
                inner: position.inner,
            })
        }
    }

    fn insert(
        &mut self,
        spares: &mut Spares<N, N::Spares>,
        position: TreePosition<N::Position>,
        entry: Entry,
    ) -> Result<(), AllocError> {
        nodes::insert(&mut self.nodes, spares, position, entry)
    }

    #[inline(always)]
    fn sweep_from(
        &mut self,
        spares: &mut Spares<N, N::Spares>,
        position: TreePosition<N::Position>,
        dead: &DeadSet,
    ) -> Option<Swept<TreePosition<N::Position>>> {
        nodes::sweep_from(&mut self.nodes, spares, position, dead)
    }

    // (Leaves are read ahead, and a branch has nothing but these.)
    #[inline(always)]
    fn touch(&self, _dead: &DeadSet) -> u32 {
        0
    }

    #[inline(always)]
    fn take_touched(_spares: &mut Spares<N, N::Spares>, _touched: u32) {}

    fn no_spares(alloc: Global) -> Spares<N, N::Spares> {
        Spares {
            nodes: Vec::new(alloc),
            below: N::no_spares(alloc),
        }
    }

    fn has_left(spares: &Spares<N, N::Spares>, count: usize) -> bool {
        if count > spares.nodes.len() {
            return false;
        }
        N::has_left(&spares.below, count)
    }

    fn add_spares(spares: &mut Spares<N, N::Spares>, count: usize) -> Result<(), AllocError> {
        nodes::add_nodes(&mut spares.nodes, count)?;
        N::add_spares(&mut spares.below, count)
    }

    ghost none = { λ b none. none_without N.entries b none };

    ghost some = { λ b neat some. some_with N.entries N.IsNeat N.size N.some b neat some };

    ghost many = { λ b neat. many_with N.entries N.IsNeat N.size N.some b neat };

    ghost itself = { λ b. omega arith };

    ghost halves = { λ b. halves_with N.entries N.long N.halves b };

    ghost inside = { λ b position entry. rank_inside N.entries N.rank N.IsEntry N.inside b position
        entry };

    ghost before = { λ b position entry. entry_is_position N.IsPosition N.IsEntry N.before b
        position entry };

    ghost within = { λ b position in_range. rank_within N.entries N.rank N.IsPosition N.within b
        position in_range };

    ghost fewer = { λ spares k left. (omega (arith, left.0), N.fewer spares.below k left.1) };
}

/// Moves all of 128 nodes but the first 64 to another list. There is room for them in memory. Where keys come in order no node is added
/// to the lower half any more. So it gets the list that was empty, whose second half is never written then, and the upper half keeps the
/// other.
fn move_half<N: Node>(lower: &mut Vec<N>, upper: &mut Vec<N>)
    requires full { length lower.old.items ≡ MOST_PARTS }
    requires none { upper.old.items ≡ [] }
    requires room { MOST_PARTS ≤ vec_capacity upper.old }
    ensures nodes { lower.new.items ++ upper.new.items ≡ lower.old.items }
    ensures half { length lower.new.items ≡ HALF }
    ensures capacity { MOST_PARTS ≤ vec_capacity lower.new }
    ensures capacity_too { vec_capacity lower.old ≤ vec_capacity upper.new }
{
    mem::swap(lower, upper);
    // so the first is taken first
    upper.reverse();
    for _ in 0..HALF {
        if let Some(node) = upper.pop() {
            lower.push_reserved(node);
        }
    }
    // and what is left is in order again
    upper.reverse();
}
