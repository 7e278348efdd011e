//! Nodes, one after another: looking for an entry's position, putting one there, and removing entries from all of them.

ghost use Rattle.std.specs.Prelude.{◌≡◌, ◌<◌, ◌≤◌, ◌+◌, ◌*◌, ◌-◌, ◌⊎◌, ℕ, [], length, map, max, sum_by, true, ◌↔◌, ◌^◌, IsTrue, IfOk, IfErr, IfSome, IfNone, OnOk, OnErr, vec_len, vec_capacity, slice_get, option_copied};
ghost use Rattle.std.specs.Bool.{OnTrue};
ghost use Rattle.std.specs.List.{insert};
ghost use Rattle.std.specs.Option.{option_map};
ghost use Rattle.index_entries.specs.Order.{IsAscending};
ghost use Rattle.index_entries.specs.Sets.{IsAt, IsEndAt, IsGapFor, GoesBehind, GoesBefore};
ghost use Rattle.index_entries.specs.Lists.{IsLastBetween};
ghost use Rattle.index_nodes.specs.Nodes.{all, rank_in, before_node, AreNeat, AreNeatBut, IsPositionIn, IsEntryIn, IsBehindIn, IsOpened, IsUnspent, AreKept, AreLeft, HavePlaces, KeepsSpares};
ghost use Rattle.index_entries.specs.Sweeps.{IsSwept};

use dead_places::DeadSet;
use index_entries::{Entry, HALF, Half, MOST_PARTS, Node, Swept};
use std::alloc::AllocError;

/// A place among nodes.
#[derive(Clone, Copy, Debug, Default, PartialEq, Eq)]
pub struct TreePosition<S> {
    /// The node's number, counted from 0.
    pub node: usize,
    /// The place in the node.
    pub inner: S,
}

/// Nodes for splits to come.
#[derive(Debug, Drop)]
pub struct Spares<N, B> {
    pub nodes: Vec<N>,
    /// Those for the splits in a node.
    pub below: B,
}

/// The node of this number, if there is one. (Its contract names the answer by the list, where `get` speaks of the node lent.)
fn node_of<N: Node>(nodes: &[N], number: usize) -> Option<&N>
    ensures { option_copied result ≡ slice_get nodes.now number }
{
    nodes.get(number)
}

/// The number of the last node that doesn't begin after the entry, or else 0.
fn node_for<N: Node>(nodes: &[N], sought: &Entry) -> usize
    requires some { 0 < length nodes.now }
    requires neat { AreNeat N.IsNeat N.size nodes.now }
    ensures { IsLastBetween (map N.entries nodes.now) sought.now result (result + 1) }
{
    let mut low = 0;
    let mut count = nodes.len();
    while count > 1 {
        let half = count / 2;
        if nodes[low + half].begins_after(sought) {
            count = half;
        } else {
            low += half;
            count -= half;
        }
    }
    low
}

/// The first position.
pub fn first<N: Node>() -> TreePosition<N::Position>
    ensures position { (nodes : _) → AreNeat N.IsNeat N.size nodes
        → IsPositionIn N.IsPosition nodes result }
    ensures rank { (nodes : _) → rank_in N.entries N.rank nodes result ≡ 0 }
{
    TreePosition {
        node: 0,
        inner: N::first(),
    }
}

/// The position right behind an entry's.
pub fn behind<N: Node>(position: TreePosition<N::Position>) -> TreePosition<N::Position>
    ensures position { (nodes : _) → IsEntryIn N.IsEntry nodes position
        → IsPositionIn N.IsPosition nodes result }
    ensures rank { (nodes : _) → IsEntryIn N.IsEntry nodes position
        → rank_in N.entries N.rank nodes result ≡ rank_in N.entries N.rank nodes position + 1 }
{
    TreePosition {
        node: position.node,
        inner: N::behind(position.inner),
    }
}

/// Where the entry stands, or where it would.
pub fn search<N: Node>(
    nodes: &[N],
    sought: &Entry,
) -> Result<TreePosition<N::Position>, TreePosition<N::Position>>
    requires neat { AreNeat N.IsNeat N.size nodes.now }
    requires ascending { IsAscending (all N.entries nodes.now) }
    ensures entry { IfOk result (IsEntryIn N.IsEntry nodes.now) }
    ensures found { IfOk result
        (λ position. IsAt (all N.entries nodes.now) sought.now
        (rank_in N.entries N.rank nodes.now position)) }
    ensures position { IfErr result (IsPositionIn N.IsPosition nodes.now) }
    ensures absent { IfErr result
        (λ position. IsGapFor (all N.entries nodes.now) sought.now
        (rank_in N.entries N.rank nodes.now position)) }
{
    if nodes.is_empty() {
        return Err(first::<N>());
    }
    let node = node_for(nodes, sought);
    match nodes[node].search(sought) {
        Ok(inner) => Ok(TreePosition { node, inner }),
        Err(inner) => Err(TreePosition { node, inner }),
    }
}

/// Whether this entry stands at this position.
#[inline(always)]
pub fn stands_at<N: Node>(nodes: &[N], sought: &Entry, position: TreePosition<N::Position>) -> bool
    ensures entry { OnTrue result (IsEntryIn N.IsEntry nodes.now position) }
    ensures found { OnTrue result
        (IsAt (all N.entries nodes.now) sought.now (rank_in N.entries N.rank nodes.now position)) }
    ensures exact { IsEntryIn N.IsEntry nodes.now position
        → IsAt (all N.entries nodes.now) sought.now (rank_in N.entries N.rank nodes.now position)
        → IsTrue result }
{
    match node_of(nodes, position.node) {
        Some(node) => node.stands_at(sought, position.inner),
        None => false,
    }
}

/// The entry at this position; behind a node's last, the first of the next node.
#[inline(always)]
pub fn entry_at<N: Node>(nodes: &[N], position: TreePosition<N::Position>) -> Option<Entry>
    requires neat { AreNeat N.IsNeat N.size nodes.now }
    requires position { IsPositionIn N.IsPosition nodes.now position }
    ensures { result
        ≡ slice_get (all N.entries nodes.now) (rank_in N.entries N.rank nodes.now position) }
{
    let node = node_of(nodes, position.node)?;
    if let Some(entry) = node.entry_at(position.inner) {
        return Some(entry);
    }
    node_of(nodes, position.node + 1)?.entry_at(N::first())
}

/// The entry at this position; behind a node's last, the first of the next node. And whether it is known that the next is of another
/// value or another key.
#[inline(always)]
pub fn look_at<N: Node>(nodes: &[N], position: TreePosition<N::Position>) -> Option<(Entry, bool)>
    requires neat { AreNeat N.IsNeat N.size nodes.now }
    requires position { IsPositionIn N.IsPosition nodes.now position }
    ensures entry { option_map (λ found. found.0) result
        ≡ slice_get (all N.entries nodes.now) (rank_in N.entries N.rank nodes.now position) }
    ensures end { IfSome result
        (λ found. IsTrue found.1 → IsEndAt (all N.entries nodes.now) found.0
        (rank_in N.entries N.rank nodes.now position)) }
{
    let node = node_of(nodes, position.node)?;
    if let Some((entry, is_end)) = node.look_at(position.inner) {
        return Some((entry, is_end));
    }
    node_of(nodes, position.node + 1)?.look_at(N::first())
}

/// Where the entry goes, if that is right before or right behind this position, and between two entries of one leaf. Or it goes at
/// the end, where no entries follow these nodes, which `is_last` says.
pub fn gap_near<N: Node>(
    nodes: &[N],
    sought: &Entry,
    near: TreePosition<N::Position>,
    is_last: bool,
) -> Option<TreePosition<N::Position>>
    requires { IsAscending (all N.entries nodes.now) }
    ensures position { IfSome result (IsPositionIn N.IsPosition nodes.now) }
    ensures behind { IfSome result
        (λ position. GoesBehind (all N.entries nodes.now) sought.now
        (rank_in N.entries N.rank nodes.now position)) }
    ensures before { IfSome result
        (λ position. GoesBefore (all N.entries nodes.now) sought.now is_last
        (rank_in N.entries N.rank nodes.now position)) }
{
    let node = node_of(nodes, near.node)?;
    let is_last = is_last_of(nodes, near.node, is_last);
    match node.gap_near(sought, near.inner, is_last) {
        Some(inner) => Some(TreePosition {
            node: near.node,
            inner,
        }),
        None => None,
    }
}

/// Whether no entries follow the node of this number, where `is_last` says so of all nodes.
fn is_last_of<N: Node>(nodes: &[N], number: usize, is_last: bool) -> bool
    requires { number < length nodes.now }
    ensures { IsTrue result → (number + 1 ≡ length nodes.now) × IsTrue is_last }
{
    is_last && number + 1 == nodes.len()
}

/// A node without parts: a spare one, or else a new one.
fn take_node<N: Node>(spare: &mut Vec<N>) -> Result<N, AllocError>
    ensures none { IfOk result (λ node. N.size node ≡ 0) }
    ensures neat { IfOk result N.IsNeat }
    ensures count { vec_len spare.old ≤ vec_len spare.new + 1 }
    ensures capacity { vec_capacity spare.old ≤ vec_capacity spare.new }
    ensures err { OnErr result (vec_len spare.old ≡ 0) }
{
    match spare.pop() {
        Some(mut node) => {
            node.clear();
            Ok(node)
        }
        None => N::new(*spare.allocator()),
    }
}

/// Puts a node before those from this number on. There is room for it in memory. (So a split has no refusal to handle.)
pub(crate) fn put_node<N: Node>(nodes: &mut Vec<N>, number: usize, node: N)
    requires in_range { number ≤ vec_len nodes.old }
    requires room { vec_len nodes.old < vec_capacity nodes.old }
    ensures items { nodes.new.items ≡ insert nodes.old.items number node }
    ensures count { vec_len nodes.new ≡ vec_len nodes.old + 1 }
    ensures capacity { vec_capacity nodes.old ≤ vec_capacity nodes.new }
{
    // never refused, since there is room
    let _done = nodes.insert(number, node);
}

/// Splits the position's node, which is full, and says where the position is then. It takes no memory.
fn split<N: Node>(
    nodes: &mut Vec<N>,
    mut upper: N,
    position: TreePosition<N::Position>,
) -> TreePosition<N::Position>
    requires room { vec_len nodes.old < vec_capacity nodes.old }
    requires none { N.size upper ≡ 0 }
    requires neat { AreNeat N.IsNeat N.size nodes.old.items }
    requires node { position.node < length nodes.old.items }
    requires position { IsPositionIn N.IsPosition nodes.old.items position }
    requires full { IfSome (slice_get nodes.old.items position.node)
        (λ node. N.size node ≡ MOST_PARTS) }
    ensures opened { IsOpened N.entries N.size N.rank N.IsPosition nodes.old.items nodes.new.items
        position result }
    ensures neat { AreNeat N.IsNeat N.size nodes.new.items }
    ensures nodes { sum_by N.nodes nodes.old.items < sum_by N.nodes nodes.new.items }
    ensures long { sum_by N.long nodes.old.items ≤ sum_by N.long nodes.new.items }
    ensures count { vec_len nodes.new ≡ vec_len nodes.old + 1 }
    ensures capacity { vec_capacity nodes.old ≤ vec_capacity nodes.new }
{
    let half = nodes[position.node].split(&mut upper, position.inner);
    put_node(nodes, position.node + 1, upper);
    match half {
        Half::Lower(inner) => TreePosition {
            node: position.node,
            inner,
        },
        Half::Upper(inner) => TreePosition {
            node: position.node + 1,
            inner,
        },
    }
}

/// Splits the position's node if it is full, and says where the position is then.
fn open<N: Node>(
    nodes: &mut Vec<N>,
    spare: &mut Vec<N>,
    position: TreePosition<N::Position>,
) -> Result<TreePosition<N::Position>, AllocError>
    requires neat { AreNeat N.IsNeat N.size nodes.old.items }
    requires node { position.node < length nodes.old.items }
    requires position { IsPositionIn N.IsPosition nodes.old.items position }
    ensures opened { IfOk result
        (IsOpened N.entries N.size N.rank N.IsPosition nodes.old.items nodes.new.items position) }
    ensures neat { AreNeat N.IsNeat N.size nodes.new.items }
    ensures room { (vec_capacity nodes.old - vec_len nodes.old)
        ≤ (vec_capacity nodes.new - vec_len nodes.new) + 1 }
    ensures longer { vec_len nodes.new ≤ vec_len nodes.old + 1 }
    ensures shorter { vec_len nodes.old ≤ vec_len nodes.new }
    ensures capacity { vec_capacity nodes.old ≤ vec_capacity nodes.new }
    ensures spare { vec_len spare.old ≤ vec_len spare.new + 1 }
    ensures places { vec_capacity spare.old ≤ vec_capacity spare.new }
    ensures err { OnErr result (nodes.new.items ≡ nodes.old.items) }
    ensures refused { OnErr result
        ((vec_capacity nodes.old - vec_len nodes.old ≡ 0) ⊎ (vec_len spare.old ≡ 0)) }
    ensures full { OnErr result (MOST_PARTS ≤ length (all N.entries nodes.old.items)) }
    ensures grown { sum_by N.nodes nodes.old.items ≤ sum_by N.nodes nodes.new.items }
    ensures long { sum_by N.long nodes.old.items ≤ sum_by N.long nodes.new.items }
    ensures unspent_list { OnOk result
        (sum_by N.nodes nodes.new.items ≡ sum_by N.nodes nodes.old.items
        → vec_capacity nodes.old - vec_len nodes.old ≤ vec_capacity nodes.new - vec_len nodes.new) }
    ensures unspent_nodes { OnOk result
        (sum_by N.nodes nodes.new.items ≡ sum_by N.nodes nodes.old.items
        → vec_len spare.old ≤ vec_len spare.new) }
{
    if nodes[position.node].len() < MOST_PARTS {
        return Ok(position);
    }
    nodes.try_reserve(1)?;
    let upper = take_node(spare)?;
    Ok(split(nodes, upper, position))
}

/// Reserves a place to set a node aside, if there is none.
fn reserve_place<N: Node>(spare: &mut Vec<N>) -> Result<(), AllocError>
    ensures ok { OnOk result (1 ≤ vec_capacity spare.new) }
    ensures count { vec_len spare.new ≡ vec_len spare.old }
    ensures capacity { vec_capacity spare.old ≤ vec_capacity spare.new }
    ensures err { OnErr result (vec_len spare.old ≡ 0) }
{
    if spare.capacity() > 0 {
        return Ok(());
    }
    spare.try_reserve(1)
}

/// Makes the first node, with this entry alone.
fn insert_first<N: Node>(
    nodes: &mut Vec<N>,
    spares: &mut Spares<N, N::Spares>,
    entry: Entry,
) -> Result<(), AllocError>
    requires none { nodes.old.items ≡ [] }
    requires fits { N.Fits entry }
    ensures entries { OnOk result (all N.entries nodes.new.items ≡ insert [] 0 entry) }
    ensures neat { AreNeat N.IsNeat N.size nodes.new.items }
    ensures room { (vec_capacity nodes.old - vec_len nodes.old)
        ≤ (vec_capacity nodes.new - vec_len nodes.new) + 1 }
    ensures longer { vec_len nodes.new ≤ vec_len nodes.old + 1 }
    ensures some { OnOk result (0 < vec_len nodes.new) }
    ensures nodes { OnOk result (0 < sum_by N.nodes nodes.new.items) }
    ensures capacity { vec_capacity nodes.old ≤ vec_capacity nodes.new }
    ensures spare { vec_len spares.old.nodes ≤ vec_len spares.new.nodes + 1 }
    ensures below { (k : ℕ) → N.HasLeft spares.old.below (k + 1) → N.HasLeft spares.new.below k }
    ensures places { HavePlaces N.HasPlaces (vec_capacity spares.old.nodes) spares.old.below
        → HavePlaces N.HasPlaces (vec_capacity spares.new.nodes) spares.new.below }
    ensures first { OnOk result
        (HavePlaces N.HasPlaces (vec_capacity spares.new.nodes) spares.new.below
        × N.HasReserve spares.new.below) }
    ensures reserve_kept { OnErr result
        (N.HasReserve spares.old.below → N.HasReserve spares.new.below) }
    ensures err { OnErr result (nodes.new.items ≡ nodes.old.items) }
    ensures refused { OnErr result
        ((vec_capacity nodes.old - vec_len nodes.old ≡ 0) ⊎ (vec_len spares.old.nodes ≡ 0)
        ⊎ ¬ N.HasLeft spares.old.below 1) }
{
    nodes.try_reserve(1)?;
    reserve_place(&mut spares.nodes)?;
    let mut node = take_node(&mut spares.nodes)?;
    node.insert(&mut spares.below, N::first(), entry)?;
    nodes.push_reserved(node);
    Ok(())
}

/// Puts an entry at its position. Where memory is refused, the entries stay as they are.
pub fn insert<N: Node>(
    nodes: &mut Vec<N>,
    spares: &mut Spares<N, N::Spares>,
    position: TreePosition<N::Position>,
    entry: Entry,
) -> Result<(), AllocError>
    requires neat { AreNeat N.IsNeat N.size nodes.old.items }
    requires position { IsPositionIn N.IsPosition nodes.old.items position }
    requires fits { N.Fits entry }
    ensures entries { OnOk result
        (all N.entries nodes.new.items
        ≡ insert (all N.entries nodes.old.items)
        (rank_in N.entries N.rank nodes.old.items position) entry) }
    ensures neat { AreNeat N.IsNeat N.size nodes.new.items }
    ensures room { (vec_capacity nodes.old - vec_len nodes.old)
        ≤ (vec_capacity nodes.new - vec_len nodes.new) + 1 }
    ensures longer { vec_len nodes.new ≤ vec_len nodes.old + 1 }
    ensures kept { vec_len nodes.old ≤ vec_len nodes.new }
    ensures some { OnOk result (0 < vec_len nodes.new) }
    ensures capacity { vec_capacity nodes.old ≤ vec_capacity nodes.new }
    ensures spare { vec_len spares.old.nodes ≤ vec_len spares.new.nodes + 1 }
    ensures below { (k : ℕ) → N.HasLeft spares.old.below (k + 1) → N.HasLeft spares.new.below k }
    ensures places { HavePlaces N.HasPlaces (vec_capacity spares.old.nodes) spares.old.below
        → HavePlaces N.HasPlaces (vec_capacity spares.new.nodes) spares.new.below }
    ensures first { OnOk result (length nodes.old.items ≡ 0
        → HavePlaces N.HasPlaces (vec_capacity spares.new.nodes) spares.new.below
        × N.HasReserve spares.new.below) }
    ensures long { sum_by N.long nodes.old.items ≤ sum_by N.long nodes.new.items }
    ensures reserve { OnOk result (N.HasReserve spares.old.below
        → N.HasReserve spares.new.below
        ⊎ (sum_by N.long nodes.old.items < sum_by N.long nodes.new.items)) }
    ensures reserve_kept { OnErr result
        (N.HasReserve spares.old.below → N.HasReserve spares.new.below) }
    ensures err { OnErr result (all N.entries nodes.new.items ≡ all N.entries nodes.old.items) }
    ensures refused { OnErr result
        ((vec_capacity nodes.old - vec_len nodes.old ≡ 0) ⊎ (vec_len spares.old.nodes ≡ 0)
        ⊎ ¬ N.HasLeft spares.old.below 1) }
    ensures full { OnErr result
        ((length nodes.old.items ≡ 0) ⊎ (MOST_PARTS ≤ length (all N.entries nodes.old.items))
        ⊎ (¬ N.HasReserve spares.old.below
        × (HALF * (sum_by N.long nodes.old.items + 1)
        ≤ length (all N.entries nodes.old.items)))) }
    ensures grown { sum_by N.nodes nodes.old.items ≤ sum_by N.nodes nodes.new.items }
    ensures unspent { OnOk result
        (sum_by N.nodes nodes.new.items ≡ sum_by N.nodes nodes.old.items
        → IsUnspent N.HasLeft (vec_capacity nodes.old - vec_len nodes.old)
        (vec_capacity nodes.new - vec_len nodes.new) (vec_len spares.old.nodes)
        (vec_len spares.new.nodes) spares.old.below spares.new.below) }
{
    if nodes.is_empty() {
        return insert_first(nodes, spares, entry);
    }
    let position = open(nodes, &mut spares.nodes, position)?;
    nodes[position.node].insert(&mut spares.below, position.inner, entry)
}

/// Whether so many inserts take no memory, whatever they split, and can be counted where there are `count` entries.
fn are_kept<N: Node>(
    nodes: &Vec<N>,
    spares: &Spares<N, N::Spares>,
    count: u64,
    promised: usize,
) -> bool
    ensures { IsTrue result
        ↔ AreKept N.HasLeft (vec_capacity nodes.now - vec_len nodes.now)
        (vec_len spares.now.nodes) spares.now.below count promised }
{
    if promised as u64 > u64::MAX - count {
        return false;
    }
    if promised > nodes.capacity() - nodes.len() || promised > spares.nodes.len() {
        return false;
    }
    N::has_left(&spares.below, promised)
}

/// How many inserts are promised still, after one: all of them where they take no memory still, else one fewer.
pub fn still_promised<N: Node>(
    nodes: &Vec<N>,
    spares: &Spares<N, N::Spares>,
    count: u64,
    promised: usize,
) -> usize
    ensures all { AreKept N.HasLeft (vec_capacity nodes.now - vec_len nodes.now)
        (vec_len spares.now.nodes) spares.now.below count promised → result ≡ promised }
    ensures fewer { (result ≡ promised - 1)
        ⊎ (AreKept N.HasLeft (vec_capacity nodes.now - vec_len nodes.now)
        (vec_len spares.now.nodes) spares.now.below count promised × (result ≡ promised)) }
{
    if are_kept(nodes, spares, count, promised) {
        promised
    } else {
        promised.saturating_sub(1)
    }
}

/// How many inserts are promised after a sweep: one at least where no node is left, since the last ones are set aside then.
pub fn promised_after_sweep<N>(nodes: &Vec<N>, promised: usize) -> usize
    ensures left { 0 < length nodes.now.items → result ≡ promised }
    ensures emptied { length nodes.now.items ≡ 0 → result ≡ max promised 1 }
{
    if nodes.is_empty() {
        promised.max(1)
    } else {
        promised
    }
}

/// Adds nodes until there are so many.
pub fn add_nodes<N: Node>(spare: &mut Vec<N>, count: usize) -> Result<(), AllocError>
    ensures ok { OnOk result (count ≤ vec_len spare.new) }
    ensures kept { vec_len spare.old ≤ vec_len spare.new }
    ensures places { vec_capacity spare.old ≤ vec_capacity spare.new }
    ensures err { OnErr result (vec_len spare.old < count) }
{
    while spare.len() < count {
        spare.push(N::new(*spare.allocator())?)?;
    }
    Ok(())
}

/// Takes the node of this number out if it has no parts, and sets it aside if there is a place for it.
#[inline(always)]
fn drop_empty<N: Node>(nodes: &mut Vec<N>, spare: &mut Vec<N>, number: usize)
    requires in_range { number < length nodes.old.items }
    requires neat { AreNeatBut N.IsNeat N.size nodes.old.items number }
    ensures entries { all N.entries nodes.new.items ≡ all N.entries nodes.old.items }
    ensures neat { AreNeat N.IsNeat N.size nodes.new.items }
    ensures shorter { vec_len nodes.new ≤ vec_len nodes.old }
    ensures capacity { vec_capacity nodes.old ≤ vec_capacity nodes.new }
    ensures room { vec_len nodes.new < vec_len nodes.old
        → vec_len nodes.new < vec_capacity nodes.new }
    ensures spare { vec_len spare.old ≤ vec_len spare.new }
    ensures places { vec_capacity spare.old ≤ vec_capacity spare.new }
    ensures long { sum_by N.long nodes.new.items ≡ sum_by N.long nodes.old.items }
    ensures size { vec_len nodes.new < vec_len nodes.old
        → IfSome (slice_get nodes.old.items number) (λ n. N.size n ≡ 0) }
    ensures emptied { vec_len nodes.new < vec_len nodes.old → 1 ≤ vec_capacity spare.old
        → 1 ≤ vec_len spare.new }
{
    if nodes[number].len() == 0 {
        let empty = nodes.remove(number);
        keep_node(spare, empty);
    }
}

/// Sets a node aside, if there is a place for it.
fn keep_node<N: Node>(spare: &mut Vec<N>, node: N)
    ensures count { vec_len spare.old ≤ vec_len spare.new }
    ensures capacity { vec_capacity spare.old ≤ vec_capacity spare.new }
    ensures some { 1 ≤ vec_capacity spare.old → 1 ≤ vec_len spare.new }
{
    if spare.len() < spare.capacity() {
        spare.push_reserved(node);
    }
}

/// What a sweep of the node of this number says of all nodes, if others follow or not.
#[inline(always)]
fn of_all<S: Copy>(swept: Swept<S>, node: usize, others: bool) -> Swept<TreePosition<S>>
    ensures last { result.last ≡ swept.last }
    ensures removed { result.removed ≡ swept.removed }
    ensures more { (result.more ≡ true) ↔ ((swept.more ≡ true) ⊎ (others ≡ true)) }
{
    let inner = swept.at;
    Swept {
        last: swept.last,
        at: TreePosition { node, inner },
        removed: swept.removed,
        more: swept.more || others,
    }
}

/// Sweeps the position's node alone, and takes it out if that leaves it without parts.
#[inline(always)]
fn sweep_one<N: Node>(
    nodes: &mut Vec<N>,
    spares: &mut Spares<N, N::Spares>,
    position: TreePosition<N::Position>,
    dead: &DeadSet,
) -> Option<Swept<TreePosition<N::Position>>>
    requires neat { AreNeat N.IsNeat N.size nodes.old.items }
    requires node { position.node < length nodes.old.items }
    requires position { IsPositionIn N.IsPosition nodes.old.items position }
    ensures swept { IfSome result
        (IsSwept (all N.entries nodes.old.items) (all N.entries nodes.new.items)
        (rank_in N.entries N.rank nodes.old.items position) dead.now) }
    ensures none { IfNone result (IsBehindIn N.entries N.rank nodes.old.items position) }
    ensures same { IfNone result (nodes.new.items ≡ nodes.old.items) }
    ensures neat { AreNeat N.IsNeat N.size nodes.new.items }
    ensures shorter { vec_len nodes.new ≤ vec_len nodes.old }
    ensures capacity { vec_capacity nodes.old ≤ vec_capacity nodes.new }
    ensures room { vec_len nodes.new < vec_len nodes.old
        → vec_len nodes.new < vec_capacity nodes.new }
    ensures kept { KeepsSpares N.HasLeft N.HasPlaces N.HasReserve (vec_len spares.old.nodes)
        (vec_len spares.new.nodes) (vec_capacity spares.old.nodes)
        (vec_capacity spares.new.nodes) spares.old.below spares.new.below }
    ensures emptied { 0 < length nodes.old.items → length nodes.new.items ≡ 0
        → HavePlaces N.HasPlaces (vec_capacity spares.old.nodes) spares.old.below
        → N.HasReserve spares.new.below
        → AreLeft N.HasLeft (vec_len spares.new.nodes) spares.new.below 1 }
    ensures returned { HavePlaces N.HasPlaces (vec_capacity spares.old.nodes) spares.old.below
        → N.HasReserve spares.new.below
        ⊎ (sum_by N.long nodes.old.items ≤ sum_by N.long nodes.new.items) }
{
    let others = position.node + 1 < nodes.len();
    match nodes[position.node].sweep_from(&mut spares.below, position.inner, dead) {
        Some(swept) => {
            drop_empty(nodes, &mut spares.nodes, position.node);
            Some(of_all(swept, position.node, others))
        }
        None => None,
    }
}

/// Removes entries to dead places, from this position on as far as its leaf goes. The nodes that are left without any are set aside,
/// if there is a place for them. It does nothing where no entry follows.
#[inline(always)]
pub fn sweep_from<N: Node>(
    nodes: &mut Vec<N>,
    spares: &mut Spares<N, N::Spares>,
    position: TreePosition<N::Position>,
    dead: &DeadSet,
) -> Option<Swept<TreePosition<N::Position>>>
    requires neat { AreNeat N.IsNeat N.size nodes.old.items }
    requires position { IsPositionIn N.IsPosition nodes.old.items position }
    ensures swept { IfSome result
        (IsSwept (all N.entries nodes.old.items) (all N.entries nodes.new.items)
        (rank_in N.entries N.rank nodes.old.items position) dead.now) }
    ensures none { IfNone result
        (length (all N.entries nodes.old.items)
        ≤ rank_in N.entries N.rank nodes.old.items position) }
    ensures same { IfNone result (nodes.new.items ≡ nodes.old.items) }
    ensures neat { AreNeat N.IsNeat N.size nodes.new.items }
    ensures shorter { vec_len nodes.new ≤ vec_len nodes.old }
    ensures capacity { vec_capacity nodes.old ≤ vec_capacity nodes.new }
    ensures room { vec_len nodes.new < vec_len nodes.old
        → vec_len nodes.new < vec_capacity nodes.new }
    ensures kept { KeepsSpares N.HasLeft N.HasPlaces N.HasReserve (vec_len spares.old.nodes)
        (vec_len spares.new.nodes) (vec_capacity spares.old.nodes)
        (vec_capacity spares.new.nodes) spares.old.below spares.new.below }
    ensures emptied { 0 < length nodes.old.items → length nodes.new.items ≡ 0
        → HavePlaces N.HasPlaces (vec_capacity spares.old.nodes) spares.old.below
        → N.HasReserve spares.new.below
        → AreLeft N.HasLeft (vec_len spares.new.nodes) spares.new.below 1 }
    ensures returned { HavePlaces N.HasPlaces (vec_capacity spares.old.nodes) spares.old.below
        → N.HasReserve spares.new.below
        ⊎ (sum_by N.long nodes.old.items ≤ sum_by N.long nodes.new.items) }
{
    // where there are no nodes
    if position.node >= nodes.len() {
        return None;
    }
    match sweep_one(nodes, spares, position, dead) {
        Some(swept) => Some(swept),
        None => sweep_next(nodes, spares, position.node + 1, dead),
    }
}

/// So many nodes are read ahead at once.
const AHEAD: usize = 8;

/// Reads what a sweep of the nodes from this number on will read, at each eighth. Where the first three have nothing to be read, as most
/// have where rows came in the order of their keys, the others aren't asked.
#[inline(always)]
fn read_ahead<N: Node>(nodes: &[N], below: &mut N::Spares, number: usize, dead: &DeadSet)
    ensures { below.new ≡ below.old }
{
    if number % AHEAD != 0 {
        return;
    }
    let mut touched = 0u32;
    for node in number..nodes.len().min(number.saturating_add(AHEAD)) {
        if touched == 0 && node - number > 2 {
            break;
        }
        touched = touched.wrapping_add(nodes[node].touch(dead));
    }
    N::take_touched(below, touched);
}

/// Sweeps the node of this number from its first entry on, if there is such a node.
#[inline(always)]
fn sweep_next<N: Node>(
    nodes: &mut Vec<N>,
    spares: &mut Spares<N, N::Spares>,
    number: usize,
    dead: &DeadSet,
) -> Option<Swept<TreePosition<N::Position>>>
    requires neat { AreNeat N.IsNeat N.size nodes.old.items }
    ensures swept { IfSome result
        (IsSwept (all N.entries nodes.old.items) (all N.entries nodes.new.items)
        (before_node N.entries nodes.old.items number) dead.now) }
    ensures none { IfNone result (length nodes.old.items ≤ number) }
    ensures same { IfNone result (nodes.new.items ≡ nodes.old.items) }
    ensures neat { AreNeat N.IsNeat N.size nodes.new.items }
    ensures shorter { vec_len nodes.new ≤ vec_len nodes.old }
    ensures capacity { vec_capacity nodes.old ≤ vec_capacity nodes.new }
    ensures room { vec_len nodes.new < vec_len nodes.old
        → vec_len nodes.new < vec_capacity nodes.new }
    ensures kept { KeepsSpares N.HasLeft N.HasPlaces N.HasReserve (vec_len spares.old.nodes)
        (vec_len spares.new.nodes) (vec_capacity spares.old.nodes)
        (vec_capacity spares.new.nodes) spares.old.below spares.new.below }
    ensures emptied { 0 < length nodes.old.items → length nodes.new.items ≡ 0
        → HavePlaces N.HasPlaces (vec_capacity spares.old.nodes) spares.old.below
        → N.HasReserve spares.new.below
        → AreLeft N.HasLeft (vec_len spares.new.nodes) spares.new.below 1 }
    ensures returned { HavePlaces N.HasPlaces (vec_capacity spares.old.nodes) spares.old.below
        → N.HasReserve spares.new.below
        ⊎ (sum_by N.long nodes.old.items ≤ sum_by N.long nodes.new.items) }
{
    if number >= nodes.len() {
        return None;
    }
    read_ahead(nodes, &mut spares.below, number, dead);
    let inner = N::first();
    sweep_one(
        nodes,
        spares,
        TreePosition {
            node: number,
            inner,
        },
        dead,
    )
}
