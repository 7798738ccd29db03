// A tree of four below each over the places, whose root tells which may be taken first, and for which sessions a wait stands somewhere.
ghost use Rattle.std.specs.Prelude.{◌≡◌, ℕ, ◌+◌, ◌-◌, ◌*◌, ◌<◌, ◌≤◌, ◌^◌, min, length, get_or, set, All, IfSome, IfNone, IfOk, true, false, replicate, bit_or};
ghost use Rattle.std.specs.List.{count_by};
ghost use Rattle.hv_pool.specs.declared.slot.Slot.{Slot};
ghost use Rattle.hv_pool.specs.Slots.{is_open, waits_bit};
ghost use Rattle.hv_pool.specs.Order.{node_of, no_node, fresh_node, inner_of, joined, told_below, IsTree, IsOrdered, IsOrderedBut};

use crate::Slot;
use crate::slot::has_wait;
use std::alloc::{AllocError, Global};

/// What a node tells of the places below it.
#[derive(Clone, Copy)]
pub struct Node {
    /// The least turn of those that may be taken.
    pub turn: u64,
    /// The sessions that wait for one of their pages, a bit each.
    pub waits: u64,
}

/// The tree over so many places, none of which has had a page.
pub fn first_tree(alloc: Global, count: usize) -> Result<Vec<Node>, AllocError>
    requires { count < 2 ^ 32 }
    ensures { IfOk result (λ tree. tree.items ≡ replicate (inner_of count + count) fresh_node) }
{
    vec![in alloc; Node { turn: 0, waits: 0 }; (count + 1) / 3 + count]
}

// The leaf of a place.
fn node_of(slot: &Slot) -> Node
    ensures same { result ≡ node_of slot.now }
    ensures narrow { slot.now.waits < 2 ^ 64 }
{
    let waits = slot.waits;
    Node {
        turn: if slot.is_open() { slot.came } else { u64::MAX },
        waits,
    }
}

// What two nodes tell together.
fn join(a: Node, b: Node) -> Node
    ensures { result ≡ joined a b }
{
    Node {
        turn: if a.turn <= b.turn { a.turn } else { b.turn },
        waits: a.waits | b.waits,
    }
}

// A node, which tells nothing past the last.
fn node_at(tree: &[Node], node: usize) -> Node
    ensures { result ≡ get_or tree.now node no_node }
{
    if node < tree.len() {
        return tree[node];
    }
    Node {
        turn: u64::MAX,
        waits: 0,
    }
}

// What the four below a node tell together.
fn tell_below(tree: &[Node], node: usize) -> Node
    requires { node < length tree.now }
    ensures { result ≡ told_below tree.now node }
{
    let first = 4 * node + 1;
    let two = join(node_at(tree, first), node_at(tree, first + 1));
    let three = join(two, node_at(tree, first + 2));
    join(three, node_at(tree, first + 3))
}

/// The place that may be taken first: the one that came back longest ago.
pub fn find_open(slots: &[Slot], tree: &[Node], openings: u32) -> Option<usize>
    requires ordered { IsOrdered tree.now slots.now }
    requires openings { openings ≡ count_by is_open slots.now }
    ensures found { IfSome result (λ n. (n < length slots.now) × ((d : Slot) → (is_open (get_or slots.now n d) ≡ true) × All (λ s. is_open s ≡ true → (get_or slots.now n d).came ≤ s.came) slots.now)) }
    ensures none { IfNone result (count_by is_open slots.now ≡ 0) }
{
    if openings == 0 {
        return None;
    }
    let n = first_leaf(tree, slots.len());
    if slots[n].is_open() {
        return Some(n);
    }
    walk_open(slots)
}

// The same by a walk over all places, once the count of pages that came back stands still.
fn walk_open(slots: &[Slot]) -> Option<usize>
    ensures found { IfSome result (λ n. (n < length slots.now) × ((d : Slot) → (is_open (get_or slots.now n d) ≡ true) × All (λ s. is_open s ≡ true → (get_or slots.now n d).came ≤ s.came) slots.now)) }
    ensures none { IfNone result (count_by is_open slots.now ≡ 0) }
{
    let mut best: Option<usize> = None;
    for n in 0..slots.len() {
        if !slots[n].is_open() {
            continue;
        }
        if let Some(b) = best {
            if slots[b].came <= slots[n].came {
                continue;
            }
        }
        best = Some(n);
    }
    best
}

// The leaf that has the least turn of all nodes.
fn first_leaf(tree: &[Node], count: usize) -> usize
    requires some { 0 < count }
    requires long { length tree.now ≡ inner_of count + count }
    requires tree { IsTree tree.now (inner_of count) }
    ensures within { result < count }
    ensures least { (i : ℕ) → i < length tree.now → (get_or tree.now (inner_of count + result) no_node).turn ≤ (get_or tree.now i no_node).turn }
{
    let inner = tree.len() - count;
    let mut node = 0;
    while node < inner {
        node = least_below(tree, node);
    }
    node - inner
}

// The one of the four below a node that has the least turn.
fn least_below(tree: &[Node], node: usize) -> usize
    requires { 4 * node + 1 < length tree.now }
    ensures below { (node < result) × (result < length tree.now) }
    ensures least { (get_or tree.now result no_node).turn ≡ (told_below tree.now node).turn }
{
    let first = 4 * node + 1;
    let two = lesser(tree, first, first + 1);
    let three = lesser(tree, two, first + 2);
    lesser(tree, three, first + 3)
}

// The one of two nodes that has the lesser turn. The second may be past the last.
fn lesser(tree: &[Node], a: usize, b: usize) -> usize
    requires { a < length tree.now }
    ensures within { result < length tree.now }
    ensures one { (min a b ≤ result) }
    ensures least { (get_or tree.now result no_node).turn ≡ min (get_or tree.now a no_node).turn (get_or tree.now b no_node).turn }
{
    let turn = tree[a].turn;
    if b >= tree.len() {
        return a;
    }
    if turn <= tree[b].turn { a } else { b }
}

/// A place for whose page the session waits.
pub fn find_waited(slots: &[Slot], tree: &[Node], who: u32) -> Option<usize>
    requires who { who < 64 }
    requires ordered { IsOrdered tree.now slots.now }
    ensures found { IfSome result (λ n. (n < length slots.now) × ((d : Slot) → waits_bit who (get_or slots.now n d).waits ≡ true)) }
    ensures none { IfNone result (All (λ s. waits_bit who s.waits ≡ false) slots.now) }
{
    if has_wait(node_at(tree, 0).waits, who) {
        return Some(waited_leaf(tree, slots.len(), who));
    }
    None
}

// A leaf at which the session waits, as it does at the root.
fn waited_leaf(tree: &[Node], count: usize, who: u32) -> usize
    requires who { who < 64 }
    requires long { length tree.now ≡ inner_of count + count }
    requires tree { IsTree tree.now (inner_of count) }
    requires root { waits_bit who (get_or tree.now 0 no_node).waits ≡ true }
    ensures within { result < count }
    ensures waited { waits_bit who (get_or tree.now (inner_of count + result) no_node).waits ≡ true }
{
    let inner = tree.len() - count;
    let mut node = 0;
    while node < inner {
        node = waited_below(tree, node, who);
    }
    node - inner
}

// One of the four below a node at which the session waits, as it does at the node.
fn waited_below(tree: &[Node], node: usize, who: u32) -> usize
    requires who { who < 64 }
    requires within { node < length tree.now }
    requires one { waits_bit who (told_below tree.now node).waits ≡ true }
    ensures below { node < result }
    ensures waited { waits_bit who (get_or tree.now result no_node).waits ≡ true }
{
    let first = 4 * node + 1;
    if has_wait(node_at(tree, first).waits, who) {
        return first;
    }
    if has_wait(node_at(tree, first + 1).waits, who) {
        return first + 1;
    }
    if has_wait(node_at(tree, first + 2).waits, who) {
        return first + 2;
    }
    first + 3
}

/// A place has another turn or other waits.
pub fn reorder(tree: &mut [Node], slots: &[Slot], n: usize)
    requires within { n < length slots.now }
    requires ordered { IsOrderedBut n tree.old slots.now }
    ensures length { length tree.new ≡ length tree.old }
    ensures ordered { IsOrdered tree.new slots.now }
{
    set_leaf(tree, slots.len(), n, node_of(&slots[n]));
}

// A leaf changes, and each node above it tells what the four below it tell. Above one that tells what it told nothing changes.
fn set_leaf(tree: &mut [Node], count: usize, place: usize, leaf: Node)
    requires place { place < count }
    requires long { length tree.old ≡ inner_of count + count }
    requires tree { IsTree tree.old (inner_of count) }
    ensures length { length tree.new ≡ length tree.old }
    ensures leaves { (n : ℕ) → n < count → get_or tree.new (inner_of count + n) no_node ≡ get_or (set tree.old (inner_of count + place) leaf) (inner_of count + n) no_node }
    ensures tree { IsTree tree.new (inner_of count) }
{
    let mut node = tree.len() - count + place;
    tree[node] = leaf;
    while node > 0 {
        let above = node_above(node);
        let told = tree[above];
        let tells = tell_below(tree, above);
        if tells.turn == told.turn && tells.waits == told.waits {
            return;
        }
        tree[above] = tells;
        node = above;
    }
}

// The node above another.
fn node_above(node: usize) -> usize
    requires { 0 < node }
    ensures { (4 * result + 1 ≤ node) × (node ≤ 4 * result + 4) }
{
    (node - 1) / 4
}
