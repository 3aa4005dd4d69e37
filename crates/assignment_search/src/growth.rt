//! A tree that grows, with its open leaves in a heap: the leaf of least value comes first.
ghost use Rattle.std.specs.Prelude.{◌≡◌, ◌+◌, ◌^◌, ◌<◌, ◌≤ℤ◌, ◌<ℤ◌, ℕ, ℤ, suc, pos, [], ◌∷◌, ◌++◌, IfOk, MatchBool, OnOk, length, take, drop, slice_index_or};
ghost use Rattle.std.specs.List.{sum_by};
ghost use Rattle.std.specs.BinaryHeap.{IsHeap, heap_items, heap_len};
ghost use Rattle.plan_rules.specs.Size.{IsSmallSum};
ghost use Rattle.plan_rules.specs.Tree.{rounded_up};
ghost use Rattle.plan_rules.specs.declared.node.Node.TheVariants.{Branch, Leaf};
ghost use Rattle.assignment_search.specs.work.Growth.{IsLowest, HasLeaf};
ghost use Rattle.assignment_search.specs.work.OpenLeaves.{AreOpen, IsFirst, OpensEnds, leaf_cmp, leaf_sum};

use crate::child::{End, Judged};
use crate::parting::Ends;
use plan_rules::{Node, rounded_up};
use pool_base::OutOfMemory;
use std::alloc::Global;
use std::cmp::Reverse;
use std::collections::BinaryHeap;

/// An open leaf. Of leaves of equal value the first in preorder comes first.
#[derive(PartialEq, Eq, PartialOrd, Ord, Drop)]
pub struct OpenLeaf {
    pub value: i128,
    /// For each branch above it whether it's in the second subtree.
    pub turns: Vec<bool>,
    pub number: usize,
}

/// A tree that grows to at most so many nodes. A node keeps its number when others come before it.
#[derive(Drop)]
pub struct Growing {
    pub budget: usize,
    /// All nodes, in preorder.
    pub nodes: Vec<Node>,
    /// The values of leaves, beside the nodes.
    pub values: Vec<i128>,
    /// The numbers of all nodes, beside them.
    pub numbers: Vec<usize>,
    /// The open leaves.
    pub heap: BinaryHeap<Reverse<OpenLeaf>>,
}

impl Growing {
    /// A tree of one leaf.
    pub fn new(alloc: Global, budget: usize, root: Judged) -> Result<Self, OutOfMemory>
        requires { IsSmallSum 1500 root.value }
        ensures budget { IfOk result (λ tree. tree.budget ≡ budget) }
        ensures nodes { IfOk result (λ tree. tree.nodes.items ≡ Leaf root.multipliers ∷ []) }
        ensures values { IfOk result (λ tree. tree.values.items ≡ root.value ∷ []) }
        ensures leaves { IfOk result (λ tree. AreOpen tree tree.nodes.items tree.values.items) }
    {
        let mut heap = BinaryHeap::new(alloc);
        heap.push(Reverse(OpenLeaf {
            value: root.value,
            turns: Vec::new(alloc),
            number: 0,
        }))?;
        let mut numbers = Vec::new(alloc);
        numbers.push(0)?;
        let mut values = Vec::new(alloc);
        values.push(root.value)?;
        let mut nodes = Vec::new(alloc);
        nodes.push(Node::Leaf {
            multipliers: root.multipliers,
        })?;
        Ok(Growing {
            budget,
            nodes,
            values,
            numbers,
            heap,
        })
    }

    /// The place of the leaf that comes first.
    pub fn first(&self) -> usize
        requires leaves { AreOpen self.now self.now.nodes.items self.now.values.items }
        requires leaf { HasLeaf self.now.nodes.items }
        ensures lowest { IsLowest self.now.nodes.items self.now.values.items result }
        ensures first { IsFirst self.now result }
    {
        match self.heap.peek() {
            Some(Reverse(leaf)) => place_of(self.numbers.as_slice(), leaf.number),
            None => unreachable!(),
        }
    }

    /// Makes the leaf that comes first, which is at this place, a branch with these ends behind it.
    pub fn grow(&mut self, alloc: Global, place: usize, ends: Ends) -> Result<(), OutOfMemory>
        requires leaves { AreOpen self.old self.old.nodes.items self.old.values.items }
        requires first { IsFirst self.old place }
        ensures budget { OnOk result (self.new.budget ≡ self.old.budget) }
        ensures nodes { OnOk result (self.new.nodes.items ≡ take place self.old.nodes.items ++ (Branch ends.vehicle ends.row ∷ ends.first.node ∷ ends.second.node ∷ drop (suc place) self.old.nodes.items)) }
        ensures values { OnOk result (self.new.values.items ≡ take place self.old.values.items ++ (slice_index_or self.old.values.items place (pos 0) ∷ ends.first.value ∷ ends.second.value ∷ drop (suc place) self.old.values.items)) }
        ensures leaves { OnOk result (AreOpen self.new self.new.nodes.items self.new.values.items) }
    {
        let number = self.numbers.len();
        open_ends(&mut self.heap, alloc, &ends, number)?;
        self.numbers.insert(place + 1, number)?;
        self.numbers.insert(place + 2, number + 1)?;
        put_ends(&mut self.nodes, &mut self.values, place, ends)?;
        Ok(())
    }
}

/// The value at this place, in seconds.
pub fn bound_at(tree: &Growing, place: usize) -> i128
    requires place { place < length tree.now.values.items }
    requires small { IsSmallSum 1500 (slice_index_or tree.now.values.items place (pos 0)) }
    ensures { result ≡ rounded_up (slice_index_or tree.now.values.items place (pos 0)) }
{
    rounded_up(tree.values[place])
}

/// Whether the value at this place, in seconds, is at least this limit.
pub fn is_met(tree: &Growing, place: usize, limit: u64) -> bool
    requires place { place < length tree.now.values.items }
    requires small { IsSmallSum 1500 (slice_index_or tree.now.values.items place (pos 0)) }
    ensures { MatchBool result (pos limit ≤ℤ rounded_up (slice_index_or tree.now.values.items place (pos 0))) (rounded_up (slice_index_or tree.now.values.items place (pos 0)) <ℤ pos limit) }
{
    bound_at(tree, place) >= i128::from(limit)
}

/// The place of the node with this number.
fn place_of(numbers: &[usize], number: usize) -> usize
    requires { (i : ℕ) × ((i < length numbers.now) × (slice_index_or numbers.now i 0 ≡ number)) }
    ensures within { result < length numbers.now }
    ensures found { slice_index_or numbers.now result 0 ≡ number }
{
    for place in 0..numbers.len() {
        if numbers[place] == number {
            return place;
        }
    }
    unreachable!()
}

/// The leaf that comes first goes out of the heap, and its ends come in, the first with this number.
fn open_ends(
    heap: &mut BinaryHeap<Reverse<OpenLeaf>>,
    alloc: Global,
    ends: &Ends,
    number: usize,
) -> Result<(), OutOfMemory>
    requires some { 0 < heap_len heap.old }
    requires number { number + 1 < 2 ^ 64 }
    ensures { OnOk result (OpensEnds number ends.now.first.node ends.now.second.node ends.now.first.value ends.now.second.value (heap_items heap.old) (heap_items heap.new)) }
{
    let Some(Reverse(leaf)) = heap.pop() else {
        unreachable!()
    };
    let first = turns_with(alloc, &leaf.turns, false)?;
    let second = turns_with(alloc, &leaf.turns, true)?;
    put(heap, &ends.first, first, number)?;
    put(heap, &ends.second, second, number + 1)?;
    Ok(())
}

/// One turn more.
fn turns_with(alloc: Global, turns: &[bool], is_second: bool) -> Result<Vec<bool>, OutOfMemory> {
    let mut longer = Vec::from_slice(alloc, turns)?;
    longer.push(is_second)?;
    Ok(longer)
}

/// Puts the end in if it's a leaf.
fn put(
    heap: &mut BinaryHeap<Reverse<OpenLeaf>>,
    end: &End,
    turns: Vec<bool>,
    number: usize,
) -> Result<(), OutOfMemory>
    ensures sum { OnOk result ((f : ℕ → ℤ → ℕ) → sum_by (λ leaf. f leaf.0.number leaf.0.value) (heap_items heap.new) ≡ leaf_sum f (number ∷ []) (end.now.node ∷ []) (end.now.value ∷ []) + sum_by (λ leaf. f leaf.0.number leaf.0.value) (heap_items heap.old)) }
    ensures order { OnOk result (IsHeap (λ x y. leaf_cmp y.0 x.0) (heap_items heap.old) → IsHeap (λ x y. leaf_cmp y.0 x.0) (heap_items heap.new)) }
{
    if let Node::Leaf { multipliers: _ } = &end.node {
        heap.push(Reverse(OpenLeaf {
            value: end.value,
            turns,
            number,
        }))?;
    }
    Ok(())
}

/// Puts the branch in the leaf's place, and its ends after it.
fn put_ends(
    nodes: &mut Vec<Node>,
    values: &mut Vec<i128>,
    place: usize,
    ends: Ends,
) -> Result<(), OutOfMemory>
    requires place { place < length nodes.old.items }
    requires values { length values.old.items ≡ length nodes.old.items }
    ensures nodes { OnOk result (nodes.new.items ≡ take place nodes.old.items ++ (Branch ends.vehicle ends.row ∷ ends.first.node ∷ ends.second.node ∷ drop (suc place) nodes.old.items)) }
    ensures values { OnOk result (values.new.items ≡ take place values.old.items ++ (slice_index_or values.old.items place (pos 0) ∷ ends.first.value ∷ ends.second.value ∷ drop (suc place) values.old.items)) }
{
    let Ends {
        vehicle,
        row,
        first,
        second,
    } = ends;
    let End {
        node: left,
        value: left_value,
    } = first;
    let End {
        node: right,
        value: right_value,
    } = second;
    nodes.remove(place);
    nodes.insert(place, Node::Branch { vehicle, row })?;
    nodes.insert(place + 1, left)?;
    nodes.insert(place + 2, right)?;
    values.insert(place + 1, left_value)?;
    values.insert(place + 2, right_value)?;
    Ok(())
}
