ghost use Rattle.std.specs.Prelude.{◌≡◌, ◌<◌, ◌≤◌, ◌↔◌, ℕ, Contains, IsTrue, length, slice_index_or};
ghost use Rattle.stop_orders.specs.PairList.{ArePairs, IsBefore};
ghost use Rattle.stop_orders.specs.work.PairList.{IsFirstNotBefore};

use std::marker::Model;

/// Pairs of riders' numbers, rising, the first number of each below its second.
#[derive(Drop)]
pub struct PairList {
    pairs: Vec<(usize, usize)>,
}

impl Model for PairList {
    ghost use Rattle.std.specs.Prelude.{ℕ, List};
    ghost use Rattle.stop_orders.specs.PairList.{ArePairs};

    ghost Value = { List (ℕ × ℕ) };

    ghost view = { λ list. list.pairs.items };

    ghost invariant = { λ list. ArePairs list.pairs.items };
}

impl PairList {
    /// The list of these pairs.
    pub fn of(pairs: Vec<(usize, usize)>) -> PairList
        requires { ArePairs pairs.items }
        ensures { result ≡ pairs.items }
    {
        PairList { pairs }
    }

    /// Whether the pair stands in the list.
    pub fn has(&self, a: usize, b: usize) -> bool
        ensures { IsTrue result ↔ Contains self.now (a, b) }
    {
        let mut near = 0;
        self.has_near(&mut near, a, b)
    }

    /// Whether the pair stands in the list. `near` is any place to look from, and becomes that of the first pair
    /// that doesn't come before this one: pairs that are looked up in order take a few steps each.
    pub fn has_near(&self, near: &mut usize, a: usize, b: usize) -> bool
        ensures { IsTrue result ↔ Contains self.now (a, b) }
    {
        *near = first_not_before(&self.pairs, *near, a, b);
        has_at(&self.pairs, *near, a, b)
    }

    /// All pairs, in order.
    pub fn all(&self) -> &[(usize, usize)]
        ensures { result.now ≡ self.now }
    {
        &self.pairs
    }
}

/// Whether the pair stands at the first place whose pair doesn't come before it.
fn has_at(pairs: &[(usize, usize)], place: usize, a: usize, b: usize) -> bool
    requires pairs { ArePairs pairs.now }
    requires first { IsFirstNotBefore pairs.now (a, b) place }
    ensures { IsTrue result ↔ Contains pairs.now (a, b) }
{
    if place >= pairs.len() {
        return false;
    }
    is_pair(pairs[place], a, b)
}

fn is_pair(pair: (usize, usize), a: usize, b: usize) -> bool
    ensures { IsTrue result ↔ (pair ≡ (a, b)) }
{
    pair.0 == a && pair.1 == b
}

/// The first place whose pair doesn't come before this one: by steps from `near` on that double, then by halving.
fn first_not_before(pairs: &[(usize, usize)], near: usize, a: usize, b: usize) -> usize
    requires { ArePairs pairs.now }
    ensures { IsFirstNotBefore pairs.now (a, b) result }
{
    let start = start_at(pairs, near, a, b);
    let mut low = start;
    let mut high = pairs.len();
    while low < high {
        let middle = middle_of(start, low, high);
        if is_before(pairs[middle], a, b) {
            low = middle + 1;
        } else {
            high = middle;
        }
    }
    low
}

/// The place near which to look, where all pairs before it come before this one, or else the first.
fn start_at(pairs: &[(usize, usize)], near: usize, a: usize, b: usize) -> usize
    requires { ArePairs pairs.now }
    ensures within { result ≤ length pairs.now }
    ensures before { (k : ℕ) → k < result → IsBefore (slice_index_or pairs.now k (0, 0)) (a, b) }
{
    if near == 0 || near > pairs.len() {
        return 0;
    }
    if is_before(pairs[near - 1], a, b) {
        return near;
    }
    0
}

/// A place from `low` on and below `high`: as far behind `low` as that is behind `start`, or half of what is left.
fn middle_of(start: usize, low: usize, high: usize) -> usize
    requires from { start ≤ low }
    requires some { low < high }
    ensures from { low ≤ result }
    ensures below { result < high }
{
    low + (low - start).min((high - low) / 2)
}

fn is_before(pair: (usize, usize), a: usize, b: usize) -> bool
    ensures { IsTrue result ↔ IsBefore pair (a, b) }
{
    pair.0 < a || (pair.0 == a && pair.1 < b)
}
