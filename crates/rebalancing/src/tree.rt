ghost use Rattle.std.specs.Prelude.{◌≡◌, ◌≢◌, ◌⊎◌, ℕ, ◌+◌, ◌-◌, ◌<◌, ◌≤◌, ◌^◌, IfOk, OnOk, length, slice_index, [], ◌∷◌, ◌++◌, replicate};
ghost use Rattle.rebalancing.specs.work.SearchTree.{HasRoom, IsNearest};
ghost use Rattle.rebalancing.specs.work.Relaxation.{IsCheaper, Relaxes, Improves, Falls, Rises};

use pool_base::OutOfMemory;
use std::alloc::Global;

/// The work space of the search for one vehicle: the vehicles reached so far, each with its rider and the position of
/// the vehicle that reached it, and for each rider outside how near it is. It is made once and used for every vehicle.
#[derive(Drop)]
pub(crate) struct Tree {
    /// By position; the root stands first.
    pub vehicles: Vec<usize>,
    /// By position; the root has none, and the number of riders stands for it.
    pub riders: Vec<usize>,
    /// By position; that of the root is 0.
    pub parents: Vec<usize>,
    /// By rider: its position, 0 outside the tree.
    pub place: Vec<usize>,
    /// By rider outside the tree: the fall of the tree's prices at which it is tight.
    pub tight_at: Vec<u64>,
    /// By rider outside the tree: the position of the vehicle with which it is tight then.
    pub parent_of: Vec<usize>,
    /// The position of the least price.
    pub cheapest: usize,
    /// By how much the prices of the tree have fallen since the search began.
    pub lowered: u64,
}

impl Tree {
    pub(crate) fn new(alloc: Global, riders: usize) -> Result<Tree, OutOfMemory>
        ensures { IfOk result (HasRoom riders) }
    {
        Ok(Tree {
            place: vec![in alloc; 0; riders]?,
            tight_at: vec![in alloc; u64::MAX; riders]?,
            parent_of: vec![in alloc; 0; riders]?,
            vehicles: Vec::new(alloc),
            riders: Vec::new(alloc),
            parents: Vec::new(alloc),
            cheapest: 0,
            lowered: 0,
        })
    }

    /// Empties the tree.
    pub(crate) fn clear(&mut self)
        ensures vehicles { self.new.vehicles.items ≡ [] }
        ensures riders { self.new.riders.items ≡ [] }
        ensures parents { self.new.parents.items ≡ [] }
        ensures place { self.new.place.items ≡ replicate (length self.old.place.items) 0 }
        ensures tight_at { self.new.tight_at.items ≡ replicate (length self.old.tight_at.items) u64.MAX }
        ensures parent_of { self.new.parent_of ≡ self.old.parent_of }
        ensures cheapest { self.new.cheapest ≡ 0 }
        ensures lowered { self.new.lowered ≡ 0 }
    {
        self.vehicles.clear();
        self.riders.clear();
        self.parents.clear();
        self.place.fill(0);
        self.tight_at.fill(u64::MAX);
        self.cheapest = 0;
        self.lowered = 0;
    }

    /// Puts a vehicle, its rider and the position of the vehicle that reached it behind the others.
    pub(crate) fn push(
        &mut self,
        vehicle: usize,
        rider: usize,
        parent: usize,
    ) -> Result<(), OutOfMemory>
        ensures vehicles { OnOk result (self.new.vehicles.items ≡ self.old.vehicles.items ++ vehicle ∷ []) }
        ensures riders { OnOk result (self.new.riders.items ≡ self.old.riders.items ++ rider ∷ []) }
        ensures parents { OnOk result (self.new.parents.items ≡ self.old.parents.items ++ parent ∷ []) }
        ensures lists_alone { self.new ≡ record self.old { vehicles = self.new.vehicles; riders = self.new.riders; parents = self.new.parents } }
    {
        self.vehicles.push(vehicle)?;
        self.riders.push(rider)?;
        Ok(self.parents.push(parent)?)
    }

    /// How far the prices have yet to fall until this rider is tight; the greatest number where there is no such rider.
    pub(crate) fn slack(&self, rider: usize) -> u64
        requires { rider < length self.now.tight_at.items → self.now.lowered ≤ slice_index self.now.tight_at.items rider }
        ensures some { rider < length self.now.tight_at.items → self.now.lowered + result ≡ slice_index self.now.tight_at.items rider }
        ensures none { length self.now.tight_at.items ≤ rider → result ≡ u64.MAX }
    {
        if rider < self.tight_at.len() {
            self.tight_at[rider] - self.lowered
        } else {
            u64::MAX
        }
    }
}

/// A vehicle of the tree: its position, the weights of its pairs, and its price plus the fall so far.
#[derive(Drop)]
pub(crate) struct Reached<'a> {
    pub position: usize,
    pub row: &'a [u64],
    pub offset: u64,
}

/// Takes a vehicle of the tree into account. Answers the rider outside the tree that is tight first, and the number of riders where there is none.
pub(crate) fn relax(
    tight_at: &mut [u64],
    parent_of: &mut [usize],
    place: &[usize],
    rider_price: &[u64],
    reached: &Reached<'_>,
) -> usize
    requires lengths { (length tight_at.old ≡ length reached.now.row.now) × (length parent_of.old ≡ length reached.now.row.now) × (length place.now ≡ length reached.now.row.now) × (length rider_price.now ≡ length reached.now.row.now) }
    requires covers { (j : ℕ) → j < length reached.now.row.now → slice_index reached.now.row.now j ≤ reached.now.offset + slice_index rider_price.now j }
    requires fits { (j : ℕ) → j < length reached.now.row.now → reached.now.offset + slice_index rider_price.now j < 2 ^ 64 }
    ensures relaxes { Relaxes reached.now.row.now rider_price.now place.now reached.now.offset reached.now.position tight_at.old parent_of.old tight_at.new parent_of.new }
    ensures nearest { IsNearest (length reached.now.row.now) place.now tight_at.new result }
{
    let row = reached.row;
    let riders = row.len();
    let mut nearest = riders;
    for rider in 0..riders {
        if place[rider] == 0 {
            let when = reached.offset + rider_price[rider] - row[rider];
            improve(tight_at, parent_of, rider, when, reached.position);
            if nearest == riders || tight_at[rider] < tight_at[nearest] {
                nearest = rider;
            }
        }
    }
    nearest
}

/// Takes a vehicle's pair into account for one rider.
#[inline]
fn improve(tight_at: &mut [u64], parent_of: &mut [usize], rider: usize, when: u64, position: usize)
    requires tight_within { rider < length tight_at.old }
    requires parent_within { rider < length parent_of.old }
    ensures { Improves rider when position tight_at.old parent_of.old tight_at.new parent_of.new }
{
    if when < tight_at[rider] {
        tight_at[rider] = when;
        parent_of[rider] = position;
    }
}

/// The position, of two, of the lesser price; the first where both are equal.
pub(crate) fn cheaper(prices: &[u64], vehicles: &[usize], first: usize, second: usize) -> usize
    requires first { first < length vehicles.now }
    requires second { second < length vehicles.now }
    requires first_price { slice_index vehicles.now first < length prices.now }
    requires second_price { slice_index vehicles.now second < length prices.now }
    ensures { IsCheaper prices.now vehicles.now first second result }
{
    if prices[vehicles[second]] < prices[vehicles[first]] {
        second
    } else {
        first
    }
}

/// Lowers the prices of these vehicles.
pub(crate) fn lower(prices: &mut [u64], vehicles: &[usize], by: u64)
    requires within { (t : ℕ) → t < length vehicles.now → slice_index vehicles.now t < length prices.old }
    requires distinct { (s t : ℕ) → s < length vehicles.now → t < length vehicles.now → slice_index vehicles.now s ≡ slice_index vehicles.now t → s ≡ t }
    requires enough { (t : ℕ) → t < length vehicles.now → by ≤ slice_index prices.old (slice_index vehicles.now t) }
    ensures { Falls vehicles.now by prices.old prices.new }
{
    for &vehicle in vehicles {
        prices[vehicle] -= by;
    }
}

/// Raises the prices of these riders, but for the root's place.
pub(crate) fn raise(prices: &mut [u64], riders: &[usize], by: u64)
    requires within { (t : ℕ) → 0 < t → t < length riders.now → slice_index riders.now t < length prices.old }
    requires distinct { (s t : ℕ) → 0 < s → 0 < t → s < length riders.now → t < length riders.now → slice_index riders.now s ≡ slice_index riders.now t → s ≡ t }
    requires fits { (t : ℕ) → 0 < t → t < length riders.now → slice_index prices.old (slice_index riders.now t) + by < 2 ^ 64 }
    ensures { Rises riders.now by prices.old prices.new }
{
    for position in 1..riders.len() {
        prices[riders[position]] += by;
    }
}
