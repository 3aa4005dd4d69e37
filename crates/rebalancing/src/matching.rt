ghost use Rattle.std.specs.Prelude.{◌≡◌, ◌≢◌, ℕ, ◌+◌, ◌*◌, ◌<◌, ◌≤◌, IfSome, IfNone, IfOk, OnOk, length, slice_index, slice_set};
ghost use Rattle.rebalancing.specs.Potentials.{pair_worth};
ghost use Rattle.rebalancing.specs.work.Weights.{weight_at};
ghost use Rattle.rebalancing.specs.work.Prices.{IsPricedMatching, IsSized, IsSameProblem, weight_in};
ghost use Rattle.rebalancing.specs.work.SearchTree.{HasRoom, IsNearest, IsOpenMatching, IsSearchTree, root_of};

use crate::tree::{Reached, Tree, cheaper, lower, raise, relax};
use crate::weights::PAIR_WORTH;
use pool_base::OutOfMemory;
use std::alloc::Global;

/// A matching of vehicles and riders in the making, with prices that show that it is best among the vehicles tried.
///
/// Prices are the negated potentials: a pair's prices are together at least its weight, and exactly that where it is
/// matched; what is unmatched has price 0 as soon as it was tried.
#[derive(Drop)]
pub(crate) struct Matching {
    pub vehicles: usize,
    pub riders: usize,
    /// Row by row.
    pub weights: Vec<u64>,
    pub vehicle_price: Vec<u64>,
    pub rider_price: Vec<u64>,
    /// By vehicle; the number of riders where it is unmatched.
    pub rider_of: Vec<usize>,
    /// By rider; the number of vehicles where it is unmatched.
    pub vehicle_of: Vec<usize>,
}

impl Matching {
    /// No pair, before any vehicle was tried.
    pub(crate) fn new(
        alloc: Global,
        vehicles: usize,
        riders: usize,
        weights: Vec<u64>,
    ) -> Result<Matching, OutOfMemory>
        requires light { (i j : ℕ) → i < vehicles → j < riders → weight_at weights.items riders i j ≤ pair_worth }
        ensures vehicles { IfOk result (λ s. s.vehicles ≡ vehicles) }
        ensures riders { IfOk result (λ s. s.riders ≡ riders) }
        ensures weights { IfOk result (λ s. s.weights ≡ weights) }
        ensures priced { IfOk result (IsPricedMatching 0 0) }
    {
        Ok(Matching {
            vehicles,
            riders,
            weights,
            vehicle_price: vec![in alloc; PAIR_WORTH; vehicles]?,
            rider_price: vec![in alloc; 0; riders]?,
            rider_of: vec![in alloc; riders; vehicles]?,
            vehicle_of: vec![in alloc; vehicles; riders]?,
        })
    }

    /// The weights of a vehicle's pairs.
    fn row(&self, vehicle: usize) -> &[u64]
        requires sized { IsSized self.now }
        requires within { vehicle < self.now.vehicles }
        ensures length { length result.now ≡ self.now.riders }
        ensures weights { (j : ℕ) → j < self.now.riders → slice_index result.now j ≡ weight_in self.now vehicle j }
    {
        let start = vehicle * self.riders;
        &self.weights[start..start + self.riders]
    }

    /// The weight of a pair.
    pub(crate) fn weight(&self, vehicle: usize, rider: usize) -> u64
        requires sized { IsSized self.now }
        requires vehicle { vehicle < self.now.vehicles }
        requires rider { rider < self.now.riders }
        ensures { result ≡ weight_in self.now vehicle rider }
    {
        self.row(vehicle)[rider]
    }

    /// The rider with whom a vehicle is matched, if there is a way. A pair without a way weighs nothing and counts as none.
    pub(crate) fn chosen(&self, vehicle: usize) -> Option<usize>
        requires sized { IsSized self.now }
        requires within { vehicle < self.now.vehicles }
        requires rider_of { length self.now.rider_of.items ≡ self.now.vehicles }
        ensures some { IfSome result (λ rider. (rider < self.now.riders) × (slice_index self.now.rider_of.items vehicle ≡ rider) × (0 < weight_in self.now vehicle rider)) }
        ensures none { IfNone result (slice_index self.now.rider_of.items vehicle < self.now.riders → weight_in self.now vehicle (slice_index self.now.rider_of.items vehicle) ≡ 0) }
    {
        let rider = self.rider_of[vehicle];
        if rider < self.riders && self.weight(vehicle, rider) > 0 {
            Some(rider)
        } else {
            None
        }
    }

    /// Begins the search for a vehicle. Answers the rider that is tight first.
    fn plant(&self, tree: &mut Tree, vehicle: usize) -> Result<usize, OutOfMemory>
        requires sized { IsSized self.now }
        requires room { HasRoom self.now.riders tree.old }
        requires within { vehicle < self.now.vehicles }
        requires priced { IsPricedMatching vehicle vehicle self.now }
        ensures tree { OnOk result (IsSearchTree self.now vehicle tree.new) }
        ensures nearest { IfOk result (IsNearest self.now.riders tree.new.place.items tree.new.tight_at.items) }
    {
        tree.clear();
        tree.push(vehicle, self.riders, 0)?;
        let reached = Reached {
            position: 0,
            row: self.row(vehicle),
            offset: self.vehicle_price[vehicle],
        };
        Ok(relax(
            &mut tree.tight_at,
            &mut tree.parent_of,
            &tree.place,
            &self.rider_price,
            &reached,
        ))
    }

    /// Takes a matched rider that is tight, and its vehicle, into the tree. Answers the rider that is tight next.
    fn grow(&self, tree: &mut Tree, rider: usize) -> Result<usize, OutOfMemory>
        requires sized { IsSized self.now }
        requires priced { IsPricedMatching (root_of tree.old) (root_of tree.old + 1) self.now }
        requires tree { IsSearchTree self.now (root_of tree.old) tree.old }
        requires within { rider < self.now.riders }
        requires outside { slice_index tree.old.place.items rider ≡ 0 }
        requires tight { slice_index tree.old.tight_at.items rider ≡ tree.old.lowered }
        requires matched { slice_index self.now.vehicle_of.items rider < self.now.vehicles }
        ensures tree { OnOk result (IsSearchTree self.now (root_of tree.old) tree.new) }
        ensures nearest { IfOk result (IsNearest self.now.riders tree.new.place.items tree.new.tight_at.items) }
        ensures place { OnOk result (tree.new.place.items ≡ slice_set tree.old.place.items rider (length tree.old.vehicles.items)) }
    {
        let vehicle = self.vehicle_of[rider];
        let position = tree.vehicles.len();
        let parent = tree.parent_of[rider];
        tree.push(vehicle, rider, parent)?;
        tree.place[rider] = position;
        tree.cheapest = cheaper(&self.vehicle_price, &tree.vehicles, tree.cheapest, position);
        let reached = Reached {
            position,
            row: self.row(vehicle),
            offset: self.vehicle_price[vehicle] + tree.lowered,
        };
        Ok(relax(
            &mut tree.tight_at,
            &mut tree.parent_of,
            &tree.place,
            &self.rider_price,
            &reached,
        ))
    }

    /// Lowers the prices of the tree's vehicles and raises those of its riders.
    fn shift(&mut self, tree: &mut Tree, by: u64)
        requires priced { IsPricedMatching (root_of tree.old) (root_of tree.old + 1) self.old }
        requires tree { IsSearchTree self.old (root_of tree.old) tree.old }
        requires enough { by ≤ slice_index self.old.vehicle_price.items (slice_index tree.old.vehicles.items tree.old.cheapest) }
        requires not_past { (j : ℕ) → j < self.old.riders → slice_index tree.old.place.items j ≡ 0 → tree.old.lowered + by ≤ slice_index tree.old.tight_at.items j }
        ensures priced { IsPricedMatching (root_of tree.old) (root_of tree.old + 1) self.new }
        ensures tree { IsSearchTree self.new (root_of tree.old) tree.new }
        ensures price { slice_index self.new.vehicle_price.items (slice_index tree.old.vehicles.items tree.old.cheapest) + by ≡ slice_index self.old.vehicle_price.items (slice_index tree.old.vehicles.items tree.old.cheapest) }
        ensures prices_alone { self.new ≡ record self.old { vehicle_price = self.new.vehicle_price; rider_price = self.new.rider_price } }
        ensures lowered_alone { tree.new ≡ record tree.old { lowered = tree.old.lowered + by } }
    {
        lower(&mut self.vehicle_price, &tree.vehicles, by);
        raise(&mut self.rider_price, &tree.riders, by);
        tree.lowered += by;
    }

    /// Matches a vehicle with a rider.
    fn join(&mut self, vehicle: usize, rider: usize)
        requires vehicle { vehicle < length self.old.rider_of.items }
        requires rider { rider < length self.old.vehicle_of.items }
        ensures rider_of { self.new.rider_of.items ≡ slice_set self.old.rider_of.items vehicle rider }
        ensures vehicle_of { self.new.vehicle_of.items ≡ slice_set self.old.vehicle_of.items rider vehicle }
        ensures partners_alone { self.new ≡ record self.old { rider_of = self.new.rider_of; vehicle_of = self.new.vehicle_of } }
    {
        self.rider_of[vehicle] = rider;
        self.vehicle_of[rider] = vehicle;
    }

    /// Gives a rider to the vehicle at a position, that vehicle's rider to its parent, and so on up to the root.
    fn augment(&mut self, tree: &Tree, rider: usize, position: usize)
        requires between { IsOpenMatching self.old tree.now rider position }
        ensures priced { IsPricedMatching (root_of tree.now + 1) (root_of tree.now + 1) self.new }
        ensures same { IsSameProblem self.old self.new }
    {
        let mut rider = rider;
        let mut position = position;
        while position != 0 {
            self.join(tree.vehicles[position], rider);
            rider = tree.riders[position];
            position = tree.parents[position];
        }
        self.join(tree.vehicles[0], rider);
    }

    /// Leaves the cheapest vehicle of the tree, whose price is 0, unmatched, so that the root is matched in its place.
    fn release(&mut self, tree: &Tree)
        requires priced { IsPricedMatching (root_of tree.now) (root_of tree.now + 1) self.old }
        requires tree { IsSearchTree self.old (root_of tree.now) tree.now }
        requires price { slice_index self.old.vehicle_price.items (slice_index tree.now.vehicles.items tree.now.cheapest) ≡ 0 }
        ensures priced { IsPricedMatching (root_of tree.now + 1) (root_of tree.now + 1) self.new }
        ensures same { IsSameProblem self.old self.new }
    {
        let position = tree.cheapest;
        if position != 0 {
            self.rider_of[tree.vehicles[position]] = self.riders;
            self.augment(tree, tree.riders[position], tree.parents[position]);
        }
    }

    /// Tries one more vehicle: the prices of a growing tree fall until a rider that is free is tight, or a price is 0.
    pub(crate) fn insert(&mut self, tree: &mut Tree, vehicle: usize) -> Result<(), OutOfMemory>
        requires sized { IsSized self.old }
        requires room { HasRoom self.old.riders tree.old }
        requires within { vehicle < self.old.vehicles }
        requires priced { IsPricedMatching vehicle vehicle self.old }
        ensures priced { OnOk result (IsPricedMatching (vehicle + 1) (vehicle + 1) self.new) }
        ensures same { OnOk result (IsSameProblem self.old self.new) }
        ensures room { OnOk result (HasRoom self.old.riders tree.new) }
    {
        let mut nearest = self.plant(tree, vehicle)?;
        'search: loop {
            let price = self.vehicle_price[tree.vehicles[tree.cheapest]];
            let slack = tree.slack(nearest);
            if price <= slack {
                self.shift(tree, price);
                self.release(tree);
                return Ok(());
            }
            self.shift(tree, slack);
            if self.vehicle_of[nearest] == self.vehicles {
                let position = tree.parent_of[nearest];
                self.augment(tree, nearest, position);
                return Ok(());
            }
            nearest = self.grow(tree, nearest)?;
        }
    }
}
