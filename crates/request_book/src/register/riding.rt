//! What riders and vehicles do: the commands that change one rider and one vehicle.

ghost use Rattle.std.specs.Prelude.{◌≡◌, ◌==◌, ◌+◌, ◌<◌, ℕ, Some, None, length, MatchOption, All, slice_index_or};
ghost use Rattle.request_book.specs.values.Vehicle.{HasSeats};
ghost use Rattle.request_book.specs.values.Keyed.{KeysDiffer};
ghost use Rattle.request_book.specs.work.register.Register.{state_of, IsIndexed, HasRoom};
ghost use Rattle.request_book.specs.values.State.{find_passenger};
ghost use Rattle.request_book.specs.lemmas.register.Named.{stands_at, takes_in, lets_out};
ghost use Rattle.request_book.specs.Consistent.{IsConsistent};
ghost use Rattle.request_book.specs.lemmas.register.Table.{submit_refusal, submit_step, cancel_step, report_step, pickup_step, dropoff_step};

use crate::register::Register;
use crate::register::refusals::{
    book_full, duplicate_rider, first_of, has_ended, is_aboard, not_aboard, not_promised,
    pool_full, same_place, time_back, unknown_node, vehicle_full,
};
use crate::values::passenger::Passenger;
use crate::values::reply::{BookRefusal, Reply};
use crate::values::rider::{BookRider, Status};
use crate::values::vehicle::Vehicle;
use pool_base::{NodeId, Numbering, RiderId, Second, VehicleId};

impl Register {
    /// A rider asks for a trip. It takes no memory where there is room for one more.
    pub(crate) fn submit(&mut self, nodes: &Numbering, new: &BookRider) -> Reply
        requires indexed { IsIndexed self.old }
        requires consistent { IsConsistent (state_of self.old) }
        requires room { HasRoom 1 self.old }
        ensures stepped { (state_of self.new, result) ≡ submit_step nodes.now.names (state_of self.old) new.now }
        ensures indexed { IsIndexed self.new }
        ensures room { (n : ℕ) → HasRoom (n + 1) self.old → HasRoom n self.new }
    {
        match self.submit_refusal(nodes, new) {
            Some(refusal) => Reply::Refused(refusal),
            None => {
                self.place(new);
                Reply::Accepted
            }
        }
    }

    /// Why a request is refused.
    fn submit_refusal(&self, nodes: &Numbering, new: &BookRider) -> Option<BookRefusal>
        requires indexed { IsIndexed self.now }
        ensures { result ≡ submit_refusal nodes.now.names (state_of self.now) new.now }
    {
        let refusals = [
            duplicate_rider(self.rider(new.id)),
            unknown_node(nodes, new.origin),
            unknown_node(nodes, new.destination),
            same_place(new.origin, new.destination),
            pool_full(self.pool.len()),
            book_full(self.riders.len()),
        ];
        first_of(&refusals)
    }

    /// A rider who isn't aboard gives up.
    pub(crate) fn cancel(&mut self, rider: RiderId) -> Reply
        requires { IsIndexed self.old }
        ensures stepped { (state_of self.new, result) ≡ cancel_step (state_of self.old) rider }
        ensures indexed { IsIndexed self.new }
        ensures room { (n : ℕ) → HasRoom (n + 1) self.old → HasRoom n self.new }
    {
        let Some(found) = self.rider(rider) else {
            return Reply::Refused(BookRefusal::UnknownRider);
        };
        let refusals = [is_aboard(found.status), has_ended(found.status)];
        match first_of(&refusals) {
            Some(refusal) => Reply::Refused(refusal),
            None => {
                self.retire(rider, Status::Cancelled);
                Reply::Cancelled
            }
        }
    }

    /// A vehicle is at a node.
    pub(crate) fn report(
        &mut self,
        nodes: &Numbering,
        vehicle: VehicleId,
        node: NodeId,
        time: Second,
    ) -> Reply
        requires { IsIndexed self.old }
        ensures stepped { (state_of self.new, result) ≡ report_step nodes.now.names (state_of self.old) vehicle node time }
        ensures indexed { IsIndexed self.new }
        ensures room { (n : ℕ) → HasRoom (n + 1) self.old → HasRoom n self.new }
    {
        let Some(at) = self.vehicle_at(vehicle) else {
            return Reply::Refused(BookRefusal::UnknownVehicle);
        };
        let refusals = [
            unknown_node(nodes, node),
            time_back(&self.vehicles[at], time),
        ];
        match first_of(&refusals) {
            Some(refusal) => Reply::Refused(refusal),
            None => {
                stand(&mut self.vehicles[at], node, time);
                Reply::Placed
            }
        }
    }

    /// A vehicle picks up the rider who is promised to it.
    pub(crate) fn pickup(&mut self, vehicle: VehicleId, rider: RiderId, time: Second) -> Reply
        requires indexed { IsIndexed self.old }
        requires seats { All HasSeats self.old.vehicles.items }
        ensures stepped { (state_of self.new, result) ≡ pickup_step (state_of self.old) vehicle rider time }
        ensures indexed { IsIndexed self.new }
        ensures room { (n : ℕ) → HasRoom (n + 1) self.old → HasRoom n self.new }
    {
        let Some(at) = self.vehicle_at(vehicle) else {
            return Reply::Refused(BookRefusal::UnknownVehicle);
        };
        let Some(found) = self.rider(rider) else {
            return Reply::Refused(BookRefusal::UnknownRider);
        };
        let carrier = &self.vehicles[at];
        let refusals = [
            is_aboard(found.status),
            has_ended(found.status),
            not_promised(found.status, vehicle),
            time_back(carrier, time),
            vehicle_full(carrier, found.party),
        ];
        match first_of(&refusals) {
            Some(refusal) => Reply::Refused(refusal),
            None => {
                take_in(&mut self.vehicles[at], &found, time);
                self.retire(found.id, Status::Aboard(vehicle));
                Reply::Picked
            }
        }
    }

    /// A vehicle drops its passenger.
    pub(crate) fn dropoff(&mut self, vehicle: VehicleId, rider: RiderId, time: Second) -> Reply
        requires indexed { IsIndexed self.old }
        requires consistent { IsConsistent (state_of self.old) }
        ensures stepped { (state_of self.new, result) ≡ dropoff_step (state_of self.old) vehicle rider time }
        ensures indexed { IsIndexed self.new }
        ensures room { (n : ℕ) → HasRoom (n + 1) self.old → HasRoom n self.new }
    {
        let Some(at) = self.vehicle_at(vehicle) else {
            return Reply::Refused(BookRefusal::UnknownVehicle);
        };
        let Some(found) = self.rider(rider) else {
            return Reply::Refused(BookRefusal::UnknownRider);
        };
        let refusals = [
            not_aboard(found.status, vehicle),
            time_back(&self.vehicles[at], time),
        ];
        match first_of(&refusals) {
            Some(refusal) => Reply::Refused(refusal),
            None => {
                let_out(&mut self.vehicles[at], &found, time);
                self.retire(found.id, Status::Delivered);
                Reply::Dropped
            }
        }
    }
}

/// Puts a vehicle at a node, at a second.
fn stand(vehicle: &mut Vehicle, node: NodeId, time: Second)
    ensures { vehicle.new ≡ stands_at node time vehicle.old }
{
    vehicle.node = node;
    vehicle.time = time;
}

/// Makes a rider the vehicle's last passenger, at the rider's origin.
fn take_in(vehicle: &mut Vehicle, rider: &BookRider, time: Second)
    requires { length vehicle.old.aboard.items < 10 }
    ensures { vehicle.new ≡ takes_in rider.now time vehicle.old }
{
    vehicle.aboard.push(Passenger {
        rider: rider.id,
        origin: rider.origin,
        destination: rider.destination,
        time: rider.time,
        party: rider.party,
    });
    vehicle.node = rider.origin;
    vehicle.time = time;
}

/// Takes a rider out of the vehicle's passengers, at the rider's destination; the others keep their
/// order.
fn let_out(vehicle: &mut Vehicle, rider: &BookRider, time: Second)
    requires { KeysDiffer (λ p. p.rider) vehicle.old.aboard.items }
    ensures { vehicle.new ≡ lets_out rider.now time vehicle.old }
{
    let seat = seat_of(vehicle.aboard.as_slice(), rider.id);
    if let Some(seat) = seat {
        vehicle.aboard.remove(seat);
    }
    vehicle.node = rider.destination;
    vehicle.time = time;
}

fn seat_of(aboard: &[Passenger], rider: RiderId) -> Option<usize>
    ensures { MatchOption result (find_passenger rider aboard.now ≡ None) (λ seat. (seat < length aboard.now) × ((d : Passenger) → (slice_index_or aboard.now seat d).rider ≡ rider)) }
{
    for (seat, passenger) in aboard.iter().enumerate() {
        if passenger.rider == rider {
            return Some(seat);
        }
    }
    None
}
