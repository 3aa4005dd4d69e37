//! Laws of serving orders. Each call does nothing; its contract is the law.
ghost use Rattle.stop_orders.specs.Laws.{RidersCanBeLeftOut, PassengersCanBeLeftOut, SubTripsAreServable, SubTripsCostNoMore, PairsAreEdges, DelaysAreSmall, SoundForLarger};

/// Without a rider's pickup and drop-off, a serving order serves the task without that rider, with no more
/// delay: no stop waits, no way round is shorter, and seats only become free.
pub fn riders_can_be_left_out()
    ensures { RidersCanBeLeftOut }
{}

/// The same of a passenger's drop-off.
pub fn passengers_can_be_left_out()
    ensures { PassengersCanBeLeftOut }
{}

/// Where a vehicle serves a trip, it serves the trip without one of its riders, with no more delay.
pub fn sub_trips_are_servable()
    ensures servable { SubTripsAreServable }
    ensures no_dearer { SubTripsCostNoMore }
{}

/// Where a vehicle serves a trip of two riders, they are an edge between riders: without the passengers the
/// vehicle begins with the pickup of one of them, and the empty vehicle is there already.
pub fn pairs_are_edges()
    ensures { PairsAreEdges }
{}

/// The delay of a serving order of a settled batch is at most 158,400 seconds.
pub fn delays_are_small()
    ensures { DelaysAreSmall }
{}

/// What is sound for trips of some size is sound for larger ones.
pub fn sound_for_larger()
    ensures { SoundForLarger }
{}
