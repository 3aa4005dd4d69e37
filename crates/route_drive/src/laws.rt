//! Laws of driven days. Each call does nothing; its contract is the law.
ghost use Rattle.route_drive.specs.Promises.{DaysKeep};
ghost use Rattle.route_drive.specs.Rest.{OrdersGoOn};

/// Of a serving order, the stops after the first k are a serving order of what remains, each at the second that it
/// had, for a vehicle that is ready at a place and a second from which the next stop is met.
pub fn orders_go_on()
    ensures { OrdersGoOn }
{}

/// A driven day keeps its promises, entry by entry: no vehicle is late and no promise lapses in any batch; whoever is
/// picked up is picked up within the wait and not after the first pickup that was promised, and is dropped within the
/// delay; and no vehicle is above its seats.
pub fn days_keep()
    ensures { DaysKeep }
{}
