//! Orders of stops of shared vehicles: what an order is, when it serves, and how long it delays.
//!
//! The definitions stand here once: an order of a vehicle's passengers and a trip's riders, the seconds
//! of its stops, its delay, the trips that a vehicle can serve, and the edges between riders and vehicles.
//! The calls decide them exactly, and the laws say that whoever is left out of a serving order leaves one.
//!
//! A search through labels finds the least delay over all orders: what it finds serves and has that delay, no
//! serving order has less, and none is found only where no order serves. A label says what was done, where
//! the vehicle is, since when, and with how much delay.
//!
//! A caller, from the tests of `single_calls`:
//!
//! ```
//! fn out_of_reach(rt: HostRuntime) -> Result<(), Fail> {
//!     let cells = vec![in rt.alloc(); 0, 60, Times::NEVER, 0]?;
//!     let times = Times::checked(2, cells).ok().ok_or("a table")?;
//!     let mut task = vehicle(0, 4);
//!     let _rider = task.riders.try_push(leg(1, 0, 0));
//!     let stops = [Stop::Pick(0), Stop::Drop(0)];
//!     assert!(rt; is_valid(&task, times.len()));
//!     assert!(rt; !serves(&task, &times, &stops));
//!     assert!(rt; is_order(&task, &stops));
//!     assert_eq!(rt; stop_second(&task, &times, &stops, 0), Some(60));
//!     assert_eq!(rt; stop_second(&task, &times, &stops, 1), None);
//!     assert_eq!(rt; delay_of(&task, &times, &stops), None);
//!     assert!(rt; least_over_all_orders(&task, &times).is_none());
//!     Ok(())
//! }
//! ```
//!
//! Main clauses: `serves`; `delay_of`; `least_delay`: `serves`, `delay`, `least`, `none`, `step`.
//! README.md quotes them.
#![tactic(auto)]

// Rooms, each names only those above it: task, search.

pub mod laws;
mod pair_list;
mod search;
mod task;
mod validity;

pub use pair_list::PairList;
pub use search::cost::least_cost_with;
pub use search::label_store::Workspace;
pub use search::least::{least_delay, least_delay_with};
pub use search::plain::least_over_all_orders;
pub use search::position::{arrival, free_seats_of};
pub use search::serving::{delay_of, serves, stop_second, visit_of};
pub use search::unlimited::least_delay_unlimited;
pub use task::done::Done;
pub use task::leg::Leg;
pub use task::order::is_order;
pub use task::route::{Route, copy_of_stops};
pub use task::settled::{Settled, SettledRiders, SettledVehicles};
pub use task::settled_rider::SettledRider;
pub use task::settled_vehicle::SettledVehicle;
pub use task::stop::Stop;
pub use task::task::Task;
pub use task::trip::task_of;
pub use task::visit::Visit;
pub use validity::is_valid;
