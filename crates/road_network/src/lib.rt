//! The road network of a file: nodes numbered by first appearance, and arcs by starting node.
//!
//! A network is what its rows say, or their first refusal with its place. Walks along its arcs and the
//! least time over them are defined here too. Reading is linear in the bytes.
//!
//! A caller, from the tests of `single_calls`:
//!
//! ```
//! /// The network of a file; `None` where it is refused, and for want of memory.
//! pub fn network_of(alloc: Global, text: &[u8]) -> Option<Network> {
//!     match rows(alloc, text, NETWORK_HEADER) {
//!         Ok(table) => match read_network(alloc, &table) {
//!             Ok(network) => Some(network),
//!             Err(_) => None,
//!         },
//!         Err(_) => None,
//!     }
//! }
//! ```
//!
//! Main clauses: `read_network`: `network`, `refused`, `every_row`. README.md quotes them.
#![tactic(auto)]

mod arc;
mod directory;
mod fault;
mod hop;
mod network;
mod reading;
mod storage;

pub use arc::Arc;
pub use fault::NetworkFault;
pub use hop::Hop;
pub use network::Network;
pub use reading::{NETWORK_HEADER, read_network};
