ghost use Rattle.std.specs.Prelude.{◌≡◌, ◌≢◌, ◌+◌, ◌<◌, ◌≤◌, Ok, Err, Some, None, All, length, map, IfOk, IfErr, MatchResult};
ghost use Rattle.pool_io.specs.Table.{record_at};
ghost use Rattle.road_network.specs.Roads.{IsArcAmong, index_in};
ghost use Rattle.road_network.specs.lemmas.Limits.{greatest_name, longest_arc, most_arcs, most_nodes};
ghost use Rattle.road_network.specs.Reading.{network_of, nodes_of, arc_seconds};
ghost use Rattle.road_network.specs.lemmas.Rows.{field_refusal};
ghost use Rattle.pool_base.specs.Numeral.{number_at};
ghost use Rattle.pool_base.specs.Numbering.{with_name};

use crate::arc::Arc;
use crate::fault::NetworkFault;
use crate::network::Network;
use pool_base::{Numbering, read_number_up_to};
use pool_io::Rows;
use std::alloc::Global;

/// The header line of a network, without its end.
pub const NETWORK_HEADER: &[u8] = b"from,to,seconds";

const MOST_ARCS: usize = 400_000;

const MOST_NODES: usize = 100_000;

const LONGEST_ARC: u64 = 10_000;

const GREATEST_NAME: u64 = 1_000_000_000;

// An arc between two nodes, by their names.
#[derive(Clone, Copy)]
struct NamedArc {
    from: u32,
    to: u32,
    seconds: u32,
}

// What the fields of a row say.
#[tactic(auto, unfolding(crate::specs::lemmas::Rows::field_refusal))]
fn read_row(rows: &Rows, row: usize) -> Result<NamedArc, NetworkFault>
    requires columns { rows.now.columns ≡ 3 }
    requires row { row < length rows.now.records }
    requires few { row < 400000 }
    ensures accepted { IfOk result (λ arc. (field_refusal (row + 1) (record_at rows.now row) ≡ None)
        × (arc.from ≡ number_at (record_at rows.now row) 0)
        × (arc.to ≡ number_at (record_at rows.now row) 1)
        × (arc.seconds ≡ arc_seconds (record_at rows.now row))) }
    ensures small { IfOk result (λ arc. (arc.from ≤ greatest_name) × (arc.to ≤ greatest_name)
        × (arc.seconds ≤ longest_arc)) }
    ensures refused { IfErr result (λ fault. field_refusal (row + 1) (record_at rows.now row) ≡ Some fault) }
{
    let number = row as u64 + 1;
    let Some(from) = read_number_up_to(rows.field(row, 0), GREATEST_NAME) else {
        return Err(NetworkFault::Number {
            row: number,
            column: 1,
        });
    };
    let Some(to) = read_number_up_to(rows.field(row, 1), GREATEST_NAME) else {
        return Err(NetworkFault::Number {
            row: number,
            column: 2,
        });
    };
    let Some(seconds) = read_number_up_to(rows.field(row, 2), u64::MAX) else {
        return Err(NetworkFault::Number {
            row: number,
            column: 3,
        });
    };
    if seconds > LONGEST_ARC {
        return Err(NetworkFault::ArcTooLong { row: number });
    }
    Ok(NamedArc {
        from: from as u32,
        to: to as u32,
        seconds: seconds as u32,
    })
}

// The index of a node, which is new or known.
fn number_node(nodes: &mut Numbering, name: u32) -> Result<usize, NetworkFault>
    ensures nodes { IfOk result (λ index. nodes.new.names ≡ with_name nodes.old.names name) }
    ensures index { IfOk result (λ index. index ≡ index_in nodes.new.names name) }
    ensures within { IfOk result (λ index. index < length nodes.new.names) }
    ensures no_memory { IfErr result (λ fault. fault ≡ NetworkFault.OutOfMemory) }
{
    match nodes.number(name) {
        Ok(index) => Ok(index),
        Err(_) => Err(NetworkFault::OutOfMemory),
    }
}

/// The network that rows under the header `from,to,seconds` give, or their first refusal.
///
/// Nodes are numbered by first appearance, `from` before `to` in each row. The number of rows is judged
/// first, then each row in order: its numbers from the left, its seconds, and the number of nodes so
/// far. Linear in the rows.
pub fn read_network(alloc: Global, rows: &Rows) -> Result<Network, NetworkFault>
    requires { rows.now.columns ≡ 3 }
    ensures network { IfOk result (λ network. network_of rows.now.records ≡ Ok network) }
    ensures refused { IfErr result
        (λ fault. fault ≢ NetworkFault.OutOfMemory → network_of rows.now.records ≡ Err fault) }
    ensures every_row { IfOk result (λ network. length network.arcs ≡ length rows.now.records) }
{
    if rows.len() > MOST_ARCS {
        return Err(NetworkFault::TooManyArcs);
    }
    let mut nodes = Numbering::new(alloc);
    let mut arcs = Vec::new(alloc);
    'rows: for row in 0..rows.len() {
        let named = read_row(rows, row)?;
        let from = number_node(&mut nodes, named.from)?;
        let to = number_node(&mut nodes, named.to)?;
        if nodes.len() > MOST_NODES {
            return Err(NetworkFault::TooManyNodes {
                row: row as u64 + 1,
            });
        }
        let arc = Arc {
            from: from as u32,
            to: to as u32,
            seconds: named.seconds,
        };
        if arcs.push(arc).is_err() {
            return Err(NetworkFault::OutOfMemory);
        }
    }
    match Network::of(alloc, nodes.names(), arcs.as_slice()) {
        Ok(network) => Ok(network),
        Err(_) => Err(NetworkFault::OutOfMemory),
    }
}
