//! The arcs between the nodes that are left, by node.
ghost use Rattle.std.specs.Prelude.{◌<◌, length};

use crate::build::draft::GIVEN;
use pool_base::OutOfMemory;
use road_network::Network;
use std::alloc::Global;

/// An arc, seen from one of its ends.
#[derive(Clone, Copy)]
pub(crate) struct Step {
    /// The other end.
    pub node: u32,
    pub seconds: u32,
    /// The node by whose way it leads, if the network doesn't have it.
    pub way: u32,
}

/// By node the arcs that leave it, and those that end there.
#[derive(Drop)]
pub(crate) struct Lists {
    outs: Vec<Vec<Step>>,
    ins: Vec<Vec<Step>>,
}

impl Lists {
    /// The arcs of a network, one for each two different nodes at most.
    pub(crate) fn of(alloc: Global, network: &Network) -> Result<Lists, OutOfMemory> {
        let nodes = network.node_count();
        let mut lists = Lists {
            outs: none(alloc, nodes)?,
            ins: none(alloc, nodes)?,
        };
        for node in 0..nodes {
            lists.put_all(network, node)?;
        }
        Ok(lists)
    }

    /// Puts in the arcs of a node.
    fn put_all(&mut self, network: &Network, node: usize) -> Result<(), OutOfMemory>
        requires { node < length network.now.nodes }
    {
        for hop in network.arcs_from(node) {
            if hop.to != node {
                self.put(number_of(node), number_of(hop.to), hop.seconds, GIVEN)?;
            }
        }
        Ok(())
    }

    /// The arcs that leave a node.
    #[inline]
    pub(crate) fn outs(&self, node: u32) -> &[Step] {
        match self.outs.get(node as usize) {
            Some(steps) => steps,
            None => &[],
        }
    }

    /// The arcs that end at a node.
    #[inline]
    pub(crate) fn ins(&self, node: u32) -> &[Step] {
        match self.ins.get(node as usize) {
            Some(steps) => steps,
            None => &[],
        }
    }

    /// Puts an arc in, unless there is one that is no longer.
    pub(crate) fn put(
        &mut self,
        from: u32,
        to: u32,
        seconds: u32,
        way: u32,
    ) -> Result<(), OutOfMemory> {
        if let Some(steps) = self.outs.get_mut(from as usize) {
            put_step(
                steps,
                Step {
                    node: to,
                    seconds,
                    way,
                },
            )?;
        }
        if let Some(steps) = self.ins.get_mut(to as usize) {
            put_step(
                steps,
                Step {
                    node: from,
                    seconds,
                    way,
                },
            )?;
        }
        Ok(())
    }

    /// Takes the arcs of a node out of the lists of the others.
    pub(crate) fn take_out(&mut self, node: u32) {
        take_from(&self.outs, &mut self.ins, node);
        take_from(&self.ins, &mut self.outs, node);
    }
}

/// A node's number; what doesn't fit is none.
#[inline]
pub(crate) fn number_of(node: usize) -> u32 {
    node.min(GIVEN as usize) as u32
}

/// Takes a node out of the lists of those to which its own list leads.
fn take_from(lists: &[Vec<Step>], others: &mut [Vec<Step>], node: u32) {
    if let Some(steps) = lists.get(node as usize) {
        for step in steps {
            if let Some(steps) = others.get_mut(step.node as usize) {
                take_step(steps, node);
            }
        }
    }
}

/// So many empty lists.
fn none(alloc: Global, nodes: usize) -> Result<Vec<Vec<Step>>, OutOfMemory> {
    let mut lists = Vec::with_capacity(alloc, nodes)?;
    for _ in 0..nodes {
        lists.push(Vec::new(alloc))?;
    }
    Ok(lists)
}

/// Puts a step in, unless there is one to the same node that is no longer.
fn put_step(steps: &mut Vec<Step>, step: Step) -> Result<(), OutOfMemory> {
    for known in steps.iter_mut() {
        if known.node == step.node {
            if step.seconds < known.seconds {
                *known = step;
            }
            return Ok(());
        }
    }
    steps.push(step)?;
    Ok(())
}

/// Takes out the step to a node.
fn take_step(steps: &mut Vec<Step>, node: u32) {
    for place in 0..steps.len() {
        if steps[place].node == node {
            steps.swap_remove(place);
            return;
        }
    }
}
