//! Labels from elsewhere, judged.
ghost use Rattle.std.specs.Prelude.{◌≡◌, ◌↔◌, ◌<◌, IfErr, IfOk, IfSome, IfNone, IsTrue, length};
ghost use Rattle.travel_times.specs.labels.Fault.{IsLabelFault};
ghost use Rattle.travel_times.specs.labels.Labels.{AreLabelsOf};
ghost use Rattle.travel_times.specs.work.labels.Difference.{IsFirstDifference};

use crate::labels::fault::LabelFault;
use crate::labels::hub::{Hub, ShortHub};
use crate::labels::label::{Label, ShortLabel};
use crate::labels::labels::Labels;
use road_network::Network;
use std::alloc::Global;

impl Labels {
    /// The labels of a network that stand in these lists, or the first thing that is wrong with them: their size, then the
    /// forward labels by index, then the backward labels.
    ///
    /// The definition names one label for each node, so it makes the labels anew and compares.
    pub fn checked(
        alloc: Global,
        network: &Network,
        forward: Vec<Label>,
        backward: Vec<Label>,
    ) -> Result<Labels, LabelFault>
        ensures accepted { IfOk result (AreLabelsOf network.now) }
        ensures kept { IfOk result (λ labels. (labels.forward ≡ forward.items) × (labels.backward ≡ backward.items)) }
        ensures refused { IfErr result (IsLabelFault network.now forward.items backward.items) }
    {
        let nodes = network.node_count();
        if forward.len() != nodes || backward.len() != nodes {
            return Err(LabelFault::Size);
        }
        let Ok(labels) = Labels::build(alloc, network) else {
            return Err(LabelFault::OutOfMemory);
        };
        if let Some(node) = first_difference(labels.forward_labels(), &forward) {
            return Err(LabelFault::Forward { node: node as u64 });
        }
        if let Some(node) = first_difference(labels.backward_labels(), &backward) {
            return Err(LabelFault::Backward { node: node as u64 });
        }
        Ok(labels)
    }
}

/// The first place at which two lists of labels differ.
fn first_difference(labels: &[ShortLabel], others: &[Label]) -> Option<usize>
    requires { length labels.now ≡ length others.now }
    ensures some { IfSome result (IsFirstDifference labels.now others.now) }
    ensures none { IfNone result (labels.now ≡ others.now) }
{
    for node in 0..labels.len() {
        if !are_same(labels[node].as_slice(), others[node].as_slice()) {
            return Some(node);
        }
    }
    None
}

/// Whether two labels have the same hubs in the same order.
fn are_same(label: &[ShortHub], other: &[Hub]) -> bool
    ensures { IsTrue result ↔ label.now ≡ other.now }
{
    if label.len() != other.len() {
        return false;
    }
    for place in 0..label.len() {
        if label[place].hub() != other[place] {
            return false;
        }
    }
    true
}
