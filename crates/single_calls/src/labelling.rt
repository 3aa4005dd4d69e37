//! Labels of a line that are checked.
ghost use Rattle.std.specs.Prelude.{◌<◌};

use crate::line::{LINE, network_of};
use pool_base::OutOfMemory;
use road_network::Network;
use std::alloc::Global;
use travel_times::{Hub, Label, LabelFault, Labels, ShortHub};

// These hubs in their long form, and one more behind them where one is given.
fn label_of(alloc: Global, hubs: &[ShortHub], more: Option<Hub>) -> Result<Label, OutOfMemory> {
    let mut all = Vec::new(alloc);
    for hub in hubs {
        all.push(hub.hub())?;
    }
    if let Some(hub) = more {
        all.push(hub)?;
    }
    Ok(Label::of(all))
}

// The forward or the backward labels, copied, with one more hub for node 0 where one is given.
fn copied(
    alloc: Global,
    labels: &Labels,
    back: bool,
    more: Option<Hub>,
) -> Result<Vec<Label>, OutOfMemory> {
    let mut copies = Vec::new(alloc);
    for node in 0..labels.len() {
        let hubs = if back {
            labels.backward(node)
        } else {
            labels.forward(node)
        };
        copies.push(label_of(alloc, hubs, if node == 0 { more } else { None })?)?;
    }
    Ok(copies)
}

// What a check says of copies of a network's labels; `None` for want of memory.
fn judged(
    alloc: Global,
    network: &Network,
    ahead: Option<Hub>,
    back: Option<Hub>,
) -> Option<Result<(), LabelFault>> {
    let labels = Labels::build(alloc, network).ok()?;
    let forward = copied(alloc, &labels, false, ahead).ok()?;
    let backward = copied(alloc, &labels, true, back).ok()?;
    Some(Labels::checked(alloc, network, forward, backward).map(|_| ()))
}

// The same of the line.
fn judged_on_line(
    alloc: Global,
    ahead: Option<Hub>,
    back: Option<Hub>,
) -> Option<Result<(), LabelFault>> {
    let network = network_of(alloc, LINE)?;
    judged(alloc, &network, ahead, back)
}

#[test]
fn labels_of_a_line(rt: HostRuntime) {
    let third = Some(Hub {
        node: 2,
        seconds: 120,
    });
    assert!(rt; matches!(judged_on_line(rt.alloc(), None, None), Some(Ok(()))));
    assert!(rt;
        matches!(
            judged_on_line(rt.alloc(), third, third),
            Some(Err(LabelFault::Forward { node: 0 }))
        )
    );
    assert!(rt;
        matches!(
            judged_on_line(rt.alloc(), None, third),
            Some(Err(LabelFault::Backward { node: 0 }))
        )
    );
}
