ghost use Rattle.std.specs.Prelude.{◌≡◌, ◌++◌, ◌∷◌, [], OnOk};

use crate::labels::hub::{Hub, ShortHub};
use pool_base::OutOfMemory;
use std::alloc::Global;
use std::marker::Model;

/// The hubs of a node, by rank, as they are handed in. Contracts see it as the list.
#[derive(Drop)]
pub struct Label {
    hubs: Vec<Hub>,
}

impl Model for Label {
    ghost use Rattle.std.specs.Prelude.{List};
    ghost use Rattle.travel_times.specs.declared.labels.hub.Hub.{Hub};

    ghost Value = { List Hub };

    ghost view = { λ label. label.hubs.items };
}

impl Label {
    /// The label of these hubs, in their order.
    pub fn of(hubs: Vec<Hub>) -> Label
        ensures { result ≡ hubs.items }
    {
        Label { hubs }
    }

    /// The vector that holds the hubs.
    pub fn into_vec(self) -> Vec<Hub>
        ensures { result.items ≡ self }
    {
        let Label { hubs } = self;
        hubs
    }

    /// The hubs, by rank.
    pub fn as_slice(&self) -> &[Hub]
        ensures { result.now ≡ self.now }
    {
        self.hubs.as_slice()
    }
}

/// The hubs of a node, by rank, as they are kept. Contracts see it as the list.
#[derive(Drop)]
pub(crate) struct ShortLabel {
    hubs: Vec<ShortHub>,
}

impl Model for ShortLabel {
    ghost use Rattle.std.specs.Prelude.{List};
    ghost use Rattle.travel_times.specs.declared.labels.hub.Hub.{Hub};

    ghost Value = { List Hub };

    ghost view = { λ label. label.hubs.items };
}

impl ShortLabel {
    pub(crate) fn empty(alloc: Global) -> ShortLabel
        ensures { result ≡ [] }
    {
        ShortLabel {
            hubs: Vec::new(alloc),
        }
    }

    /// One more hub at the end.
    pub(crate) fn push(&mut self, hub: ShortHub) -> Result<(), OutOfMemory>
        ensures { OnOk result (self.new ≡ self.old ++ hub ∷ []) }
    {
        self.hubs.push(hub)?;
        Ok(())
    }

    /// The hubs, by rank.
    pub(crate) fn as_slice(&self) -> &[ShortHub]
        ensures { result.now ≡ self.now }
    {
        self.hubs.as_slice()
    }

    /// How many bytes the hubs take.
    pub(crate) fn bytes(&self) -> u64 {
        (self.hubs.capacity() as u64).saturating_mul(8)
    }
}
