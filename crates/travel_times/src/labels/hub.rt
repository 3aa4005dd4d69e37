ghost use Rattle.std.specs.Prelude.{◌≡◌, ◌<◌};

use std::marker::Model;

/// A hub of a node's label: another node, or itself, with the seconds to it or from it.
#[derive(Clone, Copy, PartialEq, Eq)]
pub struct Hub {
    /// The index of the node.
    pub node: usize,
    pub seconds: u32,
}

/// A hub in 8 bytes, where `Hub` takes 16: labels are made and asked as fast as memory gives their hubs.
#[derive(Clone, Copy)]
pub struct ShortHub {
    node: u32,
    seconds: u32,
}

impl Model for ShortHub {
    ghost use Rattle.travel_times.specs.declared.labels.hub.Hub.{Hub};

    ghost Value = { Hub };

    ghost view = { λ a. record { node = a.node; seconds = a.seconds } };

    ghost inverse = { λ hub. record { node = hub.node; seconds = hub.seconds } };
}

impl ShortHub {
    /// One of at most 100,000 nodes, with its seconds.
    pub fn of(hub: Hub) -> ShortHub
        requires { hub.node < 100000 }
        ensures { result ≡ hub }
    {
        ShortHub {
            node: hub.node as u32,
            seconds: hub.seconds,
        }
    }

    /// The hub, in 16 bytes.
    pub fn hub(self) -> Hub
        ensures { result ≡ self }
    {
        Hub {
            node: self.node(),
            seconds: self.seconds,
        }
    }

    /// The index of the node.
    #[inline]
    pub fn node(self) -> usize
        ensures { result ≡ self.node }
    {
        self.node as usize
    }

    /// The seconds to the node or from it.
    #[inline]
    pub fn seconds(self) -> u32
        ensures { result ≡ self.seconds }
    {
        self.seconds
    }
}
