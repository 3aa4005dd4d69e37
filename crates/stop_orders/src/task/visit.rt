use pool_base::Party;

/// A stop as the clock and the seats see it.
#[derive(Clone, Copy)]
pub enum Visit {
    /// A party gets in at this place, at this second at the latest.
    Pickup {
        place: usize,
        latest: u64,
        party: Party,
    },
    /// A party gets out at this place, at this second at the latest, delayed from the ideal second on.
    Dropoff {
        place: usize,
        latest: u64,
        ideal: u64,
        party: Party,
    },
}

impl Visit {
    ghost use Rattle.std.specs.Prelude.{◌≡◌, ◌+◌, ◌-◌, ◌≤◌, ◌<◌, ◌^◌};
    ghost use Rattle.stop_orders.specs.task.Visit.{place_of, latest_of, boarding_of, room_after, lateness};

    /// The place of the visit.
    pub fn place(&self) -> usize
        ensures { result ≡ place_of self.now }
    {
        match self {
            Visit::Pickup { place, .. } => *place,
            Visit::Dropoff { place, .. } => *place,
        }
    }

    /// The last second at which the visit is in time.
    pub fn latest(&self) -> u64
        ensures { result ≡ latest_of self.now }
    {
        match self {
            Visit::Pickup { latest, .. } => *latest,
            Visit::Dropoff { latest, .. } => *latest,
        }
    }

    /// How many persons get in.
    pub fn boarding(&self) -> u8
        ensures value { result ≡ boarding_of self.now }
        ensures within { result ≤ 6 }
    {
        match self {
            Visit::Pickup { party, .. } => party.get(),
            Visit::Dropoff { .. } => 0,
        }
    }

    /// The free seats after the visit.
    pub fn room_after(&self, room: u32) -> u32
        requires seats { boarding_of self.now ≤ room }
        requires fits { room + 6 < 2 ^ 32 }
        ensures { result ≡ room_after self.now room }
    {
        match self {
            Visit::Pickup { party, .. } => room - party.get() as u32,
            Visit::Dropoff { party, .. } => room + party.get() as u32,
        }
    }

    /// How long after its ideal second a drop-off at this second is.
    pub fn lateness(&self, second: u64) -> u64
        ensures value { result ≡ lateness self.now second }
        ensures within { result ≤ second }
    {
        match self {
            Visit::Pickup { .. } => 0,
            Visit::Dropoff { ideal, .. } => second.saturating_sub(*ideal),
        }
    }
}
