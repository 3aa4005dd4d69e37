ghost use Rattle.std.specs.Prelude.{◌≡◌};

/// One stop of a vehicle's order of stops.
#[derive(Clone, Copy)]
pub enum Stop {
    /// This rider of the trip is picked up.
    Pick(u8),
    /// This rider of the trip is dropped off.
    Drop(u8),
    /// This passenger, who was aboard from the start, gets out.
    Alight(u8),
}

/// The pickup of rider 0.
impl Default for Stop {
    ghost use Rattle.stop_orders.specs.declared.task.stop.Stop.{Stop};

    ghost is_default = { λ stop. stop ≡ Stop.Pick 0 };

    fn default() -> Stop {
        Stop::Pick(0)
    }
}
