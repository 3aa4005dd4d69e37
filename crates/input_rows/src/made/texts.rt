ghost use Rattle.std.specs.Prelude.{◌≡◌, ◌++◌, ◌∷◌, [], IfOk};
ghost use Rattle.input_rows.specs.made.Texts.{texts_of};

use crate::fleet::reading::FLEET_HEADER;
use crate::made::fleet::put_fleet;
use crate::made::network::put_network;
use crate::made::script::put_script;
use crate::script::version::ScriptVersion;
use pool_base::OutOfMemory;
use rand_core::SeedableRng;
use rand_xoshiro::SplitMix64;
use rider_limits::LoadShape;
use road_network::NETWORK_HEADER;
use std::alloc::Global;
use std::marker::Model;

/// The three texts of a made workload.
#[derive(Drop)]
pub struct Made {
    network: Vec<u8>,
    fleet: Vec<u8>,
    script: Vec<u8>,
}

impl Model for Made {
    ghost use Rattle.input_rows.specs.made.Texts.{Texts};

    ghost Value = { Texts };

    ghost view = { λ made. record { network = made.network.items; fleet = made.fleet.items; script = made.script.items } };
}

impl Made {
    /// The network: a square whose neighbours are joined both ways.
    pub fn network(&self) -> &[u8]
        ensures { result.now ≡ self.now.network }
    {
        self.network.as_slice()
    }

    /// The fleet: vehicles of four seats.
    pub fn fleet(&self) -> &[u8]
        ensures { result.now ≡ self.now.fleet }
    {
        self.fleet.as_slice()
    }

    /// The script: for each batch reports (but for the first), requests and a seal.
    pub fn script(&self) -> &[u8]
        ensures { result.now ≡ self.now.script }
    {
        self.script.as_slice()
    }
}

/// A text with a header line, and no row yet.
fn under(alloc: Global, header: &[u8]) -> Result<Vec<u8>, OutOfMemory>
    ensures { IfOk result (λ text. text.items ≡ header.now ++ 10 ∷ []) }
{
    let mut text = Vec::from_slice(alloc, header)?;
    text.push(b'\n')?;
    Ok(text)
}

/// The texts of a workload of this shape.
///
/// The generator is SplitMix64 (Steele, Lea and Flood 2014), seeded with the shape's seed. Its outputs
/// are drawn for the network, then for the fleet, then for the script.
pub fn make(alloc: Global, shape: &LoadShape) -> Result<Made, OutOfMemory>
    ensures { IfOk result (λ made. made ≡ texts_of shape.now) }
{
    let mut rng = SplitMix64::seed_from_u64(shape.seed);
    let mut network = under(alloc, NETWORK_HEADER)?;
    put_network(&mut network, &mut rng, shape)?;
    let mut fleet = under(alloc, FLEET_HEADER)?;
    put_fleet(&mut fleet, &mut rng, shape)?;
    let mut script = under(alloc, ScriptVersion::One.header())?;
    put_script(&mut script, &mut rng, shape)?;
    Ok(Made {
        network,
        fleet,
        script,
    })
}
