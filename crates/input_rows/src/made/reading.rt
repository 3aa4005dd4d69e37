ghost use Rattle.std.specs.Prelude.{◌≡◌, length, All, Ok, IfOk};
ghost use Rattle.input_rows.specs.made.Texts.{texts_of};
ghost use Rattle.input_rows.specs.made.Accepted.{AreRead, IsNetworkText, IsFleetText, IsScriptText};
ghost use Rattle.input_rows.specs.work.made.Some.{AreSomeRounds, IsSomeFleet, IsSomeNetwork, IsSomeTable};
ghost use Rattle.pool_io.specs.Table.{table_of};
ghost use Rattle.pool_io.specs.lemmas.Records.{header_fields};
ghost use Rattle.request_book.specs.Consistent.{IsNode};

use crate::fleet::fault::FleetFault;
use crate::fleet::reading::{FLEET_HEADER, read_fleet};
use crate::made::texts::make;
use crate::script::Script;
use crate::script::fault::ScriptFault;
use crate::script::reading::read_script;
use crate::script::version::ScriptVersion;
use pool_base::OutOfMemory;
use pool_io::{RowFault, Rows, rows};
use request_book::Fleet;
use rider_limits::LoadShape;
use road_network::{NETWORK_HEADER, Network, NetworkFault, read_network};
use std::alloc::Global;

/// The network, the fleet and the script of a made workload.
#[derive(Drop)]
pub struct MadeInputs {
    pub network: Network,
    pub fleet: Fleet,
    pub script: Script,
}

/// Makes the texts of a shape and reads them, as the files of a run are read.
///
/// No reader refuses a made text, so this fails for want of memory alone.
pub fn make_inputs(alloc: Global, shape: &LoadShape) -> Result<MadeInputs, OutOfMemory>
    ensures read { IfOk result (λ made. AreRead (texts_of shape.now) made.network made.fleet made.script) }
    ensures named { IfOk result (λ made. All (λ vehicle. IsNode made.network.nodes vehicle.node) made.fleet) }
{
    let made = make(alloc, shape)?;
    let network = made_network(alloc, made.network())?;
    let fleet = made_fleet(alloc, made.fleet(), &network)?;
    let script = made_script(alloc, made.script())?;
    Ok(MadeInputs {
        network,
        fleet,
        script,
    })
}

fn made_rows(alloc: Global, text: &[u8], header: &[u8]) -> Result<Rows, OutOfMemory>
    requires { IsSomeTable header.now text.now }
    ensures table { IfOk result (λ table. table_of header.now text.now ≡ Ok table) }
    ensures columns { IfOk result (λ table. table.columns ≡ length (header_fields header.now)) }
{
    match rows(alloc, text, header) {
        Ok(table) => Ok(table),
        Err(fault) => {
            prove!(matches!(&fault, RowFault::OutOfMemory));
            Err(OutOfMemory)
        }
    }
}

fn made_network(alloc: Global, text: &[u8]) -> Result<Network, OutOfMemory>
    requires { IsSomeNetwork text.now }
    ensures { IfOk result (IsNetworkText text.now) }
{
    let table = made_rows(alloc, text, NETWORK_HEADER)?;
    match read_network(alloc, &table) {
        Ok(network) => Ok(network),
        Err(fault) => {
            prove!(matches!(&fault, NetworkFault::OutOfMemory));
            Err(OutOfMemory)
        }
    }
}

fn made_fleet(alloc: Global, text: &[u8], network: &Network) -> Result<Fleet, OutOfMemory>
    requires { IsSomeFleet network.now.nodes text.now }
    ensures fleet { IfOk result (IsFleetText network.now.nodes text.now) }
    ensures named { IfOk result (All (λ vehicle. IsNode network.now.nodes vehicle.node)) }
{
    let table = made_rows(alloc, text, FLEET_HEADER)?;
    match read_fleet(alloc, &table, network) {
        Ok(fleet) => Ok(fleet),
        Err(fault) => {
            prove!(matches!(&fault, FleetFault::OutOfMemory));
            Err(OutOfMemory)
        }
    }
}

fn made_script(alloc: Global, text: &[u8]) -> Result<Script, OutOfMemory>
    requires { AreSomeRounds text.now }
    ensures { IfOk result (IsScriptText text.now) }
{
    let table = made_rows(alloc, text, ScriptVersion::One.header())?;
    match read_script(alloc, &table, ScriptVersion::One) {
        Ok(script) => Ok(script),
        Err(fault) => {
            prove!(matches!(&fault, ScriptFault::OutOfMemory));
            Err(OutOfMemory)
        }
    }
}
