ghost use Rattle.std.specs.Prelude.{◌≡◌, All, IfOk, IfErr};
ghost use Rattle.input_rows.specs.made.Accepted.{AreRead};
ghost use Rattle.input_rows.specs.made.Texts.{texts_of};
ghost use Rattle.request_book.specs.Consistent.{IsNode};
ghost use Rattle.pool_io.specs.Views.{Change, IsUntouched, SourceView, source_seen};
ghost use Rattle.ridepool.specs.work.Reading.{GotInputs, ReadSources};

use crate::reading::{fleet_from, network_from, script_from};
use crate::status::RunStatus;
use input_rows::{MadeInputs, Script, make_inputs};
use pool_io::Source;
use request_book::Fleet;
use rider_limits::{LoadShape, Mode, Settings};
use road_network::Network;
use route_drive::is_day;
use std::alloc::Global;

/// The network, the fleet and the script that a call works on.
#[derive(Drop)]
pub(crate) struct ReadInputs {
    pub(crate) network: Network,
    pub(crate) fleet: Fleet,
    pub(crate) script: Script,
}

/// The inputs by the command: those of the sources, in the order network, fleet, script, each to its end, and
/// where vehicles are driven the script must be a day; or a made workload's, which touches no source and fails
/// for want of memory alone.
pub(crate) fn inputs_from<N: Source, F: Source, S: Source>(
    alloc: Global,
    settings: &Settings,
    network: &mut N,
    fleet: &mut F,
    script: &mut S,
) -> Result<ReadInputs, RunStatus>
    ensures got { (report : Change SourceView) → IsUntouched report → GotInputs settings.now (record {
      network = source_seen N.left N.taken N.faults network.old network.new;
      fleet = source_seen F.left F.taken F.faults fleet.old fleet.new;
      script = source_seen S.left S.taken S.faults script.old script.new;
      report = report;
    }) result }
    ensures named { IfOk result (λ got. All (λ vehicle. IsNode got.network.nodes vehicle.node) got.fleet) }
{
    match &settings.mode {
        Mode::Load(shape) => made_inputs(alloc, shape),
        Mode::Run => read_inputs(alloc, network, fleet, script),
        Mode::Audit => read_inputs(alloc, network, fleet, script),
        Mode::Drive => match read_inputs(alloc, network, fleet, script) {
            Ok(inputs) => match is_day(&inputs.script) {
                Ok(()) => Ok(inputs),
                Err(fault) => {
                    drop(inputs);
                    Err(RunStatus::Day(fault))
                }
            },
            Err(status) => Err(status),
        },
    }
}

/// The inputs of the sources.
fn read_inputs<N: Source, F: Source, S: Source>(
    alloc: Global,
    network: &mut N,
    fleet: &mut F,
    script: &mut S,
) -> Result<ReadInputs, RunStatus>
    ensures read { (report : Change SourceView) → IsUntouched report → ReadSources (record {
      network = source_seen N.left N.taken N.faults network.old network.new;
      fleet = source_seen F.left F.taken F.faults fleet.old fleet.new;
      script = source_seen S.left S.taken S.faults script.old script.new;
      report = report;
    }) result }
    ensures named { IfOk result (λ got. All (λ vehicle. IsNode got.network.nodes vehicle.node) got.fleet) }
{
    let network = network_from(alloc, network)?;
    let fleet = match fleet_from(alloc, fleet, &network) {
        Ok(fleet) => fleet,
        Err(status) => {
            drop(network);
            return Err(status);
        }
    };
    let script = match script_from(alloc, script) {
        Ok(script) => script,
        Err(status) => {
            drop(network);
            drop(fleet);
            return Err(status);
        }
    };
    Ok(ReadInputs {
        network,
        fleet,
        script,
    })
}

/// The inputs of a made workload.
fn made_inputs(alloc: Global, shape: &LoadShape) -> Result<ReadInputs, RunStatus>
    ensures read { IfOk result (λ got. AreRead (texts_of shape.now) got.network got.fleet got.script) }
    ensures named { IfOk result (λ got. All (λ vehicle. IsNode got.network.nodes vehicle.node) got.fleet) }
    ensures memory { IfErr result (λ status. status ≡ RunStatus.OutOfMemory) }
{
    let Ok(made) = make_inputs(alloc, shape) else {
        return Err(RunStatus::OutOfMemory);
    };
    let MadeInputs {
        network,
        fleet,
        script,
    } = made;
    Ok(ReadInputs {
        network,
        fleet,
        script,
    })
}
