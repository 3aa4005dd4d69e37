ghost use Rattle.std.specs.Prelude.{◌≡◌, All, Ok, IfOk, IfErr, MatchResult};
ghost use Rattle.pool_base.specs.declared.which.Which.TheVariants as file;
ghost use Rattle.pool_base.specs.Header.{party_header};
ghost use Rattle.pool_io.specs.Table.{table_of};
ghost use Rattle.request_book.specs.Consistent.{IsNode};
ghost use Rattle.ridepool.specs.Status.{HidesNoMemory};
ghost use Rattle.ridepool.specs.Inputs.{Reads, most_bytes};
ghost use Rattle.ridepool.specs.Reading.{network_in, vehicles_in, IsFleetIn, script_in, in_rows, own_fault};
ghost use Rattle.pool_io.specs.Views.{source_seen};
ghost use Rattle.ridepool.specs.declared.status.RunStatus.TheVariants as status;
ghost use Rattle.ridepool.specs.work.Reading.{IsUnread, StopsAt, RefusesNetwork, RefusesFleet, RefusesRounds};
ghost use Rattle.input_rows.specs.script.Script.{script_of};
ghost use Rattle.input_rows.specs.script.Word.{columns_of};

use crate::status::RunStatus;
use input_rows::{FleetFault, Script, ScriptFault, ScriptVersion, read_fleet, read_script};
use pool_base::Which;
use pool_io::{Input, ReadAll, RowFault, Rows, Source, read_all, rows};
use request_book::Fleet;
use road_network::{Network, NetworkFault, read_network};
use std::alloc::Global;

/// The greatest number of bytes of an input.
pub(crate) fn most_bytes(which: Which) -> u64
    ensures { result ≡ most_bytes which }
{
    match which {
        Which::Network | Which::Fleet | Which::Script => 67_108_864,
        Which::Report => 2_147_483_648,
    }
}

/// Reads the source of an input to its end.
pub(crate) fn read_input<S: Source>(
    alloc: Global,
    source: &mut S,
    which: Which,
) -> Result<Vec<u8>, RunStatus>
    ensures { let seen = source_seen S.left S.taken S.faults source.old source.new in
        MatchResult result (λ bytes. Reads which seen (λ came. came ≡ bytes.items)) (IsUnread seen which) }
{
    match read_all(alloc, source, most_bytes(which)) {
        Ok(bytes) => Ok(bytes),
        Err(ReadAll::ReadFault) => Err(RunStatus::ReadFault(which)),
        Err(ReadAll::TooLong { .. }) => Err(RunStatus::TooLong(which)),
        Err(ReadAll::OutOfMemory) => Err(RunStatus::OutOfMemory),
    }
}

/// Reads the network from its source.
pub(crate) fn network_from<S: Source>(alloc: Global, source: &mut S) -> Result<Network, RunStatus>
    ensures { let seen = source_seen S.left S.taken S.faults source.old source.new in
        MatchResult result (λ network. Reads file.Network seen (λ bytes. network_in bytes ≡ Ok network)) (StopsAt seen file.Network status.Network network_in) }
{
    let bytes = read_input(alloc, source, Which::Network)?;
    accept_network(alloc, &bytes)
}

/// Reads the fleet from its source.
pub(crate) fn fleet_from<S: Source>(
    alloc: Global,
    source: &mut S,
    network: &Network,
) -> Result<Fleet, RunStatus>
    ensures read { let seen = source_seen S.left S.taken S.faults source.old source.new in
        MatchResult result (λ fleet. Reads file.Fleet seen (λ bytes. IsFleetIn network.now.nodes bytes fleet))
        (StopsAt seen file.Fleet status.Fleet (vehicles_in network.now.nodes)) }
    ensures named { IfOk result (All (λ vehicle. IsNode network.now.nodes vehicle.node)) }
{
    let bytes = read_input(alloc, source, Which::Fleet)?;
    accept_fleet(alloc, &bytes, network)
}

/// Reads the script from its source.
pub(crate) fn script_from<S: Source>(alloc: Global, source: &mut S) -> Result<Script, RunStatus>
    ensures { let seen = source_seen S.left S.taken S.faults source.old source.new in
        MatchResult result (λ script. Reads file.Script seen (λ bytes. script_in bytes ≡ Ok script)) (StopsAt seen file.Script status.Script script_in) }
{
    let bytes = read_input(alloc, source, Which::Script)?;
    accept_script(alloc, &bytes)
}

#[tactic(auto, unfolding(crate::specs::Reading::network_in))]
fn accept_network(alloc: Global, bytes: &[u8]) -> Result<Network, RunStatus>
    ensures network { IfOk result (λ network. network_in bytes.now ≡ Ok network) }
    ensures refused { IfErr result (RefusesNetwork bytes.now) }
    ensures no_memory { IfErr result HidesNoMemory }
{
    match rows(alloc, bytes, b"from,to,seconds") {
        Err(RowFault::OutOfMemory) => Err(RunStatus::OutOfMemory),
        Err(fault) => Err(RunStatus::Network(Input::Rows(fault))),
        Ok(table) => {
            let read = read_network(alloc, &table);
            drop(table);
            match read {
                Ok(network) => Ok(network),
                Err(NetworkFault::OutOfMemory) => Err(RunStatus::OutOfMemory),
                Err(fault) => Err(RunStatus::Network(Input::Own(fault))),
            }
        }
    }
}

#[tactic(auto, unfolding(crate::specs::Reading::vehicles_in))]
fn accept_fleet(alloc: Global, bytes: &[u8], network: &Network) -> Result<Fleet, RunStatus>
    ensures fleet { IfOk result (λ fleet. IsFleetIn network.now.nodes bytes.now fleet) }
    ensures named { IfOk result (All (λ vehicle. IsNode network.now.nodes vehicle.node)) }
    ensures refused { IfErr result (RefusesFleet network.now.nodes bytes.now) }
    ensures no_memory { IfErr result HidesNoMemory }
{
    match rows(alloc, bytes, b"vehicle,seats,node,second") {
        Err(RowFault::OutOfMemory) => Err(RunStatus::OutOfMemory),
        Err(fault) => Err(RunStatus::Fleet(Input::Rows(fault))),
        Ok(table) => {
            let read = read_fleet(alloc, &table, network);
            drop(table);
            match read {
                Ok(fleet) => Ok(fleet),
                Err(FleetFault::OutOfMemory) => Err(RunStatus::OutOfMemory),
                Err(fault) => Err(RunStatus::Fleet(Input::Own(fault))),
            }
        }
    }
}

#[tactic(auto, unfolding(crate::specs::Reading::script_in))]
fn accept_script(alloc: Global, bytes: &[u8]) -> Result<Script, RunStatus>
    ensures script { IfOk result (λ script. script_in bytes.now ≡ Ok script) }
    ensures refused { IfErr result (RefusesRounds (script_in bytes.now)) }
    ensures no_memory { IfErr result HidesNoMemory }
{
    match rows(alloc, bytes, b"round,lane,command,a,b,c,d") {
        Err(RowFault::OutOfMemory) => Err(RunStatus::OutOfMemory),
        Err(RowFault::Header { .. }) => accept_second_version(alloc, bytes),
        Err(fault) => Err(RunStatus::Script(Input::Rows(fault))),
        Ok(table) => accept_rounds(alloc, &table, ScriptVersion::One),
    }
}

fn accept_second_version(alloc: Global, bytes: &[u8]) -> Result<Script, RunStatus>
    ensures script { IfOk result (λ script. in_rows (table_of party_header bytes.now) (λ t. script_of ScriptVersion.Two t.records) ≡ Ok script) }
    ensures refused { IfErr result (RefusesRounds (in_rows (table_of party_header bytes.now) (λ t. script_of ScriptVersion.Two t.records))) }
    ensures no_memory { IfErr result HidesNoMemory }
{
    match rows(alloc, bytes, b"round,lane,command,a,b,c,d,e") {
        Err(RowFault::OutOfMemory) => Err(RunStatus::OutOfMemory),
        Err(fault) => Err(RunStatus::Script(Input::Rows(fault))),
        Ok(table) => accept_rounds(alloc, &table, ScriptVersion::Two),
    }
}

fn accept_rounds(alloc: Global, table: &Rows, version: ScriptVersion) -> Result<Script, RunStatus>
    requires { table.now.columns ≡ columns_of version }
    ensures script { IfOk result (λ script. script_of version table.now.records ≡ Ok script) }
    ensures refused { IfErr result (RefusesRounds (own_fault (script_of version table.now.records))) }
    ensures no_memory { IfErr result HidesNoMemory }
{
    match read_script(alloc, table, version) {
        Ok(script) => Ok(script),
        Err(ScriptFault::OutOfMemory) => Err(RunStatus::OutOfMemory),
        Err(fault) => Err(RunStatus::Script(Input::Own(fault))),
    }
}
