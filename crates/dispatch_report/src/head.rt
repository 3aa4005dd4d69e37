ghost use Rattle.std.specs.Prelude.{◌≡◌, ◌==◌, ◌++◌, ◌∷◌, [], OnOk, codes, length, if◌then◌else◌};
ghost use Rattle.dispatch_report.specs.Head.{settings_line, head_text};
ghost use Rattle.dispatch_report.specs.Words.{numbered};
ghost use Rattle.pool_io.specs.Views.{sink_seen};
ghost use Rattle.dispatch_report.specs.Written.{WritesText};
ghost use Rattle.dispatch_report.specs.work.Lines.{WritesLines};

use crate::block::{write_number, write_words};
use crate::fault::ReportFault;
use crate::lines::{Line, Page, write_item, write_rest};
use crate::words::{put_fields, put_numbered};
use pool_base::{OutOfMemory, put_bytes};
use pool_io::Sink;
use request_book::Fleet;
use rider_limits::Settings;
use road_network::Network;
use std::alloc::Global;

/// Writes the first lines of a report: its name, the settings, the size of the network and the number of vehicles.
///
/// After either fault a part of the text was written, from its front and not the whole.
#[tactic(auto, unfolding(crate::specs::Head::head_text))]
pub fn write_head<K: Sink>(
    alloc: Global,
    sink: &mut K,
    settings: &Settings,
    network: &Network,
    fleet: &Fleet,
) -> Result<(), ReportFault>
    ensures { WritesText (sink_seen K.written K.faults sink.old sink.new) (head_text settings.now network.now (length fleet.now)) result }
{
    let mut piece = Vec::new(alloc);
    let mut page = Page {
        piece: &mut piece,
        so_far: Ok(()),
    };
    write_words(sink, &mut page, b"ridepool report 1");
    write_item(sink, &mut page, &RunSettings, settings);
    write_item(sink, &mut page, &NetworkSizes, network);
    write_fleet(sink, &mut page, fleet);
    write_rest(sink, page)
}

fn write_fleet<K: Sink>(sink: &mut K, page: &mut Page<'_>, fleet: &Fleet)
    ensures { WritesLines (sink_seen K.written K.faults sink.old sink.new) page.old.piece.now.items page.new.piece.now.items page.old.so_far page.new.so_far (numbered (codes "fleet vehicles=") (length fleet.now) ∷ []) }
{
    let vehicles = fleet.vehicles().len() as u64;
    write_number(sink, page, b"fleet vehicles=", vehicles);
}

#[derive(Drop)]
struct NetworkSizes;

impl Line for NetworkSizes {
    type Item = Network;

    ghost text = { λ _ network. numbered (codes "network nodes=") (length network.nodes) ++ numbered (codes " arcs=") (length network.arcs) };

    fn put(&self, line: &mut Vec<u8>, network: &Network) -> Result<(), OutOfMemory> {
        put_network(line, network)
    }
}

#[derive(Drop)]
struct RunSettings;

impl Line for RunSettings {
    type Item = Settings;

    ghost text = { λ _ settings. settings_line settings };

    fn put(&self, line: &mut Vec<u8>, settings: &Settings) -> Result<(), OutOfMemory> {
        put_numbers(line, settings)?;
        put_proof(line, settings.proof)?;
        put_dwell(line, settings.dwell)
    }
}

fn put_numbers(line: &mut Vec<u8>, settings: &Settings) -> Result<(), OutOfMemory>
    ensures { OnOk result (line.new.items ≡ line.old.items ++ ((numbered (codes "settings wait=") settings.now.wait ++ numbered (codes " delay=") settings.now.delay ++ numbered (codes " trip=") settings.now.trip)
        ++ (numbered (codes " penalty=") settings.now.penalty ++ numbered (codes " budget=") settings.now.budget ++ numbered (codes " pairs=") settings.now.pairs))) }
{
    put_fields(
        line,
        &[
            (b"settings wait=", u64::from(settings.wait)),
            (b" delay=", u64::from(settings.delay)),
            (b" trip=", u64::from(settings.trip)),
            (b" penalty=", u64::from(settings.penalty)),
            (b" budget=", u64::from(settings.budget)),
            (b" pairs=", u64::from(settings.pairs)),
        ],
    )
}

fn put_proof(line: &mut Vec<u8>, proof: bool) -> Result<(), OutOfMemory>
    ensures { OnOk result (line.new.items ≡ line.old.items ++ (if proof then codes " proof=1" else codes " proof=0")) }
{
    if proof {
        put_bytes(line, b" proof=1")?;
    } else {
        put_bytes(line, b" proof=0")?;
    }
    Ok(())
}

fn put_dwell(line: &mut Vec<u8>, dwell: u16) -> Result<(), OutOfMemory>
    ensures { OnOk result (line.new.items ≡ line.old.items ++ (if dwell == 0 then [] else numbered (codes " dwell=") dwell)) }
{
    if dwell == 0 {
        return Ok(());
    }
    put_numbered(line, b" dwell=", u64::from(dwell))
}

fn put_network(line: &mut Vec<u8>, network: &Network) -> Result<(), OutOfMemory>
    ensures { OnOk result (line.new.items ≡ line.old.items ++ (numbered (codes "network nodes=") (length network.now.nodes) ++ numbered (codes " arcs=") (length network.now.arcs))) }
{
    put_numbered(line, b"network nodes=", node_count(network))?;
    put_numbered(line, b" arcs=", arc_count(network))
}

fn node_count(network: &Network) -> u64
    ensures { result ≡ length network.now.nodes }
{
    network.node_count() as u64
}

fn arc_count(network: &Network) -> u64
    ensures { result ≡ length network.now.arcs }
{
    network.arc_count() as u64
}
