ghost use Rattle.std.specs.Prelude.{◌≡◌, ◌<◌, ◌≤◌, ◌^◌, [], ◌∷◌, ◌++◌, List, Result, length, None, Some, IfOk, OnErr, OnOk};
ghost use Rattle.dispatch_report.specs.declared.fault.ReportFault.{ReportFault};
ghost use Rattle.request_book.specs.declared.values.journal.Entry.{Entry};
ghost use Rattle.request_book.specs.declared.values.reply.Reply.TheVariants.{Closed};
ghost use Rattle.request_book.specs.notices.Notices.{entry_notices};
ghost use Rattle.request_book.specs.notices.Seen.{notifiers_seen};
ghost use Rattle.dispatch_engine.specs.lanes.Locked.{snapshot_before};
ghost use Rattle.dispatch_report.specs.Round.{entry_text};
ghost use Rattle.live_dispatch.specs.Desk.{IsDesk, DeskView, HasEntered, IsSameDesk, desk_of, outputs_seen};
ghost use Rattle.dispatch_report.specs.Written.{WritesText};
ghost use Rattle.pool_io.specs.Views.{sink_seen};
ghost use Rattle.live_dispatch.specs.work.Telling.{TellsClose, WroteLast, is_closed};

use crate::outputs::Outputs;
use dispatch_engine::{LockedReply, sealed_by_command};
use dispatch_report::{ReportFault, write_step};
use pool_base::{NodeId, OutOfMemory, Sequence};
use pool_io::Sink;
use request_book::{
    Book, Command, Entry, Notice, Notifier, Reply, Snapshot as Sealed, State, notices_of_close,
    tell_all,
};
use std::alloc::Global;
use std::marker::{Brand, Model, PhantomData};

/// A command with its lane.
#[derive(Drop)]
pub struct LaneCommand {
    pub lane: u8,
    pub command: Command,
}

/// What no call changes of a desk. Contracts alone speak of it.
pub struct DeskRoot {
    pub nodes: Sequence<NodeId>,
    pub wait: u32,
    pub first: u64,
    pub base: State,
    pub proof: bool,
}

/// What the sink and the notifiers of a desk show when the desk is made. Each desk picks it.
pub trait Opening {
    ghost use Rattle.live_dispatch.specs.Desk.{OutputsView};

    ghost opened: { OutputsView };
}

impl Opening for Brand {
    ghost use Rattle.std.specs.Prelude.{[], None};

    ghost opened = { record { sink = record { written = None; faults = 0 }; notifiers = [] } };
}

/// A book beside a sink and notifiers. After a fault of the sink it takes no more commands.
#[derive(Drop)]
pub struct Desk<K: Sink, N: Notifier, J: Opening> {
    book: Book,
    outputs: Outputs<K, N>,
    line: Vec<u8>,
    proof: bool,
    fault: Option<ReportFault>,
    of: PhantomData<J>,
}

impl<K: Sink, N: Notifier, J: Opening> Model for Desk<K, N, J> {
    ghost use Rattle.live_dispatch.specs.Desk.{DeskView, IsDesk, outputs_seen};

    ghost Value = { DeskView };

    ghost view = { λ d. record {
      book = d.book;
      proof = d.proof;
      opened = J.opened;
      now = outputs_seen K.written K.faults N.told N.faults N.steady d.outputs.sink d.outputs.notifiers.items;
      fault = d.fault;
    } };

    ghost invariant = { λ d. IsDesk (record {
      book = d.book;
      proof = d.proof;
      opened = J.opened;
      now = outputs_seen K.written K.faults N.told N.faults N.steady d.outputs.sink d.outputs.notifiers.items;
      fault = d.fault;
    }) };
}

impl<K: Sink, N: Notifier, J: Opening> Desk<K, N, J> {
    /// A desk with nothing written.
    pub fn of(alloc: Global, book: Book, outputs: Outputs<K, N>, proof: bool) -> Desk<K, N, J>
        requires empty { book.entries ≡ [] }
        requires first { book.first < 2 ^ 64 }
        requires opened { J.opened ≡ outputs_seen K.written K.faults N.told N.faults N.steady outputs.sink outputs.notifiers.items }
        ensures desk { result ≡ desk_of book proof (outputs_seen K.written K.faults N.told N.faults N.steady outputs.sink outputs.notifiers.items) }
        ensures kept { IsDesk result }
    {
        book.keeps();
        Desk {
            book,
            outputs,
            line: Vec::new(alloc),
            proof,
            fault: None,
            of: PhantomData,
        }
    }

    /// Lets the book answer a command of a lane, writes its text, and behind the block of a close tells its notices. After
    /// a fault of the sink, at this call or an earlier one, it takes no more commands.
    pub fn enter(
        &mut self,
        alloc: Global,
        lane: u8,
        command: Command,
    ) -> Result<LockedReply, OutOfMemory>
        ensures entered { IfOk result (λ reply. HasEntered self.old lane command reply self.new) }
        ensures refused { OnErr result (IsSameDesk self.old self.new) }
        ensures kept { IsDesk self.new }
        ensures short { OnOk result (length self.new.book.entries < 2 ^ 63) }
    {
        if self.fault.is_some() {
            drop(command);
            return Err(OutOfMemory);
        }
        let position = self.book.next_position();
        match shown_by(alloc, &self.book, &command) {
            Ok((snapshot, notices)) => match self.book.apply(lane, command) {
                Ok(reply) => {
                    self.fault = write_last(
                        &mut self.outputs.sink,
                        &mut self.line,
                        &mut self.outputs.notifiers,
                        Printing {
                            position,
                            proof: self.proof,
                        },
                        self.book.entries(),
                        &notices,
                    );
                    Ok(LockedReply { reply, snapshot })
                }
                Err(fault) => {
                    drop(snapshot);
                    Err(fault)
                }
            },
            Err(fault) => {
                drop(command);
                Err(fault)
            }
        }
    }

    /// The book, the sink with the notifiers, and the fault that stopped the desk.
    pub fn into_parts(self) -> (Book, Outputs<K, N>, Option<ReportFault>)
        ensures parts { self ≡ record { book = result.0; proof = self.proof; opened = J.opened; now = outputs_seen K.written K.faults N.told N.faults N.steady result.1.sink result.1.notifiers.items; fault = result.2 } }
        ensures kept { IsDesk self }
    {
        let Desk {
            book,
            outputs,
            line,
            proof: _,
            fault,
            of: _,
        } = self;
        drop(line);
        (book, outputs, fault)
    }
}

// The batch that a command would seal, if it is a seal, and the notices that it would have, if it is a close.
fn shown_by(
    alloc: Global,
    book: &Book,
    command: &Command,
) -> Result<(Option<Sealed>, Vec<Notice>), OutOfMemory>
    ensures sealed { IfOk result (λ shown. shown.0 ≡ snapshot_before book.now.wait book.now.state command.now) }
    ensures notices { IfOk result (λ shown. shown.1.items ≡ entry_notices book.now.state command.now Closed) }
{
    match sealed_by_command(book, command) {
        Ok(snapshot) => match notices_of_close(alloc, book, command) {
            Ok(notices) => Ok((snapshot, notices)),
            Err(fault) => {
                drop(snapshot);
                Err(fault)
            }
        },
        Err(fault) => Err(fault),
    }
}

// Tells the notices of a close that was answered so.
fn tell_close<N: Notifier>(notifiers: &mut Vec<N>, reply: &Reply, notices: &[Notice])
    ensures { TellsClose notices.now reply.now (notifiers_seen N.told N.faults N.steady notifiers.old.items) (notifiers_seen N.told N.faults N.steady notifiers.new.items) }
{
    if is_closed(reply) {
        tell_all(notifiers, notices);
    }
}

fn is_closed(reply: &Reply) -> bool
    ensures { result ≡ is_closed reply.now }
{
    matches!(reply, Reply::Closed)
}

/// How an entry is printed: its position, and whether a block has its tree.
#[derive(Clone, Copy)]
struct Printing {
    position: u64,
    proof: bool,
}

// Writes the text of the last entry, and then tells these notices if it is a close. It answers the fault that kept the
// text from being written whole.
fn write_last<K: Sink, N: Notifier>(
    sink: &mut K,
    line: &mut Vec<u8>,
    notifiers: &mut Vec<N>,
    printing: Printing,
    entries: &[Entry],
    notices: &[Notice],
) -> Option<ReportFault>
    requires { 0 < length entries.now }
    ensures short { length entries.now < 2 ^ 63 }
    ensures wrote { (before : List Entry) (last : Entry) → entries.now ≡ before ++ last ∷ []
        → WroteLast result (entry_text printing.proof printing.position last) notices.now last.reply
        (outputs_seen K.written K.faults N.told N.faults N.steady sink.old notifiers.old.items)
        (outputs_seen K.written K.faults N.told N.faults N.steady sink.new notifiers.new.items) }
    ensures never_falls { K.faults sink.old ≤ K.faults sink.new }
{
    let last = &entries[entries.len() - 1];
    match write_or_stop(sink, line, printing, last) {
        Ok(()) => {
            tell_close(notifiers, &last.reply, notices);
            None
        }
        Err(fault) => Some(fault),
    }
}

/// Writes the text of an entry. Where it can't be written to its end, the sink hears of it.
fn write_or_stop<K: Sink>(
    sink: &mut K,
    line: &mut Vec<u8>,
    printing: Printing,
    entry: &Entry,
) -> Result<(), ReportFault>
    ensures { WritesText (sink_seen K.written K.faults sink.old sink.new) (entry_text printing.proof printing.position entry.now) result }
{
    match write_step(sink, line, printing.position, entry, printing.proof) {
        Ok(()) => Ok(()),
        Err(fault) => {
            sink.stopped();
            Err(fault)
        }
    }
}
