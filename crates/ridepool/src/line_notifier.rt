ghost use Rattle.std.specs.Prelude.{◌≡◌, ◌++◌, ℕ, None, OnOk};
ghost use Rattle.ridepool.specs.work.NoticeText.{notice_text};

use crate::phrase::{Phrase, put_phrase};
use pool_base::{OutOfMemory, put_bytes};
use pool_io::Failed;
use request_book::{Notice, Notifier};
use std::alloc::Global;
use std::io::Write;
use std::marker::Model;

/// A notifier over one of std's writers, which writes each notice as a line.
///
/// It tells nothing of the notices told, and is sure of no call. A call fails where there is no writer, where
/// the writer fails, or for want of memory; a part of the line may then be written.
#[derive(Drop)]
pub struct LineNotifier<W> {
    writer: Option<W>,
    line: Vec<u8>,
    faults: u64,
}

impl<W> Model for LineNotifier<W> {
    ghost use Rattle.std.specs.Prelude.{ℕ};

    ghost Value = { ℕ };

    ghost view = { λ n. n.faults };
}

impl<W> LineNotifier<W> {
    /// A notifier over this writer; without one every call fails. It keeps the allocator.
    pub fn over(alloc: Global, writer: Option<W>) -> LineNotifier<W>
        ensures { result ≡ 0 }
    {
        LineNotifier {
            writer,
            line: Vec::new(alloc),
            faults: 0,
        }
    }
}

impl<W: Write> LineNotifier<W> {
    /// Writes the line of a notice.
    fn write_line(&mut self, notice: &Notice) -> Result<(), Failed>
        ensures { self.new ≡ self.old }
    {
        let Some(writer) = &mut self.writer else {
            return Err(Failed);
        };
        self.line.clear();
        if put_notice(&mut self.line, notice).is_err() {
            return Err(Failed);
        }
        match writer.write_all(&self.line) {
            Ok(()) => Ok(()),
            Err(_) => Err(Failed),
        }
    }
}

impl<W: Write + Drop> Notifier for LineNotifier<W> {
    ghost told = { λ _. None };

    ghost faults = { λ n. n };

    ghost steady = { λ _. 0 };

    fn tell(&mut self, notice: &Notice) -> Result<(), Failed> {
        if self.write_line(notice).is_ok() {
            return Ok(());
        }
        self.faults = self.faults.saturating_add(1);
        Err(Failed)
    }
}

/// The line of a notice, with its end.
#[tactic(auto, unfolding(crate::specs::work::NoticeText::notice_text))]
fn put_notice(line: &mut Vec<u8>, notice: &Notice) -> Result<(), OutOfMemory>
    ensures { OnOk result (line.new.items ≡ line.old.items ++ notice_text notice.now) }
{
    match notice {
        Notice::Promised {
            batch,
            rider,
            vehicle,
            pickup,
            dropoff,
        } => {
            let rider = u64::from(rider.get());
            let vehicle = u64::from(vehicle.get());
            put_phrase(line, Phrase::Both(b"batch ", *batch, b" rider ", rider))?;
            put_phrase(
                line,
                Phrase::Both(b" vehicle ", vehicle, b" pickup ", *pickup),
            )?;
            put_phrase(line, Phrase::Within(b" dropoff ", *dropoff, b"\n"))
        }
        Notice::Unserved { batch, rider } => {
            let rider = u64::from(rider.get());
            put_phrase(line, Phrase::Both(b"batch ", *batch, b" rider ", rider))?;
            put_bytes(line, b" unserved")?;
            put_bytes(line, b"\n")
        }
    }
}
