//! Bytes that one thread reads and another waits for, so that the wait can be given up.
ghost use Rattle.std.specs.Io.{ReadsAtMost};
ghost use Rattle.std.specs.Io.KnownBytes.{ReadConsumes};

use crate::input::Input;
use std::alloc::{AllocError, Global};
use std::io::{self, ErrorKind, Read};
use std::sync::{Arc, Condvar, Mutex, Wait};
use std::thread;
use std::thread::Threads;

/// How many bytes are read ahead at most.
const ROOM: usize = 4_096;

/// Whether bytes are asked for, and why no more come.
#[derive(Clone, Copy, PartialEq)]
enum State {
    /// Nobody has asked for bytes yet.
    Unasked,
    Open,
    Ended,
    Failed,
    GivenUp,
}

/// What was read ahead, and whether more may come.
#[derive(Drop)]
struct Ahead {
    bytes: Vec<u8>,
    state: State,
}

/// An input between the thread that reads it and the one that waits for its bytes.
#[derive(Drop)]
struct Relay {
    input: Input,
    ahead: Mutex<Ahead>,
    changed: Condvar,
}

/// Gives up the wait for an input, from any thread.
#[derive(Drop)]
pub(crate) struct GivingUp<R> {
    rt: R,
    relay: Arc<Relay>,
}

impl<R: Wait + Copy> GivingUp<R> {
    /// Every read that waits, and each later one, fails.
    pub(crate) fn give_up(&self) {
        self.relay.ahead.lock(&self.rt).state = State::GivenUp;
        self.relay.changed.notify_all();
    }

    /// Another handle of the same input.
    pub(crate) fn share(&self) -> Result<GivingUp<R>, AllocError> {
        Ok(GivingUp {
            rt: self.rt,
            relay: self.relay.clone()?,
        })
    }
}

/// An input whose reads can be given up.
#[derive(Drop)]
pub(crate) struct Relayed<R> {
    rt: R,
    relay: Arc<Relay>,
    is_read_ahead: bool,
}

/// Starts a thread that reads this input. Where none can be made, each read is the reader's own.
pub(crate) fn start_relay<R: Threads + Wait + Copy + Send + 'static>(
    alloc: Global,
    rt: R,
    input: Input,
) -> Result<(Relayed<R>, GivingUp<R>), AllocError> {
    let mut buffer = Vec::new(alloc);
    buffer.resize(ROOM, 0)?;
    let bytes = Vec::with_capacity(alloc, ROOM)?;
    let relay = Arc::new(
        alloc,
        Relay {
            input,
            ahead: Mutex::new(Ahead {
                bytes,
                state: State::Unasked,
            }),
            changed: Condvar::new(),
        },
    )?;
    let theirs = relay.clone()?;
    let giving = GivingUp {
        rt,
        relay: relay.clone()?,
    };
    let is_read_ahead = match thread::spawn(&rt, move || read_ahead(&rt, &theirs, buffer)) {
        Ok(thread) => {
            drop(thread);
            true
        }
        Err(refused) => {
            drop(refused);
            false
        }
    };
    Ok((
        Relayed {
            rt,
            relay,
            is_read_ahead,
        },
        giving,
    ))
}

/// Reads the input to its end once somebody asks for bytes, and passes on what comes. It goes on as long as somebody may
/// wait.
fn read_ahead<R: Wait>(rt: &R, relay: &Relay, mut buffer: Vec<u8>) {
    drop(
        relay.changed.wait_while(rt, relay.ahead.lock(rt), |ahead| {
            ahead.state == State::Unasked
        }),
    );
    for _ in 0..u64::MAX {
        let read = relay.input.read_shared(&mut buffer);
        let mut ahead = relay.changed.wait_while(rt, relay.ahead.lock(rt), |ahead| {
            ahead.state == State::Open && !ahead.bytes.is_empty()
        });
        let ahead = &mut *ahead;
        if ahead.state != State::Open {
            return;
        }
        ahead.state = match read {
            Ok(0) => State::Ended,
            Ok(count) => match ahead.bytes.extend_from_slice(&buffer[..count]) {
                Ok(()) => State::Open,
                Err(_) => State::Failed,
            },
            Err(_) => State::Failed,
        };
        relay.changed.notify_all();
        if ahead.state != State::Open {
            return;
        }
    }
}

impl<R: Wait> Relayed<R> {
    /// Lets the other thread begin to read, if it hasn't.
    fn ask(&self) {
        let mut ahead = self.relay.ahead.lock(&self.rt);
        if ahead.state == State::Unasked {
            ahead.state = State::Open;
            self.relay.changed.notify_all();
        }
    }
}

impl<R: Wait> Read for Relayed<R> {
    fn read(&mut self, buffer: &mut [u8]) -> io::Result<usize> {
        if !self.is_read_ahead {
            if self.relay.ahead.lock(&self.rt).state == State::GivenUp {
                return Err(io::Error::from(ErrorKind::Interrupted));
            }
            return self.relay.input.read_shared(buffer);
        }
        self.ask();
        let mut ahead = self
            .relay
            .changed
            .wait_while(&self.rt, self.relay.ahead.lock(&self.rt), |ahead| {
                ahead.state == State::Open && ahead.bytes.is_empty()
            });
        let ahead = &mut *ahead;
        if ahead.state == State::GivenUp {
            return Err(io::Error::from(ErrorKind::Interrupted));
        }
        if ahead.state == State::Failed && ahead.bytes.is_empty() {
            return Err(io::Error::from(ErrorKind::Other));
        }
        let count = ahead.bytes.len().min(buffer.len());
        buffer[..count].copy_from_slice(&ahead.bytes[..count]);
        let left = ahead.bytes.len() - count;
        ahead.bytes.rotate_left(count);
        ahead.bytes.truncate(left);
        self.relay.changed.notify_all();
        Ok(count)
    }
}
