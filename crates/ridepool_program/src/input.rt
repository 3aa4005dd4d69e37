ghost use Rattle.std.specs.Prelude.{◌≤◌, length, IfOk};
ghost use Rattle.std.specs.Io.{ReadsAtMost};
ghost use Rattle.std.specs.Io.KnownBytes.{ReadConsumes};

use std::fs::File;
use std::io::{self, ErrorKind, Read, Stdin};
use std::sync::OnceLock;

/// A file that is opened at its first read. So a fifo is waited for only when its rows are.
#[derive(Drop)]
pub(crate) struct NamedFile {
    rt: HostRuntime,
    path: String,
    file: OnceLock<File>,
}

impl NamedFile {
    /// A file that isn't open yet.
    pub(crate) fn of(rt: HostRuntime, path: String) -> NamedFile {
        NamedFile {
            rt,
            path,
            file: OnceLock::new(),
        }
    }

    /// Reads from the file, and opens it first where it isn't open. Where it can't be opened the read fails.
    fn read(&self, buffer: &mut [u8]) -> io::Result<usize>
        ensures { IfOk result (λ n. n ≤ length buffer.new) }
    {
        if self.file.get().is_none() {
            let file = File::open(&self.rt, self.path.as_str())?;
            let _ = self.file.try_set(file);
        }
        match self.file.get() {
            Some(mut file) => file.read(buffer),
            None => Err(io::Error::from(ErrorKind::NotFound)),
        }
    }
}

/// What an input is read from.
#[derive(Drop)]
pub(crate) enum Input {
    File(File),
    Named(NamedFile),
    Standard(Stdin),
}

impl Input {
    /// Reads through a shared reference, so that two threads may hold the input.
    pub(crate) fn read_shared(&self, buffer: &mut [u8]) -> io::Result<usize>
        ensures { IfOk result (λ n. n ≤ length buffer.new) }
    {
        match self {
            Input::File(file) => {
                let mut file = file;
                file.read(buffer)
            }
            Input::Named(file) => file.read(buffer),
            Input::Standard(input) => {
                let mut input = input;
                input.read(buffer)
            }
        }
    }
}

impl Read for Input {
    fn read(&mut self, buffer: &mut [u8]) -> io::Result<usize> {
        self.read_shared(buffer)
    }
}
