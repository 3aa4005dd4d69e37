ghost use Rattle.std.specs.Prelude.{◌<◌, ◌≤◌, length, IfOk};
ghost use Rattle.std.specs.Result.{IsErrOf};
ghost use Rattle.std.specs.Io.KnownBytes.{WriteAppends};
ghost use Rattle.pool_io.specs.Faults.{Rose};

use crate::hints::{are_wanted, tell_unwritable};
use crate::print_line;
use pool_io::{Sink, SinkFault};
use std::alloc::{AllocError, Global};
use std::fs::{self, File, Metadata};
use std::io;
use std::io::{ErrorKind, Write};
use std::marker::Model;
use std::os::unix::fs::MetadataExt;
use std::sync::{Arc, OnceLock};

/// Whether a path leads to a file that one of the others leads to, or to standard output. A path that leads nowhere
/// doesn't.
pub fn is_taken(rt: &HostRuntime, path: &str, others: &[Option<&str>]) -> bool {
    let Ok(place) = fs::metadata(rt, path) else {
        return false;
    };
    leads_to(rt, "/dev/stdout", &place)
        || others.iter().any(|other| match other {
            Some(other) => leads_to(rt, other, &place),
            None => false,
        })
}

fn leads_to(rt: &HostRuntime, path: &str, place: &Metadata) -> bool {
    match fs::metadata(rt, path) {
        Ok(other) => other.dev() == place.dev() && other.ino() == place.ino(),
        Err(_) => false,
    }
}

/// A file that is opened once by one and written by another, maybe in another thread.
#[derive(Drop)]
pub struct SharedFile {
    file: Arc<OnceLock<File>>,
}

impl SharedFile {
    /// A file that isn't open.
    pub fn new(alloc: Global) -> Result<SharedFile, AllocError> {
        Ok(SharedFile {
            file: Arc::new(alloc, OnceLock::new())?,
        })
    }

    /// The same file, for another holder.
    pub fn share(&self) -> Result<SharedFile, AllocError> {
        Ok(SharedFile {
            file: self.file.clone()?,
        })
    }

    /// Whether the file could be opened.
    pub fn is_open(&self) -> bool {
        self.file.get().is_some()
    }

    /// Opens the file, or says that it can't be written.
    fn open(&self, rt: &HostRuntime, path: &str) {
        match File::create(rt, path) {
            Ok(file) => {
                let _ = self.file.try_set(file);
            }
            Err(error) => {
                print_line(rt, b"notices: write failed");
                if are_wanted(rt) {
                    tell_unwritable(rt, path, &error);
                }
            }
        }
    }
}

impl Write for SharedFile {
    fn write(&mut self, bytes: &[u8]) -> io::Result<usize> {
        match self.file.get() {
            Some(mut file) => file.write(bytes),
            None => Err(io::Error::from(ErrorKind::NotFound)),
        }
    }

    fn flush(&mut self) -> io::Result<()> {
        Ok(())
    }
}

/// A sink before whose first write a file is made, or emptied; its bytes pass on unchanged.
#[derive(Drop)]
pub struct OpeningSink<'a, K> {
    sink: K,
    rt: &'a HostRuntime,
    path: Option<&'a str>,
    file: SharedFile,
}

impl<'a, K> Model for OpeningSink<'a, K> {
    ghost Value = { K };

    ghost view = { λ s. s.sink };
}

impl<'a, K> OpeningSink<'a, K> {
    /// Opens the file of this path before the first write; without a path it opens none.
    pub fn over(
        rt: &'a HostRuntime,
        sink: K,
        path: Option<&'a str>,
        file: SharedFile,
    ) -> OpeningSink<'a, K> {
        OpeningSink {
            sink,
            rt,
            path,
            file,
        }
    }
}

impl<'a, K: Sink> Sink for OpeningSink<'a, K> {
    ghost written = { λ s. K.written s };

    ghost faults = { λ s. K.faults s };

    fn write(&mut self, piece: &[u8]) -> Result<usize, SinkFault> {
        if let Some(path) = self.path.take() {
            self.file.open(self.rt, path);
        }
        self.sink.write(piece)
    }

    fn stopped(&mut self) {
        self.sink.stopped();
    }
}
