//! Files that are read once more, for a hint.

use input_hints::RowReader;
use std::fs::{self, File};
use std::io::{self, BufReader, Bytes, Read};

/// The bytes of a file from its front.
pub(crate) type FileBytes = Bytes<BufReader<File>>;

/// The rows of a file from its front.
pub(crate) type FileRows = RowReader<BufReader<File>>;

/// What a second reading of an input may come to.
#[derive(Drop)]
pub(crate) enum Again<T> {
    Read(T),
    /// It is no file, and can't be read twice.
    Stream,
    Failed,
}

/// The bytes of a file once more.
pub(crate) fn bytes_again(rt: &HostRuntime, path: &str) -> Again<FileBytes> {
    match fs::metadata(rt, path) {
        Ok(place) if place.is_file() => match bytes_of(rt, path) {
            Ok(bytes) => Again::Read(bytes),
            Err(_) => Again::Failed,
        },
        Ok(_) => Again::Stream,
        Err(_) => Again::Failed,
    }
}

fn bytes_of(rt: &HostRuntime, path: &str) -> io::Result<FileBytes> {
    let file = File::open(rt, path)?;
    Ok(BufReader::new(rt.alloc(), file)?.bytes())
}

/// Why a file can't be read; `None` where it can, or is neither a file nor a folder.
pub(crate) fn read_error(rt: &HostRuntime, path: &str) -> Option<io::Error> {
    match fs::metadata(rt, path) {
        Err(error) => Some(error),
        Ok(place) if place.is_file() || place.is_dir() => first_read(rt, path).err(),
        Ok(_) => None,
    }
}

fn first_read(rt: &HostRuntime, path: &str) -> io::Result<usize> {
    let mut file = File::open(rt, path)?;
    file.read(&mut [0u8; 1])
}
