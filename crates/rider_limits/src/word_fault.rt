use pool_base::Which;

/// Why words are refused. Words count from 1.
#[derive(Clone, Copy)]
pub enum WordFault {
    /// There is no word, or the first is no command.
    NoCommand,
    /// The word has no `=`, or what stands before it is no key of the command.
    UnknownKey { word: u64 },
    /// An earlier word has the same key.
    Repeated { word: u64 },
    /// The value is no number of the key's range, or an empty file name.
    BadValue { word: u64 },
    /// No word names this file.
    MissingFile { which: Which },
}
