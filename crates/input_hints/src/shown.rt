use std::alloc::{AllocError, Global};

/// The most bytes of a text that a hint shows.
const MOST: usize = 120;

/// A text as a hint shows it: its first 120 bytes, and those escaped that aren't printable.
pub(crate) fn shown(alloc: Global, text: &[u8]) -> Result<String, AllocError> {
    let mut shown = String::new(alloc);
    for byte in text.iter().take(MOST) {
        if (b' '..=b'~').contains(byte) {
            shown.push(char::from(*byte))?;
        } else {
            let escaped = format!(in alloc; "\\x{byte:02x}")?;
            shown.push_str(escaped.as_str())?;
        }
    }
    if text.len() > MOST {
        shown.push_str("..")?;
    }
    Ok(shown)
}

/// Names with commas between them.
pub(crate) fn listed(alloc: Global, names: &[&str]) -> Result<String, AllocError> {
    let mut list = String::new(alloc);
    for name in names {
        if !list.is_empty() {
            list.push_str(", ")?;
        }
        list.push_str(name)?;
    }
    Ok(list)
}
