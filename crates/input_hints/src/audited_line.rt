use crate::shown::shown;
use std::alloc::{AllocError, Global};
use std::io::{Bytes, Read};

/// The most bytes that are kept of a line.
const KEPT: usize = 65_536;

/// What is wrong with a line of a report that is audited.
#[derive(Clone, Copy)]
pub enum AuditWrong {
    Cut,
    Form,
    Head,
    Entry,
    /// The block that begins in the line fails this point.
    Batch(u64),
}

const POINTS: [&str; 9] = [
    "another batch number, other expired riders, or overflow in the wrong place",
    "other lapsed promises, or other rv, rr or row lines",
    "other late vehicles, or an order of theirs that is not best",
    "a trip that is no row of its vehicle, or whose stops have another cost",
    "a plan that is not lawful, has another cost, or leaves out others",
    "a tree that does not show the bound",
    "a bound below the cost, with budget left",
    "a plan that is worse than a simple one",
    "other moves of idle vehicles",
];

impl AuditWrong {
    fn text(self, line: u64) -> &'static str {
        match self {
            AuditWrong::Cut => "the report ends before this line is whole",
            AuditWrong::Form => "no line of this form may stand here",
            AuditWrong::Head => match line {
                2 => "expected settings in their ranges, and proof=1",
                3 => "the network has other counts",
                _ => "the fleet has another count",
            },
            AuditWrong::Entry => "expected the script's next command, with the reply of the rules",
            AuditWrong::Batch(point) => {
                for (number, text) in POINTS.iter().enumerate() {
                    if number as u64 == point {
                        return text;
                    }
                }
                "the batch is wrong"
            }
        }
    }
}

/// The line of a number, from 1, without its end; `None` where there is none. At most 65,536 bytes are kept.
pub fn line_numbered<R: Read + Drop>(
    alloc: Global,
    mut bytes: Bytes<R>,
    number: u64,
) -> Result<Option<Vec<u8>>, AllocError> {
    let mut line = 1u64;
    let mut text = Vec::new(alloc);
    for _ in 0..u64::MAX {
        let Some(Ok(byte)) = bytes.next() else {
            break;
        };
        if byte == b'\n' {
            if line == number {
                return Ok(Some(text));
            }
            line = line.wrapping_add(1);
        } else if line == number && text.len() < KEPT {
            text.push(byte)?;
        }
    }
    if text.is_empty() {
        return Ok(None);
    }
    Ok(Some(text))
}

/// The hint on a line of a report that is audited.
pub fn line_hint(
    alloc: Global,
    path: &str,
    line: u64,
    wrong: AuditWrong,
    text: Option<&[u8]>,
) -> Result<String, AllocError> {
    let told = wrong.text(line);
    match text {
        Some(text) => {
            let text = shown(alloc, text)?;
            format!(in alloc; "{path}, line {line}: {text}: {told}")
        }
        None => format!(in alloc; "{path}, line {line}: {told}"),
    }
}
