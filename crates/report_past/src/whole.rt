//! The whole lines with which a torn report begins.
ghost use Rattle.std.specs.Prelude.{◌≡◌, ◌≤◌, ℕ, length, take};
ghost use Rattle.report_past.specs.Whole.{IsWholeText, after_line, is_end, opens};

use report_audit::line_first;

/// How many bytes the longest beginning of a text has that is whole lines, none of them of a block that isn't ended.
pub fn whole_size(text: &[u8]) -> usize
    ensures whole { IsWholeText (take result text.now) }
    ensures longest { (m : ℕ) → m ≤ length text.now → IsWholeText (take m text.now) → m ≤ result }
    ensures within { result ≤ length text.now }
{
    let mut rest = text;
    let mut inside = false;
    let mut kept = 0;
    while let Some((line, after)) = line_first(rest) {
        inside = after_line(inside, line);
        rest = after;
        if !inside {
            kept = text.len() - rest.len();
        }
    }
    kept
}

/// Whether a block is open behind a line, by whether one was open before it.
fn after_line(inside: bool, line: &[u8]) -> bool
    ensures { result ≡ after_line inside line.now }
{
    if inside { !is_end(line) } else { opens(line) }
}

/// Whether the line ends a block.
fn is_end(line: &[u8]) -> bool
    ensures { result ≡ is_end line.now }
{
    line.len() == 3 && line.ends_with(b"end")
}

/// Whether a block follows the line.
fn opens(line: &[u8]) -> bool
    ensures { result ≡ opens line.now }
{
    line.ends_with(b" closed")
}
