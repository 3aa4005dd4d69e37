ghost use Rattle.std.specs.Prelude.{◌≡◌, ◌≤◌, length, take, min};

/// Copies what fits from the front of some bytes into the front of a buffer, at most `most` bytes, and
/// answers how many.
pub(crate) fn fill_front(left: &[u8], most: usize, buffer: &mut [u8]) -> usize
    ensures count { result ≡ min most (min (length buffer.old) (length left.now)) }
    ensures within { result ≤ length buffer.new }
    ensures copied { take result buffer.new ≡ take result left.now }
{
    let count = most.min(buffer.len().min(left.len()));
    buffer[..count].copy_from_slice(&left[..count]);
    count
}
