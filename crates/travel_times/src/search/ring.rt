ghost use Rattle.std.specs.Prelude.{◌≡◌, ◌+◌, ◌<◌, OnSome, IfOk, IfSome, vec_len};

use pool_base::OutOfMemory;
use std::alloc::Global;

/// More than the seconds of any arc, so that what waits never goes once round the ring.
const BUCKETS: usize = 16384;

const WORDS: usize = BUCKETS / 64;

/// A ring of buckets of nodes, by their seconds modulo the number of buckets, with one bit for each bucket that isn't
/// empty (Dial 1969).
///
/// It gives nodes in the order of their seconds as long as none is put in that is more than the ring's length after
/// the one given last. A search is right in whatever order they come, so no contract speaks of it.
#[derive(Drop)]
pub struct Ring {
    buckets: Vec<Vec<u32>>,
    filled: Vec<u64>,
    current: usize,
    len: usize,
    ghost bucket_count: { vec_len buckets ≡ 16384 },
    ghost word_count: { vec_len filled ≡ 256 },
    ghost within: { current < 16384 },
}

impl Ring {
    /// An empty ring.
    pub fn new(alloc: Global) -> Result<Ring, OutOfMemory> {
        let buckets = empty_buckets(alloc)?;
        let filled = vec![in alloc; 0; WORDS]?;
        Ok(Ring {
            buckets,
            filled,
            current: 0,
            len: 0,
        })
    }

    /// Puts a node in by its seconds.
    #[inline]
    pub fn push(&mut self, node: u32, seconds: u32) -> Result<(), OutOfMemory> {
        let bucket = seconds as usize % BUCKETS;
        self.buckets[bucket].push(node)?;
        self.filled[bucket / 64] |= 1 << (bucket % 64);
        self.len = self.len.saturating_add(1);
        Ok(())
    }

    /// Takes out the next node.
    #[inline]
    pub fn pop(&mut self) -> Option<u32>
        ensures { OnSome result (self.new.len < self.old.len) }
    {
        if self.len == 0 {
            return None;
        }
        let bucket = self.next_filled()?;
        self.current = bucket;
        self.len -= 1;
        let node = self.buckets[bucket].pop();
        if self.buckets[bucket].is_empty() {
            self.filled[bucket / 64] &= !(1 << (bucket % 64));
        }
        node
    }

    /// The next bucket that isn't empty, from the one that was taken from last.
    fn next_filled(&self) -> Option<usize>
        ensures { IfSome result (λ bucket. bucket < 16384) }
    {
        let word = self.current / 64;
        let rest = self.filled[word] >> (self.current % 64);
        if rest != 0 {
            return Some((self.current + rest.trailing_zeros() as usize) % BUCKETS);
        }
        for step in 1..=WORDS {
            let at = (word + step) % WORDS;
            let bits = self.filled[at];
            if bits != 0 {
                return Some((at * 64 + bits.trailing_zeros() as usize) % BUCKETS);
            }
        }
        None
    }
}

fn empty_buckets(alloc: Global) -> Result<Vec<Vec<u32>>, OutOfMemory>
    ensures { IfOk result (λ buckets. vec_len buckets ≡ 16384) }
{
    let mut buckets = Vec::with_capacity(alloc, BUCKETS)?;
    for _ in 0..BUCKETS {
        buckets.push(Vec::new(alloc))?;
    }
    Ok(buckets)
}
