//! Bells that wake the lanes that wait.
use std::sync::Wait;
use std::sync::atomic::{AtomicU64, Ordering};

/// A lane waits by one ticket at a time, and the tickets that wait follow one another. So as many bells as
/// there are lanes at most give each of them one of its own.
const BELLS: u64 = 16;

/// One bell.
#[derive(Drop)]
struct Bell {
    /// How often it rang.
    rings: AtomicU64,
    /// How many lanes listen.
    listeners: AtomicU64,
}

impl Bell {
    fn new() -> Bell {
        Bell {
            rings: AtomicU64::new(0),
            listeners: AtomicU64::new(0),
        }
    }
}

/// Bells on which lanes sleep until their turn comes near. Nothing is concluded from a ring: whoever wakes
/// looks at the served number.
///
/// A lane listens before it looks, and whoever serves it looks for a listener after that. So either the lane finds
/// its number served, or its bell rings; and no bell rings that nobody listens to.
#[derive(Drop)]
pub(crate) struct Bells {
    bells: [Bell; 16],
}

impl Bells {
    pub(crate) fn new() -> Bells {
        Bells {
            bells: [
                Bell::new(),
                Bell::new(),
                Bell::new(),
                Bell::new(),
                Bell::new(),
                Bell::new(),
                Bell::new(),
                Bell::new(),
                Bell::new(),
                Bell::new(),
                Bell::new(),
                Bell::new(),
                Bell::new(),
                Bell::new(),
                Bell::new(),
                Bell::new(),
            ],
        }
    }

    // Listens to the ticket's bell, and tells how often it rang, as far as a sleep can tell: modulo 2^32.
    pub(crate) fn listen(&self, ticket: u64) -> u32 {
        let bell = &self.bells[(ticket % BELLS) as usize];
        bell.listeners.fetch_add(1, Ordering::SeqCst);
        (bell.rings.load(Ordering::SeqCst) % 4_294_967_296) as u32
    }

    // Listens no longer to the ticket's bell.
    pub(crate) fn leave(&self, ticket: u64) {
        let bell = &self.bells[(ticket % BELLS) as usize];
        bell.listeners.fetch_sub(1, Ordering::SeqCst);
    }

    // Sleeps until the ticket's bell rings, and not at all where it rang since it was heard. It may wake for
    // no reason.
    pub(crate) fn sleep<R: Wait>(&self, rt: &R, ticket: u64, heard: u32) {
        self.bells[(ticket % BELLS) as usize].rings.park(rt, heard);
    }

    // Rings the ticket's bell, if somebody listens.
    pub(crate) fn ring(&self, ticket: u64) {
        let bell = &self.bells[(ticket % BELLS) as usize];
        if bell.listeners.load(Ordering::SeqCst) != 0 {
            bell.rings.fetch_add(1, Ordering::SeqCst);
            bell.rings.wake_one();
        }
    }
}
