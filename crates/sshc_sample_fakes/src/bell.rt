//! Where a thread waits for packets: it looks for a moment before it rests, as a handle's threads do.

use std::sync::Wait;
use std::sync::atomic::{AtomicU64, Ordering};
use std::thread::Parker;

/// How often a thread looks before it rests, some 40 microseconds.
const LOOKS: u32 = 30_000;

/// After how many looks in vain it looks only each `SELDOM`th time.
const TRIES: u32 = 500;

const SELDOM: u32 = 64;

/// For how many looks in vain one that finds something makes up.
const GAIN: u32 = 50;

/// Where a thread waits until it is rung.
#[derive(Drop)]
pub(crate) struct Bell {
    rings: AtomicU64,
    parker: Parker,
}

impl Bell {
    pub(crate) fn new() -> Bell {
        Bell {
            rings: AtomicU64::new(0),
            parker: Parker::new(),
        }
    }

    /// Wakes the thread that waits, or the next one.
    pub(crate) fn ring(&self) {
        self.parker.unpark();
        self.rings.fetch_add(1, Ordering::SeqCst);
    }

    /// How often it was rung.
    pub(crate) fn rings(&self) -> u64 {
        self.rings.load(Ordering::SeqCst)
    }

    /// Looks whether it was rung since there were so many rings.
    fn look(&self, seen: u64) -> bool {
        for _ in 0..LOOKS {
            if self.rings() != seen {
                return true;
            }
        }
        false
    }

    /// Waits until it is rung, if that wasn't done since there were so many rings. `vain` is how often nothing was
    /// found, and so is what it returns.
    pub(crate) fn wait<R: Wait>(&self, rt: &R, seen: u64, vain: u32) -> u32 {
        let looks = vain < TRIES || vain % SELDOM == 0;
        let found = looks && self.look(seen);
        self.parker.park(rt);
        if found {
            vain.min(TRIES).saturating_sub(GAIN)
        } else {
            vain.wrapping_add(1)
        }
    }
}
