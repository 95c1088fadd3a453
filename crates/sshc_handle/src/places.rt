//! Where threads wait for each other. A thread that has to wait looks for a moment whether it is called, and then
//! rests: to wake one that rests takes several microseconds. Looking changes nothing but the time: what a thread waits
//! for is looked up under the lock, however it came there.

use std::hint::spin_loop;
use std::sync::atomic::{AtomicU32, AtomicU64, Ordering};
use std::sync::{Condvar, MutexGuard, Wait};
use std::thread::Parker;
use std::time::Duration;

/// How often a look pauses at most, and how often it reads between two pauses. A processor's pause takes 5 to 60
/// nanoseconds, and so many reads about as long; so a look in vain takes 40 to 70 microseconds.
const PAUSES: u32 = 600;

const READS: u32 = 50;

/// After how many looks in vain threads look only each `SELDOM`th time, and for how many of them one that finds
/// something makes up.
const TRIES: u32 = 500;

const SELDOM: u32 = 64;

const GAIN: u32 = 50;

/// How many times something was called, wrapping, for threads that look whether it is.
#[derive(Drop)]
pub(crate) struct Calls {
    count: AtomicU64,
}

impl Calls {
    fn new() -> Calls {
        Calls {
            count: AtomicU64::new(0),
        }
    }

    fn now(&self) -> u64 {
        self.count.load(Ordering::SeqCst)
    }

    fn add(&self) {
        self.count.fetch_add(1, Ordering::SeqCst);
    }

    /// Reads some times, and returns whether there were calls since there were so many.
    fn came(&self, seen: u64) -> bool {
        for _ in 0..READS {
            if self.now() != seen {
                return true;
            }
        }
        false
    }
}

/// Whether it is worth to look, which the looks before tell: an answer from another machine comes too late for one.
#[derive(Drop)]
pub(crate) struct Patience {
    /// How many times nothing was found, or nobody looked, less what looks that found something made up for; wrapping.
    vain: AtomicU32,
}

impl Patience {
    pub(crate) fn new() -> Patience {
        Patience {
            vain: AtomicU32::new(0),
        }
    }

    /// Looks for a moment whether there are calls since there were so many, unless that was in vain too often.
    fn look(&self, calls: &Calls, seen: u64) {
        let vain = self.vain.fetch_add(1, Ordering::SeqCst);
        if vain >= TRIES && vain % SELDOM != 0 {
            return;
        }
        for _ in 0..PAUSES {
            if calls.came(seen) {
                self.vain
                    .store(vain.min(TRIES).saturating_sub(GAIN), Ordering::SeqCst);
                return;
            }
            spin_loop();
        }
    }
}

/// A place where threads wait that hold a lock, until they are called.
#[derive(Drop)]
pub(crate) struct Place {
    calls: Calls,
    condition: Condvar,
}

impl Place {
    pub(crate) fn new() -> Place {
        Place {
            calls: Calls::new(),
            condition: Condvar::new(),
        }
    }

    /// How often those who wait here were called.
    pub(crate) fn calls(&self) -> u64 {
        self.calls.now()
    }

    /// Calls those who wait here.
    pub(crate) fn call(&self) {
        self.calls.add();
        self.condition.notify_all();
    }

    /// Looks for a moment whether those who wait here are called, since there were so many calls. The lock isn't held.
    pub(crate) fn look(&self, patience: &Patience, seen: u64) {
        patience.look(&self.calls, seen);
    }

    /// The condition at which those who wait here rest.
    pub(crate) fn condition(&self) -> &Condvar {
        &self.condition
    }

    /// Rests here until the next call.
    pub(crate) fn wait<'a, T, R: Wait>(
        &self,
        rt: &R,
        guard: MutexGuard<'a, T>,
    ) -> MutexGuard<'a, T> {
        self.condition.wait(rt, guard)
    }
}

/// Where a runner waits, which holds no lock meanwhile.
#[derive(Drop)]
pub(crate) struct Bell {
    calls: Calls,
    parker: Parker,
    patience: Patience,
}

impl Bell {
    pub(crate) fn new() -> Bell {
        Bell {
            calls: Calls::new(),
            parker: Parker::new(),
            patience: Patience::new(),
        }
    }

    /// How often the runner was called.
    pub(crate) fn calls(&self) -> u64 {
        self.calls.now()
    }

    /// Calls the runner. What it finds when it looks is there before it is seen to be called.
    pub(crate) fn ring(&self) {
        self.parker.unpark();
        self.calls.add();
    }

    /// Looks for a moment whether the runner is called, since there were so many calls.
    pub(crate) fn look(&self, seen: u64) {
        self.patience.look(&self.calls, seen);
    }

    /// Rests until the runner is called, and at most until this limit. It doesn't rest if the runner was called since
    /// it rested last.
    pub(crate) fn rest<R: Wait>(&self, rt: &R, limit: Option<Duration>) {
        match limit {
            None => self.parker.park(rt),
            Some(limit) => self.parker.park_timeout(rt, limit),
        }
    }
}
