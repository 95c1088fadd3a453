//! Flags by which one thread waits for another.

use sshc_agent::Pause;
use std::sync::atomic::AtomicBool;
use std::sync::atomic::Ordering::SeqCst;
use std::thread;

/// How often a thread yields before it gives up on a flag.
const TURNS: u32 = 100_000_000;

/// Flag `asked` is raised when connection 1 is about to answer the question about its key; flag `answered` when
/// connection 2 gets its answer, flag `unlocked` when connection 3 does, if there is one.
#[derive(Drop)]
pub(crate) struct Flags {
    asked: AtomicBool,
    pub(crate) answered: AtomicBool,
    pub(crate) unlocked: AtomicBool,
    late: AtomicBool,
    has_third: bool,
}

impl Flags {
    /// Flags for two connections, or for three.
    pub(crate) fn new(has_third: bool) -> Flags {
        Flags {
            asked: AtomicBool::new(false),
            answered: AtomicBool::new(false),
            unlocked: AtomicBool::new(false),
            late: AtomicBool::new(false),
            has_third,
        }
    }

    /// What connection 1 waits for: the answer of the last of the other connections.
    fn last(&self) -> &AtomicBool {
        if self.has_third {
            &self.unlocked
        } else {
            &self.answered
        }
    }

    /// Yields until the flag is raised, or sets `late` after `TURNS` turns.
    fn wait_for(&self, flag: &AtomicBool) {
        for _ in 0..TURNS {
            if flag.load(SeqCst) {
                return;
            }
            thread::yield_now();
        }
        self.late.store(true, SeqCst);
    }

    /// Whether a flag wasn't raised in time.
    pub(crate) fn is_late(&self) -> bool {
        self.late.load(SeqCst)
    }
}

/// Connection 1 waits before its call 4 until connection 2 has an answer, and connection 3 where there is one;
/// connection 2 begins once connection 1 waits, and connection 3 once connection 2 has its answer.
impl Pause for Flags {
    fn before(&self, conn: u32, number: u32) {
        if conn == 1 && number == 4 {
            self.asked.store(true, SeqCst);
            self.wait_for(self.last());
        }
        if conn == 2 && number == 0 {
            self.wait_for(&self.asked);
        }
        if conn == 3 && number == 0 {
            self.wait_for(&self.answered);
        }
    }
}
