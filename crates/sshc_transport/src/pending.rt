//! Counts the bytes of the packets that come while a key exchange of ours runs.

ghost use Rattle.std.specs.Prelude.{◌≡◌, ◌+◌, ◌*◌, ◌-◌, ◌^◌, min, nat_lt};

use std::marker::Model;

/// A count of bytes, which contracts see as that number. It saturates at 2^64 - 1.
#[derive(Drop)]
pub struct PendingCount {
    bytes: u64,
}

impl Model for PendingCount {
    ghost use Rattle.std.specs.Prelude.{ℕ};

    ghost Value = { ℕ };

    ghost view = { λ p. p.bytes };
}

impl PendingCount {
    pub fn new() -> PendingCount
        ensures { result ≡ 0 }
    {
        PendingCount { bytes: 0 }
    }

    pub fn copy(&self) -> PendingCount
        ensures { result ≡ self.now }
    {
        PendingCount { bytes: self.bytes }
    }

    /// The number of bytes counted so far.
    pub fn counted(&self) -> u64
        ensures { result ≡ self.now }
    {
        self.bytes
    }

    pub fn reset(&mut self)
        ensures { self.new ≡ 0 }
    {
        self.bytes = 0;
    }

    /// Adds the bytes of one more packet, and returns whether the sum is greater than twice the window.
    pub fn add(&mut self, len: u64, window: u32) -> bool
        ensures counted { self.new ≡ min (self.old + len) (2 ^ 64 - 1) }
        ensures passes { result ≡ nat_lt (2 * window) self.new }
    {
        self.bytes = self.bytes.saturating_add(len);
        self.bytes > 2 * u64::from(window)
    }
}
