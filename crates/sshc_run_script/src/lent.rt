//! A source over lent bytes, and a sink over a buffer: what a run reads and writes whose events come one at a time.

ghost use Rattle.std.specs.Prelude.{◌≡◌, ◌++◌, ◌≤◌, ◌<◌, Some, IfOk, OnOk, OnErr, [], length, take};
ghost use Rattle.sshc_wire.specs.Beside.{no_side};
ghost use Rattle.sshc_wire.specs.Contents.{prepend, IsAtEnd};
ghost use Rattle.sshc_wire.specs.Faults.{CountsEmpty, CountsOne, HasCause};

use sshc_wire::{Failed, Sink, Source};
use std::alloc::AllocError;

/// Lent bytes: those that remain, and how often they were read.
#[derive(Drop)]
pub struct LentBytes<'a> {
    pub left: &'a [u8],
    pub reads: u64,
    pub empty_reads: u64,
}

impl<'a> LentBytes<'a> {
    pub fn new(bytes: &'a [u8]) -> LentBytes<'a>
        ensures left { result.left.now ≡ bytes.now }
        ensures reads { result.reads ≡ 0 }
        ensures empty { result.empty_reads ≡ 0 }
    {
        LentBytes {
            left: bytes,
            reads: 0,
            empty_reads: 0,
        }
    }
}

impl<'a> Source for LentBytes<'a> {
    ghost left = { λ s. Some s.left.now };

    ghost faults = { λ s. 0 };

    ghost reads = { λ s. s.reads };

    ghost empty_reads = { λ s. s.empty_reads };

    ghost beside = { λ s. no_side };

    fn read(&mut self, buf: &mut [u8]) -> Result<usize, Failed>
        ensures bound { IfOk result (λ n. n ≤ length buf.new) }
        ensures bytes { IfOk result (λ n. Some self.old.left.now ≡ prepend (take n buf.new) (Some self.new.left.now)) }
        ensures end { IfOk result (λ n. n ≡ 0 → 0 < length buf.new → IsAtEnd (Some self.new.left.now)) }
        ensures none { OnErr result (Some self.new.left.now ≡ Some self.old.left.now) }
        ensures cause { HasCause 0 0 result }
        ensures counted { CountsOne self.old.reads self.new.reads }
        ensures empty { CountsEmpty result (length buf.new) self.old.empty_reads self.new.empty_reads }
        ensures apart { no_side ≡ no_side }
    {
        let count = self.left.len().min(buf.len());
        let (front, rest) = self.left.split_at(count);
        buf[..count].copy_from_slice(front);
        self.left = rest;
        self.reads = self.reads.saturating_add(1);
        if count == 0 && buf.len() > 0 {
            self.empty_reads = self.empty_reads.saturating_add(1);
        }
        Ok(count)
    }
}

/// A buffer to which lines are added, and how often it was written to.
#[derive(Drop)]
pub struct LineSink {
    pub lines: Vec<u8>,
    pub writes: u64,
    pub empty_writes: u64,
}

impl LineSink {
    pub fn new(lines: Vec<u8>) -> LineSink
        ensures lines { result.lines ≡ lines }
        ensures writes { result.writes ≡ 0 }
        ensures empty { result.empty_writes ≡ 0 }
    {
        LineSink {
            lines,
            writes: 0,
            empty_writes: 0,
        }
    }

    pub fn into_lines(self) -> Vec<u8>
        ensures { result ≡ self.lines }
    {
        let LineSink { lines, .. } = self;
        lines
    }
}

impl Sink for LineSink {
    ghost contents = { λ s. Some s.lines.items };

    ghost faults = { λ s. 0 };

    ghost writes = { λ s. s.writes };

    ghost empty_writes = { λ s. s.empty_writes };

    ghost beside = { λ s. no_side };

    fn write(&mut self, piece: &[u8]) -> Result<usize, Failed>
        ensures bound { IfOk result (λ n. n ≡ length piece.now) }
        ensures bytes { OnOk result (self.new.lines.items ≡ self.old.lines.items ++ piece.now) }
        ensures none { OnErr result (self.new.lines.items ≡ self.old.lines.items) }
        ensures cause { HasCause 0 0 result }
        ensures counted { CountsOne self.old.writes self.new.writes }
        ensures empty { CountsEmpty result (length piece.now) self.old.empty_writes self.new.empty_writes }
        ensures apart { no_side ≡ no_side }
    {
        self.writes = self.writes.saturating_add(1);
        match self.lines.extend_from_slice(piece) {
            Ok(()) => Ok(piece.len()),
            Err(AllocError) => {
                self.empty_writes = self.empty_writes.saturating_add(1);
                Err(Failed::NoMemory)
            }
        }
    }
}
