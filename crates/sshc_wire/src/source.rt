//! Where bytes come from.

ghost use Rattle.std.specs.Prelude.{◌≡◌, ℕ, ◌+◌, ◌<◌, ◌≤◌, List, length, take, Ok, Option, IfOk, OnErr, OnOk};
ghost use Rattle.sshc_wire.specs.Beside.{Beside};
ghost use Rattle.sshc_wire.specs.Contents.{prepend, IsAtEnd};
ghost use Rattle.sshc_wire.specs.Faults.{CountsOne, CountsEmpty, HasCause};

use crate::error::NoMemory;
use std::alloc::Global;

/// How a call of the outside fails.
#[derive(Clone, Copy, Debug, PartialEq, Eq)]
pub enum Failed {
    /// The outside failed, and its count of faults rose.
    Fault,
    /// Memory ran out, and the call did nothing.
    NoMemory,
}

/// Bytes that come one piece after another.
pub trait Source {
    /// The bytes that remain to be read, where they are known.
    ghost left: { Self → Option (List ℕ) };

    /// How often a read has failed.
    ghost faults: { Self → ℕ };

    /// How often it was read.
    ghost reads: { Self → ℕ };

    /// How many of these reads moved no byte into a buffer that isn't empty.
    ghost empty_reads: { Self → ℕ };

    /// What it keeps beside what is read, as of a stream that is written too.
    ghost beside: { Self → Beside };

    /// Fills a front of the buffer. No byte for a buffer that isn't empty is the end.
    fn read(&mut self, buf: &mut [u8]) -> Result<usize, Failed>
        ensures bound { IfOk result (λ n. n ≤ length buf.new) }
        ensures bytes { IfOk result (λ n. left self.old ≡ prepend (take n buf.new) (left self.new)) }
        ensures end { IfOk result (λ n. n ≡ 0 → 0 < length buf.new → IsAtEnd (left self.new)) }
        ensures none { OnErr result (left self.new ≡ left self.old) }
        ensures cause { HasCause (faults self.old) (faults self.new) result }
        ensures counted { CountsOne (reads self.old) (reads self.new) }
        ensures empty { CountsEmpty result (length buf.new) (empty_reads self.old) (empty_reads self.new) }
        ensures apart { beside self.new ≡ beside self.old };
}

/// The count of empty calls after one that moved so many of at most so many bytes.
pub(crate) fn with_empty(empty: u64, moved: usize, size: usize) -> u64
    ensures { CountsEmpty (Ok moved) size empty result }
{
    if moved == 0 && size > 0 {
        empty.saturating_add(1)
    } else {
        empty
    }
}

/// Fills the buffer from the source, or as much of it as there is before the source ends. Each read but the last
/// moves at least one byte.
fn read_full<S: Source>(source: &mut S, buf: &mut [u8]) -> Result<usize, Failed>
    ensures bound { IfOk result (λ n. n ≤ length buf.new) }
    ensures bytes { IfOk result (λ n. S.left source.old ≡ prepend (take n buf.new) (S.left source.new)) }
    ensures end { IfOk result (λ n. n < length buf.new → IsAtEnd (S.left source.new)) }
    ensures none { OnErr result ((given : List ℕ) × (length given < length buf.new)
        × (S.left source.old ≡ prepend given (S.left source.new))
        × (S.reads source.new ≤ S.reads source.old + length given + 1)) }
    ensures cause { HasCause (S.faults source.old) (S.faults source.new) result }
    ensures whole { IfOk result (λ n. n ≡ length buf.new → S.reads source.new ≤ S.reads source.old + n) }
    ensures short { IfOk result (λ n. S.reads source.new ≤ S.reads source.old + n + 1) }
    ensures empty { IfOk result (λ n. n ≡ length buf.new → S.empty_reads source.new ≡ S.empty_reads source.old) }
    ensures last { S.empty_reads source.new ≤ S.empty_reads source.old + 1 }
    ensures apart { S.beside source.new ≡ S.beside source.old }
{
    let mut filled = 0usize;
    while filled < buf.len() {
        match source.read(&mut buf[filled..]) {
            Ok(0) => return Ok(filled),
            Ok(n) => filled += n,
            Err(e) => return Err(e),
        }
    }
    Ok(filled)
}

/// Replaces the bytes by the next bytes of the source: as many as are asked for, or all before its end. Their memory is
/// used again if it is large enough, which no clause says. After an error they may be any bytes.
pub fn read_into<S: Source>(bytes: &mut Vec<u8>, source: &mut S, count: usize) -> Result<(), Failed>
    requires { 0 < count }
    ensures bytes { OnOk result (S.left source.old ≡ prepend bytes.new.items (S.left source.new)) }
    ensures bound { OnOk result (length bytes.new.items ≤ count) }
    ensures end { OnOk result (length bytes.new.items < count → IsAtEnd (S.left source.new)) }
    ensures none { OnErr result ((given : List ℕ) × (length given < count)
        × (S.left source.old ≡ prepend given (S.left source.new))
        × (S.reads source.new ≤ S.reads source.old + length given + 1)) }
    ensures cause { HasCause (S.faults source.old) (S.faults source.new) result }
    ensures whole { OnOk result
        (length bytes.new.items ≡ count → S.reads source.new ≤ S.reads source.old + length bytes.new.items) }
    ensures short { OnOk result (S.reads source.new ≤ S.reads source.old + length bytes.new.items + 1) }
    ensures empty { OnOk result
        (length bytes.new.items ≡ count → S.empty_reads source.new ≡ S.empty_reads source.old) }
    ensures last { S.empty_reads source.new ≤ S.empty_reads source.old + 1 }
    ensures apart { S.beside source.new ≡ S.beside source.old }
{
    if bytes.resize(count, 0).is_err() {
        return Err(Failed::NoMemory);
    }
    let filled = read_full(source, bytes.as_mut_slice())?;
    bytes.truncate(filled);
    Ok(())
}

/// Makes the memory at least so long. What it held may be any bytes afterwards.
pub(crate) fn lengthen(memory: &mut Vec<u8>, least: usize) -> Result<(), NoMemory>
    ensures { OnOk result (least ≤ length memory.new.items) }
{
    if memory.len() < least {
        memory.resize(least, 0)?;
    }
    Ok(())
}

/// The next bytes of the source, as many as are asked for or all before its end, at the front of this memory. The
/// memory is only ever made longer, so that what was read before isn't cleared; no clause says so.
pub fn read_front<'a, S: Source>(
    memory: &'a mut Vec<u8>,
    source: &mut S,
    count: usize,
) -> Result<&'a [u8], Failed>
    requires { 0 < count }
    ensures bytes { IfOk result (λ bytes. S.left source.old ≡ prepend bytes.now (S.left source.new)) }
    ensures bound { IfOk result (λ bytes. length bytes.now ≤ count) }
    ensures end { IfOk result (λ bytes. length bytes.now < count → IsAtEnd (S.left source.new)) }
    ensures none { OnErr result ((given : List ℕ) × (length given < count)
        × (S.left source.old ≡ prepend given (S.left source.new))
        × (S.reads source.new ≤ S.reads source.old + length given + 1)) }
    ensures cause { HasCause (S.faults source.old) (S.faults source.new) result }
    ensures whole { IfOk result
        (λ bytes. length bytes.now ≡ count → S.reads source.new ≤ S.reads source.old + length bytes.now) }
    ensures short { IfOk result (λ bytes. S.reads source.new ≤ S.reads source.old + length bytes.now + 1) }
    ensures empty { IfOk result
        (λ bytes. length bytes.now ≡ count → S.empty_reads source.new ≡ S.empty_reads source.old) }
    ensures last { S.empty_reads source.new ≤ S.empty_reads source.old + 1 }
    ensures apart { S.beside source.new ≡ S.beside source.old }
{
    if lengthen(memory, count).is_err() {
        return Err(Failed::NoMemory);
    }
    let front = &mut memory.as_mut_slice()[..count];
    let first = match source.read(front) {
        Ok(first) => first,
        Err(failed) => return Err(failed),
    };
    if first == count {
        return Ok(front);
    }
    if first == 0 {
        return Ok(&front[..0]);
    }
    let rest = match read_full(source, &mut front[first..]) {
        Ok(rest) => rest,
        Err(failed) => return Err(failed),
    };
    Ok(&front[..first + rest])
}

/// The next bytes of the source: as many as are asked for, or all before its end.
pub fn read_up_to<S: Source>(alloc: Global, source: &mut S, count: usize) -> Result<Vec<u8>, Failed>
    requires { 0 < count }
    ensures bytes { IfOk result (λ v. S.left source.old ≡ prepend v.items (S.left source.new)) }
    ensures bound { IfOk result (λ v. length v.items ≤ count) }
    ensures end { IfOk result (λ v. length v.items < count → IsAtEnd (S.left source.new)) }
    ensures none { OnErr result ((given : List ℕ) × (length given < count)
        × (S.left source.old ≡ prepend given (S.left source.new))
        × (S.reads source.new ≤ S.reads source.old + length given + 1)) }
    ensures cause { HasCause (S.faults source.old) (S.faults source.new) result }
    ensures whole { IfOk result
        (λ v. length v.items ≡ count → S.reads source.new ≤ S.reads source.old + length v.items) }
    ensures short { IfOk result (λ v. S.reads source.new ≤ S.reads source.old + length v.items + 1) }
    ensures empty { IfOk result (λ v. length v.items ≡ count → S.empty_reads source.new ≡ S.empty_reads source.old) }
    ensures last { S.empty_reads source.new ≤ S.empty_reads source.old + 1 }
    ensures apart { S.beside source.new ≡ S.beside source.old }
{
    let mut bytes = Vec::new(alloc);
    read_into(&mut bytes, source, count)?;
    Ok(bytes)
}
