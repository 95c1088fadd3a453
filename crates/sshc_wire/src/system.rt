//! Real streams and files, whose contents no contract knows. Each is proved against its trait; that the real thing
//! behaves so is not.

ghost use Rattle.std.specs.Prelude.{None, Err, OnErr, IfOk, IfSome, IsOk, ◌≡◌, ◌↔◌, ◌≤◌, length};
ghost use Rattle.std.specs.IoError.{error_kind};
ghost use Rattle.std.specs.declared.io.ErrorKind.TheVariants.{NotFound};
ghost use Rattle.sshc_wire.specs.Beside.{no_side};
ghost use Rattle.sshc_wire.specs.Faults.{CountsEmpty, HasCause, Rose};

use crate::error::NoMemory;
use crate::files::{Files, Found};
use crate::sink::Sink;
use crate::source::{Failed, Source, with_empty};
use crate::text::Text;
use std::alloc::Global;
use std::fs::OpenOptions;
use std::io::{BufRead, BufReader, ErrorKind, Read, Write};
use std::marker::Model;
use std::path::Path;
use std::{fs, io};

/// How often a call that a signal interrupts is made again. One that is interrupted more often has failed.
const RETRIES: u32 = 1 << 16;

/// Fills the buffer from the bytes that the reader holds, if it holds so many.
fn take_held<R: Read>(inner: &mut BufReader<R>, buf: &mut [u8]) -> bool {
    let size = buf.len();
    let held = inner.buffer();
    if held.len() < size {
        return false;
    }
    buf.copy_from_slice(&held[..size]);
    inner.consume(size);
    true
}

/// Reads, and reads again where a signal interrupted the call. `None` where it failed.
fn read_uninterrupted<R: Read>(inner: &mut R, buf: &mut [u8]) -> Option<usize>
    ensures { IfSome result (λ n. n ≤ length buf.new) }
{
    for _ in 0..RETRIES {
        match inner.read(buf) {
            Ok(count) => return Some(count),
            Err(error) => {
                if error.kind() != ErrorKind::Interrupted {
                    return None;
                }
            }
        }
    }
    inner.read(buf).ok()
}

/// Writes, and writes again where a signal interrupted the call.
fn write_uninterrupted<W: Write>(inner: &mut W, piece: &[u8]) -> io::Result<usize>
    ensures { IfOk result (λ n. n ≤ length piece.now) }
{
    for _ in 0..RETRIES {
        match inner.write(piece) {
            Err(error) if error.kind() == ErrorKind::Interrupted => {}
            other => return other,
        }
    }
    inner.write(piece)
}

/// Any reader of std, behind a buffer. A read that a signal interrupted is made again.
#[derive(Drop)]
pub struct StdSource<R> {
    inner: BufReader<R>,
    reads: u64,
    empty: u64,
    faults: u64,
}

impl<R> Model for StdSource<R> {
    ghost use Rattle.sshc_wire.specs.Faults.{Counted};

    ghost Value = { Counted };

    ghost view = { λ s. record { calls = s.reads; empty = s.empty; faults = s.faults } };
}

impl<R: Read + Drop> StdSource<R> {
    /// A source that wasn't read yet.
    pub fn new(alloc: Global, inner: R) -> Result<StdSource<R>, NoMemory>
        ensures { IfOk result (λ s. s ≡ record { calls = 0; empty = 0; faults = 0 }) }
    {
        match BufReader::new(alloc, inner) {
            Ok(inner) => Ok(StdSource {
                inner,
                reads: 0,
                empty: 0,
                faults: 0,
            }),
            Err(_) => Err(NoMemory),
        }
    }
}

impl<R: Read> StdSource<R> {
    /// A read of the reader itself, which is counted already.
    #[inline(never)]
    fn read_on(&mut self, buf: &mut [u8]) -> Result<usize, Failed>
        ensures bound { IfOk result (λ n. n ≤ length buf.new) }
        ensures cause { HasCause self.old.faults self.new.faults result }
        ensures calls { self.new.calls ≡ self.old.calls }
        ensures empty { CountsEmpty result (length buf.new) self.old.empty self.new.empty }
    {
        match read_uninterrupted(&mut self.inner, buf) {
            Some(count) => {
                self.empty = with_empty(self.empty, count, buf.len());
                Ok(count)
            }
            None => {
                self.empty = self.empty.saturating_add(1);
                self.faults = self.faults.saturating_add(1);
                Err(Failed::Fault)
            }
        }
    }
}

impl<R: Read> Source for StdSource<R> {
    ghost left = { λ s. None };

    ghost faults = { λ s. s.faults };

    ghost reads = { λ s. s.calls };

    ghost empty_reads = { λ s. s.empty };

    ghost beside = { λ s. no_side };

    #[inline(always)]
    fn read(&mut self, buf: &mut [u8]) -> Result<usize, Failed> {
        self.reads = self.reads.saturating_add(1);
        if take_held(&mut self.inner, buf) {
            return Ok(buf.len());
        }
        self.read_on(buf)
    }
}

/// Any writer of std, with no buffer of its own. A write that a signal interrupted is made again. A writer that takes
/// no byte of a piece counts as failed.
#[derive(Drop)]
pub struct StdSink<W> {
    inner: W,
    writes: u64,
    empty: u64,
    faults: u64,
}

impl<W> Model for StdSink<W> {
    ghost use Rattle.sshc_wire.specs.Faults.{Counted};

    ghost Value = { Counted };

    ghost view = { λ s. record { calls = s.writes; empty = s.empty; faults = s.faults } };
}

impl<W> StdSink<W> {
    /// A sink that wasn't written to yet.
    pub fn new(inner: W) -> StdSink<W>
        ensures { result ≡ record { calls = 0; empty = 0; faults = 0 } }
    {
        StdSink {
            inner,
            writes: 0,
            empty: 0,
            faults: 0,
        }
    }
}

impl<W: Write> Sink for StdSink<W> {
    ghost contents = { λ s. None };

    ghost faults = { λ s. s.faults };

    ghost writes = { λ s. s.calls };

    ghost empty_writes = { λ s. s.empty };

    ghost beside = { λ s. no_side };

    fn write(&mut self, piece: &[u8]) -> Result<usize, Failed> {
        self.writes = self.writes.saturating_add(1);
        match write_uninterrupted(&mut self.inner, piece) {
            Ok(count) => {
                if count == 0 && !piece.is_empty() {
                    self.empty = self.empty.saturating_add(1);
                    self.faults = self.faults.saturating_add(1);
                    return Err(Failed::Fault);
                }
                Ok(count)
            }
            Err(_) => {
                self.empty = self.empty.saturating_add(1);
                self.faults = self.faults.saturating_add(1);
                Err(Failed::Fault)
            }
        }
    }
}

/// The files of the system.
#[derive(Drop)]
pub struct StdFiles<'a, R> {
    system: &'a R,
    alloc: Global,
    read_faults: u64,
    append_faults: u64,
}

impl<'a, R> Model for StdFiles<'a, R> {
    ghost use Rattle.sshc_wire.specs.Faults.{CountedFiles};

    ghost Value = { CountedFiles };

    ghost view = { λ s. record { read_faults = s.read_faults; append_faults = s.append_faults } };
}

impl<'a, R: std::rt::Files + AllocGlobal> StdFiles<'a, R> {
    /// Files that nothing was asked of yet.
    pub fn new(system: &'a R) -> StdFiles<'a, R>
        ensures { result ≡ record { read_faults = 0; append_faults = 0 } }
    {
        StdFiles {
            system,
            alloc: system.alloc(),
            read_faults: 0,
            append_faults: 0,
        }
    }
}

/// The error of a failed call: out of memory is itself, anything else is a fault that is counted.
fn failed(error: io::Error, faults: &mut u64) -> Failed
    ensures later { faults.old ≤ faults.new }
    ensures fault { result ≡ Failed.Fault → Rose faults.old faults.new }
    ensures same { (result ≡ Failed.Fault → ⊥) → faults.new ≡ faults.old }
{
    if error.kind() == ErrorKind::OutOfMemory {
        return Failed::NoMemory;
    }
    *faults = faults.saturating_add(1);
    Failed::Fault
}

fn text_of(bytes: Vec<u8>) -> Result<Found, Failed>
    ensures want { OnErr result (result ≡ Err Failed.NoMemory) }
{
    match String::from_utf8(bytes) {
        Ok(text) => match Text::from_string(text) {
            Ok(text) => Ok(Found::Text(text)),
            Err(NoMemory) => Err(Failed::NoMemory),
        },
        Err(_) => Ok(Found::NotText),
    }
}

/// What it means that a file can't be opened: only one that isn't there is `NotOpened`. Every other refusal of the
/// system is a counted fault, since a file that is there may hold a revoked key.
fn not_opened(error: io::Error, faults: &mut u64) -> Result<Found, Failed>
    ensures missing { IsOk result ↔ (error_kind error ≡ NotFound) }
    ensures cause { HasCause faults.old faults.new result }
{
    if error.kind() == ErrorKind::NotFound {
        Ok(Found::NotOpened)
    } else {
        Err(failed(error, faults))
    }
}

/// The text of an open file.
fn read_file<F: Read + Drop>(alloc: Global, mut file: F, faults: &mut u64) -> Result<Found, Failed>
    ensures cause { HasCause faults.old faults.new result }
{
    let mut bytes = Vec::new(alloc);
    match file.read_to_end(&mut bytes) {
        Ok(_) => text_of(bytes),
        Err(error) => Err(failed(error, faults)),
    }
}

impl<'a, R: std::rt::Files> Files for StdFiles<'a, R> {
    ghost contents = { λ s. None };

    ghost read_faults = { λ s. s.read_faults };

    ghost append_faults = { λ s. s.append_faults };

    fn read_text(&mut self, path: &str) -> Result<Found, Failed> {
        match fs::open(self.system, path) {
            Ok(file) => read_file(self.alloc, file, &mut self.read_faults),
            Err(error) => not_opened(error, &mut self.read_faults),
        }
    }

    fn append(&mut self, path: &str, text: &str) -> Result<(), Failed> {
        match add_to_file(self.system, path, text) {
            Ok(()) => Ok(()),
            Err(error) => Err(failed(error, &mut self.append_faults)),
        }
    }
}

/// Adds the text at the file's end. Makes the file and its parent folders where they don't exist.
fn add_to_file<R: std::rt::Files>(system: &R, path: &str, text: &str) -> io::Result<()> {
    if let Some(parent) = Path::new(path).parent() {
        fs::create_dir_all(system, parent)?;
    }
    let mut file = OpenOptions::new()
        .append(true)
        .create(true)
        .open(system, path)?;
    file.write_all(text.as_bytes())
}
