//! A source, a sink and files over memory, which fail at the calls that a test names.

ghost use Rattle.std.specs.Prelude.{◌≡◌, ◌≤◌, ℕ, List, [], Option, Some, Err, IfOk, OnOk, OnErr, drop, length};
ghost use Rattle.std.specs.Prelude.{option_copied, min};
ghost use Rattle.std.specs.Prelude.{◌++◌, IsErrOf, take, true, ◌<◌};
ghost use Rattle.sshc_wire.specs.Beside.{no_side};
ghost use Rattle.sshc_wire.specs.Contents.{bytes_of, found_in, with_text};
ghost use Rattle.sshc_wire.specs.Faults.{CountsEmpty, CountsOne, HasCause};
ghost use Rattle.sshc_wire.specs.Memory.{is_failing};

use crate::error::NoMemory;
use crate::files::{Files, Found};
use crate::octets::Octets;
use crate::sink::Sink;
use crate::source::{Failed, Source, with_empty};
use crate::text::Text;
use std::alloc::{AllocError, Global};
use std::marker::Model;

/// Bytes in memory, which contracts see as the bytes that remain, with the numbers of the calls that fail.
#[derive(Drop)]
pub struct MemSource {
    contents: Vec<u8>,
    at: usize,
    failing: Vec<u64>,
    calls: u64,
    empty: u64,
    faults: u64,
}

impl Model for MemSource {
    ghost use Rattle.std.specs.Prelude.{drop, length, ◌≤◌};
    ghost use Rattle.sshc_wire.specs.Memory.{HeldSource};

    ghost Value = { HeldSource };

    ghost view = { λ s. record {
      left = drop s.at s.contents.items;
      failing = s.failing.items;
      calls = s.calls;
      empty = s.empty;
      faults = s.faults;
    } };

    ghost invariant = { λ s. s.at ≤ length s.contents.items };
}

impl MemSource {
    /// These bytes. The calls of the numbers in `failing`, counted from 0, fail.
    pub fn new(contents: Vec<u8>, failing: Vec<u64>) -> MemSource
        ensures { result ≡ record { left = contents.items; failing = failing.items; calls = 0; empty = 0; faults = 0 } }
    {
        MemSource {
            contents,
            at: 0,
            failing,
            calls: 0,
            empty: 0,
            faults: 0,
        }
    }
}

/// Copies as many bytes as the buffer holds, or all that there are.
fn copy_front(left: &[u8], buf: &mut [u8]) -> usize
    ensures count { result ≡ min (length left.now) (length buf.old) }
    ensures same { take result buf.new ≡ take result left.now }
{
    let count = left.len().min(buf.len());
    buf[..count].copy_from_slice(&left[..count]);
    count
}

impl Source for MemSource {
    ghost left = { λ s. Some s.left };

    ghost faults = { λ s. s.faults };

    ghost reads = { λ s. s.calls };

    ghost empty_reads = { λ s. s.empty };

    ghost beside = { λ s. no_side };

    /// Fails exactly at the calls whose numbers were named.
    fn read(&mut self, buf: &mut [u8]) -> Result<usize, Failed>
        ensures bound { IfOk result (λ n. n ≤ length buf.new) }
        ensures bytes { IfOk result (λ n. self.old.left ≡ take n buf.new ++ self.new.left) }
        ensures end { IfOk result (λ n. n ≡ 0 → 0 < length buf.new → self.new.left ≡ []) }
        ensures none { OnErr result (self.new.left ≡ self.old.left) }
        ensures cause { HasCause self.old.faults self.new.faults result }
        ensures counted { CountsOne self.old.calls self.new.calls }
        ensures empty { CountsEmpty result (length buf.new) self.old.empty self.new.empty }
        ensures apart { no_side ≡ no_side }
        ensures fails { is_failing self.old.failing self.old.calls ≡ true → result ≡ Err Failed.Fault }
        ensures fault { IsErrOf result Failed.Fault → is_failing self.old.failing self.old.calls ≡ true }
        ensures failing { self.new.failing ≡ self.old.failing }
    {
        let call = self.calls;
        self.calls = call.saturating_add(1);
        if self.failing.contains(&call) {
            self.empty = self.empty.saturating_add(1);
            self.faults = self.faults.saturating_add(1);
            return Err(Failed::Fault);
        }
        let count = copy_front(&self.contents[self.at..], buf);
        self.at += count;
        self.empty = with_empty(self.empty, count, buf.len());
        Ok(count)
    }
}

/// A list of bytes in memory, which contracts see as that list, with the numbers of the calls that fail.
#[derive(Drop)]
pub struct MemSink {
    contents: Vec<u8>,
    failing: Vec<u64>,
    calls: u64,
    empty: u64,
    faults: u64,
}

impl Model for MemSink {
    ghost use Rattle.sshc_wire.specs.Memory.{HeldSink};

    ghost Value = { HeldSink };

    ghost view = { λ s. record {
      contents = s.contents.items;
      failing = s.failing.items;
      calls = s.calls;
      empty = s.empty;
      faults = s.faults;
    } };
}

impl MemSink {
    /// A sink that holds these bytes. The calls of the numbers in `failing`, counted from 0, fail.
    pub fn new(contents: Vec<u8>, failing: Vec<u64>) -> MemSink
        ensures { result ≡ record
            { contents = contents.items; failing = failing.items; calls = 0; empty = 0; faults = 0 } }
    {
        MemSink {
            contents,
            failing,
            calls: 0,
            empty: 0,
            faults: 0,
        }
    }

    pub fn contents(&self) -> &[u8]
        ensures { result.now ≡ self.now.contents }
    {
        self.contents.as_slice()
    }
}

impl Sink for MemSink {
    ghost contents = { λ s. Some s.contents };

    ghost faults = { λ s. s.faults };

    ghost writes = { λ s. s.calls };

    ghost empty_writes = { λ s. s.empty };

    ghost beside = { λ s. no_side };

    /// Takes the whole piece. Fails exactly at the calls whose numbers were named, or out of memory.
    fn write(&mut self, piece: &[u8]) -> Result<usize, Failed>
        ensures bound { IfOk result (λ n. n ≡ length piece.now) }
        ensures bytes { OnOk result (self.new.contents ≡ self.old.contents ++ piece.now) }
        ensures none { OnErr result (self.new.contents ≡ self.old.contents) }
        ensures cause { HasCause self.old.faults self.new.faults result }
        ensures counted { CountsOne self.old.calls self.new.calls }
        ensures empty { CountsEmpty result (length piece.now) self.old.empty self.new.empty }
        ensures apart { no_side ≡ no_side }
        ensures fails { is_failing self.old.failing self.old.calls ≡ true → result ≡ Err Failed.Fault }
        ensures fault { IsErrOf result Failed.Fault → is_failing self.old.failing self.old.calls ≡ true }
        ensures failing { self.new.failing ≡ self.old.failing }
    {
        let call = self.calls;
        self.calls = call.saturating_add(1);
        if self.failing.contains(&call) {
            self.empty = self.empty.saturating_add(1);
            self.faults = self.faults.saturating_add(1);
            return Err(Failed::Fault);
        }
        match self.contents.extend_from_slice(piece) {
            Ok(()) => Ok(piece.len()),
            Err(AllocError) => {
                self.empty = self.empty.saturating_add(1);
                Err(Failed::NoMemory)
            }
        }
    }
}

/// Files in memory, which contracts see as paths and bytes, with the numbers of the calls that fail.
#[derive(Drop)]
pub struct MemFiles {
    alloc: Global,
    contents: Vec<(Text, Octets)>,
    failing: Vec<u64>,
    calls: u64,
    read_faults: u64,
    append_faults: u64,
}

impl Model for MemFiles {
    ghost use Rattle.sshc_wire.specs.Memory.{HeldFiles};

    ghost Value = { HeldFiles };

    ghost view = { λ s. record {
      contents = s.contents.items;
      failing = s.failing.items;
      calls = s.calls;
      read_faults = s.read_faults;
      append_faults = s.append_faults;
    } };
}

impl MemFiles {
    /// Files of these paths and bytes; of two with one path the first counts. The calls of the numbers in `failing`,
    /// reads and appends counted together from 0, fail.
    pub fn new(contents: Vec<(Text, Octets)>, failing: Vec<u64>) -> MemFiles
        ensures { result ≡ record
            { contents = contents.items; failing = failing.items; calls = 0; read_faults = 0; append_faults = 0 } }
    {
        MemFiles {
            alloc: *contents.allocator(),
            contents,
            failing,
            calls: 0,
            read_faults: 0,
            append_faults: 0,
        }
    }

    pub fn contents(&self) -> &[(Text, Octets)]
        ensures { result.now ≡ self.now.contents }
    {
        self.contents.as_slice()
    }
}

/// The bytes of the first file of this path.
fn find_file<'a>(files: &'a [(Text, Octets)], path: &str) -> Option<&'a Octets>
    ensures { option_copied result ≡ bytes_of files.now path.now }
{
    for (name, bytes) in files {
        if name.as_str() == path {
            return Some(bytes);
        }
    }
    None
}

/// Adds the text to the first file of this path, or as a new file.
fn add_text(
    alloc: Global,
    files: &mut Vec<(Text, Octets)>,
    path: &str,
    text: &str,
) -> Result<(), NoMemory>
    ensures ok { OnOk result (files.new.items ≡ with_text files.old.items path.now text.now) }
    ensures err { OnErr result (files.new.items ≡ files.old.items) }
{
    for at in 0..files.len() {
        if files[at].0.as_str() == path {
            let mut bytes = files[at].1.copy()?.into_vec();
            bytes.extend_from_slice(text.as_bytes())?;
            files[at].1 = Octets::from_vec(bytes)?;
            return Ok(());
        }
    }
    let file = (
        Text::from_str(alloc, path)?,
        Octets::from_slice(alloc, text.as_bytes())?,
    );
    files.push(file)?;
    Ok(())
}

impl Files for MemFiles {
    ghost contents = { λ s. Some s.contents };

    ghost read_faults = { λ s. s.read_faults };

    ghost append_faults = { λ s. s.append_faults };

    /// Fails exactly at the calls whose numbers were named, or out of memory.
    fn read_text(&mut self, path: &str) -> Result<Found, Failed>
        ensures found { IfOk result (λ answer. answer ≡ found_in (bytes_of self.old.contents path.now)) }
        ensures same { self.new.contents ≡ self.old.contents }
        ensures cause { HasCause self.old.read_faults self.new.read_faults result }
        ensures others { self.new.append_faults ≡ self.old.append_faults }
        ensures fails { is_failing self.old.failing self.old.calls ≡ true → result ≡ Err Failed.Fault }
        ensures fault { IsErrOf result Failed.Fault → is_failing self.old.failing self.old.calls ≡ true }
        ensures failing { (self.new.failing ≡ self.old.failing) × CountsOne self.old.calls self.new.calls }
    {
        let call = self.calls;
        self.calls = call.saturating_add(1);
        if self.failing.contains(&call) {
            self.read_faults = self.read_faults.saturating_add(1);
            return Err(Failed::Fault);
        }
        match find_file(self.contents.as_slice(), path) {
            None => Ok(Found::NotOpened),
            Some(bytes) => found_text(self.alloc, bytes.as_slice()),
        }
    }

    /// Fails exactly at the calls whose numbers were named, or out of memory.
    fn append(&mut self, path: &str, text: &str) -> Result<(), Failed>
        ensures added { OnOk result (self.new.contents ≡ with_text self.old.contents path.now text.now) }
        ensures none { OnErr result (self.new.contents ≡ self.old.contents) }
        ensures cause { HasCause self.old.append_faults self.new.append_faults result }
        ensures others { self.new.read_faults ≡ self.old.read_faults }
        ensures fails { is_failing self.old.failing self.old.calls ≡ true → result ≡ Err Failed.Fault }
        ensures fault { IsErrOf result Failed.Fault → is_failing self.old.failing self.old.calls ≡ true }
        ensures failing { (self.new.failing ≡ self.old.failing) × CountsOne self.old.calls self.new.calls }
    {
        let call = self.calls;
        self.calls = call.saturating_add(1);
        if self.failing.contains(&call) {
            self.append_faults = self.append_faults.saturating_add(1);
            return Err(Failed::Fault);
        }
        match add_text(self.alloc, &mut self.contents, path, text) {
            Ok(()) => Ok(()),
            Err(NoMemory) => Err(Failed::NoMemory),
        }
    }
}

/// A copy of the bytes, if they are text.
#[tactic(auto, using(crate::proofs::Utf8::utf8_tests))]
fn found_text(alloc: Global, bytes: &[u8]) -> Result<Found, Failed>
    ensures found { IfOk result (λ answer. answer ≡ found_in (Some bytes.now)) }
    ensures want { OnErr result (result ≡ Err Failed.NoMemory) }
{
    match str::from_utf8(bytes) {
        Ok(text) => match Text::from_str(alloc, text) {
            Ok(text) => Ok(Found::Text(text)),
            Err(NoMemory) => Err(Failed::NoMemory),
        },
        Err(_) => Ok(Found::NotText),
    }
}
