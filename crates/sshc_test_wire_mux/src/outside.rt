//! Sources, sinks and files in memory, which fail at given calls.

use crate::let_go;
use sshc_wire::{
    Failed, Files, Found, MemFiles, MemSink, MemSource, NoMemory, Octets, Sink, Source, Text,
    read_up_to, write_whole,
};
use std::alloc::Global;

/// What each read of at most two bytes returns; the second fails.
const READS: &[Result<&[u8], Failed>] = &[Ok(b"ab"), Err(Failed::Fault), Ok(b"c")];

/// Whether the next read of at most two bytes returns this.
fn is_read<S: Source>(alloc: Global, source: &mut S, want: Result<&[u8], Failed>) -> bool {
    match read_up_to(alloc, source, 2) {
        Ok(bytes) => want == Ok(bytes.as_slice()),
        Err(error) => want == Err(error),
    }
}

fn are_read(alloc: Global) -> Result<bool, NoMemory> {
    let contents = Vec::from_slice(alloc, b"abc")?;
    let failing = vec![in alloc; 1u64]?;
    let mut source = MemSource::new(contents, failing);
    let mut are_read = true;
    for want in READS {
        are_read = are_read && is_read(alloc, &mut source, *want);
    }
    Ok(are_read)
}

#[test]
fn a_source_fails_where_it_is_told(rt: HostRuntime) {
    assert!(rt; are_read(rt.alloc()) == Ok(true));
}

/// What is written, and what each write returns; the second fails.
const WRITES: &[(&[u8], Result<(), Failed>)] = &[
    (b"ab", Ok(())),
    (b"cd", Err(Failed::Fault)),
    (b"e", Ok(())),
];

fn are_written(alloc: Global) -> Result<bool, NoMemory> {
    let failing = vec![in alloc; 1u64]?;
    let mut sink = MemSink::new(Vec::new(alloc), failing);
    let mut are_written = true;
    for (bytes, want) in WRITES {
        are_written = are_written && write_whole(&mut sink, bytes) == *want;
    }
    Ok(are_written && sink.contents() == b"abe".as_slice())
}

#[test]
fn a_sink_fails_where_it_is_told(rt: HostRuntime) {
    assert!(rt; are_written(rt.alloc()) == Ok(true));
}

/// A call on files: its path, and what is added there, or the text that is read, if there is one.
enum Call {
    Append(&'static str, &'static str, Result<(), Failed>),
    Read(&'static str, Result<Option<&'static str>, Failed>),
}

/// Calls one after another; the second and the fifth fail.
const CALLS: &[Call] = &[
    Call::Append("a", " more", Ok(())),
    Call::Append("a", " lost", Err(Failed::Fault)),
    Call::Read("a", Ok(Some("one more"))),
    Call::Read("b", Ok(None)),
    Call::Read("a", Err(Failed::Fault)),
    Call::Append("b", "new", Ok(())),
];

/// Whether the read returns this.
fn is_found(read: Result<Found, Failed>, want: Result<Option<&str>, Failed>) -> bool {
    match read {
        Ok(Found::Text(text)) => want == Ok(Some(text.as_str())),
        Ok(Found::NotOpened) => want == Ok(None),
        Ok(Found::NotText) => false,
        Err(error) => want == Err(error),
    }
}

fn is_answered(files: &mut MemFiles, call: &Call) -> bool {
    match call {
        Call::Append(path, text, want) => files.append(path, text) == *want,
        Call::Read(path, want) => is_found(files.read_text(path), *want),
    }
}

/// Adds two files with one path, of which the first counts.
fn add_two(contents: &mut Vec<(Text, Octets)>, alloc: Global) -> Result<(), NoMemory> {
    for bytes in [b"one".as_slice(), b"other".as_slice()] {
        let path = Text::from_str(alloc, "a")?;
        let bytes = Octets::from_slice(alloc, bytes)?;
        contents.push((path, bytes))?;
    }
    Ok(())
}

fn are_answered(alloc: Global) -> Result<bool, NoMemory> {
    let failing = vec![in alloc; 1u64, 4]?;
    let mut contents = Vec::new(alloc);
    add_two(&mut contents, alloc)?;
    let mut files = MemFiles::new(contents, failing);
    let mut are_answered = true;
    for call in CALLS {
        are_answered = are_answered && is_answered(&mut files, call);
    }
    let has_three = files.contents().len() == 3;
    let_go(files);
    Ok(are_answered && has_three)
}

#[test]
fn files_fail_where_they_are_told(rt: HostRuntime) {
    assert!(rt; are_answered(rt.alloc()) == Ok(true));
}
