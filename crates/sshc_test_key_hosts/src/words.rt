//! The `hosts` command-line arguments over files and a sink in memory.

use crate::keys::{FOUR_LINES, HOST_CERTIFICATE, K1, K2, K2X};
use crate::let_go;
use crate::places::{add_file, files_of};
use sshc_hosts_words::run_hosts_words;
use sshc_wire::{MemFiles, MemSink, NoMemory, Text};
use std::alloc::Global;

/// A run over a file `known` of these bytes, if there is one: the arguments, of which the last is a key where one is
/// given, the calls of the files and of the sink that fail, and what is wanted: the status, what is written, and the
/// file afterwards.
#[derive(Drop)]
struct Run<'a> {
    known: Option<&'a [u8]>,
    words: &'a str,
    key: &'a str,
    files: &'a [u64],
    sink: &'a [u64],
    status: Option<u8>,
    lines: &'a str,
    after: Option<&'a [u8]>,
}

/// Adds the arguments in a text, separated by single spaces.
fn add_words(words: &mut Vec<Text>, text: &str) -> Result<(), NoMemory> {
    for word in text.split(' ') {
        let word = Text::from_str(*words.allocator(), word)?;
        words.push(word)?;
    }
    Ok(())
}

/// The bytes of the file `known`.
fn known_in(files: &MemFiles) -> Option<&[u8]> {
    match files.contents().first() {
        Some(file) => Some(file.1.as_slice()),
        None => None,
    }
}

/// Whether the arguments do as wanted over the files.
fn are_run(files: &mut MemFiles, words: &Vec<Text>, run: &Run<'_>) -> Result<bool, NoMemory> {
    let alloc = *words.allocator();
    let failing = Vec::from_slice(alloc, run.sink)?;
    let mut sink = MemSink::new(Vec::new(alloc), failing);
    let status = run_hosts_words(alloc, words.as_slice(), files, &mut sink);
    Ok(
        status == run.status
            && sink.contents() == run.lines.as_bytes()
            && known_in(files) == run.after,
    )
}

fn is_run(alloc: Global, files: &mut MemFiles, run: &Run<'_>) -> Result<bool, NoMemory> {
    let text = format!(in alloc; "{}{}", run.words, run.key)?;
    let mut words = Vec::new(alloc);
    add_words(&mut words, text.as_str())?;
    are_run(files, &words, run)
}

/// Files with the file `known`, if there is one.
fn files_for(alloc: Global, run: &Run<'_>) -> Result<MemFiles, NoMemory> {
    let mut contents = Vec::new(alloc);
    if let Some(bytes) = run.known {
        add_file(&mut contents, "known", bytes)?;
    }
    files_of(contents, run.files)
}

/// Whether the run does as wanted.
fn is_done(alloc: Global, run: &Run<'_>) -> bool {
    match files_for(alloc, run) {
        Ok(mut files) => {
            let is_run = is_run(alloc, &mut files, run);
            let_go(files);
            is_run == Ok(true)
        }
        Err(_) => false,
    }
}

/// A run over a file `known` of this text: its arguments, of which the last is a key where one is given, its status,
/// and the lines that are written.
struct Row {
    name: &'static str,
    known: &'static str,
    words: &'static str,
    key: &'static str,
    status: u8,
    lines: &'static str,
}

/// Whether the run has this status, writes these lines, and leaves the file as it was.
fn is_answered(alloc: Global, row: &Row) -> bool {
    is_done(
        alloc,
        &Run {
            known: Some(row.known.as_bytes()),
            words: row.words,
            key: row.key,
            files: &[],
            sink: &[],
            status: Some(row.status),
            lines: row.lines,
            after: Some(row.known.as_bytes()),
        },
    )
}

const CHECKS: &[Row] = &[
    Row {
        name: "a known key",
        known: FOUR_LINES,
        words: "hosts check pijul.org 22 known ",
        key: K2,
        status: 0,
        lines: "known\n",
    },
    Row {
        name: "a known key at a port",
        known: FOUR_LINES,
        words: "hosts check localhost 13265 known ",
        key: K1,
        status: 0,
        lines: "known\n",
    },
    Row {
        name: "an absent host",
        known: FOUR_LINES,
        words: "hosts check absent 22 known ",
        key: K1,
        status: 1,
        lines: "unknown\n",
    },
    Row {
        name: "another file",
        known: FOUR_LINES,
        words: "hosts check localhost 13265 absent ",
        key: K1,
        status: 1,
        lines: "unknown\n",
    },
    Row {
        name: "a changed key",
        known: FOUR_LINES,
        words: "hosts check pijul.org 22 known ",
        key: K2X,
        status: 29,
        lines: "error key-changed 3\n",
    },
    Row {
        name: "a revoked key",
        known: "h ssh-ed25519 AAAAC3NzaC1lZDI1NTE5AAAAIA6rWI3G1sz07DnfFlrouTcysQlj2P+jpNSOEWD9OJ3X\n@revoked h \
            ssh-ed25519 AAAAC3NzaC1lZDI1NTE5AAAAIA6rWI3G1sz07DnfFlrouTcysQlj2P+jpNSOEWD9OJ3X\n",
        words: "hosts check h 22 known ",
        key: K2,
        status: 42,
        lines: "error revoked 2\n",
    },
    Row {
        name: "no base64",
        known: "h ssh-ed25519 not-base64\n",
        words: "hosts check h 22 known ",
        key: K1,
        status: 30,
        lines: "error decode\n",
    },
    Row {
        name: "no key",
        known: "h ssh-ed25519 AAAA\n",
        words: "hosts check h 22 known ",
        key: K1,
        status: 31,
        lines: "error ssh-key\n",
    },
    Row {
        name: "a word that is no key",
        known: FOUR_LINES,
        words: "hosts check pijul.org 22 known ",
        key: "AAAA",
        status: 5,
        lines: "error key\n",
    },
    Row {
        name: "a word that is no base64",
        known: FOUR_LINES,
        words: "hosts check pijul.org 22 known ",
        key: "?",
        status: 5,
        lines: "error key\n",
    },
    Row {
        name: "a certificate",
        known: FOUR_LINES,
        words: "hosts check pijul.org 22 known ",
        key: HOST_CERTIFICATE,
        status: 1,
        lines: "unknown\n",
    },
    Row {
        name: "a certificate beside no key",
        known: "h ssh-ed25519 AAAA\n",
        words: "hosts check h 22 known ",
        key: HOST_CERTIFICATE,
        status: 1,
        lines: "unknown\n",
    },
];

#[test]
fn checks_keys(rt: HostRuntime) {
    for row in CHECKS {
        assert!(rt; is_answered(rt.alloc(), row), "row {}", row.name);
    }
}

/// A comment, a key, another host's key, and a certificate.
const TWO: &str =
    "# a comment\nh ssh-ed25519 AAAAC3NzaC1lZDI1NTE5AAAAIJdD7y3aLq454yWBdwLWbieU1ebz9/cu7/QEXn9OIeZJ\nother \
        ssh-ed25519 AAAAC3NzaC1lZDI1NTE5AAAAIA6rWI3G1sz07DnfFlrouTcysQlj2P+jpNSOEWD9OJ3X\nh,g x \
        AAAAIHNzaC1lZDI1NTE5LWNlcnQtdjAxQG9wZW5zc2guY29tAAAAIDO2c3p6eMdqhi8UCe6Yfh/8c/hg0SPATwma1cWE28klAAAAIO86gCcDnr\
        1vwpMh4cM+WR89ag+tUV94EN/k1iUZxFFwAAAAAAAAAAAAAAACAAAAB2hvc3QtaWQAAAANAAAACWguZXhhbXBsZQAAAABpVbkAAAAAAGs27IAA\
        AAAAAAAAAAAAAAAAAAAzAAAAC3NzaC1lZDI1NTE5AAAAILBsDyuzGtdVhAQ+cddnpwvuwlYEO+UInLkG9v8E6XUaAAAAUwAAAAtzc2gtZWQyNT\
        UxOQAAAEDB5mjqZc/AhXyF3yf8A/A9K1mZKZxJ6m1AvEvF/CjnkOClZd5K/I5OzP91mqpt0oPElkPbvmoFMe2c+B0SjR0E a comment\n";

/// The first key of FOUR_LINES.
const ONE_KEY: &str =
    "1 ssh-ed25519 AAAAC3NzaC1lZDI1NTE5AAAAIJdD7y3aLq454yWBdwLWbieU1ebz9/cu7/QEXn9OIeZJ\n";

/// What TWO has for `h`.
const BOTH_KEYS: &str =
    "2 ssh-ed25519 AAAAC3NzaC1lZDI1NTE5AAAAIJdD7y3aLq454yWBdwLWbieU1ebz9/cu7/QEXn9OIeZJ\n4 \
        ssh-ed25519-cert-v01@openssh.com \
        AAAAIHNzaC1lZDI1NTE5LWNlcnQtdjAxQG9wZW5zc2guY29tAAAAIDO2c3p6eMdqhi8UCe6Yfh/8c/hg0SPATwma1cWE28klAAAAIO86gCcDnr\
        1vwpMh4cM+WR89ag+tUV94EN/k1iUZxFFwAAAAAAAAAAAAAAACAAAAB2hvc3QtaWQAAAANAAAACWguZXhhbXBsZQAAAABpVbkAAAAAAGs27IAA\
        AAAAAAAAAAAAAAAAAAAzAAAAC3NzaC1lZDI1NTE5AAAAILBsDyuzGtdVhAQ+cddnpwvuwlYEO+UInLkG9v8E6XUaAAAAUwAAAAtzc2gtZWQyNT\
        UxOQAAAEDB5mjqZc/AhXyF3yf8A/A9K1mZKZxJ6m1AvEvF/CjnkOClZd5K/I5OzP91mqpt0oPElkPbvmoFMe2c+B0SjR0E\n";

const LISTS: &[Row] = &[
    Row {
        name: "one key",
        known: FOUR_LINES,
        words: "hosts keys localhost 13265 known",
        key: "",
        status: 0,
        lines: ONE_KEY,
    },
    Row {
        name: "a key and a certificate",
        known: TWO,
        words: "hosts keys h 22 known",
        key: "",
        status: 0,
        lines: BOTH_KEYS,
    },
    Row {
        name: "no line",
        known: TWO,
        words: "hosts keys h 2222 known",
        key: "",
        status: 0,
        lines: "",
    },
    Row {
        name: "no file",
        known: TWO,
        words: "hosts keys h 22 absent",
        key: "",
        status: 0,
        lines: "",
    },
    Row {
        name: "no key",
        known: "h ssh-ed25519 AAAA\n",
        words: "hosts keys h 22 known",
        key: "",
        status: 31,
        lines: "error ssh-key\n",
    },
];

#[test]
fn lists_keys(rt: HostRuntime) {
    for row in LISTS {
        assert!(rt; is_answered(rt.alloc(), row), "row {}", row.name);
    }
}

/// A key that is learned: the file before, if there is one, and after.
struct Learned {
    name: &'static str,
    known: Option<&'static [u8]>,
    key: &'static str,
    after: &'static str,
}

const LEARNED: &[Learned] = &[
    Learned {
        name: "no file",
        known: None,
        key: K1,
        after: "\nh ssh-ed25519 AAAAC3NzaC1lZDI1NTE5AAAAIJdD7y3aLq454yWBdwLWbieU1ebz9/cu7/QEXn9OIeZJ\n",
    },
    Learned {
        name: "an open line",
        known: Some(b"a"),
        key: K1,
        after: "a\nh ssh-ed25519 AAAAC3NzaC1lZDI1NTE5AAAAIJdD7y3aLq454yWBdwLWbieU1ebz9/cu7/QEXn9OIeZJ\n",
    },
    Learned {
        name: "a line feed",
        known: Some(b"a\n"),
        key: K1,
        after: "a\nh ssh-ed25519 AAAAC3NzaC1lZDI1NTE5AAAAIJdD7y3aLq454yWBdwLWbieU1ebz9/cu7/QEXn9OIeZJ\n",
    },
    Learned {
        name: "a certificate",
        known: Some(b"a\n"),
        key: HOST_CERTIFICATE,
        after: "a\nh ssh-ed25519-cert-v01@openssh.com \
            AAAAIHNzaC1lZDI1NTE5LWNlcnQtdjAxQG9wZW5zc2guY29tAAAAIDO2c3p6eMdqhi8UCe6Yfh/8c/hg0SPATwma1cWE28klAAAAIO86gC\
            cDnr1vwpMh4cM+WR89ag+tUV94EN/k1iUZxFFwAAAAAAAAAAAAAAACAAAAB2hvc3QtaWQAAAANAAAACWguZXhhbXBsZQAAAABpVbkAAAAA\
            AGs27IAAAAAAAAAAAAAAAAAAAAAzAAAAC3NzaC1lZDI1NTE5AAAAILBsDyuzGtdVhAQ+cddnpwvuwlYEO+UInLkG9v8E6XUaAAAAUwAAAA\
            tzc2gtZWQyNTUxOQAAAEDB5mjqZc/AhXyF3yf8A/A9K1mZKZxJ6m1AvEvF/CjnkOClZd5K/I5OzP91mqpt0oPElkPbvmoFMe2c+B0SjR0E\
            \n",
    },
];

/// Whether the key is learned.
fn is_learned(alloc: Global, row: &Learned) -> bool {
    is_done(
        alloc,
        &Run {
            known: row.known,
            words: "hosts learn h 22 known ",
            key: row.key,
            files: &[],
            sink: &[],
            status: Some(0),
            lines: "learned\n",
            after: Some(row.after.as_bytes()),
        },
    )
}

/// The line is added after the bytes of the file, and to a new file after a line feed.
#[test]
fn learns_keys(rt: HostRuntime) {
    for row in LEARNED {
        assert!(rt; is_learned(rt.alloc(), row), "row {}", row.name);
    }
}

/// A run over a file of one byte that isn't UTF-8 text.
struct NoText {
    name: &'static str,
    words: &'static str,
    key: &'static str,
    status: u8,
    lines: &'static str,
}

const NO_TEXTS: &[NoText] = &[
    NoText {
        name: "check",
        words: "hosts check h 22 known ",
        key: K1,
        status: 3,
        lines: "error known-file\n",
    },
    NoText {
        name: "check a certificate",
        words: "hosts check h 22 known ",
        key: HOST_CERTIFICATE,
        status: 3,
        lines: "error known-file\n",
    },
    NoText {
        name: "keys",
        words: "hosts keys h 22 known",
        key: "",
        status: 3,
        lines: "error known-file\n",
    },
    NoText {
        name: "learn",
        words: "hosts learn h 22 known ",
        key: K1,
        status: 3,
        lines: "error known-file\n",
    },
    NoText {
        name: "check no key",
        words: "hosts check h 22 known ",
        key: "?",
        status: 5,
        lines: "error key\n",
    },
    NoText {
        name: "learn no key",
        words: "hosts learn h 22 known ",
        key: "?",
        status: 5,
        lines: "error key\n",
    },
];

/// Whether the run has this status, writes these lines, and leaves the file as it was.
fn is_told(alloc: Global, row: &NoText) -> bool {
    is_done(
        alloc,
        &Run {
            known: Some(b"\xff"),
            words: row.words,
            key: row.key,
            files: &[],
            sink: &[],
            status: Some(row.status),
            lines: row.lines,
            after: Some(b"\xff"),
        },
    )
}

/// A file that isn't UTF-8 text, and an argument KEY that can't be read, which is tested first.
#[test]
fn tells_what_is_no_text(rt: HostRuntime) {
    for row in NO_TEXTS {
        assert!(rt; is_told(rt.alloc(), row), "row {}", row.name);
    }
}

const OTHER_WORDS: &[&str] = &[
    "",
    "hosts",
    "host keys h 22 known",
    "hosts list h 22 known",
    "hosts keys h 22 known AAAA",
    "hosts check h 22 known",
    "hosts learn h 22 known",
    "hosts check h 22 known AAAA AAAA",
    "hosts keys h 70000 known",
    "hosts keys h 000022 known",
    "hosts keys h  known",
    "hosts keys h +22 known",
    "hosts keys h 2x known",
    "script h 22 known",
];

/// Whether `None` is returned, nothing is written, and no file is made.
fn is_unknown(alloc: Global, words: &str) -> bool {
    is_done(
        alloc,
        &Run {
            known: None,
            words,
            key: "",
            files: &[],
            sink: &[],
            status: None,
            lines: "",
            after: None,
        },
    )
}

/// Invalid arguments.
#[test]
fn knows_no_other_words(rt: HostRuntime) {
    for words in OTHER_WORDS {
        assert!(rt; is_unknown(rt.alloc(), words), "words {words}");
    }
}

/// The bytes `a` and a line feed, and the line that is learned.
const LEARNED_H: &str =
    "a\nh ssh-ed25519 AAAAC3NzaC1lZDI1NTE5AAAAIJdD7y3aLq454yWBdwLWbieU1ebz9/cu7/QEXn9OIeZJ\n";

/// A run over a file of `a` and a line feed with failing calls: which call of the files, and which of the sink, fails;
/// its status, the lines that are written, and the file after it.
struct Fault {
    name: &'static str,
    words: &'static str,
    files: &'static [u64],
    sink: &'static [u64],
    status: u8,
    lines: &'static str,
    after: &'static str,
}

const FAULTS: &[Fault] = &[
    Fault {
        name: "check, a failed read",
        words: "hosts check h 22 known ",
        files: &[0],
        sink: &[],
        status: 3,
        lines: "error known-file\n",
        after: "a\n",
    },
    Fault {
        name: "check, a failed write",
        words: "hosts check h 22 known ",
        files: &[],
        sink: &[0],
        status: 22,
        lines: "",
        after: "a\n",
    },
    Fault {
        name: "learn, a failed read",
        words: "hosts learn h 22 known ",
        files: &[0],
        sink: &[],
        status: 3,
        lines: "error known-file\n",
        after: "a\n",
    },
    Fault {
        name: "learn, a failed append",
        words: "hosts learn h 22 known ",
        files: &[1],
        sink: &[],
        status: 4,
        lines: "error known-write\n",
        after: "a\n",
    },
    Fault {
        name: "learn, a failed write",
        words: "hosts learn h 22 known ",
        files: &[],
        sink: &[0],
        status: 22,
        lines: "",
        after: LEARNED_H,
    },
    Fault {
        name: "learn, two failed calls",
        words: "hosts learn h 22 known ",
        files: &[1],
        sink: &[0],
        status: 22,
        lines: "",
        after: "a\n",
    },
];

fn is_refused(alloc: Global, row: &Fault) -> bool {
    is_done(
        alloc,
        &Run {
            known: Some(b"a\n"),
            words: row.words,
            key: K1,
            files: row.files,
            sink: row.sink,
            status: Some(row.status),
            lines: row.lines,
            after: Some(row.after.as_bytes()),
        },
    )
}

/// A failed call of the files or of the sink. Learning first reads, then adds.
#[test]
fn tells_faults(rt: HostRuntime) {
    for row in FAULTS {
        assert!(rt; is_refused(rt.alloc(), row), "row {}", row.name);
    }
}

/// Two keys of `h`.
const TWO_OF_H: &str =
    "h ssh-ed25519 AAAAC3NzaC1lZDI1NTE5AAAAIJdD7y3aLq454yWBdwLWbieU1ebz9/cu7/QEXn9OIeZJ\nh ssh-ed25519 \
        AAAAC3NzaC1lZDI1NTE5AAAAIA6rWI3G1sz07DnfFlrouTcysQlj2P+jpNSOEWD9OJ3X\n";

/// Each line is one write: the second of two lines is cut.
#[test]
fn cuts_the_second_line(rt: HostRuntime) {
    let run = Run {
        known: Some(TWO_OF_H.as_bytes()),
        words: "hosts keys h 22 known",
        key: "",
        files: &[],
        sink: &[1],
        status: Some(22),
        lines: ONE_KEY,
        after: Some(TWO_OF_H.as_bytes()),
    };
    assert!(rt; is_done(rt.alloc(), &run));
}
