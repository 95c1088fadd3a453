//! The command-line arguments over files, a source and a sink in memory: the text that is written, and the status.

use crate::login::KEYLESS;
use crate::scripts::{
    ACCEPTED, BY_PAIR, EXCHANGE, KEXINIT, KEY_ACCEPTED, KNOWN, LINES, LOGIN, PASSWORD, SUCCESS,
    after, calls, script_of, whole_events,
};
use sshc_run::run_words;
use sshc_run_script::{RefusingSigner, RefusingVerifier};
use sshc_wire::{MemFiles, MemSink, MemSource, NoMemory, Octets, Text};
use std::alloc::Global;
use std::test::Fail;

/// The numbers of the calls that fail: of the files, the source and the sink.
#[derive(Clone, Copy)]
struct Failing {
    file: Option<u64>,
    read: Option<u64>,
    write: Option<u64>,
}

const NOTHING_FAILS: Failing = Failing {
    file: None,
    read: None,
    write: None,
};

/// The known hosts file.
#[derive(Clone, Copy)]
enum Known {
    Missing,
    Holds(&'static str),
    /// Bytes that are no text.
    NoText(&'static [u8]),
}

/// What the arguments are run over: themselves, the known hosts file, the events that are read, and the calls that
/// fail.
#[derive(Clone, Copy)]
struct Given {
    words: &'static [&'static str],
    known: Known,
    events: &'static [&'static [u8]],
    failing: Failing,
}

/// A run: the status, how many bytes of the login's lines are written, and the line after them.
struct Row {
    case: &'static str,
    given: Given,
    status: u8,
    written: usize,
    line: &'static str,
}

/// The arguments that run the login.
const SCRIPT: &[&str] = &["script", "localhost", "13265", "known"];

const LOGIN_EVENTS: &[&[u8]] = &[KEXINIT, EXCHANGE, PASSWORD, ACCEPTED, SUCCESS];

/// The login, with a known hosts file that has the host key.
const LOGS_IN: Given = Given {
    words: SCRIPT,
    known: Known::Holds(KNOWN),
    events: LOGIN_EVENTS,
    failing: NOTHING_FAILS,
};

fn texts(alloc: Global, words: &[&str]) -> Result<Vec<Text>, NoMemory> {
    let mut texts = Vec::new(alloc);
    for word in words {
        texts.push(Text::from_str(alloc, word)?)?;
    }
    Ok(texts)
}

/// One file `known`, if there is one.
fn files_of(
    alloc: Global,
    known: Option<&[u8]>,
    failing: Option<u64>,
) -> Result<MemFiles, NoMemory> {
    let failing = calls(alloc, failing)?;
    let mut contents = Vec::new(alloc);
    if let Some(bytes) = known {
        contents.push((
            Text::from_str(alloc, "known")?,
            Octets::from_slice(alloc, bytes)?,
        ))?;
    }
    Ok(MemFiles::new(contents, failing))
}

fn bytes_of(known: Known) -> Option<&'static [u8]> {
    match known {
        Known::Missing => None,
        Known::Holds(text) => Some(text.as_bytes()),
        Known::NoText(bytes) => Some(bytes),
    }
}

/// The status of a run of these arguments over such files. The signer and the verifier that are passed in refuse: a
/// generated script has its own.
fn status_of(
    alloc: Global,
    words: &[Text],
    files: &mut MemFiles,
    source: &mut MemSource,
    sink: &mut MemSink,
) -> u8 {
    let mut signer = RefusingSigner::new(alloc);
    run_words(
        alloc,
        words,
        files,
        &mut signer,
        &RefusingVerifier,
        source,
        sink,
    )
}

/// Runs the arguments over this script. Returns the status, and the sink that was written to.
fn ran(alloc: Global, given: Given, script: Vec<u8>) -> Result<(u8, MemSink), NoMemory> {
    let words = texts(alloc, given.words)?;
    let mut files = files_of(alloc, bytes_of(given.known), given.failing.file)?;
    let mut source = MemSource::new(script, calls(alloc, given.failing.read)?);
    let mut sink = MemSink::new(Vec::new(alloc), calls(alloc, given.failing.write)?);
    let status = status_of(alloc, words.as_slice(), &mut files, &mut source, &mut sink);
    Ok((status, sink))
}

/// Whether these are so many bytes of the login's lines, and then a line.
fn are_lines_and(bytes: &[u8], written: usize, line: &str) -> bool {
    bytes.get(..written) == LINES.as_bytes().get(..written)
        && bytes.get(written..) == Some(line.as_bytes())
}

/// Whether a run over this script ends by this status and writes this.
fn tells(
    alloc: Global,
    given: Given,
    script: Vec<u8>,
    status: u8,
    written: usize,
    line: &str,
) -> Result<bool, NoMemory> {
    let (came, sink) = ran(alloc, given, script)?;
    Ok(came == status && are_lines_and(sink.contents(), written, line))
}

fn holds(alloc: Global, row: &Row) -> Result<bool, NoMemory> {
    let script = script_of(alloc, row.given.events)?;
    tells(alloc, row.given, script, row.status, row.written, row.line)
}

/// The transport failed.
const FAILED: &[u8] = b"\0\0\0\x09\0\0\0\0\0\0\0\0\x04";

const BY_FILES: &[Row] = &[
    Row {
        case: "a login",
        given: LOGS_IN,
        status: 0,
        written: 195,
        line: "ended script-end\n",
    },
    Row {
        case: "no file",
        given: Given {
            known: Known::Missing,
            ..LOGS_IN
        },
        status: 28,
        written: 0,
        line: "error unknown-key\n",
    },
    Row {
        case: "a changed key",
        given: Given {
            known: Known::Holds(
                "\n[localhost]:13265 ssh-ed25519 \
                    AAAAC3NzaC1lZDI1NTE5AAAAIA6rWI3G1sz07DnfFlrouTcysQlj2P+jpNSOEWD9OJ3X\n",
            ),
            ..LOGS_IN
        },
        status: 29,
        written: 0,
        line: "error key-changed 2\n",
    },
    Row {
        case: "a revoked key",
        given: Given {
            known: Known::Holds(
                "@revoked [localhost]:13265 ssh-ed25519 \
                    AAAAC3NzaC1lZDI1NTE5AAAAIJdD7y3aLq454yWBdwLWbieU1ebz9/cu7/QEXn9OIeZJ\n",
            ),
            ..LOGS_IN
        },
        status: 42,
        written: 0,
        line: "error revoked 1\n",
    },
    Row {
        case: "no base64",
        given: Given {
            known: Known::Holds("[localhost]:13265 ssh-ed25519 not-base64\n"),
            ..LOGS_IN
        },
        status: 30,
        written: 0,
        line: "error decode\n",
    },
    Row {
        case: "no key",
        given: Given {
            known: Known::Holds("[localhost]:13265 ssh-ed25519 AAAA\n"),
            ..LOGS_IN
        },
        status: 31,
        written: 0,
        line: "error ssh-key\n",
    },
    Row {
        case: "no text",
        given: Given {
            known: Known::NoText(b"\xff\n"),
            ..LOGS_IN
        },
        status: 3,
        written: 0,
        line: "error known-file\n",
    },
    Row {
        case: "a file that cannot be read",
        given: Given {
            failing: Failing {
                file: Some(0),
                ..NOTHING_FAILS
            },
            ..LOGS_IN
        },
        status: 3,
        written: 0,
        line: "error known-file\n",
    },
    Row {
        case: "the words of known hosts",
        given: Given {
            words: &["hosts", "keys", "localhost", "13265", "known"],
            events: &[],
            ..LOGS_IN
        },
        status: 0,
        written: 0,
        line: "1 ssh-ed25519 AAAAC3NzaC1lZDI1NTE5AAAAIJdD7y3aLq454yWBdwLWbieU1ebz9/cu7/QEXn9OIeZJ\n",
    },
];

/// The request by a key, and the error of a signer that refuses.
const SIGNER_FAULT: &str =
    "013200000005616c6963650000000e7373682d636f6e6e656374696f6e000000097075626c69636b6579000000000b7373682d65\
    643235353139000000330000000b7373682d65643235353139000000200808080808080808080808080808080808080808080808\
    080808080808080808\nerror signer-fault\n";

const BY_EVENTS: &[Row] = &[
    Row {
        case: "an empty script",
        given: Given {
            events: &[],
            ..LOGS_IN
        },
        status: 0,
        written: 0,
        line: "ended script-end\n",
    },
    Row {
        case: "no host key",
        given: Given {
            events: &[KEXINIT, KEYLESS, PASSWORD, ACCEPTED, SUCCESS],
            ..LOGS_IN
        },
        status: 28,
        written: 0,
        line: "error unknown-key\n",
    },
    Row {
        case: "a failed transport",
        given: Given {
            events: &[KEXINIT, EXCHANGE, PASSWORD, FAILED, SUCCESS],
            ..LOGS_IN
        },
        status: 27,
        written: 82,
        line: "error transport-failed\n",
    },
    Row {
        case: "a signer that refuses a login by a key",
        given: Given {
            events: &[KEXINIT, EXCHANGE, BY_PAIR, ACCEPTED, KEY_ACCEPTED, SUCCESS],
            ..LOGS_IN
        },
        status: 23,
        written: 82,
        line: SIGNER_FAULT,
    },
    Row {
        case: "a second KEXINIT",
        given: Given {
            events: &[KEXINIT, KEXINIT],
            ..LOGS_IN
        },
        status: 25,
        written: 0,
        line: "error out-of-turn 13\n",
    },
    Row {
        case: "no KEXINIT",
        given: Given {
            events: &[EXCHANGE, PASSWORD, ACCEPTED, SUCCESS],
            ..LOGS_IN
        },
        status: 25,
        written: 0,
        line: "error out-of-turn 0\n",
    },
];

#[test]
fn the_words_of_a_script_run_it_by_the_known_hosts_file(rt: HostRuntime) -> Result<(), Fail> {
    for row in BY_FILES {
        assert!(rt; holds(rt.alloc(), row)?, "{}", row.case);
    }
    Ok(())
}

#[test]
fn a_script_that_ends_or_is_refused_is_told(rt: HostRuntime) -> Result<(), Fail> {
    for row in BY_EVENTS {
        assert!(rt; holds(rt.alloc(), row)?, "{}", row.case);
    }
    Ok(())
}

const NO_FORM: &[&[&str]] = &[
    &[],
    &["script"],
    &["script", "h", "22"],
    &["script", "h", "65536", "known"],
    &["script", "h", "+22", "known"],
    &["script", "h", "", "known"],
    &["script", "h", "000022", "known"],
    &["script", "h", "22", "known", "more"],
    &["hosts", "check", "h", "70000", "known", "AAAA"],
    &["hosts", "forget", "h", "22", "known", "AAAA"],
    &["agent", "socket"],
    // Of a generated script the seed and the number of blocks are bounded.
    &["gen", "0", "0"],
    &["gen", "0", "100001"],
    &["gen", "x", "1"],
    &["gen", "18446744073709551616", "1"],
    &["gen", "+0", "1"],
    &["gen", "0", "+1"],
    &["gen", "", "1"],
];

/// Whether these words are refused.
fn has_no_form(alloc: Global, words: &'static [&'static str]) -> Result<bool, NoMemory> {
    let given = Given { words, ..LOGS_IN };
    let script = script_of(alloc, LOGIN.as_slice())?;
    tells(alloc, given, script, 2, 0, "error words\n")
}

#[test]
fn words_of_no_form_are_refused(rt: HostRuntime) -> Result<(), Fail> {
    for words in NO_FORM {
        assert!(rt; has_no_form(rt.alloc(), words)?, "{words:?}");
    }
    Ok(())
}

/// Whether the login that is cut to so many bytes is told with the place of the event that it is cut in.
fn cut_is_told(alloc: Global, size: usize) -> Result<bool, NoMemory> {
    let Some((place, written)) = after(whole_events(size)) else {
        return Ok(false);
    };
    let mut script = script_of(alloc, LOGIN.as_slice())?;
    script.truncate(size);
    if place == size {
        tells(alloc, LOGS_IN, script, 0, written, "ended script-end\n")
    } else {
        let line = format!(in alloc; "error bad-event {place}\n")?;
        tells(alloc, LOGS_IN, script, 24, written, line.as_str())
    }
}

#[test]
fn the_login_cut_at_each_byte_is_told_with_its_place(rt: HostRuntime) -> Result<(), Fail> {
    for size in 0..220usize {
        assert!(rt; cut_is_told(rt.alloc(), size)?, "cut at {size}");
    }
    Ok(())
}

/// Whether a run of the login with these failures ends so.
fn failing_tells(
    alloc: Global,
    failing: Failing,
    status: u8,
    written: usize,
    line: &str,
) -> Result<bool, NoMemory> {
    let given = Given { failing, ..LOGS_IN };
    let script = script_of(alloc, LOGIN.as_slice())?;
    tells(alloc, given, script, status, written, line)
}

/// How many bytes are written before each read that may fail; an event takes two.
const BEFORE_READS: [usize; 11] = [0, 0, 0, 0, 45, 45, 82, 82, 179, 179, 195];

#[test]
fn a_failed_read_is_told_behind_the_lines(rt: HostRuntime) -> Result<(), Fail> {
    for (read, written) in (0u64..).zip(&BEFORE_READS) {
        let failing = Failing {
            read: Some(read),
            ..NOTHING_FAILS
        };
        let holds = failing_tells(rt.alloc(), failing, 21, *written, "error read-fault\n")?;
        assert!(rt; holds, "read {read}");
    }
    Ok(())
}

/// How many bytes are written before each write that may fail.
const BEFORE_WRITES: [usize; 6] = [0, 45, 82, 179, 192, 195];

#[test]
fn nothing_is_written_after_a_failed_write(rt: HostRuntime) -> Result<(), Fail> {
    for (write, written) in (0u64..).zip(&BEFORE_WRITES) {
        let failing = Failing {
            write: Some(write),
            ..NOTHING_FAILS
        };
        assert!(rt;
            failing_tells(rt.alloc(), failing, 22, *written, "")?,
            "write {write}"
        );
    }
    Ok(())
}

/// A generated script, without files and events.
const GENERATED: Given = Given {
    words: &["gen", "0", "1"],
    known: Known::Missing,
    events: &[],
    failing: NOTHING_FAILS,
};

/// The script of seed 0 with one block. Its digest was computed outside this program (HMAC with SHA-1 of the script's
/// record lines).
const ONE_BLOCK: &[Row] = &[Row {
    case: "one block",
    given: GENERATED,
    status: 0,
    written: 0,
    line: "events 8\nrecords 8\npayloads 3\nagent 0\ndigest 5231f7675294e3fbd2af51597eca03218565708d\nended \
        script-end\n",
}];

#[test]
fn a_script_of_one_block_is_told(rt: HostRuntime) -> Result<(), Fail> {
    for row in ONE_BLOCK {
        assert!(rt; holds(rt.alloc(), row)?, "{}", row.case);
    }
    Ok(())
}

/// Whether the largest generated script is run to its end.
fn largest_ends(alloc: Global) -> Result<bool, NoMemory> {
    let given = Given {
        words: &["gen", "7", "100000"],
        ..GENERATED
    };
    let (status, sink) = ran(alloc, given, Vec::new(alloc))?;
    Ok(status == 0 && sink.contents().ends_with(b"\nended script-end\n"))
}

#[test]
fn a_script_of_100000_blocks_is_run_to_its_end(rt: HostRuntime) -> Result<(), Fail> {
    assert!(rt; largest_ends(rt.alloc())?);
    Ok(())
}
