//! The real files, in the folder in which a test runs.

use sshc_wire::{Failed, Files, Found, StdFiles};
use std::test::Fail;

fn is_text(found: &Result<Found, Failed>, wanted: &str) -> bool {
    match found {
        Ok(Found::Text(text)) => text.as_str() == wanted,
        _ => false,
    }
}

/// Whether the path holds this text.
fn holds<F: Files>(files: &mut F, path: &str, wanted: &str) -> bool {
    is_text(&files.read_text(path), wanted)
}

/// Whether no file could be opened at the path.
fn is_missing<F: Files>(files: &mut F, path: &str) -> bool {
    matches!(files.read_text(path), Ok(Found::NotOpened))
}

/// What is done to real files.
#[derive(Clone, Copy)]
enum Act {
    /// A line is added at a file's end.
    Adds(&'static str, &'static str),
    /// The file isn't there.
    Misses(&'static str),
    /// The file holds this text.
    Holds(&'static str, &'static str),
    /// The path can't be read as a file.
    Fails(&'static str),
}

fn is_done<F: Files>(files: &mut F, act: Act) -> bool {
    match act {
        Act::Adds(path, text) => files.append(path, text).is_ok(),
        Act::Misses(path) => is_missing(files, path),
        Act::Holds(path, text) => holds(files, path, text),
        Act::Fails(path) => files.read_text(path).is_err(),
    }
}

const ACTS: &[Act] = &[
    Act::Misses("folder/known"),
    Act::Adds("folder/known", "a line\n"),
    Act::Adds("folder/known", "another\n"),
    Act::Holds("folder/known", "a line\nanother\n"),
    Act::Fails("folder"),
    Act::Adds("known", "here\n"),
    Act::Holds("known", "here\n"),
    // What stands there is no folder, so nothing says that no file was meant.
    Act::Fails("known/below"),
];

#[test]
fn real_files_keep_what_is_added(rt: HostRuntime) -> Result<(), Fail> {
    let mut files = StdFiles::new(&rt);
    for (at, act) in ACTS.iter().enumerate() {
        assert!(rt; is_done(&mut files, *act), "act {at}");
    }
    Ok(())
}
