//! The lines that learning writes, in texts, files and home directories.

use crate::keys::{FOUR_LINES, K1};
use crate::let_go;
use crate::places::some_files;
use sshc_hosts::{check_known_hosts_path, learn_known_hosts, learn_known_hosts_path, learn_text};
use sshc_key::{Error, PublicKey, parse_public_key_base64};
use sshc_wire::{MemFiles, NoMemory, Text};
use std::alloc::Global;
use std::test::Fail;

/// A key that is learned after a text, and what is added.
struct Learned {
    name: &'static str,
    old: &'static str,
    host: &'static str,
    port: u16,
    comment: &'static str,
    added: &'static str,
}

const LEARNED: &[Learned] = &[
    Learned {
        name: "behind an open line",
        old: "a",
        host: "h",
        port: 2222,
        comment: "",
        added: "\n[h]:2222 ssh-ed25519 AAAAC3NzaC1lZDI1NTE5AAAAIJdD7y3aLq454yWBdwLWbieU1ebz9/cu7/QEXn9OIeZJ\n",
    },
    Learned {
        name: "in an empty text",
        old: "",
        host: "h",
        port: 22,
        comment: "",
        added: "\nh ssh-ed25519 AAAAC3NzaC1lZDI1NTE5AAAAIJdD7y3aLq454yWBdwLWbieU1ebz9/cu7/QEXn9OIeZJ\n",
    },
    Learned {
        name: "behind a line feed",
        old: "a\n",
        host: "h",
        port: 22,
        comment: "a comment",
        added: "h ssh-ed25519 AAAAC3NzaC1lZDI1NTE5AAAAIJdD7y3aLq454yWBdwLWbieU1ebz9/cu7/QEXn9OIeZJ a comment\n",
    },
];

/// The key with this comment.
fn with_comment(bare: PublicKey, comment: Text) -> PublicKey {
    PublicKey {
        key: bare.key,
        comment,
    }
}

/// Whether the key is learned by the row's line.
fn is_line_of(alloc: Global, key: &PublicKey, row: &Learned) -> Result<bool, NoMemory> {
    let added = learn_text(alloc, row.old, row.host, row.port, key)?;
    Ok(added.as_str() == row.added)
}

/// Whether K1 with the row's comment is learned by the row's line.
fn is_line_added(alloc: Global, row: &Learned) -> Result<bool, Error> {
    let comment = Text::from_str(alloc, row.comment)?;
    let bare = parse_public_key_base64(alloc, K1)?;
    let key = with_comment(bare, comment);
    let is_line = is_line_of(alloc, &key, row) == Ok(true);
    let_go(key);
    Ok(is_line)
}

#[test]
fn writes_a_line_of_its_own(rt: HostRuntime) {
    for row in LEARNED {
        assert!(rt;
            is_line_added(rt.alloc(), row) == Ok(true),
            "row {}",
            row.name
        );
    }
}

/// Where a key is learned: a file, or the known hosts file of a home directory, with what it holds before.
struct Place {
    name: &'static str,
    path: &'static str,
    home: Option<&'static str>,
    before: &'static str,
}

const PLACES: &[Place] = &[
    Place {
        name: "a file",
        path: "known",
        home: None,
        before: FOUR_LINES,
    },
    Place {
        name: "no file",
        path: "absent",
        home: None,
        before: "\n",
    },
    Place {
        name: "a home",
        path: "/home/a/.ssh/known_hosts",
        home: Some("/home/a"),
        before: "h ssh-ed25519 AAAAC3NzaC1lZDI1NTE5AAAAIJdD7y3aLq454yWBdwLWbieU1ebz9/cu7/QEXn9OIeZJ\n",
    },
    Place {
        name: "a new home",
        path: "/home/b/.ssh/known_hosts",
        home: Some("/home/b"),
        before: "\n",
    },
];

/// Learns the key for `g` at port 2222.
fn learn(alloc: Global, files: &mut MemFiles, key: &PublicKey, place: &Place) -> Result<(), Error> {
    match place.home {
        Some(_) => learn_known_hosts(alloc, files, "g", 2222, key, place.home),
        None => learn_known_hosts_path(alloc, files, "g", 2222, key, place.path),
    }
}

/// The bytes of the file, if there is one.
fn held<'a>(files: &'a MemFiles, path: &str) -> Option<&'a [u8]> {
    for (name, bytes) in files.contents() {
        if name.as_str() == path {
            return Some(bytes.as_slice());
        }
    }
    None
}

/// Whether the file holds K1 for `g` on a line of its own after what it held.
fn is_added(alloc: Global, files: &MemFiles, place: &Place) -> Result<bool, NoMemory> {
    let want = format!(in alloc; "{}[g]:2222 ssh-ed25519 {K1}\n", place.before)?;
    Ok(held(files, place.path) == Some(want.as_bytes()))
}

/// Whether the key is learned in the place on a line of its own, and is accepted then.
fn is_learned(alloc: Global, files: &mut MemFiles, key: &PublicKey, place: &Place) -> bool {
    learn(alloc, files, key, place) == Ok(())
        && is_added(alloc, files, place) == Ok(true)
        && check_known_hosts_path(alloc, files, "g", 2222, key, place.path) == Ok(true)
}

/// The name of the first place where the key isn't learned, or `no home` if it is learned in none.
fn first_unlearned(alloc: Global, files: &mut MemFiles, key: &PublicKey) -> Option<&'static str> {
    let mut wrong = None;
    for place in PLACES {
        if wrong.is_none() && !is_learned(alloc, files, key, place) {
            wrong = Some(place.name);
        }
    }
    if learn_known_hosts(alloc, files, "g", 2222, key, None) != Err(Error::NoHomeDir) {
        wrong = Some("no home");
    }
    wrong
}

#[test]
fn learns_in_files_and_homes(rt: HostRuntime) -> Result<(), Fail> {
    let mut files = some_files(rt.alloc(), &[])?;
    let key = parse_public_key_base64(rt.alloc(), K1)?;
    let wrong = first_unlearned(rt.alloc(), &mut files, &key);
    let_go(key);
    let_go(files);
    assert!(rt; wrong.is_none(), "row {}", wrong.unwrap_or(""));
    Ok(())
}

/// A learning that fails: the file, the call of the files that fails, and the error.
struct Fault {
    name: &'static str,
    path: &'static str,
    failing: &'static [u64],
    want: Error,
}

const FAULTS: &[Fault] = &[
    Fault {
        name: "a failed read",
        path: "known",
        failing: &[0],
        want: Error::ReadFault,
    },
    Fault {
        name: "a failed append",
        path: "known",
        failing: &[1],
        want: Error::WriteFault,
    },
    Fault {
        name: "a failed append of a new file",
        path: "absent",
        failing: &[1],
        want: Error::WriteFault,
    },
    Fault {
        name: "no text",
        path: "bytes",
        failing: &[],
        want: Error::Utf8,
    },
];

/// Whether the row's error is returned, and the files keep their bytes: those of `before`.
fn is_kept(
    alloc: Global,
    before: &MemFiles,
    key: &PublicKey,
    row: &Fault,
) -> Result<bool, NoMemory> {
    let mut files = some_files(alloc, row.failing)?;
    let learned = learn_known_hosts_path(alloc, &mut files, "h", 22, key, row.path);
    let is_same = files.contents() == before.contents();
    let_go(files);
    Ok(is_same && learned == Err(row.want))
}

/// The name of the first fault after which the files aren't as they were.
fn first_changed(alloc: Global, before: &MemFiles, key: &PublicKey) -> Option<&'static str> {
    let mut wrong = None;
    for row in FAULTS {
        if wrong.is_none() && is_kept(alloc, before, key, row) != Ok(true) {
            wrong = Some(row.name);
        }
    }
    wrong
}

/// After a failed read, a failed append, or with a file that isn't UTF-8 text, the files keep their bytes.
#[test]
fn keeps_files_at_faults(rt: HostRuntime) -> Result<(), Fail> {
    let before = some_files(rt.alloc(), &[])?;
    let key = parse_public_key_base64(rt.alloc(), K1)?;
    let wrong = first_changed(rt.alloc(), &before, &key);
    let_go(key);
    let_go(before);
    assert!(rt; wrong.is_none(), "row {}", wrong.unwrap_or(""));
    Ok(())
}
