//! Files of public keys and of certificates.

use crate::keys::{KEY, USER_CERTIFICATE, has_base64};
use crate::let_go;
use crate::places::{add_file, files_of};
use sshc_key::{Error, PublicKey, load_openssh_certificate, load_public_key};
use sshc_wire::{MemFiles, NoMemory, Octets, Text};
use std::alloc::Global;

/// A file that holds KEY: its text, and the key's comment and line.
struct Loaded {
    name: &'static str,
    text: &'static str,
    comment: &'static str,
    line: &'static str,
}

const LOADED: &[Loaded] = &[
    Loaded {
        name: "a line",
        text: "ssh-ed25519 AAAAC3NzaC1lZDI1NTE5AAAAIK2pr+Bfus1hvPof4Wb/plZCzSbqadHH0u+/f4ODtKnE my comment\n",
        comment: "my comment",
        line: "ssh-ed25519 AAAAC3NzaC1lZDI1NTE5AAAAIK2pr+Bfus1hvPof4Wb/plZCzSbqadHH0u+/f4ODtKnE my comment",
    },
    Loaded {
        name: "no line feed",
        text: "ssh-ed25519 AAAAC3NzaC1lZDI1NTE5AAAAIK2pr+Bfus1hvPof4Wb/plZCzSbqadHH0u+/f4ODtKnE my comment",
        comment: "my comment",
        line: "ssh-ed25519 AAAAC3NzaC1lZDI1NTE5AAAAIK2pr+Bfus1hvPof4Wb/plZCzSbqadHH0u+/f4ODtKnE my comment",
    },
    Loaded {
        name: "no comment",
        text: "ssh-ed25519 AAAAC3NzaC1lZDI1NTE5AAAAIK2pr+Bfus1hvPof4Wb/plZCzSbqadHH0u+/f4ODtKnE\n",
        comment: "",
        line: "ssh-ed25519 AAAAC3NzaC1lZDI1NTE5AAAAIK2pr+Bfus1hvPof4Wb/plZCzSbqadHH0u+/f4ODtKnE",
    },
    Loaded {
        name: "behind a comment line",
        text: "# a comment line\r\n\r\nssh-ed25519\tAAAAC3NzaC1lZDI1NTE5AAAAIK2pr+Bfus1hvPof4Wb/plZCzSbqadHH0u+/f4ODtK\
            nE  tabs and crlf \r\n",
        comment: "tabs and crlf",
        line: "ssh-ed25519 AAAAC3NzaC1lZDI1NTE5AAAAIK2pr+Bfus1hvPof4Wb/plZCzSbqadHH0u+/f4ODtKnE tabs and crlf",
    },
    Loaded {
        name: "base64 alone",
        text: "AAAAC3NzaC1lZDI1NTE5AAAAIK2pr+Bfus1hvPof4Wb/plZCzSbqadHH0u+/f4ODtKnE",
        comment: "",
        line: "ssh-ed25519 AAAAC3NzaC1lZDI1NTE5AAAAIK2pr+Bfus1hvPof4Wb/plZCzSbqadHH0u+/f4ODtKnE",
    },
    Loaded {
        name: "white space around base64",
        text: "\n  \u{a0}AAAAC3NzaC1lZDI1NTE5AAAAIK2pr+Bfus1hvPof4Wb/plZCzSbqadHH0u+/f4ODtKnE\u{2003}\n",
        comment: "",
        line: "ssh-ed25519 AAAAC3NzaC1lZDI1NTE5AAAAIK2pr+Bfus1hvPof4Wb/plZCzSbqadHH0u+/f4ODtKnE",
    },
    Loaded {
        name: "another name",
        text: "  # no key\nanother-name\u{2003}AAAAC3NzaC1lZDI1NTE5AAAAIK2pr+Bfus1hvPof4Wb/plZCzSbqadHH0u+/f4ODtKnE\
            \u{a0}a # sign\nb",
        comment: "a # sign",
        line: "ssh-ed25519 AAAAC3NzaC1lZDI1NTE5AAAAIK2pr+Bfus1hvPof4Wb/plZCzSbqadHH0u+/f4ODtKnE a # sign",
    },
];

fn has_line(key: &PublicKey, line: &str) -> Result<bool, NoMemory> {
    let found = key.to_openssh()?;
    Ok(found.as_str() == line)
}

/// Whether the file at `key` is loaded as KEY with this comment and line.
fn is_key_loaded(alloc: Global, files: &mut MemFiles, row: &Loaded) -> bool {
    match load_public_key(alloc, files, "key") {
        Ok(key) => {
            let is_right = has_base64(&key, KEY)
                && key.comment.as_str() == row.comment
                && has_line(&key, row.line) == Ok(true);
            let_go(key);
            is_right
        }
        Err(_) => false,
    }
}

fn is_loaded(alloc: Global, row: &Loaded) -> Result<bool, NoMemory> {
    let mut contents = Vec::new(alloc);
    add_file(&mut contents, "key", row.text.as_bytes())?;
    let mut files = files_of(contents, &[])?;
    let is_loaded = is_key_loaded(alloc, &mut files, row);
    let_go(files);
    Ok(is_loaded)
}

#[test]
fn public_key_files(rt: HostRuntime) {
    for row in LOADED {
        assert!(rt; is_loaded(rt.alloc(), row) == Ok(true), "row {}", row.name);
    }
}

/// A file that is loaded as a key or as a certificate: what precedes and what follows base64 there, and the error, if
/// there is one.
struct Asked {
    name: &'static str,
    is_certificate: bool,
    front: &'static [u8],
    base64: &'static str,
    behind: &'static str,
    want: Option<Error>,
}

const ASKED: &[Asked] = &[
    Asked {
        name: "an empty key file",
        is_certificate: false,
        front: b"",
        base64: "",
        behind: "",
        want: Some(Error::CouldNotReadKey),
    },
    Asked {
        name: "a key file of comments",
        is_certificate: false,
        front: b"# a comment\n\n \t\n  # another",
        base64: "",
        behind: "",
        want: Some(Error::CouldNotReadKey),
    },
    Asked {
        name: "base64 that is no key",
        is_certificate: false,
        front: b"ssh-ed25519 ",
        base64: "AAAA",
        behind: "",
        want: Some(Error::SshKey),
    },
    Asked {
        name: "no base64",
        is_certificate: false,
        front: b"ssh-ed25519 ",
        base64: "AAA",
        behind: " comment",
        want: Some(Error::Decode),
    },
    Asked {
        name: "a name alone",
        is_certificate: false,
        front: b"ssh-ed25519",
        base64: "",
        behind: "",
        want: Some(Error::Decode),
    },
    Asked {
        name: "a key file that is no text",
        is_certificate: false,
        front: b"\xff",
        base64: "",
        behind: "",
        want: Some(Error::Utf8),
    },
    Asked {
        name: "a certificate",
        is_certificate: true,
        front: b"ssh-ed25519-cert-v01@openssh.com ",
        base64: USER_CERTIFICATE,
        behind: " user@host\n",
        want: None,
    },
    Asked {
        name: "a certificate before white space",
        is_certificate: true,
        front: b"ssh-ed25519-cert-v01@openssh.com ",
        base64: USER_CERTIFICATE,
        behind: " \r\n\u{2003}",
        want: None,
    },
    Asked {
        name: "a certificate of another name",
        is_certificate: true,
        front: b"ssh-rsa-cert-v01@openssh.com ",
        base64: USER_CERTIFICATE,
        behind: "",
        want: Some(Error::SshKey),
    },
    Asked {
        name: "two blanks",
        is_certificate: true,
        front: b"ssh-ed25519-cert-v01@openssh.com  ",
        base64: USER_CERTIFICATE,
        behind: "",
        want: Some(Error::SshKey),
    },
    Asked {
        name: "a byte before a certificate",
        is_certificate: true,
        front: b"ssh-ed25519-cert-v01@openssh.com A",
        base64: USER_CERTIFICATE,
        behind: "",
        want: Some(Error::Decode),
    },
    Asked {
        name: "a certificate without its name",
        is_certificate: true,
        front: b"",
        base64: USER_CERTIFICATE,
        behind: "",
        want: Some(Error::CouldNotReadKey),
    },
    Asked {
        name: "a certificate file that is no text",
        is_certificate: true,
        front: b"\xff",
        base64: "",
        behind: "",
        want: Some(Error::Utf8),
    },
    Asked {
        name: "a plain key",
        is_certificate: true,
        front: b"ssh-ed25519 ",
        base64: KEY,
        behind: "",
        want: Some(Error::SshKey),
    },
];

/// Four loads one after another: the paths, and the errors, if those aren't the file's. The third call of the files
/// fails.
const LOADS: &[(&str, Option<Error>)] = &[
    ("key", None),
    ("absent", Some(Error::CouldNotReadKey)),
    ("key", Some(Error::ReadFault)),
    ("key", None),
];

/// The error of a load, if there is one.
fn error_of(
    alloc: Global,
    files: &mut MemFiles,
    path: &str,
    is_certificate: bool,
) -> Option<Error> {
    if is_certificate {
        load_openssh_certificate(alloc, files, path).err()
    } else {
        load_public_key(alloc, files, path).err()
    }
}

/// Whether each of the four loads has its error or none.
fn are_answered(alloc: Global, files: &mut MemFiles, row: &Asked) -> bool {
    let mut are_right = true;
    for (path, error) in LOADS {
        let want = if error.is_some() { *error } else { row.want };
        are_right = are_right && error_of(alloc, files, path, row.is_certificate) == want;
    }
    are_right
}

fn add_asked(contents: &mut Vec<(Text, Octets)>, row: &Asked) -> Result<(), NoMemory> {
    let mut bytes = Vec::from_slice(*contents.allocator(), row.front)?;
    bytes.extend_from_slice(row.base64.as_bytes())?;
    bytes.extend_from_slice(row.behind.as_bytes())?;
    add_file(contents, "key", bytes.as_slice())
}

fn is_answered(alloc: Global, row: &Asked) -> Result<bool, NoMemory> {
    let mut contents = Vec::new(alloc);
    add_asked(&mut contents, row)?;
    let mut files = files_of(contents, &[2])?;
    let are_answered = are_answered(alloc, &mut files, row);
    let_go(files);
    Ok(are_answered)
}

#[test]
fn errors_of_key_files(rt: HostRuntime) {
    for row in ASKED {
        assert!(rt;
            is_answered(rt.alloc(), row) == Ok(true),
            "row {}",
            row.name
        );
    }
}
