//! Long lines and many entries.

use crate::keys::K1;
use crate::let_go;
use sshc_hosts::{judge_text, known_host_keys_text};
use sshc_key::{Error, PublicKey, parse_public_key_base64};
use sshc_wire::NoMemory;
use std::alloc::Global;
use std::test::Fail;

/// 128 bytes.
const PIECE: &str =
    "xxxxxxxxxxxxxxxxxxxxxxxxxxxxxxxxxxxxxxxxxxxxxxxxxxxxxxxxxxxxxxxxxxxxxxxxxxxxxxxxxxxxxxxxxxxxxxxxxxxxxxxxxxxxxxxxx\
        xxxxxxxxxxxxxxx";

/// A text as often as that.
fn repeated(alloc: Global, piece: &str, times: u32) -> Result<String, NoMemory> {
    let mut text = String::new(alloc);
    for _ in 0..times {
        text.push_str(piece)?;
    }
    Ok(text)
}

/// What is around a megabyte in a text, and the judgement of K1 for `h` by that text.
struct Long {
    name: &'static str,
    front: &'static str,
    behind: &'static str,
    want: Result<bool, Error>,
}

const LONG: &[Long] = &[
    Long {
        name: "behind a key",
        front: "h ssh-ed25519 AAAAC3NzaC1lZDI1NTE5AAAAIJdD7y3aLq454yWBdwLWbieU1ebz9/cu7/QEXn9OIeZJ ",
        behind: "\n",
        want: Ok(true),
    },
    Long {
        name: "before the host",
        front: "",
        behind: ",h ssh-ed25519 AAAAC3NzaC1lZDI1NTE5AAAAIJdD7y3aLq454yWBdwLWbieU1ebz9/cu7/QEXn9OIeZJ",
        want: Ok(true),
    },
    Long {
        name: "a host that begins so",
        front: "h",
        behind: " ssh-ed25519 AAAAC3NzaC1lZDI1NTE5AAAAIJdD7y3aLq454yWBdwLWbieU1ebz9/cu7/QEXn9OIeZJ",
        want: Ok(false),
    },
    Long {
        name: "in a comment",
        front: "#",
        behind: "\nh ssh-ed25519 AAAAC3NzaC1lZDI1NTE5AAAAIA6rWI3G1sz07DnfFlrouTcysQlj2P+jpNSOEWD9OJ3X\n",
        want: Err(Error::KeyChanged { line: 2 }),
    },
    Long {
        name: "in a field that is no key",
        front: "h ssh-ed25519 ",
        behind: "\n",
        want: Err(Error::SshKey),
    },
];

/// Whether K1 is judged as wanted by the text with the megabyte.
fn is_judged(alloc: Global, row: &Long, megabyte: &str, key: &PublicKey) -> Result<bool, NoMemory> {
    let text = format!(in alloc; "{}{megabyte}{}", row.front, row.behind)?;
    Ok(judge_text(alloc, text.as_str(), "h", 22, key) == row.want)
}

/// The name of the first row that isn't judged as wanted.
fn first_wrong(alloc: Global, megabyte: &str, key: &PublicKey) -> Option<&'static str> {
    let mut wrong = None;
    for row in LONG {
        if wrong.is_none() && is_judged(alloc, row, megabyte, key) != Ok(true) {
            wrong = Some(row.name);
        }
    }
    wrong
}

/// A comment of a megabyte after a key, and a host field of a megabyte.
#[test]
fn reads_a_line_of_a_megabyte(rt: HostRuntime) -> Result<(), Fail> {
    let megabyte = repeated(rt.alloc(), PIECE, 8192)?;
    assert!(rt; megabyte.len() == 1_048_576);
    let key = parse_public_key_base64(rt.alloc(), K1)?;
    let wrong = first_wrong(rt.alloc(), megabyte.as_str(), &key);
    let_go(key);
    assert!(rt; wrong.is_none(), "row {}", wrong.unwrap_or(""));
    Ok(())
}

/// What is around a thousand commas in a host field, the host that is looked up, and how many keys are found.
struct Commas {
    name: &'static str,
    front: &'static str,
    behind: &'static str,
    host: &'static str,
    finds: usize,
}

const COMMAS: &[Commas] = &[
    Commas {
        name: "before the host",
        front: "",
        behind: "h",
        host: "h",
        finds: 1,
    },
    Commas {
        name: "behind the host",
        front: "h",
        behind: "",
        host: "h",
        finds: 1,
    },
    Commas {
        name: "around another",
        front: "g,",
        behind: "g",
        host: "h",
        finds: 0,
    },
    Commas {
        name: "an empty host",
        front: "",
        behind: "",
        host: "",
        finds: 1,
    },
];

/// Whether so many keys are found.
fn is_found(alloc: Global, row: &Commas, commas: &str) -> Result<bool, NoMemory> {
    let text = format!(in alloc; "{}{commas}{} ssh-ed25519 {K1}\n", row.front, row.behind)?;
    match known_host_keys_text(alloc, text.as_str(), row.host, 22) {
        Ok(found) => {
            let count = found.len();
            let_go(found);
            Ok(count == row.finds)
        }
        Err(_) => Ok(false),
    }
}

/// A thousand commas in a host field: the entries between them are empty, and one at the end is the host.
#[test]
fn reads_a_thousand_commas(rt: HostRuntime) -> Result<(), Fail> {
    let commas = repeated(rt.alloc(), ",", 1000)?;
    for row in COMMAS {
        let is_found = is_found(rt.alloc(), row, commas.as_str());
        assert!(rt; is_found == Ok(true), "row {}", row.name);
    }
    Ok(())
}
