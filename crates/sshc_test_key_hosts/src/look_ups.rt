//! The keys that are found for a host: in files made with OpenSSH 9.2's ssh-keygen, as `ssh-keygen -F` finds them, and
//! in files and home directories.

use crate::judgement::REVOKED;
use crate::keys::{K1, K2, K3, has_base64};
use crate::let_go;
use crate::places::{Place, some_files};
use sshc_hosts::{known_host_keys, known_host_keys_path, known_host_keys_text, revoked_keys_text};
use sshc_key::{Error, PublicKey};
use sshc_wire::MemFiles;
use std::alloc::Global;
use std::test::Fail;

/// The base64 of an ECDSA key, from `ssh-keygen -q -t ecdsa -b 256 -N '' -C ecdsa@example -f ec`.
const ECDSA: &str =
    "AAAAE2VjZHNhLXNoYTItbmlzdHAyNTYAAAAIbmlzdHAyNTYAAABBBJXJgLseWYIY+wQK10jNvNo5jSM1PCfIHpq++M0AHKZbveuHnm+savTYFofmP\
        C0VxEo4GdMjTVTrgnxhrfApAnE=";

/// The base64 of an RSA key, from `ssh-keygen -q -t rsa -b 2048 -N '' -C rsa@example -f rsa`.
const RSA: &str =
    "AAAAB3NzaC1yc2EAAAADAQABAAABAQDRz6fayHGWh8OHB+QCZeWvFcR+oVY5an6Bh11gb76IpbXYsNXLxWSjoA8cgD13Gjj8CT1g5ce13AODSjmVU\
        lGyzh7QKnXyjZK2Sk4C7Yt8kZVQiGO2o/RRYR8X1E/4ZzTTxe8Hf2Hi70u9eDyR1FwIbtJI63lOKAwgkc/GwhP+4R0FhsVa7ofZgXX8tDWngeP\
        dZf2jnHSeVRqB6dVD1mjUulw5x6zFRLd01O/2GW2mAX4PxSWgaq88nOoGh76uUJ+7FH42Em4UtX1p2S8uZBw9izMVulxpNqH78eBJCQ1ChGKWs\
        eoNKf5p4vODUJnqQ+lxDQ4/yEJuywz+/u51hbdD";

/// Written by hand, with several names, ports and algorithms, a blank line, a comment line and comments behind keys.
const PLAIN: &str =
    "host.example,192.0.2.7 ssh-ed25519 AAAAC3NzaC1lZDI1NTE5AAAAIJdD7y3aLq454yWBdwLWbieU1ebz9/cu7/QEXn9OIeZJ\n\
\n\
# a comment\n\
host.example ecdsa-sha2-nistp256 AAAAE2VjZHNhLXNoYTItbmlzdHAyNTYAAAAIbmlzdHAyNTYAAABBBJXJgLseWYIY+wQK10jNvNo5jSM1PCfIH\
    pq++M0AHKZbveuHnm+savTYFofmPC0VxEo4GdMjTVTrgnxhrfApAnE=\n\
[host.example]:2222 ssh-ed25519 AAAAC3NzaC1lZDI1NTE5AAAAIA6rWI3G1sz07DnfFlrouTcysQlj2P+jpNSOEWD9OJ3X a comment with \
    spaces\n\
[192.0.2.7]:2222,[host.example]:2222 ssh-rsa \
    AAAAB3NzaC1yc2EAAAADAQABAAABAQDRz6fayHGWh8OHB+QCZeWvFcR+oVY5an6Bh11gb76IpbXYsNXLxWSjoA8cgD13Gjj8CT1g5ce13AODSjmVUl\
    Gyzh7QKnXyjZK2Sk4C7Yt8kZVQiGO2o/RRYR8X1E/4ZzTTxe8Hf2Hi70u9eDyR1FwIbtJI63lOKAwgkc/GwhP+4R0FhsVa7ofZgXX8tDWngePdZf2j\
    nHSeVRqB6dVD1mjUulw5x6zFRLd01O/2GW2mAX4PxSWgaq88nOoGh76uUJ+7FH42Em4UtX1p2S8uZBw9izMVulxpNqH78eBJCQ1ChGKWseoNKf5p4v\
    ODUJnqQ+lxDQ4/yEJuywz+/u51hbdD rsa@example\n\
other.example ssh-ed25519 AAAAC3NzaC1lZDI1NTE5AAAAILIG2T/B0l0gaqj3puu510tu9N1OkQ4znY3LYuEm5zCF\n\
";

/// The same after `ssh-keygen -q -H -f hashed`, which splits the names of a line.
const HASHED: &str = "|1|3kLddJMWKVtLlXH5JvZ73aJFz78=|tifuykX9aW8waAUDQcjzGK5C+Nw= ssh-ed25519 \
        AAAAC3NzaC1lZDI1NTE5AAAAIJdD7y3aLq454yWBdwLWbieU1ebz9/cu7/QEXn9OIeZJ\n\
|1|hLP/YkjmGRODG/HCnbeFWxoOQt4=|bUUmnSq8f/IUU4S6eNfu3nZqNKo= ssh-ed25519 \
    AAAAC3NzaC1lZDI1NTE5AAAAIJdD7y3aLq454yWBdwLWbieU1ebz9/cu7/QEXn9OIeZJ\n\
\n\
# a comment\n\
|1|uk64TBqfIwKQVoCw9sSQUUReIWs=|wjaeCw6CAaAH0oa1lppG6jLy7cI= ecdsa-sha2-nistp256 \
    AAAAE2VjZHNhLXNoYTItbmlzdHAyNTYAAAAIbmlzdHAyNTYAAABBBJXJgLseWYIY+wQK10jNvNo5jSM1PCfIHpq++M0AHKZbveuHnm+savTYFofmPC\
    0VxEo4GdMjTVTrgnxhrfApAnE=\n\
|1|/Fk8nn/mAjaf8qddirAAbCX/djM=|7og8WFUWBPNTGlCf3sUc6ucMXPw= ssh-ed25519 \
    AAAAC3NzaC1lZDI1NTE5AAAAIA6rWI3G1sz07DnfFlrouTcysQlj2P+jpNSOEWD9OJ3X a comment with spaces\n\
|1|4XYW+3oRnOU3adXO4/vfJ1R0oX0=|y5Y63Vc1FDlh6FTTecZ+5Ib8vDs= ssh-rsa \
    AAAAB3NzaC1yc2EAAAADAQABAAABAQDRz6fayHGWh8OHB+QCZeWvFcR+oVY5an6Bh11gb76IpbXYsNXLxWSjoA8cgD13Gjj8CT1g5ce13AODSjmVUl\
    Gyzh7QKnXyjZK2Sk4C7Yt8kZVQiGO2o/RRYR8X1E/4ZzTTxe8Hf2Hi70u9eDyR1FwIbtJI63lOKAwgkc/GwhP+4R0FhsVa7ofZgXX8tDWngePdZf2j\
    nHSeVRqB6dVD1mjUulw5x6zFRLd01O/2GW2mAX4PxSWgaq88nOoGh76uUJ+7FH42Em4UtX1p2S8uZBw9izMVulxpNqH78eBJCQ1ChGKWseoNKf5p4v\
    ODUJnqQ+lxDQ4/yEJuywz+/u51hbdD rsa@example\n\
|1|g5ARLukBON9lg79MN6XC7KVKzXM=|o0R/tVY9UwWVQf0dUMGexYb/M+Q= ssh-rsa \
    AAAAB3NzaC1yc2EAAAADAQABAAABAQDRz6fayHGWh8OHB+QCZeWvFcR+oVY5an6Bh11gb76IpbXYsNXLxWSjoA8cgD13Gjj8CT1g5ce13AODSjmVUl\
    Gyzh7QKnXyjZK2Sk4C7Yt8kZVQiGO2o/RRYR8X1E/4ZzTTxe8Hf2Hi70u9eDyR1FwIbtJI63lOKAwgkc/GwhP+4R0FhsVa7ofZgXX8tDWngePdZf2j\
    nHSeVRqB6dVD1mjUulw5x6zFRLd01O/2GW2mAX4PxSWgaq88nOoGh76uUJ+7FH42Em4UtX1p2S8uZBw9izMVulxpNqH78eBJCQ1ChGKWseoNKf5p4v\
    ODUJnqQ+lxDQ4/yEJuywz+/u51hbdD rsa@example\n\
|1|gGwy21BuTwRt6MzWB5bjE++IBnM=|XYkO1PGpYmbPnlQiQ2+lCkpCZkQ= ssh-ed25519 \
    AAAAC3NzaC1lZDI1NTE5AAAAILIG2T/B0l0gaqj3puu510tu9N1OkQ4znY3LYuEm5zCF\n\
";

/// The plain text with CR at each line's end, from `sed 's/$/\r/' plain`. ssh-keygen doesn't hash it.
const CRLF: &str =
    "host.example,192.0.2.7 ssh-ed25519 AAAAC3NzaC1lZDI1NTE5AAAAIJdD7y3aLq454yWBdwLWbieU1ebz9/cu7/QEXn9OIeZJ\r\n\
\r\n\
# a comment\r\n\
host.example ecdsa-sha2-nistp256 AAAAE2VjZHNhLXNoYTItbmlzdHAyNTYAAAAIbmlzdHAyNTYAAABBBJXJgLseWYIY+wQK10jNvNo5jSM1PCfIH\
    pq++M0AHKZbveuHnm+savTYFofmPC0VxEo4GdMjTVTrgnxhrfApAnE=\r\n\
[host.example]:2222 ssh-ed25519 AAAAC3NzaC1lZDI1NTE5AAAAIA6rWI3G1sz07DnfFlrouTcysQlj2P+jpNSOEWD9OJ3X a comment with \
    spaces\r\n\
[192.0.2.7]:2222,[host.example]:2222 ssh-rsa \
    AAAAB3NzaC1yc2EAAAADAQABAAABAQDRz6fayHGWh8OHB+QCZeWvFcR+oVY5an6Bh11gb76IpbXYsNXLxWSjoA8cgD13Gjj8CT1g5ce13AODSjmVUl\
    Gyzh7QKnXyjZK2Sk4C7Yt8kZVQiGO2o/RRYR8X1E/4ZzTTxe8Hf2Hi70u9eDyR1FwIbtJI63lOKAwgkc/GwhP+4R0FhsVa7ofZgXX8tDWngePdZf2j\
    nHSeVRqB6dVD1mjUulw5x6zFRLd01O/2GW2mAX4PxSWgaq88nOoGh76uUJ+7FH42Em4UtX1p2S8uZBw9izMVulxpNqH78eBJCQ1ChGKWseoNKf5p4v\
    ODUJnqQ+lxDQ4/yEJuywz+/u51hbdD rsa@example\r\n\
other.example ssh-ed25519 AAAAC3NzaC1lZDI1NTE5AAAAILIG2T/B0l0gaqj3puu510tu9N1OkQ4znY3LYuEm5zCF\r\n\
";

/// A look-up of a host in a place, and the lines with their keys that are found there, or the error.
struct LookUp {
    name: &'static str,
    place: Place,
    host: &'static str,
    port: u16,
    finds: Result<&'static [(u64, &'static str)], Error>,
}

/// What `ssh-keygen -F NAME -f FILE` finds.
const LOOK_UPS: &[LookUp] = &[
    LookUp {
        name: "plain, first name",
        place: Place::Text(PLAIN),
        host: "host.example",
        port: 22,
        finds: Ok(&[(1, K1), (4, ECDSA)]),
    },
    LookUp {
        name: "plain, second name",
        place: Place::Text(PLAIN),
        host: "192.0.2.7",
        port: 22,
        finds: Ok(&[(1, K1)]),
    },
    LookUp {
        name: "plain, a port, two algorithms",
        place: Place::Text(PLAIN),
        host: "host.example",
        port: 2222,
        finds: Ok(&[(5, K2), (6, RSA)]),
    },
    LookUp {
        name: "plain, another name at a port",
        place: Place::Text(PLAIN),
        host: "192.0.2.7",
        port: 2222,
        finds: Ok(&[(6, RSA)]),
    },
    LookUp {
        name: "plain, last line",
        place: Place::Text(PLAIN),
        host: "other.example",
        port: 22,
        finds: Ok(&[(7, K3)]),
    },
    LookUp {
        name: "plain, absent",
        place: Place::Text(PLAIN),
        host: "absent.example",
        port: 22,
        finds: Ok(&[]),
    },
    LookUp {
        name: "hashed, first name",
        place: Place::Text(HASHED),
        host: "host.example",
        port: 22,
        finds: Ok(&[(1, K1), (5, ECDSA)]),
    },
    LookUp {
        name: "hashed, second name",
        place: Place::Text(HASHED),
        host: "192.0.2.7",
        port: 22,
        finds: Ok(&[(2, K1)]),
    },
    LookUp {
        name: "hashed, a port, two algorithms",
        place: Place::Text(HASHED),
        host: "host.example",
        port: 2222,
        finds: Ok(&[(6, K2), (8, RSA)]),
    },
    LookUp {
        name: "hashed, another name at a port",
        place: Place::Text(HASHED),
        host: "192.0.2.7",
        port: 2222,
        finds: Ok(&[(7, RSA)]),
    },
    LookUp {
        name: "hashed, last line",
        place: Place::Text(HASHED),
        host: "other.example",
        port: 22,
        finds: Ok(&[(9, K3)]),
    },
    LookUp {
        name: "hashed, absent",
        place: Place::Text(HASHED),
        host: "absent.example",
        port: 22,
        finds: Ok(&[]),
    },
    LookUp {
        name: "CR, first name",
        place: Place::Text(CRLF),
        host: "host.example",
        port: 22,
        finds: Ok(&[(1, K1), (4, ECDSA)]),
    },
    LookUp {
        name: "CR, second name",
        place: Place::Text(CRLF),
        host: "192.0.2.7",
        port: 22,
        finds: Ok(&[(1, K1)]),
    },
    LookUp {
        name: "CR, a port, two algorithms",
        place: Place::Text(CRLF),
        host: "host.example",
        port: 2222,
        finds: Ok(&[(5, K2), (6, RSA)]),
    },
    LookUp {
        name: "CR, another name at a port",
        place: Place::Text(CRLF),
        host: "192.0.2.7",
        port: 2222,
        finds: Ok(&[(6, RSA)]),
    },
    LookUp {
        name: "CR, last line",
        place: Place::Text(CRLF),
        host: "other.example",
        port: 22,
        finds: Ok(&[(7, K3)]),
    },
    LookUp {
        name: "CR, absent",
        place: Place::Text(CRLF),
        host: "absent.example",
        port: 22,
        finds: Ok(&[]),
    },
];

/// Here ssh-keygen finds more: by rules that this crate doesn't implement (patterns, the marker `@cert-authority`, tabs
/// and leading blanks), and a revoked key.
const FRONTS: &[LookUp] = &[
    LookUp {
        name: "a plain line",
        place: Place::Text(
            "host.example ssh-ed25519 AAAAC3NzaC1lZDI1NTE5AAAAIJdD7y3aLq454yWBdwLWbieU1ebz9/cu7/QEXn9OIeZJ\n",
        ),
        host: "host.example",
        port: 22,
        finds: Ok(&[(1, K1)]),
    },
    LookUp {
        name: "a pattern",
        place: Place::Text(
            "*.example ssh-ed25519 AAAAC3NzaC1lZDI1NTE5AAAAIJdD7y3aLq454yWBdwLWbieU1ebz9/cu7/QEXn9OIeZJ\n",
        ),
        host: "host.example",
        port: 22,
        finds: Ok(&[]),
    },
    LookUp {
        name: "a negated name",
        place: Place::Text(
            "!host.example,host.example ssh-ed25519 \
                AAAAC3NzaC1lZDI1NTE5AAAAIJdD7y3aLq454yWBdwLWbieU1ebz9/cu7/QEXn9OIeZJ\n",
        ),
        host: "host.example",
        port: 22,
        finds: Ok(&[(1, K1)]),
    },
    LookUp {
        name: "a marker that has a meaning",
        place: Place::Text(
            "@revoked host.example ssh-ed25519 AAAAC3NzaC1lZDI1NTE5AAAAIJdD7y3aLq454yWBdwLWbieU1ebz9/cu7/QEXn9OIeZJ\n",
        ),
        host: "host.example",
        port: 22,
        finds: Ok(&[]),
    },
    LookUp {
        name: "another marker",
        place: Place::Text(
            "@cert-authority host.example ssh-ed25519 \
                AAAAC3NzaC1lZDI1NTE5AAAAIJdD7y3aLq454yWBdwLWbieU1ebz9/cu7/QEXn9OIeZJ\n",
        ),
        host: "host.example",
        port: 22,
        finds: Ok(&[]),
    },
    LookUp {
        name: "tabs",
        place: Place::Text(
            "host.example\tssh-ed25519\tAAAAC3NzaC1lZDI1NTE5AAAAIJdD7y3aLq454yWBdwLWbieU1ebz9/cu7/QEXn9OIeZJ\n",
        ),
        host: "host.example",
        port: 22,
        finds: Ok(&[]),
    },
    LookUp {
        name: "a leading blank",
        place: Place::Text(
            " host.example ssh-ed25519 AAAAC3NzaC1lZDI1NTE5AAAAIJdD7y3aLq454yWBdwLWbieU1ebz9/cu7/QEXn9OIeZJ\n",
        ),
        host: "host.example",
        port: 22,
        finds: Ok(&[]),
    },
];

/// In this order; the third call of the files fails.
const IN_FILES: &[LookUp] = &[
    LookUp {
        name: "a file",
        place: Place::Path("known"),
        host: "localhost",
        port: 13265,
        finds: Ok(&[(1, K1)]),
    },
    LookUp {
        name: "a home",
        place: Place::Home(Some("/home/a")),
        host: "h",
        port: 22,
        finds: Ok(&[(1, K1)]),
    },
    LookUp {
        name: "a failed read",
        place: Place::Path("known"),
        host: "h",
        port: 22,
        finds: Err(Error::ReadFault),
    },
    LookUp {
        name: "no text",
        place: Place::Path("bytes"),
        host: "h",
        port: 22,
        finds: Err(Error::Utf8),
    },
    LookUp {
        name: "a home without a file",
        place: Place::Home(Some("/home/b")),
        host: "h",
        port: 22,
        finds: Ok(&[]),
    },
    LookUp {
        name: "no home",
        place: Place::Home(None),
        host: "h",
        port: 22,
        finds: Err(Error::NoHomeDir),
    },
];

/// A known hosts text, the keys that it records for `h` and those that it revokes, or why neither can be read.
struct Marks {
    name: &'static str,
    text: &'static str,
    recorded: Result<&'static [(u64, &'static str)], Error>,
    revoked: Result<&'static [(u64, &'static str)], Error>,
}

const MARKS: &[Marks] = &[
    Marks {
        name: "one key twice",
        text: REVOKED,
        recorded: Ok(&[(1, K2)]),
        revoked: Ok(&[(2, K2)]),
    },
    Marks {
        name: "two keys of either mark",
        text: "@revoked h ssh-ed25519 AAAAC3NzaC1lZDI1NTE5AAAAIJdD7y3aLq454yWBdwLWbieU1ebz9/cu7/QEXn9OIeZJ\nh \
            ssh-ed25519 AAAAC3NzaC1lZDI1NTE5AAAAIA6rWI3G1sz07DnfFlrouTcysQlj2P+jpNSOEWD9OJ3X\n@revoked g,h \
            ssh-ed25519 AAAAC3NzaC1lZDI1NTE5AAAAILIG2T/B0l0gaqj3puu510tu9N1OkQ4znY3LYuEm5zCF\nh x \
            AAAAC3NzaC1lZDI1NTE5AAAAIJdD7y3aLq454yWBdwLWbieU1ebz9/cu7/QEXn9OIeZJ a comment\n",
        recorded: Ok(&[(2, K2), (4, K1)]),
        revoked: Ok(&[(1, K1), (3, K3)]),
    },
    Marks {
        name: "a revoked line that is no key",
        text: "h ssh-ed25519 AAAAC3NzaC1lZDI1NTE5AAAAIJdD7y3aLq454yWBdwLWbieU1ebz9/cu7/QEXn9OIeZJ\n@revoked h \
            ssh-ed25519 AAAA\n",
        recorded: Err(Error::SshKey),
        revoked: Err(Error::SshKey),
    },
    Marks {
        name: "a recorded line that is no base64",
        text: "h ssh-ed25519 ?\n@revoked h ssh-ed25519 \
            AAAAC3NzaC1lZDI1NTE5AAAAIJdD7y3aLq454yWBdwLWbieU1ebz9/cu7/QEXn9OIeZJ\n",
        recorded: Err(Error::Decode),
        revoked: Err(Error::Decode),
    },
];

/// Looks up the host's keys.
fn look_up(
    alloc: Global,
    files: &mut MemFiles,
    row: &LookUp,
) -> Result<Vec<(u64, PublicKey)>, Error> {
    match row.place {
        Place::Text(text) => known_host_keys_text(alloc, text, row.host, row.port),
        Place::Path(path) => known_host_keys_path(alloc, files, row.host, row.port, path),
        Place::Home(home) => known_host_keys(alloc, files, row.host, row.port, home),
    }
}

/// Whether these are the lines with their keys.
fn are_keys(found: &[(u64, PublicKey)], want: &[(u64, &str)]) -> bool {
    let mut are_equal = found.len() == want.len();
    for ((line, key), (want_line, want_key)) in found.iter().zip(want) {
        are_equal = are_equal && *line == *want_line && has_base64(key, want_key);
    }
    are_equal
}

/// Whether these lines are found with their keys, or the error.
fn are_found(
    found: Result<Vec<(u64, PublicKey)>, Error>,
    finds: Result<&[(u64, &str)], Error>,
) -> bool {
    match found {
        Ok(found) => {
            let are_found = match finds {
                Ok(want) => are_keys(found.as_slice(), want),
                Err(_) => false,
            };
            let_go(found);
            are_found
        }
        Err(error) => finds.err() == Some(error),
    }
}

/// Whether the row's lines are found with their keys, or its error.
fn is_found(alloc: Global, files: &mut MemFiles, row: &LookUp) -> bool {
    are_found(look_up(alloc, files, row), row.finds)
}

/// Whether the row's keys are those that its text records for `h`, and those that it revokes.
fn are_marked(alloc: Global, row: &Marks) -> bool {
    are_found(known_host_keys_text(alloc, row.text, "h", 22), row.recorded)
        && are_found(revoked_keys_text(alloc, row.text, "h", 22), row.revoked)
}

#[test]
fn finds_what_ssh_keygen_finds(rt: HostRuntime) -> Result<(), Fail> {
    let mut files = some_files(rt.alloc(), &[])?;
    for row in LOOK_UPS {
        assert!(rt; is_found(rt.alloc(), &mut files, row), "row {}", row.name);
    }
    Ok(())
}

#[test]
fn takes_no_patterns_other_markers_or_tabs(rt: HostRuntime) -> Result<(), Fail> {
    let mut files = some_files(rt.alloc(), &[])?;
    for row in FRONTS {
        assert!(rt; is_found(rt.alloc(), &mut files, row), "row {}", row.name);
    }
    Ok(())
}

#[test]
fn finds_keys_by_their_marks(rt: HostRuntime) {
    for row in MARKS {
        assert!(rt; are_marked(rt.alloc(), row), "row {}", row.name);
    }
}

#[test]
fn finds_in_files_and_homes(rt: HostRuntime) -> Result<(), Fail> {
    let mut files = some_files(rt.alloc(), &[2])?;
    for row in IN_FILES {
        assert!(rt; is_found(rt.alloc(), &mut files, row), "row {}", row.name);
    }
    Ok(())
}
