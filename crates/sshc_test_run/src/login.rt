//! A password login, and scripts that are refused on their way to it.

use crate::scripts::{
    ACCEPTED, EXCHANGE, Ends, KEXINIT, KNOWN, LOGIN, PASSWORD, PLACES, SUCCESS, WRITTEN, gives,
    script_of,
};
use sshc_run_script::RunError;
use sshc_wire::NoMemory;
use std::alloc::Global;
use std::test::Fail;

/// A run: a name, the known hosts text, the events, how it ends, and how many bytes of the login's lines are written.
type Row = (
    &'static str,
    &'static str,
    &'static [&'static [u8]],
    Ends,
    usize,
);

fn holds(alloc: Global, row: &Row) -> Result<bool, NoMemory> {
    let (_case, known, events, ends, written) = *row;
    Ok(gives(alloc, known, 8192, script_of(alloc, events)?, ends, written))
}

/// Whether the events have so many bytes.
fn is_of_size(alloc: Global, events: &[&[u8]], size: usize) -> Result<bool, NoMemory> {
    Ok(script_of(alloc, events)?.len() == size)
}

/// Whether an empty script ends at once where so many events are allowed.
fn nothing_gives(alloc: Global, known: &str, max_events: u32) -> bool {
    gives(
        alloc,
        known,
        max_events,
        Vec::new(alloc),
        Ends::AtScriptEnd,
        0,
    )
}

/// A known hosts text, and how many events are allowed.
const EMPTY_RUNS: &[(&str, &str, u32)] = &[
    ("known hosts", KNOWN, 8192),
    ("no known hosts", "", 8192),
    ("no event allowed", KNOWN, 0),
];

#[test]
fn an_empty_script_ends_at_once(rt: HostRuntime) {
    for (case, known, max_events) in EMPTY_RUNS {
        assert!(rt; nothing_gives(rt.alloc(), known, *max_events), "{case}");
    }
}

/// Whether the login's first so many events have the size that is told, and write their lines. With ample memory: a run
/// that always returns out of memory is proved under every clause, and is refused here.
fn front_gives(alloc: Global, count: usize, size: usize, written: usize) -> Result<bool, NoMemory> {
    let Some(events) = LOGIN.get(..count) else {
        return Ok(false);
    };
    let holds = holds(alloc, &("", KNOWN, events, Ends::AtScriptEnd, written))?;
    Ok(holds && is_of_size(alloc, events, size)?)
}

/// The last of them is the whole login, which opens the session.
#[test]
fn each_event_writes_its_lines(rt: HostRuntime) -> Result<(), Fail> {
    for (count, (size, written)) in PLACES.iter().zip(&WRITTEN).enumerate() {
        let holds = front_gives(rt.alloc(), count, *size, *written)?;
        assert!(rt; holds, "events {count}");
    }
    Ok(())
}

const LOGIN_EVENTS: &[&[u8]] = &[KEXINIT, EXCHANGE, PASSWORD, ACCEPTED, SUCCESS];

/// Known hosts texts that don't have the host key, or can't be read.
const NOT_KNOWN: &[Row] = &[
    (
        "no line",
        "",
        LOGIN_EVENTS,
        Ends::By(RunError::UnknownKey),
        0,
    ),
    (
        "a comment",
        "#[localhost]:13265 ssh-ed25519 AAAAC3NzaC1lZDI1NTE5AAAAIJdD7y3aLq454yWBdwLWbieU1ebz9/cu7/QEXn9OIeZJ\n",
        LOGIN_EVENTS,
        Ends::By(RunError::UnknownKey),
        0,
    ),
    (
        "another port",
        "localhost ssh-ed25519 AAAAC3NzaC1lZDI1NTE5AAAAIJdD7y3aLq454yWBdwLWbieU1ebz9/cu7/QEXn9OIeZJ\n",
        LOGIN_EVENTS,
        Ends::By(RunError::UnknownKey),
        0,
    ),
    (
        "another key",
        "\n[localhost]:13265 ssh-ed25519 AAAAC3NzaC1lZDI1NTE5AAAAIA6rWI3G1sz07DnfFlrouTcysQlj2P+jpNSOEWD9OJ3X\n",
        LOGIN_EVENTS,
        Ends::By(RunError::KeyChanged { line: 2 }),
        0,
    ),
    (
        "a revoked key",
        "[localhost]:13265 ssh-ed25519 AAAAC3NzaC1lZDI1NTE5AAAAIJdD7y3aLq454yWBdwLWbieU1ebz9/cu7/QEXn9OIeZJ\n@revoked \
            [localhost]:13265 ssh-ed25519 AAAAC3NzaC1lZDI1NTE5AAAAIJdD7y3aLq454yWBdwLWbieU1ebz9/cu7/QEXn9OIeZJ\n",
        LOGIN_EVENTS,
        Ends::By(RunError::Revoked { line: 2 }),
        0,
    ),
    (
        "no base64",
        "[localhost]:13265 ssh-ed25519 not-base64\n",
        LOGIN_EVENTS,
        Ends::By(RunError::Decode),
        0,
    ),
    (
        "no key",
        "[localhost]:13265 ssh-ed25519 AAAA\n",
        LOGIN_EVENTS,
        Ends::By(RunError::SshKey),
        0,
    ),
];

/// An exchange with no host key.
pub(crate) const KEYLESS: &[u8] = b"\
\0\0\0\x4b\0\0\0\0\0\0\0\0\x02\0\0\0\0\0\0\0\0\x0asession-id\0\0\0\0\0\0\0\0\0\0\0\0\x11curve25519-sha256\0\0\0\
\0\0\0\0\0\0\0\0\0\0\0\0\0\0";

/// An exchange with a certificate, which `ssh-keygen` made, in place of a host key.
const CERTIFIED: &[u8] = b"\
\0\0\x02\x17\0\0\0\0\0\0\0\0\x02\x02\0\0\x01\xcc\0\0\0 ssh-ed25519-cert-v01@openssh.com\0\0\0 &\xb8\xb3\xb5\x0a\
\x8d\x15\x0f|B1D\xab\xbajMS\x85\xe1u\xac\x1d+F\xb9>gg=\xcd_\xa5\0\0\0 \x05\xe4e\xe8\x9d\xb8\x09\xd5\xab\xcf\xc07\
\x8cc\xa4L\x0a\x82h\x99/I\xa7\xaf.\xb6\xaa8m\x90\x5c\x90\0\0\0\0\0\0\0\x07\0\0\0\x01\0\0\0\x07user id\0\0\0\x10\
\0\0\0\x05alice\0\0\0\x03bob\0\0\0\0^\x0b\xe1\0\0\0\0\0p\xdb\xd8\x80\0\0\0\x1b\0\0\0\x0dforce-command\0\0\0\x06\
\0\0\0\x02ls\0\0\0p\0\0\0\x15permit-X11-forwarding\0\0\0\0\0\0\0\x17permit-agent-forwarding\0\0\0\0\0\0\0\x16per\
mit-port-forwarding\0\0\0\0\0\0\0\x0epermit-user-rc\0\0\0\0\0\0\0\0\0\0\03\0\0\0\x0bssh-ed25519\0\0\0 \x1a\xc7A\
\xf9\xa4O\xdeB\xea\x0dJ\xeb\xede\xb6\x9e\x04\xd0\xec\x18\xc0DI%\xd47d\x9d\x1c\x10\xd0y\0\0\0S\0\0\0\x0bssh-ed255\
19\0\0\0@\xe3\xcc\x9a[wU\xb5\x92\x15\xdc$\xfe\xdf\x5c\xc49\xa8\xcd\x9d3\xd9\xd2\x9b\x0c\xf0\xd5\xae\xe3\x16\xe4\
\xb6\xc1\xb3\x12\x89Tt\x5c6\xb6hNz\xc8\xa9x!\xaa\xf3e\x97p\xb5C\xf1\x85\xcf\0\xca$/\xed\x96\x07\0\0\0\x0asession\
-id\0\0\0\0\0\0\0\0\0\0\0\0\x11curve25519-sha256\0\0\0\0\0\0\0\0\0\0\0\0\0\0\0\0\0";

const KEYLESS_EVENTS: &[&[u8]] = &[KEXINIT, KEYLESS, PASSWORD, ACCEPTED, SUCCESS];

const CERTIFIED_EVENTS: &[&[u8]] = &[KEXINIT, CERTIFIED, PASSWORD, ACCEPTED, SUCCESS];

/// The transport failed.
const FAILED: &[u8] = b"\0\0\0\x09\0\0\0\0\0\0\0\0\x04";

/// Events that the opening refuses: exchanges without a plain host key, events out of turn, a failed transport.
const REFUSED: &[Row] = &[
    (
        "no host key",
        KNOWN,
        KEYLESS_EVENTS,
        Ends::By(RunError::UnknownKey),
        0,
    ),
    (
        "a certificate",
        KNOWN,
        CERTIFIED_EVENTS,
        Ends::By(RunError::UnknownKey),
        0,
    ),
    (
        "a second KEXINIT",
        KNOWN,
        &[KEXINIT, KEXINIT],
        Ends::By(RunError::OutOfTurn { at: 13 }),
        0,
    ),
    (
        "an exchange without KEXINIT",
        KNOWN,
        &[EXCHANGE, PASSWORD, ACCEPTED, SUCCESS],
        Ends::By(RunError::OutOfTurn { at: 0 }),
        0,
    ),
    (
        "a request while keys are exchanged",
        KNOWN,
        &[KEXINIT, PASSWORD, EXCHANGE],
        Ends::By(RunError::OutOfTurn { at: 13 }),
        0,
    ),
    (
        "a request before any exchange",
        KNOWN,
        &[PASSWORD],
        Ends::By(RunError::OutOfTurn { at: 0 }),
        0,
    ),
    (
        "a second exchange without KEXINIT",
        KNOWN,
        &[KEXINIT, EXCHANGE, EXCHANGE],
        Ends::By(RunError::OutOfTurn { at: 143 }),
        45,
    ),
    (
        "a failed transport in the service",
        KNOWN,
        &[KEXINIT, EXCHANGE, PASSWORD, FAILED, SUCCESS],
        Ends::By(RunError::TransportFailed),
        82,
    ),
    (
        "a failed transport at first",
        KNOWN,
        &[FAILED],
        Ends::By(RunError::TransportFailed),
        0,
    ),
    (
        "a packet before any request",
        KNOWN,
        &[KEXINIT, EXCHANGE, ACCEPTED],
        Ends::By(RunError::Inconsistent),
        45,
    ),
];

#[test]
fn a_host_key_that_is_not_known_writes_nothing(rt: HostRuntime) -> Result<(), Fail> {
    for row in NOT_KNOWN {
        assert!(rt; holds(rt.alloc(), row)?, "{}", row.0);
    }
    Ok(())
}

#[test]
fn events_that_the_opening_refuses_are_told(rt: HostRuntime) -> Result<(), Fail> {
    for row in REFUSED {
        assert!(rt; holds(rt.alloc(), row)?, "{}", row.0);
    }
    Ok(())
}

/// The scripts without a plain host key have the sizes that their events tell.
#[test]
fn scripts_without_a_plain_key_are_whole(rt: HostRuntime) -> Result<(), Fail> {
    for (events, size) in [(KEYLESS_EVENTS, 169), (CERTIFIED_EVENTS, 629)] {
        assert!(rt; is_of_size(rt.alloc(), events, size)?, "size {size}");
    }
    Ok(())
}
