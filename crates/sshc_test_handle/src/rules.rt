//! The runner's rules, turn by turn: what is done, and what it is answered, a line each.

use crate::turns::{
    Act, Asked, Done, First, GREETING, Kept, Kind, OPENED, QUIET, Saw, Scene, differs,
};
use sshc_client::Error;
use sshc_wire::NoMemory;
use std::alloc::Global;
use std::test::*;

/// Nothing comes: the inactivity timer runs out once its time has passed since the first turn, and not before.
const INACTIVE: &[Done] = &[
    (Act::Turn(5), Saw::Idle),
    (Act::Turn(104), Saw::Idle),
    (Act::Turn(105), Saw::Refused(Error::InactivityTimeout)),
    (Act::Turn(106), Saw::Over),
];

/// A transport event moves the moment from which the inactivity timer counts.
const HEARD: &[Done] = &[
    (Act::Turn(90), Saw::Took),
    (Act::Turn(189), Saw::Idle),
    (Act::Turn(190), Saw::Refused(Error::InactivityTimeout)),
];

/// The keepalive timer runs out by the later of the last transport event and the last keepalive timer.
const KEPT_ALIVE: &[Done] = &[
    (Act::Turn(0), Saw::Idle),
    (Act::Turn(49), Saw::Idle),
    (Act::Turn(50), Saw::Took),
    (Act::Turn(99), Saw::Idle),
    (Act::Turn(100), Saw::Took),
];

/// What is submitted waits while an exchange runs.
const EXCHANGING: &[Done] = &[
    (Act::Turn(0), Saw::Took),
    (Act::Submit(Asked::Ping), Saw::Submitted(1)),
    (Act::Turn(0), Saw::Idle),
];

/// The second packet can't be handed on: the session is refused, and a ping that was handed on is dropped.
const BROKEN: &[Done] = &[
    (Act::Settle, Saw::Idle),
    (Act::Submit(Asked::Ping), Saw::Submitted(1)),
    (Act::Submit(Asked::Ping), Saw::Submitted(2)),
    (Act::Settle, Saw::Refused(Error::TransportFailed)),
    (Act::Take(Kept::Done, 1), Saw::Refused(Error::Disconnect)),
    (Act::Take(Kept::Done, 2), Saw::Refused(Error::Disconnect)),
];

/// A reply to a channel that the server opened is taken before a ping that was submitted before it.
const REPLIED: &[Done] = &[
    (Act::Settle, Saw::Idle),
    (Act::Submit(Asked::Ping), Saw::Submitted(1)),
    (Act::Submit(Asked::Accept), Saw::Submitted(0)),
    (Act::Turn(0), Saw::Took),
    (Act::Turn(0), Saw::Took),
    (Act::Take(Kept::Done, 1), Saw::Nothing),
    (Act::Turn(0), Saw::Took),
    (Act::Take(Kept::Done, 1), Saw::Success),
    (Act::Take(Kept::Done, 1), Saw::Nothing),
];

/// While responses to prompts are awaited nothing but what is submitted is taken; there are none to respond to before.
const PROMPTED: &[Done] = &[
    (
        Act::Submit(Asked::Responses),
        Saw::Refused(Error::RecvError),
    ),
    (Act::Settle, Saw::Idle),
    (Act::Awaits, Saw::No),
    (Act::Submit(Asked::Prompts), Saw::Submitted(1)),
    (Act::Settle, Saw::Idle),
    (Act::Awaits, Saw::Yes),
    (Act::Take(Kept::Prompts, 1), Saw::Prompted),
    (Act::Submit(Asked::Responses), Saw::Submitted(1)),
    (Act::Turn(0), Saw::Took),
    (Act::Awaits, Saw::No),
];

/// The server names its signature algorithms, and none of them is for RSA keys (RFC 8308, section 3.1).
const NO_HASH: &[Done] = &[
    (Act::Settle, Saw::Idle),
    (
        Act::Sends(b"\x07\0\0\0\x01\0\0\0\x0fserver-sig-algs\0\0\0\x0bssh-ed25519"),
        Saw::Success,
    ),
    (Act::Settle, Saw::Idle),
    (Act::Submit(Asked::Algorithms), Saw::Submitted(1)),
    (Act::Settle, Saw::Idle),
    (Act::Take(Kept::Algorithms, 1), Saw::NoRsaName),
];

/// A proof of host keys that the server refuses.
const NOT_PROVED: &[Done] = &[
    (Act::Settle, Saw::Idle),
    (Act::Submit(Asked::Prove), Saw::Submitted(1)),
    (Act::Settle, Saw::Idle),
    (Act::Take(Kept::Done, 1), Saw::Refused(Error::RequestDenied)),
];

/// A scene's name, what its session is made with, and its lines.
const SCENES: &[(&str, Scene, &[Done])] = &[
    (
        "ends for inactivity",
        Scene {
            inactivity_timeout: Some(100),
            ..QUIET
        },
        INACTIVE,
    ),
    (
        "hears the transport",
        Scene {
            inactivity_timeout: Some(100),
            first: First::Kexinit,
            ..QUIET
        },
        HEARD,
    ),
    (
        "keeps alive",
        Scene {
            keepalive_interval: Some(50),
            ..QUIET
        },
        KEPT_ALIVE,
    ),
    (
        "waits for an exchange",
        Scene {
            first: First::Kexinit,
            ..QUIET
        },
        EXCHANGING,
    ),
    (
        "fails with the transport",
        Scene {
            host: Kind::Silent,
            good: 1,
            ..OPENED
        },
        BROKEN,
    ),
    ("takes replies first", OPENED, REPLIED),
    ("waits for responses", GREETING, PROMPTED),
    ("has no hash for rsa", GREETING, NO_HASH),
    (
        "proves no keys",
        Scene {
            host: Kind::Refusing,
            ..OPENED
        },
        NOT_PROVED,
    ),
];

#[test]
fn turns_are_answered_as_their_lines_say(rt: HostRuntime) -> Result<(), Fail> {
    for (name, scene, lines) in SCENES {
        assert_eq!(&rt; differs(rt.alloc(), *scene, lines)?, None, "{name}");
    }
    Ok(())
}

/// The ends of a session: who ends it, how its last turn reports that, and how `ended` does.
const ENDS: [(Act, Saw, Saw, Saw); 5] = [
    // The server disconnects by the application's wish.
    (
        Act::Sends(b"\x01\0\0\0\x0b\0\0\0\0\0\0\0\0"),
        Saw::Success,
        Saw::Ended,
        Saw::Ended,
    ),
    (
        Act::Submit(Asked::Disconnect),
        Saw::Submitted(0),
        Saw::Ended,
        Saw::Ended,
    ),
    (
        Act::Submit(Asked::Gone),
        Saw::Success,
        Saw::Ended,
        Saw::Ended,
    ),
    (Act::Closes, Saw::Success, Saw::Ended, Saw::Ended),
    // A disconnect that can't be read.
    (
        Act::Sends(b"\x01\0"),
        Saw::Success,
        Saw::Refused(Error::SshEncoding),
        Saw::Refused(Error::Disconnect),
    ),
];

/// A session whose server answers no ping.
const SILENT: Scene = Scene {
    host: Kind::Silent,
    ..OPENED
};

/// Ends a session in one way behind a ping, and returns the number of the first line that is answered otherwise.
fn end_differs(
    alloc: Global,
    by: Act,
    came: Saw,
    last: Saw,
    ended: Saw,
) -> Result<Option<usize>, NoMemory> {
    let lines = [
        (Act::Settle, Saw::Idle),
        (Act::Submit(Asked::Ping), Saw::Submitted(1)),
        (Act::Settle, Saw::Idle),
        (Act::Ended, Saw::No),
        (by, came),
        (Act::Settle, last),
        (Act::Turn(0), Saw::Over),
        (Act::Take(Kept::Done, 1), Saw::Refused(Error::Disconnect)),
        (Act::Submit(Asked::Ping), Saw::Refused(Error::SendError)),
        (
            Act::Submit(Asked::Responses),
            Saw::Refused(Error::SendError),
        ),
        (Act::Ended, ended),
    ];
    differs(alloc, SILENT, &lines)
}

/// An end of each kind answers everyone who waits, and nothing is submitted behind it.
#[test]
fn ends_for_everyone(rt: HostRuntime) -> Result<(), Fail> {
    for (by, came, last, ended) in ENDS {
        assert_eq!(&rt; end_differs(rt.alloc(), by, came, last, ended)?, None);
    }
    Ok(())
}
