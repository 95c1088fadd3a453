//! Runs by settings of their own, with all that they write: keepalives, packets while an exchange runs, no
//! authentication, an agent that asks; and logins of two users.

use crate::scripts::{
    ACCEPTED, EXCHANGE, Ends, KEXINIT, LINES, PASSWORD, SUCCESS, gives_text, script_of,
};
use sshc_run_script::{Config, RunError};
use sshc_wire::NoMemory;
use std::alloc::Global;
use std::test::Fail;

/// A keepalive is due.
const KEEPALIVE_DUE: &[u8] = b"\0\0\0\x09\0\0\0\0\0\0\0\0\x08";

/// The peer's packet IGNORE.
const IGNORE: &[u8] = b"\0\0\0\x0e\0\0\0\0\0\0\0\0\x03\x02\0\0\0\0";

/// The peer's banner, which is empty: a packet of nine bytes.
const BANNER: &[u8] = b"\0\0\0\x12\0\0\0\0\0\0\0\0\x03\x35\0\0\0\0\0\0\0\0";

/// The user asks for an exchange.
const REKEY: &[u8] = b"\0\0\0\x09\0\0\0\0\0\0\0\0\x24";

/// A packet of eight bytes, and one of a single byte, with an unassigned number.
const EIGHT_BYTES: &[u8] = b"\0\0\0\x11\0\0\0\0\0\0\0\0\x03\xc8\0\0\0\0\0\0\0";

const ONE_BYTE: &[u8] = b"\0\0\0\x0a\0\0\0\0\0\0\0\0\x03\xc8";

/// Another user asks, with ticket 2.
const ANOTHER: &[u8] = b"\0\0\0\x1b\0\0\0\0\0\0\0\0\x10\0\0\0\x02\0\0\0\x03bob\x01\0\0\0\x02pw";

/// A listing on connection 1 of the agent, in one frame.
const LISTING: &[u8] = b"\0\0\0\x12\0\0\0\0\0\0\0\0\x40\0\0\0\x01\0\0\0\x01\x0b";

/// The user doesn't allow what connection 1 asks for.
const NOT_ALLOWED: &[u8] = b"\0\0\0\x0e\0\0\0\0\0\0\0\0\x41\0\0\0\x01\0";

/// The settings that differ from the default ones.
#[derive(Clone, Copy)]
struct Settings {
    /// A keepalive after so many milliseconds, of which so many may stay unanswered.
    keepalive: Option<(u64, u64)>,
    window_size: u32,
    anonymous: bool,
    agent_asks: bool,
}

const DEFAULT: Settings = Settings {
    keepalive: None,
    window_size: 2_097_152,
    anonymous: false,
    agent_asks: false,
};

fn config_of(alloc: Global, settings: Settings) -> Result<Config, NoMemory> {
    let mut config = Config::default_in(alloc)?;
    if let Some((interval, most)) = settings.keepalive {
        config.keepalive_interval = Some(interval);
        config.keepalive_max = most;
    }
    config.window_size = settings.window_size;
    config.anonymous = settings.anonymous;
    config.agent_asks = settings.agent_asks;
    Ok(config)
}

/// A run: a name, the settings, the events, how it ends, and what it writes.
type Row = (
    &'static str,
    Settings,
    &'static [&'static [u8]],
    Ends,
    &'static str,
);

/// The first exchange opens the session, and a keepalive is due after a second.
const KEPT_ALIVE: Settings = Settings {
    keepalive: Some((1000, 1)),
    anonymous: true,
    ..DEFAULT
};

/// The first exchange opens the session, with a window of four bytes.
const NARROW: Settings = Settings {
    window_size: 4,
    anonymous: true,
    ..DEFAULT
};

/// A window of five bytes, of which twice as much may come while an exchange of ours runs: one banner, and no second.
const TEN_BYTES: Settings = Settings {
    window_size: 5,
    ..DEFAULT
};

/// A window of four bytes: no banner.
const FEWER_BYTES: Settings = Settings {
    window_size: 4,
    ..DEFAULT
};

/// Packets that come before the user is in, while an exchange of ours runs.
const HELD: &[&[u8]] = &[KEXINIT, EXCHANGE, PASSWORD, ACCEPTED, REKEY, BANNER, BANNER];

/// How many packets may come before the user is in, while an exchange of ours runs.
const FLOODED: &[Row] = &[
    (
        "one packet within twice the window, and one beyond it",
        TEN_BYTES,
        HELD,
        Ends::By(RunError::Pending),
        "2000000011637572766532353531392d736861323536
01050000000c7373682d7573657261757468
013200000005616c6963650000000e7373682d636f6e6e656374696f6e0000000870617373776f726400000000027077
02
2100000000
",
    ),
    (
        "a packet beyond twice the window",
        FEWER_BYTES,
        HELD,
        Ends::By(RunError::Pending),
        "2000000011637572766532353531392d736861323536
01050000000c7373682d7573657261757468
013200000005616c6963650000000e7373682d636f6e6e656374696f6e0000000870617373776f726400000000027077
02
",
    ),
];

/// Sessions that their first exchange opens, whose lines are that of its name and that of the open session; and a timer
/// without settings.
const OPENED: &[Row] = &[
    (
        "without authentication",
        Settings {
            anonymous: true,
            ..DEFAULT
        },
        &[KEXINIT, EXCHANGE],
        Ends::AtScriptEnd,
        "2000000011637572766532353531392d736861323536\n03\n",
    ),
    (
        "a keepalive without an answer",
        KEPT_ALIVE,
        &[KEXINIT, EXCHANGE, KEEPALIVE_DUE, KEEPALIVE_DUE],
        Ends::By(RunError::KeepaliveTimeout),
        "2000000011637572766532353531392d736861323536
03
0150000000156b656570616c697665406f70656e7373682e636f6d01
",
    ),
    (
        "a packet that answers for a keepalive",
        KEPT_ALIVE,
        &[KEXINIT, EXCHANGE, KEEPALIVE_DUE, IGNORE, KEEPALIVE_DUE],
        Ends::AtScriptEnd,
        "2000000011637572766532353531392d736861323536
03
0150000000156b656570616c697665406f70656e7373682e636f6d01
0150000000156b656570616c697665406f70656e7373682e636f6d01
",
    ),
    (
        "too many packets while an exchange of ours runs",
        NARROW,
        &[KEXINIT, EXCHANGE, REKEY, EIGHT_BYTES, ONE_BYTE],
        Ends::By(RunError::Pending),
        "2000000011637572766532353531392d736861323536\n03\n02\n",
    ),
    (
        "a packet after the peer has begun the exchange too",
        NARROW,
        &[KEXINIT, EXCHANGE, REKEY, KEXINIT, EIGHT_BYTES],
        Ends::By(RunError::Inconsistent),
        "2000000011637572766532353531392d736861323536\n03\n02\n",
    ),
    (
        "a timer without settings",
        DEFAULT,
        &[
            KEXINIT,
            EXCHANGE,
            PASSWORD,
            ACCEPTED,
            SUCCESS,
            KEEPALIVE_DUE,
        ],
        Ends::AtScriptEnd,
        LINES,
    ),
];

/// A later request drops an earlier one; an agent that asks does nothing that isn't allowed.
const DROPPED: &[Row] = &[
    (
        "another user asks before the service is accepted",
        DEFAULT,
        &[KEXINIT, EXCHANGE, PASSWORD, ANOTHER, ACCEPTED, SUCCESS],
        Ends::AtScriptEnd,
        "2000000011637572766532353531392d736861323536
01050000000c7373682d7573657261757468
04000000010d
013200000003626f620000000e7373682d636f6e6e656374696f6e0000000870617373776f726400000000027077
040000000200
03
",
    ),
    (
        "another user asks after a request that was written",
        DEFAULT,
        &[KEXINIT, EXCHANGE, PASSWORD, ACCEPTED, ANOTHER, SUCCESS],
        Ends::AtScriptEnd,
        "2000000011637572766532353531392d736861323536
01050000000c7373682d7573657261757468
013200000005616c6963650000000e7373682d636f6e6e656374696f6e0000000870617373776f726400000000027077
04000000010d
013200000003626f620000000e7373682d636f6e6e656374696f6e0000000870617373776f726400000000027077
040000000200
03
",
    ),
    (
        "an agent that asks",
        Settings {
            agent_asks: true,
            ..DEFAULT
        },
        &[LISTING, NOT_ALLOWED, LISTING],
        Ends::AtScriptEnd,
        "410000000100\n4000000001000000050000000105\n410000000100\n",
    ),
];

fn holds(alloc: Global, row: &Row) -> Result<bool, NoMemory> {
    let (_case, settings, events, ends, text) = *row;
    let config = config_of(alloc, settings)?;
    let script = script_of(alloc, events)?;
    Ok(gives_text(alloc, &config, script, ends, text))
}

#[test]
fn open_sessions_write_what_their_rows_say(rt: HostRuntime) -> Result<(), Fail> {
    for row in OPENED {
        assert!(rt; holds(rt.alloc(), row)?, "{}", row.0);
    }
    Ok(())
}

#[test]
fn packets_are_counted_before_the_user_is_in(rt: HostRuntime) -> Result<(), Fail> {
    for row in FLOODED {
        assert!(rt; holds(rt.alloc(), row)?, "{}", row.0);
    }
    Ok(())
}

#[test]
fn requests_are_dropped_or_refused(rt: HostRuntime) -> Result<(), Fail> {
    for row in DROPPED {
        assert!(rt; holds(rt.alloc(), row)?, "{}", row.0);
    }
    Ok(())
}
