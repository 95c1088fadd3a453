//! Constraints, lifetimes, questions and closed connections.

use crate::stepping::steps::{FAILURE, Gets, LISTS, Line, PutsOut, SIGNS, SUCCESS, differs};
use sshc_agent_core::{Cause, MessageType};
use std::test::Fail;

/// The answer to a listing of no keys.
const NO_KEYS: PutsOut = PutsOut::Answer(b"\x00\x00\x00\x05\x0c\x00\x00\x00\x00");

/// Confirmations are counted once; a second lifetime is refused.
const CONSTRAINTS: &[Line] = &[
    (0, 1, Gets::AddsConfirmed(10_000), SUCCESS, 0),
    (
        0,
        1,
        Gets::AddsWith(&[1, 0, 0, 0, 9, 1, 0, 0, 0, 9]),
        FAILURE,
        0,
    ),
    (0, 1, SIGNS, PutsOut::AsksKey, 0),
];

/// A lifetime of one second from moment 5.
const LIFETIME: &[Line] = &[
    (5, 1, Gets::AddsWith(&[1, 0, 0, 0, 1]), SUCCESS, 0),
    (1004, 1, LISTS, PutsOut::AnswerOf(12, 68), 0),
    (1005, 1, LISTS, NO_KEYS, 0),
];

/// A request that the user doesn't allow; meanwhile nothing is answered.
const QUESTIONS: &[Line] = &[
    (
        0,
        1,
        LISTS,
        PutsOut::AsksRequest(MessageType::RequestKeys),
        0,
    ),
    (0, 1, LISTS, PutsOut::Nothing, 0),
    (0, 1, Gets::RequestAnswer(false), FAILURE, 0),
];

/// A frame that is too long closes its connection, and so does a request that can't be read; others stay open.
const CLOSED: &[Line] = &[
    (
        0,
        1,
        Gets::TooLong(262_145),
        PutsOut::Closed(Cause::TooLong),
        0,
    ),
    (0, 1, LISTS, PutsOut::Nothing, 0),
    (
        0,
        2,
        Gets::Frame(b"\x0d"),
        PutsOut::Closed(Cause::Unreadable),
        0,
    ),
    (0, 3, LISTS, NO_KEYS, 0),
    (0, 3, Gets::Close, PutsOut::Nothing, 0),
    (0, 3, LISTS, PutsOut::Nothing, 0),
];

/// A key is removed with all others; a message of an unknown form is refused.
const REMOVED: &[Line] = &[
    (0, 1, Gets::Adds, SUCCESS, 0),
    (0, 1, Gets::Frame(b"\x13"), SUCCESS, 0),
    (0, 1, SIGNS, FAILURE, 0),
    (0, 1, Gets::Frame(b"\x0c"), FAILURE, 0),
];

/// Each scene's name, whether the agent asks about requests, and the lines.
const SCENES: &[(&str, bool, &[Line])] = &[
    (
        "confirmations count once, lifetimes do not repeat",
        false,
        CONSTRAINTS,
    ),
    ("a lifetime ends", false, LIFETIME),
    ("an agent that asks", true, QUESTIONS),
    ("closed connections stay closed", false, CLOSED),
    ("keys are removed", false, REMOVED),
];

#[test]
fn inputs_come_out_as_their_lines_say(rt: HostRuntime) -> Result<(), Fail> {
    for (name, asks, lines) in SCENES {
        assert_eq!(rt; differs(rt.alloc(), *asks, lines)?, None, "{name}");
    }
    Ok(())
}
