//! What a locked agent refuses.

use crate::frames::{LOCKS, UNLOCKS};
use crate::stepping::steps::{FAILURE, Gets, Line, PutsOut, SIGNS, SUCCESS, differs};
use std::test::Fail;

/// An empty passphrase locks. The last step is the one signature: the name as a string of 15 bytes, and the toy's body
/// as one of 24.
const EMPTY: &[Line] = &[
    (0, 1, Gets::Adds, SUCCESS, 0),
    (0, 1, Gets::Frame(b"\x16\0\0\0\0"), SUCCESS, 0),
    (0, 1, SIGNS, FAILURE, 0),
    (0, 1, Gets::Frame(b"\x17\0\0\0\0"), SUCCESS, 0),
    (0, 1, SIGNS, PutsOut::AnswerOf(14, 48), 1),
];

/// Locked with `pw`, it isn't unlocked with `px`, nor locked once more.
const OTHERS: &[Line] = &[
    (0, 1, Gets::Frame(LOCKS), SUCCESS, 0),
    (0, 1, Gets::Frame(b"\x17\0\0\0\x02px"), FAILURE, 0),
    (0, 1, Gets::Frame(LOCKS), FAILURE, 0),
];

/// Another connection locks the agent while a confirmation is awaited.
const BEFORE: &[Line] = &[
    (0, 1, Gets::AddsWith(&[2]), SUCCESS, 0),
    (0, 1, SIGNS, PutsOut::AsksKey, 0),
    (0, 2, Gets::Frame(LOCKS), SUCCESS, 0),
    (0, 1, Gets::KeyAnswer(true), FAILURE, 0),
];

// Each order in which connection 2 locks, connection 3 unlocks, and connection 1 answers the question about its key.

const LOCK_UNLOCK_ANSWER: &[Line] = &[
    (0, 1, Gets::AddsWith(&[2]), SUCCESS, 0),
    (0, 1, SIGNS, PutsOut::AsksKey, 0),
    (0, 2, Gets::Frame(LOCKS), SUCCESS, 0),
    (0, 3, Gets::Frame(UNLOCKS), SUCCESS, 0),
    (0, 1, Gets::KeyAnswer(true), PutsOut::AnswerOf(14, 48), 1),
];

const LOCK_ANSWER_UNLOCK: &[Line] = &[
    (0, 1, Gets::AddsWith(&[2]), SUCCESS, 0),
    (0, 1, SIGNS, PutsOut::AsksKey, 0),
    (0, 2, Gets::Frame(LOCKS), SUCCESS, 0),
    (0, 1, Gets::KeyAnswer(true), FAILURE, 0),
    (0, 3, Gets::Frame(UNLOCKS), SUCCESS, 0),
];

const UNLOCK_LOCK_ANSWER: &[Line] = &[
    (0, 1, Gets::AddsWith(&[2]), SUCCESS, 0),
    (0, 1, SIGNS, PutsOut::AsksKey, 0),
    (0, 3, Gets::Frame(UNLOCKS), FAILURE, 0),
    (0, 2, Gets::Frame(LOCKS), SUCCESS, 0),
    (0, 1, Gets::KeyAnswer(true), FAILURE, 0),
];

const UNLOCK_ANSWER_LOCK: &[Line] = &[
    (0, 1, Gets::AddsWith(&[2]), SUCCESS, 0),
    (0, 1, SIGNS, PutsOut::AsksKey, 0),
    (0, 3, Gets::Frame(UNLOCKS), FAILURE, 0),
    (0, 1, Gets::KeyAnswer(true), PutsOut::AnswerOf(14, 48), 1),
    (0, 2, Gets::Frame(LOCKS), SUCCESS, 1),
];

const ANSWER_LOCK_UNLOCK: &[Line] = &[
    (0, 1, Gets::AddsWith(&[2]), SUCCESS, 0),
    (0, 1, SIGNS, PutsOut::AsksKey, 0),
    (0, 1, Gets::KeyAnswer(true), PutsOut::AnswerOf(14, 48), 1),
    (0, 2, Gets::Frame(LOCKS), SUCCESS, 1),
    (0, 3, Gets::Frame(UNLOCKS), SUCCESS, 1),
];

const ANSWER_UNLOCK_LOCK: &[Line] = &[
    (0, 1, Gets::AddsWith(&[2]), SUCCESS, 0),
    (0, 1, SIGNS, PutsOut::AsksKey, 0),
    (0, 1, Gets::KeyAnswer(true), PutsOut::AnswerOf(14, 48), 1),
    (0, 3, Gets::Frame(UNLOCKS), FAILURE, 1),
    (0, 2, Gets::Frame(LOCKS), SUCCESS, 1),
];

/// Each scene's name and its lines.
const SCENES: &[(&str, &[Line])] = &[
    ("an empty passphrase locks", EMPTY),
    ("another passphrase does not unlock", OTHERS),
    ("a lock stands before a confirmation", BEFORE),
    ("lock, unlock, answer", LOCK_UNLOCK_ANSWER),
    ("lock, answer, unlock", LOCK_ANSWER_UNLOCK),
    ("unlock, lock, answer", UNLOCK_LOCK_ANSWER),
    ("unlock, answer, lock", UNLOCK_ANSWER_LOCK),
    ("answer, lock, unlock", ANSWER_LOCK_UNLOCK),
    ("answer, unlock, lock", ANSWER_UNLOCK_LOCK),
];

#[test]
fn a_locked_agent_does_as_its_lines_say(rt: HostRuntime) -> Result<(), Fail> {
    for (name, lines) in SCENES {
        assert_eq!(rt; differs(rt.alloc(), false, lines)?, None, "{name}");
    }
    Ok(())
}
