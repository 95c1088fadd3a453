//! Hand-written calls on seats in one thread.

ghost use Rattle.std.specs.Prelude.{◌≡◌, false};

use crate::calls::{bytes_of, called, let_go, two_of};
use crate::frames::{LISTS, LOCKS, SIGNS, adds};
use sshc_agent_core::Entry;
use sshc_agent_shared::{AgentShared, CallRefused, CloseError, Seat, Settings};
use sshc_wire::Octets;
use std::alloc::Global;
use std::marker::Brand;
use std::sync::Wait;
use std::sync::ledger::Blank;
use std::test::*;

/// How many parts the ledger has.
const PARTS: u64 = 67_108_864;

/// Two listings by a new seat. Returns the seat, and how each was answered.
fn lists_twice<L: Settings, R: Wait>(
    rt: &R,
    alloc: Global,
    shared: &AgentShared<L>,
) -> Option<(Vec<Seat<L>>, [Result<(), CallRefused>; 2])> {
    let seat = shared.connect(rt).ok()?;
    let (seat, first) = called(rt, alloc, shared, seat, 0, Octets::from_slice(alloc, LISTS));
    let (seat, second) = called(rt, alloc, shared, seat, 0, Octets::from_slice(alloc, LISTS));
    let mut seats = Vec::new(alloc);
    seats.push(seat).ok()?;
    Some((seats, [first, second]))
}

/// Two listings with room for one in the journal: how each was answered, and how many calls the history has.
fn one_of_two<L: Settings, R: Wait>(
    rt: &R,
    alloc: Global,
    blank: Blank,
) -> Option<([Result<(), CallRefused>; 2], usize)>
    requires parts { blank.parts ≡ 67108864 }
    requires ledger { (blank.name ≡ L.name) × (blank.parts ≡ L.parts) }
    requires settings { (L.asks ≡ false) × (L.limit ≡ 193) }
{
    let shared = AgentShared::<L>::new(alloc, blank, false, 193).ok()?;
    let (seats, answers) = lists_twice(rt, alloc, &shared)?;
    let history = shared.close(seats).ok()?;
    Some((answers, history.len()))
}

#[test]
fn the_journal_is_full(rt: HostRuntime) {
    let told = one_of_two::<Brand, _>(&rt, rt.alloc(), Blank::new(PARTS));
    assert!(rt; told == Some(([Ok(()), Err(CallRefused::JournalFull)], 1)));
}

/// Whether a second seat is refused, and why.
fn connects_twice<L: Settings, R: Wait>(
    rt: &R,
    shared: &AgentShared<L>,
) -> Option<Option<CallRefused>> {
    let first = shared.connect(rt).ok()?;
    let refused = shared.connect(rt).err();
    let_go(first);
    Some(refused)
}

/// Whether a second seat is refused if the journal has room for one.
fn second_seat<L: Settings, R: Wait>(
    rt: &R,
    alloc: Global,
    blank: Blank,
) -> Option<Option<CallRefused>>
    requires parts { blank.parts ≡ 67108864 }
    requires ledger { (blank.name ≡ L.name) × (blank.parts ≡ L.parts) }
    requires settings { (L.asks ≡ false) × (L.limit ≡ 64) }
{
    let shared = AgentShared::<L>::new(alloc, blank, false, 64).ok()?;
    connects_twice(rt, &shared)
}

#[test]
fn seats_weigh_too(rt: HostRuntime) {
    let refused = second_seat::<Brand, _>(&rt, rt.alloc(), Blank::new(PARTS));
    assert!(rt; refused == Some(Some(CallRefused::JournalFull)));
}

/// Why a close failed; what it returns beside the error goes.
fn reason<A: Drop, B: Drop, C: Drop>(closed: Result<A, (B, C, CloseError)>) -> Option<CloseError> {
    match closed {
        Ok(_) => None,
        Err((_, _, why)) => Some(why),
    }
}

/// The error if the one seat isn't passed to `close`.
fn seat_out<L: Settings, R: Wait>(rt: &R, alloc: Global, blank: Blank) -> Option<CloseError>
    requires parts { blank.parts ≡ 67108864 }
    requires ledger { (blank.name ≡ L.name) × (blank.parts ≡ L.parts) }
    requires settings { (L.asks ≡ false) × (L.limit ≡ 1000000) }
{
    let shared = AgentShared::<L>::new(alloc, blank, false, 1_000_000).ok()?;
    let seat = shared.connect(rt).ok()?;
    let why = reason(shared.close(Vec::new(alloc)));
    let_go(seat);
    why
}

#[test]
fn a_seat_is_out(rt: HostRuntime) {
    let why = seat_out::<Brand, _>(&rt, rt.alloc(), Blank::new(PARTS));
    assert!(rt; matches!(why, Some(CloseError::SeatsOut { made: 1, given: 0 })));
}

/// Seat 1 adds a key, seat 2 lists and locks, and seat 1 asks for a signature. Returns both seats if each call was
/// answered.
fn calls_by_turns<L: Settings, R: Wait>(
    rt: &R,
    alloc: Global,
    shared: &AgentShared<L>,
) -> Option<Vec<Seat<L>>> {
    let one = shared.connect(rt).ok()?;
    let two = shared.connect(rt).ok()?;
    let (one, added) = called(rt, alloc, shared, one, 0, adds(alloc));
    let (two, listed) = called(rt, alloc, shared, two, 0, Octets::from_slice(alloc, LISTS));
    let (two, locked) = called(rt, alloc, shared, two, 0, Octets::from_slice(alloc, LOCKS));
    let (one, signed) = called(rt, alloc, shared, one, 0, Octets::from_slice(alloc, SIGNS));
    let seats = two_of(alloc, one, two);
    if added.is_ok() && listed.is_ok() && locked.is_ok() && signed.is_ok() {
        seats
    } else {
        None
    }
}

/// What the four calls come to: the connection, the answer's size in bytes, and its first bytes. The listing has one
/// key; the signature is refused.
const CALLS: &[(u32, usize, &[u8])] = &[
    (1, 5, b"\0\0\0\x01\x06"),
    (2, 68, b"\0\0\0\x40\x0c"),
    (2, 5, b"\0\0\0\x01\x06"),
    (1, 5, b"\0\0\0\x01\x05"),
];

/// Whether the history has these calls and no others.
fn has_calls(history: &[Entry], calls: &[(u32, usize, &[u8])]) -> bool {
    for (entry, (conn, size, front)) in history.iter().zip(calls) {
        let answer = bytes_of(entry);
        if entry.conn != *conn || answer.len() != *size || !answer.starts_with(front) {
            return false;
        }
    }
    history.len() == calls.len()
}

/// Whether the four calls come to what the list says.
fn four_calls<L: Settings, R: Wait>(rt: &R, alloc: Global, blank: Blank) -> Option<bool>
    requires parts { blank.parts ≡ 67108864 }
    requires ledger { (blank.name ≡ L.name) × (blank.parts ≡ L.parts) }
    requires settings { (L.asks ≡ false) × (L.limit ≡ 1000000) }
{
    let shared = AgentShared::<L>::new(alloc, blank, false, 1_000_000).ok()?;
    let seats = calls_by_turns(rt, alloc, &shared)?;
    let history = shared.close(seats).ok()?;
    Some(has_calls(&history, CALLS))
}

#[test]
fn a_lock_of_one_seat_is_a_lock_of_the_other(rt: HostRuntime) {
    let holds = four_calls::<Brand, _>(&rt, rt.alloc(), Blank::new(PARTS));
    assert!(rt; holds == Some(true));
}
