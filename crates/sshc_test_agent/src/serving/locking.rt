//! A lock on one connection while another waits for its user.

ghost use Rattle.std.specs.Prelude.{None};

use crate::calls::{bytes_of, calls_of, let_go};
use crate::frames::{LOCKS, SIGNS, UNLOCKS, adds_with};
use crate::serving::flags::Flags;
use crate::serving::listener::{FlagStream, Streams, stream};
use sshc_agent::{Clock, Pause, serve};
use sshc_agent_core::Entry;
use sshc_agent_shared::CloseError;
use sshc_agent_words::FreshSigner;
use sshc_wire::{NoMemory, put_bytes};
use std::alloc::Global;
use std::sync::Wait;
use std::test::*;
use std::thread::Threads;

/// A clock that always returns the same moment.
#[derive(Clone, Copy, Drop)]
pub(crate) struct Standstill;

impl Clock for Standstill {
    ghost told = { λ s. None };

    fn now(&mut self) -> u64 {
        0
    }
}

/// Appends a frame with its length.
pub(crate) fn put_frame(out: &mut Vec<u8>, frame: &[u8]) -> Result<(), NoMemory> {
    if frame.len() < 1_000 {
        put_bytes(out, frame)?;
    }
    Ok(())
}

/// Serves these streams, with a clock that doesn't move.
pub(crate) fn served<R: Threads + Wait + Sync, P: Pause>(
    rt: &R,
    alloc: Global,
    mut streams: Streams<'_>,
    pause: &P,
) -> Result<Vec<Entry>, CloseError> {
    serve(
        rt,
        alloc,
        &mut streams,
        &(),
        &FreshSigner::new(alloc),
        pause,
        &Standstill,
        1_000_000,
    )
}

/// Adds connection 2, which locks, and connection 1, which adds a key that must be confirmed and asks it for a
/// signature.
fn push_two<'a>(
    streams: &mut Vec<FlagStream<'a>>,
    alloc: Global,
    flags: &'a Flags,
) -> Result<(), NoMemory> {
    let mut first = Vec::new(alloc);
    put_frame(&mut first, adds_with(alloc, &[2])?.as_slice())?;
    put_frame(&mut first, SIGNS)?;
    let mut second = Vec::new(alloc);
    put_frame(&mut second, LOCKS)?;
    streams.push(stream(alloc, second, Some(&flags.answered)))?;
    streams.push(stream(alloc, first, None))?;
    Ok(())
}

/// These two streams.
fn two_streams<'a>(alloc: Global, flags: &'a Flags) -> Result<Vec<FlagStream<'a>>, NoMemory> {
    let mut streams = Vec::new(alloc);
    push_two(&mut streams, alloc, flags)?;
    Ok(streams)
}

/// These two and connection 3, which unlocks.
fn three_streams<'a>(alloc: Global, flags: &'a Flags) -> Result<Vec<FlagStream<'a>>, NoMemory> {
    let mut third = Vec::new(alloc);
    put_frame(&mut third, UNLOCKS)?;
    let mut streams = Vec::new(alloc);
    streams.push(stream(alloc, third, Some(&flags.unlocked)))?;
    push_two(&mut streams, alloc, flags)?;
    Ok(streams)
}

/// A connection, the number of a call of it, and the answer.
const ANSWERS: [(u32, u32, &[u8]); 3] = [
    (1, 1, b"\0\0\0\x01\x06"),
    (2, 1, b"\0\0\0\x01\x06"),
    (1, 4, b"\0\0\0\x01\x05"),
];

/// Whether the call of a connection has this answer.
pub(crate) fn has_answer(history: &[Entry], conn: u32, number: u32, answer: &[u8]) -> bool {
    for entry in history {
        if entry.conn == conn && entry.number == number {
            return bytes_of(entry) == answer;
        }
    }
    false
}

/// Whether connection 1 has six calls and connection 2 three, and the lock came before the waiting answer.
fn is_locked_first(history: &[Entry]) -> bool {
    for (conn, number, answer) in ANSWERS {
        if !has_answer(history, conn, number, answer) {
            return false;
        }
    }
    history.len() == 9 && calls_of(history, 1) == 6 && calls_of(history, 2) == 3
}

/// The same with connection 3.
const UNLOCKED_ANSWERS: [(u32, u32, &[u8]); 3] = [
    (1, 1, b"\0\0\0\x01\x06"),
    (2, 1, b"\0\0\0\x01\x06"),
    (3, 1, b"\0\0\0\x01\x06"),
];

/// Whether the call of a connection is answered by a signature.
fn has_signature(history: &[Entry], conn: u32, number: u32) -> bool {
    for entry in history {
        if entry.conn == conn && entry.number == number {
            return bytes_of(entry).get(4) == Some(&14);
        }
    }
    false
}

/// Whether connections 2 and 3 have three calls each, and the lock and the unlock came before the waiting answer.
fn is_unlocked_first(history: &[Entry]) -> bool {
    for (conn, number, answer) in UNLOCKED_ANSWERS {
        if !has_answer(history, conn, number, answer) {
            return false;
        }
    }
    history.len() == 12 && calls_of(history, 3) == 3 && has_signature(history, 1, 4)
}

fn is_in_order(history: &[Entry], unlocks: bool) -> bool {
    if unlocks {
        is_unlocked_first(history)
    } else {
        is_locked_first(history)
    }
}

/// How serving ends, in one word or with what its history shows.
#[derive(Clone, Copy, PartialEq, Eq)]
enum Outcome {
    /// Whether the lock came first, and the unlock where there is one.
    InOrder(bool),
    NoMemory,
    /// Not closed, for another reason.
    NotClosed,
}

fn told(answer: Result<Vec<Entry>, CloseError>, unlocks: bool) -> Outcome {
    match answer {
        Ok(history) => Outcome::InOrder(is_in_order(&history, unlocks)),
        Err(CloseError::NoMemory) => Outcome::NoMemory,
        Err(why) => {
            let_go(why);
            Outcome::NotClosed
        }
    }
}

#[test]
fn a_lock_comes_before_the_waiting_answer(rt: HostRuntime) -> Result<(), Fail> {
    let flags = Flags::new(false);
    let streams = Streams::new(two_streams(rt.alloc(), &flags)?, false);
    let outcome = told(served(&rt, rt.alloc(), streams, &flags), false);
    assert!(rt; !flags.is_late() && outcome == Outcome::InOrder(true));
    Ok(())
}

#[test]
fn an_unlock_comes_before_the_waiting_answer(rt: HostRuntime) -> Result<(), Fail> {
    let flags = Flags::new(true);
    let streams = Streams::new(three_streams(rt.alloc(), &flags)?, false);
    let outcome = told(served(&rt, rt.alloc(), streams, &flags), true);
    assert!(rt; !flags.is_late() && outcome == Outcome::InOrder(true));
    Ok(())
}

/// A connection that locks.
fn one_stream<'a>(alloc: Global) -> Result<Vec<FlagStream<'a>>, NoMemory> {
    let mut bytes = Vec::new(alloc);
    put_frame(&mut bytes, LOCKS)?;
    let mut streams = Vec::new(alloc);
    streams.push(stream(alloc, bytes, None))?;
    Ok(streams)
}

#[test]
fn a_listener_that_finds_no_memory_ends_without_a_history(rt: HostRuntime) -> Result<(), Fail> {
    let flags = Flags::new(false);
    let streams = Streams::new(one_stream(rt.alloc())?, true);
    let outcome = told(served(&rt, rt.alloc(), streams, &flags), false);
    assert!(rt; outcome == Outcome::NoMemory);
    Ok(())
}
