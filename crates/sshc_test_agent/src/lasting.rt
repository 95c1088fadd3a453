//! An agent that lasts: what a call after a seam of generations is answered.

ghost use Rattle.std.specs.Prelude.{◌≡◌, false};

use crate::calls::let_go;
use crate::frames::{LISTS, LOCKS, SIGNS, UNLOCKS, adds_with};
use sshc_agent_core::{AgentInput, AgentOutput};
use sshc_agent_shared::{AgentLasting, LastingState, Settings};
use sshc_toy::ToySigner;
use sshc_wire::Octets;
use std::alloc::Global;
use std::marker::Brand;
use std::sync::Wait;
use std::sync::ledger::Blank;
use std::test::*;

/// How many parts the ledger has.
const PARTS: u64 = 67_108_864;

/// A lifetime of 10 seconds, and a confirmation of each use.
const CONSTRAINTS: &[u8] = &[1, 0, 0, 0, 10, 2];

/// An input of a connection.
#[derive(Clone, Copy)]
enum Input {
    Frame(&'static [u8]),
    Adds,
    Confirms,
}

/// What is compared of an output: the number of an answer, or that a key is asked about.
#[derive(Clone, Copy, PartialEq, Eq)]
enum Look {
    Answer(u8, usize),
    AskKey,
    Other,
}

fn seen(output: &AgentOutput) -> Look {
    match output {
        AgentOutput::Answer(frame) => {
            let bytes = frame.as_slice();
            Look::Answer(bytes.get(4).copied().unwrap_or(0), bytes.len())
        }
        AgentOutput::AskKey(_) => Look::AskKey,
        _ => Look::Other,
    }
}

/// A step: whether a new generation begins before it, the moment in milliseconds, the connection, the input, and what
/// is seen of its output.
type Row = (bool, u64, u32, Input, Look);

/// A key with a lifetime and a confirmation; a question about it that stays open across a seam; a lock, and its unlock
/// two generations later; and the key's end at its moment.
const ROWS: &[Row] = &[
    (false, 0, 1, Input::Adds, Look::Answer(6, 5)),
    (false, 5, 2, Input::Frame(SIGNS), Look::AskKey),
    (true, 6, 1, Input::Frame(LISTS), Look::Answer(12, 68)),
    (true, 7, 2, Input::Confirms, Look::Answer(14, 48)),
    (false, 8, 2, Input::Confirms, Look::Other),
    (false, 9, 1, Input::Frame(LOCKS), Look::Answer(6, 5)),
    (true, 10, 2, Input::Frame(LISTS), Look::Answer(5, 5)),
    (true, 11, 2, Input::Frame(UNLOCKS), Look::Answer(6, 5)),
    (true, 9999, 1, Input::Frame(LISTS), Look::Answer(12, 68)),
    (true, 10_000, 1, Input::Frame(LISTS), Look::Answer(12, 9)),
];

fn input_of(alloc: Global, input: Input) -> Option<AgentInput> {
    match input {
        Input::Frame(bytes) => Some(AgentInput::Frame(Octets::from_slice(alloc, bytes).ok()?)),
        Input::Adds => Some(AgentInput::Frame(adds_with(alloc, CONSTRAINTS).ok()?)),
        Input::Confirms => Some(AgentInput::KeyAnswer(true)),
    }
}

/// What is seen of one step's output; `None` if a seam or the call fails.
fn stepped<L: Settings>(alloc: Global, state: &mut LastingState<L>, row: &Row) -> Option<Look> {
    if row.0 {
        let past = state.renew().ok()?;
        let_go(past);
    }
    let mut signer = ToySigner::new(alloc);
    let output = state
        .call(row.2, row.1, input_of(alloc, row.3)?, &mut signer)
        .ok()?;
    Some(seen(&output))
}

/// The index of the first row that isn't seen as it says; the number of rows if there is none.
fn first_wrong<L: Settings>(alloc: Global, blank: Blank) -> Option<usize>
    requires parts { blank.parts ≡ 67108864 }
    requires ledger { (blank.name ≡ L.name) × (blank.parts ≡ L.parts) }
    requires settings { (L.asks ≡ false) × (L.limit ≡ 1000000) }
{
    let mut state = LastingState::<L>::new(alloc, blank, false, 1_000_000);
    let _one = state.connect().ok()?;
    let _two = state.connect().ok()?;
    for (at, row) in ROWS.iter().enumerate() {
        if stepped(alloc, &mut state, row)? != row.4 {
            return Some(at);
        }
    }
    Some(ROWS.len())
}

#[test]
fn a_seam_keeps_keys_deadlines_lock_and_questions(rt: HostRuntime) {
    let wrong = first_wrong::<Brand>(rt.alloc(), Blank::new(PARTS));
    assert_eq!(rt; wrong, Some(10));
}

/// How many of a hundred listings on one connection are answered, and one on a second connection.
fn listed<L: Settings, R: Wait>(rt: &R, alloc: Global, shared: &AgentLasting<L>) -> Option<u32> {
    let mut signer = ToySigner::new(alloc);
    let mut answered = 0u32;
    for _ in 0..2 {
        let conn = shared.connect(rt, &()).ok()?;
        for moment in 0..50u64 {
            let listing = AgentInput::Frame(Octets::from_slice(alloc, LISTS).ok()?);
            let output = shared
                .call(rt, conn, moment, listing, &mut signer, &())
                .ok()?;
            if seen(&output) == Look::Answer(12, 9) {
                answered = answered.saturating_add(1);
            }
        }
        shared.leave(rt, conn);
    }
    Some(answered)
}

/// The same of an agent whose journal has room for seven calls, and how many calls its last generation has.
fn few_at_once<L: Settings, R: Wait>(rt: &R, alloc: Global, blank: Blank) -> Option<(u32, usize)>
    requires parts { blank.parts ≡ 67108864 }
    requires ledger { (blank.name ≡ L.name) × (blank.parts ≡ L.parts) }
    requires settings { (L.asks ≡ false) × (L.limit ≡ 519) }
{
    let shared = AgentLasting::<L>::new(alloc, blank, false, 519);
    let answered = listed(rt, alloc, &shared)?;
    let past = shared.close().ok()?;
    Some((answered, past.len()))
}

#[test]
fn a_full_journal_is_followed_by_the_next(rt: HostRuntime) {
    let told = few_at_once::<Brand, _>(&rt, rt.alloc(), Blank::new(PARTS));
    assert_eq!(rt; told, Some((100, 3)));
}
