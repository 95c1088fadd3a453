//! Signatures from outside: what a step asks to be signed, and what it does with the answer.

use crate::frames::{LISTS, LOCKS, SIGNS, adds, adds_with};
use sshc_agent_core::{AgentCore, AgentInput, AgentOutput, Cause, Told};
use sshc_wire::{NoMemory, Octets};
use std::alloc::Global;
use std::test::Fail;

/// What an agent that holds the pair is given before the input.
#[derive(Clone, Copy)]
enum Before {
    Nothing,
    /// The request to sign, and then the question that it leads to.
    Signs,
    Locks,
}

/// What a row gives: whether the agent asks about requests, the pair's constraints, what came before, the moment in
/// milliseconds and the input; and whether a signature of `bytes` is asked.
type Row = (bool, &'static [u8], Before, u64, Input, bool);

#[derive(Clone, Copy)]
enum Input {
    Signs,
    Lists,
    RequestAnswer(bool),
    KeyAnswer(bool),
    Close,
}

const CONFIRM: &[u8] = &[2];

/// One second.
const LIFETIME: &[u8] = &[1, 0, 0, 0, 1];

const ROWS: &[Row] = &[
    (false, &[], Before::Nothing, 0, Input::Signs, true),
    (false, &[], Before::Nothing, 0, Input::Lists, false),
    (false, &[], Before::Nothing, 0, Input::Close, false),
    (
        false,
        &[],
        Before::Nothing,
        0,
        Input::RequestAnswer(true),
        false,
    ),
    (false, &[], Before::Locks, 0, Input::Signs, false),
    (false, LIFETIME, Before::Nothing, 999, Input::Signs, true),
    (false, LIFETIME, Before::Nothing, 1000, Input::Signs, false),
    (false, CONFIRM, Before::Nothing, 0, Input::Signs, false),
    (
        false,
        CONFIRM,
        Before::Signs,
        0,
        Input::KeyAnswer(true),
        true,
    ),
    (
        false,
        CONFIRM,
        Before::Signs,
        0,
        Input::KeyAnswer(false),
        false,
    ),
    (true, &[], Before::Nothing, 0, Input::Signs, false),
    (
        true,
        &[],
        Before::Signs,
        0,
        Input::RequestAnswer(true),
        true,
    ),
    (
        true,
        &[],
        Before::Signs,
        0,
        Input::RequestAnswer(false),
        false,
    ),
    (true, &[], Before::Signs, 0, Input::KeyAnswer(true), false),
    (
        true,
        CONFIRM,
        Before::Signs,
        0,
        Input::RequestAnswer(true),
        false,
    ),
];

fn frame(alloc: Global, bytes: &[u8]) -> Result<AgentInput, NoMemory> {
    Ok(AgentInput::Frame(Octets::from_slice(alloc, bytes)?))
}

fn input_of(alloc: Global, input: Input) -> Result<AgentInput, NoMemory> {
    Ok(match input {
        Input::Signs => frame(alloc, SIGNS)?,
        Input::Lists => frame(alloc, LISTS)?,
        Input::RequestAnswer(yes) => AgentInput::RequestAnswer(yes),
        Input::KeyAnswer(yes) => AgentInput::KeyAnswer(yes),
        Input::Close => AgentInput::Close,
    })
}

/// Takes an input of connection 1 at moment 0 for which nothing is signed.
fn takes(agent: &mut AgentCore, input: &AgentInput) -> AgentOutput {
    agent.apply(0, 1, input, Told::Unanswered)
}

/// An agent that holds the pair.
fn holder(alloc: Global, asks: bool, constraints: &[u8]) -> Result<AgentCore, NoMemory> {
    let mut agent = AgentCore::new(alloc, asks);
    let pair = if constraints.is_empty() {
        adds(alloc)?
    } else {
        adds_with(alloc, constraints)?
    };
    let _answer = takes(&mut agent, &AgentInput::Frame(pair));
    if asks {
        let _answer = takes(&mut agent, &AgentInput::RequestAnswer(true));
    }
    Ok(agent)
}

/// Whether a signature of `bytes`, without a hash, is asked.
fn asks_bytes(agent: &AgentCore, now: u64, input: &AgentInput) -> bool {
    match agent.asks(now, 1, input) {
        Some(asked) => asked.bytes == b"bytes".as_slice() && asked.hash.is_none(),
        None => false,
    }
}

/// What a row's step asks: nothing, or a signature of `bytes`.
fn asked(alloc: Global, row: &Row) -> Result<bool, NoMemory> {
    let mut agent = holder(alloc, row.0, row.1)?;
    match row.2 {
        Before::Nothing => {}
        Before::Signs => {
            let _question = takes(&mut agent, &frame(alloc, SIGNS)?);
        }
        Before::Locks => {
            let _answer = takes(&mut agent, &frame(alloc, LOCKS)?);
        }
    }
    Ok(asks_bytes(&agent, row.3, &input_of(alloc, row.4)?))
}

#[test]
fn a_step_asks_what_its_row_says(rt: HostRuntime) -> Result<(), Fail> {
    for (at, row) in ROWS.iter().enumerate() {
        assert_eq!(rt; asked(rt.alloc(), row)?, row.5, "row {at}");
    }
    Ok(())
}

/// The output for a request to sign with this answer of the signer.
fn told(alloc: Global, answer: Told<'_>) -> Result<AgentOutput, NoMemory> {
    let mut agent = holder(alloc, false, &[])?;
    Ok(agent.apply(0, 1, &frame(alloc, SIGNS)?, answer))
}

/// How many bytes an answer has, if it is one of this type.
fn size(output: &AgentOutput, number: u8) -> Option<usize> {
    match output {
        AgentOutput::Answer(frame) if frame.as_slice().get(4) == Some(&number) => {
            Some(frame.as_slice().len())
        }
        _ => None,
    }
}

/// Whether the output is the answer of these bytes.
fn is_answer(output: &AgentOutput, bytes: &[u8]) -> bool {
    matches!(output, AgentOutput::Answer(frame) if frame.as_slice() == bytes)
}

fn is_closed(output: &AgentOutput, cause: Cause) -> bool {
    matches!(output, AgentOutput::Closed(why) if *why == cause)
}

#[test]
fn a_signature_from_outside_is_the_answer(rt: HostRuntime) -> Result<(), Fail> {
    let alloc = rt.alloc();
    let output = told(alloc, Told::Signed(b"signature"))?;
    assert!(rt; is_answer(&output, b"\0\0\0\x0e\x0e\0\0\0\x09signature"));
    let longest = vec![in alloc; 7u8; 65_536]?;
    assert_eq!(rt;
        size(&told(alloc, Told::Signed(&longest))?, 14),
        Some(65_545)
    );
    Ok(())
}

#[test]
fn without_a_signature_the_connection_is_closed(rt: HostRuntime) -> Result<(), Fail> {
    let alloc = rt.alloc();
    let longer = vec![in alloc; 7u8; 65_537]?;
    let rows = [
        (Told::Refused, Cause::SignerRefused),
        (Told::Unanswered, Cause::NoMemory),
        (Told::Signed(&longer), Cause::NoMemory),
    ];
    for (at, row) in rows.iter().enumerate() {
        assert!(rt; is_closed(&told(alloc, row.0)?, row.1), "row {at}");
    }
    Ok(())
}
