//! Steps of an agent as lines: what it gets, when and of which connection, and what it puts out.

use crate::frames::{self, adds, adds_with};
use crate::stepping::signer::CountingSigner;
use sshc_agent_core::{AgentCore, AgentInput, AgentOutput, Cause, MessageType};
use sshc_wire::{NoMemory, Octets};
use std::alloc::Global;

/// What an agent gets.
#[derive(Clone, Copy)]
pub(crate) enum Gets {
    /// A frame that adds the pair.
    Adds,
    /// A frame that adds the pair with these constraints.
    AddsWith(&'static [u8]),
    /// A frame that adds the pair with so many confirmations.
    AddsConfirmed(usize),
    /// A frame of these bytes.
    Frame(&'static [u8]),
    /// A frame of so many bytes.
    TooLong(u32),
    RequestAnswer(bool),
    KeyAnswer(bool),
    Close,
}

/// Asks for a signature by the pair.
pub(crate) const SIGNS: Gets = Gets::Frame(frames::SIGNS);

/// Asks for the list of keys.
pub(crate) const LISTS: Gets = Gets::Frame(frames::LISTS);

/// What it puts out.
#[derive(Clone, Copy)]
pub(crate) enum PutsOut {
    /// A frame of these bytes.
    Answer(&'static [u8]),
    /// A frame of this type and of so many bytes.
    AnswerOf(u8, usize),
    /// It asks whether the request is allowed, and awaits the answer.
    AsksRequest(MessageType),
    /// It asks whether a key may sign, and awaits the answer.
    AsksKey,
    Nothing,
    Closed(Cause),
}

/// A step: the moment in milliseconds, the connection, what the agent gets and puts out, and how many signatures the
/// signer has made after it.
pub(crate) type Line = (u64, u32, Gets, PutsOut, usize);

pub(crate) const SUCCESS: PutsOut = PutsOut::Answer(&[0, 0, 0, 1, 6]);

pub(crate) const FAILURE: PutsOut = PutsOut::Answer(&[0, 0, 0, 1, 5]);

/// A frame that adds the pair with so many constraints that ask for a confirmation.
fn adds_confirmed(alloc: Global, times: usize) -> Result<Octets, NoMemory> {
    let constraints = vec![in alloc; 2u8; times]?;
    adds_with(alloc, &constraints)
}

fn input_of(alloc: Global, gets: Gets) -> Result<AgentInput, NoMemory> {
    Ok(match gets {
        Gets::Adds => AgentInput::Frame(adds(alloc)?),
        Gets::AddsWith(constraints) => AgentInput::Frame(adds_with(alloc, constraints)?),
        Gets::AddsConfirmed(times) => AgentInput::Frame(adds_confirmed(alloc, times)?),
        Gets::Frame(bytes) => AgentInput::Frame(Octets::from_slice(alloc, bytes)?),
        Gets::TooLong(length) => AgentInput::Oversize { length },
        Gets::RequestAnswer(allowed) => AgentInput::RequestAnswer(allowed),
        Gets::KeyAnswer(confirmed) => AgentInput::KeyAnswer(confirmed),
        Gets::Close => AgentInput::Close,
    })
}

/// Whether the output is the one that the line has. An agent awaits an answer after a question, and none after an
/// answer.
fn is_put_out(output: &AgentOutput, awaits: bool, out: PutsOut) -> bool {
    match (output, out) {
        (AgentOutput::Answer(frame), PutsOut::Answer(bytes)) => {
            !awaits && frame.as_slice() == bytes
        }
        (AgentOutput::Answer(frame), PutsOut::AnswerOf(number, size)) => {
            !awaits && frame.as_slice().len() == size && frame.as_slice().get(4) == Some(&number)
        }
        (AgentOutput::AskRequest(kind), PutsOut::AsksRequest(wanted)) => awaits && *kind == wanted,
        (AgentOutput::AskKey(_), PutsOut::AsksKey) => awaits,
        (AgentOutput::Nothing, PutsOut::Nothing) => true,
        (AgentOutput::Closed(cause), PutsOut::Closed(wanted)) => !awaits && *cause == wanted,
        _ => false,
    }
}

/// An agent with its signer.
#[derive(Drop)]
struct Bench {
    alloc: Global,
    agent: AgentCore,
    signer: CountingSigner,
}

impl Bench {
    /// Takes the step of a line, and returns whether it comes out so.
    fn holds(&mut self, line: &Line) -> Result<bool, NoMemory> {
        let (now, conn, gets, out, signed) = *line;
        let input = input_of(self.alloc, gets)?;
        let output = self.agent.step(now, conn, &input, &mut self.signer);
        Ok(is_put_out(&output, self.agent.awaits(conn), out) && self.signer.made() == signed)
    }

    /// The number of the first line that comes out otherwise.
    fn first_other(&mut self, lines: &[Line]) -> Result<Option<usize>, NoMemory> {
        for (at, line) in lines.iter().enumerate() {
            if !self.holds(line)? {
                return Ok(Some(at));
            }
        }
        Ok(None)
    }
}

/// Takes the steps of these lines on a new agent, which asks about requests or doesn't, and returns the number of the
/// first that comes out otherwise, from 0; `None` if each comes out as its line says.
pub(crate) fn differs(
    alloc: Global,
    asks: bool,
    lines: &[Line],
) -> Result<Option<usize>, NoMemory> {
    let mut bench = Bench {
        alloc,
        agent: AgentCore::new(alloc, asks),
        signer: CountingSigner::new(alloc),
    };
    bench.first_other(lines)
}
