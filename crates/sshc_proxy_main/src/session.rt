//! The mode that ties each signature to its session: it passes frames between the client and the agent by the steps of a
//! `SessionConnection`, and tells each refusal on standard error.

use sshc_proxy::{Broken, ProxyError, read_frame, write_frame};
use sshc_proxy_session::{SessionConnection, SessionInput, SessionOutput, SessionPolicy};
use sshc_toy::ToyVerifier;
use sshc_wire::{AgentStream, Failed, NoMemory, Octets};
use std::alloc::Global;

/// SUCCESS, as a whole frame.
const SUCCESS: &[u8] = &[0, 0, 0, 1, 6];

/// FAILURE, as a whole frame.
const FAILURE: &[u8] = &[0, 0, 0, 1, 5];

/// The error for a frame that can't be read whole, where a fault of its stream is `fault`.
fn reading_error(fault: ProxyError, broken: Broken) -> ProxyError {
    match broken {
        Broken::NoMemory => ProxyError::NoMemory,
        Broken::Fault => fault,
        Broken::TooLong => ProxyError::TooLong,
        Broken::UnexpectedEnd => ProxyError::UnexpectedEnd,
    }
}

/// The error for a frame that can't be written, where a fault of its stream is `fault`.
fn writing_error(fault: ProxyError, failed: Failed) -> ProxyError {
    match failed {
        Failed::NoMemory => ProxyError::NoMemory,
        Failed::Fault => fault,
    }
}

fn reply<S: AgentStream>(client: &mut S, frame: &[u8]) -> Result<(), ProxyError> {
    match write_frame(client, frame) {
        Ok(()) => Ok(()),
        Err(failed) => Err(writing_error(ProxyError::ClientFault, failed)),
    }
}

fn octets(alloc: Global, bytes: &[u8]) -> Result<Octets, ProxyError> {
    match Octets::from_slice(alloc, bytes) {
        Ok(octets) => Ok(octets),
        Err(NoMemory) => Err(ProxyError::NoMemory),
    }
}

/// A client's connection, and room for a frame of the client and for an answer of the agent.
#[derive(Drop)]
pub(crate) struct SessionRelay<'a> {
    alloc: Global,
    policy: &'a SessionPolicy,
    connection: SessionConnection,
    verifier: ToyVerifier,
    frame: Vec<u8>,
    answer: Vec<u8>,
}

impl<'a> SessionRelay<'a> {
    pub(crate) fn new(alloc: Global, policy: &'a SessionPolicy) -> SessionRelay<'a> {
        SessionRelay {
            alloc,
            policy,
            connection: SessionConnection::new(alloc),
            verifier: ToyVerifier::new(alloc),
            frame: Vec::new(alloc),
            answer: Vec::new(alloc),
        }
    }

    /// Takes the client's frames to the end of its bytes.
    pub(crate) fn run<R: Eprint, S: AgentStream, U: AgentStream>(
        &mut self,
        rt: &R,
        client: &mut S,
        agent: &mut U,
    ) -> Result<(), ProxyError> {
        for _turn in 0..u64::MAX {
            match read_frame(client, &mut self.frame) {
                Ok(true) => self.turn(rt, client, agent)?,
                Ok(false) => return Ok(()),
                Err(broken) => return Err(reading_error(ProxyError::ClientFault, broken)),
            }
        }
        Err(ProxyError::NoMemory)
    }

    /// Takes the frame that was read and, where it is forwarded, the agent's answer.
    fn turn<R: Eprint, S: AgentStream, U: AgentStream>(
        &mut self,
        rt: &R,
        client: &mut S,
        agent: &mut U,
    ) -> Result<(), ProxyError> {
        let input = SessionInput::Frame(octets(self.alloc, self.frame.as_slice())?);
        match self.connection.step(self.policy, &input, &self.verifier) {
            SessionOutput::Forward(frame) => self.ask(rt, client, agent, frame.as_slice()),
            output => say(rt, client, output),
        }
    }

    /// Writes a frame to the agent, and takes the answer.
    fn ask<R: Eprint, S: AgentStream, U: AgentStream>(
        &mut self,
        rt: &R,
        client: &mut S,
        agent: &mut U,
        frame: &[u8],
    ) -> Result<(), ProxyError> {
        if let Err(failed) = write_frame(agent, frame) {
            return Err(writing_error(ProxyError::AgentFault, failed));
        }
        match read_frame(agent, &mut self.answer) {
            Ok(true) => {}
            Ok(false) => return Err(ProxyError::UnexpectedEnd),
            Err(broken) => return Err(reading_error(ProxyError::AgentFault, broken)),
        }
        let input = SessionInput::Upstream(octets(self.alloc, self.answer.as_slice())?);
        let output = self.connection.step(self.policy, &input, &self.verifier);
        say(rt, client, output)
    }
}

/// Writes an output to the client, and tells a refusal.
fn say<R: Eprint, S: AgentStream>(
    rt: &R,
    client: &mut S,
    output: SessionOutput,
) -> Result<(), ProxyError> {
    match output {
        SessionOutput::Answer(frame) => reply(client, frame.as_slice()),
        SessionOutput::Bound => reply(client, SUCCESS),
        SessionOutput::Refused(reason) => {
            let name = reason.name();
            let _ = eprintln!(rt; "refused {name}");
            reply(client, FAILURE)
        }
        SessionOutput::Forward(_frame) => Ok(()),
        SessionOutput::Nothing => Ok(()),
        SessionOutput::NoMemory => Err(ProxyError::NoMemory),
    }
}
