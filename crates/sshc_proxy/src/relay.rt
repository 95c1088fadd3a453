//! A run between one client and its agent, one frame after another.

ghost use Rattle.std.specs.Prelude.{◌≡◌, List, []};
ghost use Rattle.sshc_proxy.specs.Binding.{Accepts};
ghost use Rattle.sshc_proxy.specs.Frames.{Stream, stream};
ghost use Rattle.sshc_proxy.specs.Policy.{Rule};
ghost use Rattle.sshc_proxy.specs.ProxyHistory.{Remembers};
ghost use Rattle.sshc_proxy.specs.ProxyRun.{Relays, Streams, Terms, streams, terms};
ghost use Rattle.sshc_proxy.specs.ProxyTable.{Proxy};
ghost use Rattle.sshc_proxy.specs.Relaying.{Relaying, Turned, asking, awaiting, framed, heard, idle, reading_error};
ghost use Rattle.sshc_proxy.specs.Relaying.{replying, writing_error};

use crate::broken::Broken;
use crate::error::ProxyError;
use crate::input::ProxyOutput;
use crate::policy::Policy;
use crate::proxy_core::ProxyCore;
use crate::reading::read_frame;
use crate::writing::write_frame;
use sshc_key::Verifier;
use sshc_wire::{AgentStream, Failed};

/// The number of the one connection.
const CONN: u32 = 0;

/// A core, and room for a frame of the client and for an answer of the agent, which is used again for the next.
#[derive(Drop)]
struct Relay {
    core: ProxyCore,
    frame: Vec<u8>,
    answer: Vec<u8>,
}

/// The error for a frame that can't be read whole, where a fault of its stream is `fault`.
fn reading_error(fault: ProxyError, broken: Broken) -> ProxyError
    ensures { result ≡ reading_error fault broken }
{
    match broken {
        Broken::NoMemory => ProxyError::NoMemory,
        Broken::Fault => fault,
        Broken::TooLong => ProxyError::TooLong,
        Broken::UnexpectedEnd => ProxyError::UnexpectedEnd,
    }
}

/// The error for a frame that can't be written, where a fault of its stream is `fault`.
fn writing_error(fault: ProxyError, failed: Failed) -> ProxyError
    ensures { result ≡ writing_error fault failed }
{
    match failed {
        Failed::NoMemory => ProxyError::NoMemory,
        Failed::Fault => fault,
    }
}

/// Writes an output to the client. The next frame comes after it.
fn reply<S: AgentStream>(client: &mut S, frame: &[u8]) -> Result<bool, ProxyError>
    ensures turned { (t : Terms) (before : Streams) (agent : Stream) (core : Proxy) → Relaying t before (streams
        (stream (S.left client.old) (S.contents client.old) (S.Source.faults client.old) (S.Sink.faults client.old))
        agent) core (replying frame.now) → Turned t before (streams
        (stream (S.left client.new) (S.contents client.new) (S.Source.faults client.new) (S.Sink.faults client.new))
        agent) core result }
{
    match write_frame(client, frame) {
        Ok(()) => Ok(true),
        Err(failed) => Err(writing_error(ProxyError::ClientFault, failed)),
    }
}

impl Relay {
    fn new(policy: Policy) -> Relay
        ensures policy { result.core.policy ≡ policy }
        ensures history { (accepts : Accepts) → Remembers accepts result.core [] }
    {
        let alloc = policy.allocator();
        Relay {
            core: ProxyCore::new(policy),
            frame: Vec::new(alloc),
            answer: Vec::new(alloc),
        }
    }

    /// Takes the client's next frame to its end: where it is forwarded, with the agent's answer. Returns false at the
    /// end of the client's bytes.
    fn turn<S: AgentStream, U: AgentStream, V: Verifier>(
        &mut self,
        client: &mut S,
        agent: &mut U,
        verifier: &V,
    ) -> Result<bool, ProxyError>
        ensures turned { (before : Streams) (policy : List Rule)
            → Relaying (terms (V.accepts verifier.now) policy) before (streams
            (stream (S.left client.old) (S.contents client.old) (S.Source.faults client.old) (S.Sink.faults client.old))
            (stream (U.left agent.old) (U.contents agent.old) (U.Source.faults agent.old) (U.Sink.faults agent.old)))
            self.old.core idle → Turned (terms (V.accepts verifier.now) policy) before (streams
            (stream (S.left client.new) (S.contents client.new) (S.Source.faults client.new) (S.Sink.faults client.new))
            (stream (U.left agent.new) (U.contents agent.new) (U.Source.faults agent.new) (U.Sink.faults agent.new)))
            self.new.core result }
    {
        match read_frame(client, &mut self.frame) {
            Ok(true) => self.take_frame(client, agent, verifier),
            Ok(false) => Ok(false),
            Err(broken) => Err(reading_error(ProxyError::ClientFault, broken)),
        }
    }

    /// Takes the frame that was read.
    fn take_frame<S: AgentStream, U: AgentStream, V: Verifier>(
        &mut self,
        client: &mut S,
        agent: &mut U,
        verifier: &V,
    ) -> Result<bool, ProxyError>
        ensures turned { (before : Streams) (policy : List Rule)
            → Relaying (terms (V.accepts verifier.now) policy) before (streams
            (stream (S.left client.old) (S.contents client.old) (S.Source.faults client.old) (S.Sink.faults client.old))
            (stream (U.left agent.old) (U.contents agent.old) (U.Source.faults agent.old) (U.Sink.faults agent.old)))
            self.old.core (framed self.old.frame.items) → Turned (terms (V.accepts verifier.now) policy) before (streams
            (stream (S.left client.new) (S.contents client.new) (S.Source.faults client.new) (S.Sink.faults client.new))
            (stream (U.left agent.new) (U.contents agent.new) (U.Source.faults agent.new) (U.Sink.faults agent.new)))
            self.new.core result }
    {
        match self.core.take_frame(CONN, self.frame.as_slice(), verifier) {
            ProxyOutput::Forward(frame) => self.ask(client, agent, frame.as_slice()),
            ProxyOutput::Answer(frame) => reply(client, frame.as_slice()),
            ProxyOutput::Nothing => Ok(true),
            ProxyOutput::NoMemory => Err(ProxyError::NoMemory),
        }
    }

    /// Writes an output to the agent, and takes the answer.
    fn ask<S: AgentStream, U: AgentStream>(
        &mut self,
        client: &mut S,
        agent: &mut U,
        frame: &[u8],
    ) -> Result<bool, ProxyError>
        ensures turned { (t : Terms) (before : Streams) → Relaying t before (streams
            (stream (S.left client.old) (S.contents client.old) (S.Source.faults client.old) (S.Sink.faults client.old))
            (stream (U.left agent.old) (U.contents agent.old) (U.Source.faults agent.old) (U.Sink.faults agent.old)))
            self.old.core (asking frame.now) → Turned t before (streams
            (stream (S.left client.new) (S.contents client.new) (S.Source.faults client.new) (S.Sink.faults client.new))
            (stream (U.left agent.new) (U.contents agent.new) (U.Source.faults agent.new) (U.Sink.faults agent.new)))
            self.new.core result }
    {
        match write_frame(agent, frame) {
            Ok(()) => self.hear(client, agent),
            Err(failed) => Err(writing_error(ProxyError::AgentFault, failed)),
        }
    }

    /// Reads the agent's answer, and takes it.
    fn hear<S: AgentStream, U: AgentStream>(
        &mut self,
        client: &mut S,
        agent: &mut U,
    ) -> Result<bool, ProxyError>
        ensures turned { (t : Terms) (before : Streams) → Relaying t before (streams
            (stream (S.left client.old) (S.contents client.old) (S.Source.faults client.old) (S.Sink.faults client.old))
            (stream (U.left agent.old) (U.contents agent.old) (U.Source.faults agent.old) (U.Sink.faults agent.old)))
            self.old.core awaiting → Turned t before (streams
            (stream (S.left client.new) (S.contents client.new) (S.Source.faults client.new) (S.Sink.faults client.new))
            (stream (U.left agent.new) (U.contents agent.new) (U.Source.faults agent.new) (U.Sink.faults agent.new)))
            self.new.core result }
    {
        match read_frame(agent, &mut self.answer) {
            Ok(true) => self.take_answer(client),
            Ok(false) => Err(ProxyError::UnexpectedEnd),
            Err(broken) => Err(reading_error(ProxyError::AgentFault, broken)),
        }
    }

    /// Takes the answer that was read.
    fn take_answer<S: AgentStream>(&mut self, client: &mut S) -> Result<bool, ProxyError>
        ensures turned { (t : Terms) (before : Streams) (agent : Stream) → Relaying t before (streams
            (stream (S.left client.old) (S.contents client.old) (S.Source.faults client.old) (S.Sink.faults client.old))
            agent) self.old.core (heard self.old.answer.items) → Turned t before (streams
            (stream (S.left client.new) (S.contents client.new) (S.Source.faults client.new) (S.Sink.faults client.new))
            agent) self.new.core result }
    {
        match self.core.take_answer(CONN, self.answer.as_slice()) {
            ProxyOutput::Answer(frame) => reply(client, frame.as_slice()),
            ProxyOutput::Forward(_frame) => Ok(true),
            ProxyOutput::Nothing => Ok(true),
            ProxyOutput::NoMemory => Err(ProxyError::NoMemory),
        }
    }
}

/// Serves a client to the end of its bytes: each of its frames is one step of the core, and so is the agent's answer to
/// each frame that is forwarded. One frame and one answer are kept in memory.
///
/// Errors: `ClientFault` and `AgentFault` where a read or a write of that stream failed; `TooLong` at a length above
/// 262144; `UnexpectedEnd` where a stream ended inside a frame, or the agent's before its answer; `NoMemory`, which
/// also ends a run of 2^64 - 1 frames. After an error neither stream is of use.
pub fn proxy_run<S: AgentStream, U: AgentStream, V: Verifier>(
    policy: Policy,
    client: &mut S,
    agent: &mut U,
    verifier: &V,
) -> Result<(), ProxyError>
    ensures relays { Relays (terms (V.accepts verifier.now) policy)
        (streams
        (stream (S.left client.old) (S.contents client.old) (S.Source.faults client.old) (S.Sink.faults client.old))
        (stream (U.left agent.old) (U.contents agent.old) (U.Source.faults agent.old) (U.Sink.faults agent.old)))
        (streams
        (stream (S.left client.new) (S.contents client.new) (S.Source.faults client.new) (S.Sink.faults client.new))
        (stream (U.left agent.new) (U.contents agent.new) (U.Source.faults agent.new) (U.Sink.faults agent.new)))
        result }
{
    let mut relay = Relay::new(policy);
    for _turn in 0..u64::MAX {
        match relay.turn(client, agent, verifier) {
            Ok(true) => {}
            Ok(false) => return Ok(()),
            Err(error) => return Err(error),
        }
    }
    Err(ProxyError::NoMemory)
}
