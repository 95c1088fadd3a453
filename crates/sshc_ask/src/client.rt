//! The client of an agent.

ghost use Rattle.std.specs.Prelude.{◌≡◌};
ghost use Rattle.sshc_wire.specs.Wire.{string_text};
ghost use Rattle.sshc_key.specs.Gives.{GivesAll};
ghost use Rattle.sshc_ask.specs.AgentCalls.{AnswerIs, Calls};
ghost use Rattle.sshc_ask.specs.AgentCalls.Readings.{success_reading};
ghost use Rattle.sshc_ask.specs.StreamState.{StreamState};

use crate::answer::success_in;
use crate::exchange::{read_answer, send};
use crate::message::Message;
use sshc_key::Error;
use sshc_wire::AgentStream;
use std::alloc::Global;
use std::marker::Model;

/// A client of an agent over a stream, which contracts see as the state of that stream, and how often a signature for a
/// login was refused.
#[derive(Drop)]
pub struct AgentClient<S: AgentStream> {
    pub(crate) alloc: Global,
    stream: S,
    pub(crate) refusals: u64,
}

impl<S: AgentStream> Model for AgentClient<S> {
    ghost use Rattle.sshc_ask.specs.StreamState.{StreamState};

    ghost Value = { StreamState };

    ghost view = { λ c. record {
      held = S.contents c.stream;
      left = S.left c.stream;
      writes = S.writes c.stream;
      reads = S.reads c.stream;
      write_faults = S.Sink.faults c.stream;
      read_faults = S.Source.faults c.stream;
      refusals = c.refusals;
    } };
}

impl<S: AgentStream> AgentClient<S> {
    /// A client over this stream. Reads and writes nothing.
    pub fn connect(alloc: Global, stream: S) -> AgentClient<S>
        ensures { result ≡ record {
          held = S.contents stream;
          left = S.left stream;
          writes = S.writes stream;
          reads = S.reads stream;
          write_faults = S.Sink.faults stream;
          read_faults = S.Source.faults stream;
          refusals = 0;
        } }
    {
        AgentClient {
            alloc,
            stream,
            refusals: 0,
        }
    }

    /// The stream in the state after the calls.
    pub fn into_inner(self) -> S
        ensures { self ≡ record self {
          held = S.contents result;
          left = S.left result;
          writes = S.writes result;
          reads = S.reads result;
          write_faults = S.Sink.faults result;
          read_faults = S.Source.faults result;
        } }
    {
        self.stream
    }

    /// Writes the frame of a message, and reads the answer.
    pub(crate) fn ask(&mut self, message: Message) -> Result<Vec<u8>, Error>
        ensures { Calls (string_text message) (AnswerIs result) self.old self.new result }
    {
        let frame = message.into_frame()?;
        send(&mut self.stream, &frame)?;
        read_answer(self.alloc, &mut self.stream)
    }
    /// Sends a request that the agent acknowledges or refuses.
    pub(crate) fn succeed(&mut self, message: Message) -> Result<(), Error>
        ensures { Calls (string_text message) (λ answer. GivesAll (λ x. x) result (success_reading answer))
            self.old self.new result }
    {
        let answer = self.ask(message)?;
        success_in(&answer)
    }
}
