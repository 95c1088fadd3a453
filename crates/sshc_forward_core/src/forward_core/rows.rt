//! The rows of the core, one for each kind of event.

ghost use Rattle.std.specs.Prelude.{◌≡◌, false};
ghost use Rattle.std.specs.FinMap.{contains_key};
ghost use Rattle.sshc_forward_core.specs.Forwards.{Does, row, is_taken, accepted_row, incoming_row, turn_on};
ghost use Rattle.sshc_forward_core.specs.Forwards.{opened_row, open_failed_row, channel_close_row};

use super::ForwardCore;
use crate::event::FwdEvent;
use crate::output::FwdOutput;
use crate::pair::Pair;
use crate::room::{none, one};
use sshc_wire::{NoMemory, Text};

impl ForwardCore {
    pub(super) fn row(&mut self, event: &FwdEvent) -> Result<Vec<FwdOutput>, NoMemory>
        requires { is_taken event.now self.old ≡ false }
        ensures { Does (row event.now self.old) self.old self.new result }
    {
        match event {
            FwdEvent::Accepted {
                stream,
                host,
                port,
                originator,
                originator_port,
            } => self.accepted(*stream, host, *port, originator, *originator_port),
            FwdEvent::Opened { stream, channel } => self.opened(*stream, *channel),
            FwdEvent::OpenFailed { stream } => self.open_failed(*stream),
            FwdEvent::Incoming { channel, stream } => self.incoming(*channel, *stream),
            FwdEvent::Bytes { stream, .. } => self.turn_at(*stream, event),
            FwdEvent::StreamEnd { stream } => self.turn_at(*stream, event),
            FwdEvent::Data { channel, .. } => self.turn_on(*channel, event),
            FwdEvent::ChannelEof { channel } => self.turn_on(*channel, event),
            FwdEvent::ChannelClose { channel } => self.channel_close(*channel),
            FwdEvent::StreamFailed { stream } => self.turn_at(*stream, event),
        }
    }

    /// An accepted stream: a new pair, whose channel is asked for.
    fn accepted(
        &mut self,
        stream: u32,
        host: &Text,
        port: u32,
        originator: &Text,
        originator_port: u32,
    ) -> Result<Vec<FwdOutput>, NoMemory>
        ensures { Does (accepted_row stream host.now port originator.now originator_port self.old)
            self.old self.new result }
    {
        let host = host.copy()?;
        let originator = originator.copy()?;
        let output = FwdOutput::OpenChannel {
            stream,
            host,
            port,
            originator,
            originator_port,
        };
        match one(self.alloc, output) {
            Ok(outputs) => match self.put(stream, Pair::new(self.alloc, None)) {
                Ok(()) => Ok(outputs),
                Err(NoMemory) => {
                    drop(outputs);
                    Err(NoMemory)
                }
            },
            Err(NoMemory) => Err(NoMemory),
        }
    }

    /// A channel of the peer's with its stream: a new pair.
    #[tactic(auto, using(crate::proofs::MapLemmas::undone))]
    fn incoming(&mut self, channel: u32, stream: u32) -> Result<Vec<FwdOutput>, NoMemory>
        requires { contains_key self.old.joined channel ≡ false }
        ensures { Does (incoming_row channel stream self.old) self.old self.new result }
    {
        self.join(channel, stream)?;
        match self.put(stream, Pair::new(self.alloc, Some(channel))) {
            Ok(()) => Ok(none(self.alloc)),
            Err(NoMemory) => {
                self.part(channel);
                Err(NoMemory)
            }
        }
    }

    /// The channel of an accepted stream is open.
    #[tactic(auto, using(crate::proofs::MapLemmas::undone))]
    fn opened(&mut self, stream: u32, channel: u32) -> Result<Vec<FwdOutput>, NoMemory>
        requires { contains_key self.old.joined channel ≡ false }
        ensures { Does (opened_row stream channel self.old) self.old self.new result }
    {
        if !self.has_pair(stream) {
            return Ok(none(self.alloc));
        }
        self.join(channel, stream)?;
        match self.turn_at(stream, &FwdEvent::Opened { stream, channel }) {
            Ok(outputs) => Ok(outputs),
            Err(NoMemory) => {
                self.part(channel);
                Err(NoMemory)
            }
        }
    }

    /// An accepted stream gets no channel: its pair is gone.
    fn open_failed(&mut self, stream: u32) -> Result<Vec<FwdOutput>, NoMemory>
        ensures { Does (open_failed_row stream self.old) self.old self.new result }
    {
        if !self.has_pair(stream) || self.is_opened_at(stream) {
            return Ok(none(self.alloc));
        }
        let outputs = one(self.alloc, FwdOutput::CloseStream { stream })?;
        self.take_out(stream);
        Ok(outputs)
    }

    /// An event of a channel, for the pair of its stream.
    fn turn_on(&mut self, channel: u32, event: &FwdEvent) -> Result<Vec<FwdOutput>, NoMemory>
        ensures { Does (turn_on channel event.now self.old) self.old self.new result }
    {
        match self.stream_of(channel) {
            Some(stream) => self.turn_at(stream, event),
            None => Ok(none(self.alloc)),
        }
    }

    /// The channel is gone, and its pair with it.
    fn channel_close(&mut self, channel: u32) -> Result<Vec<FwdOutput>, NoMemory>
        ensures { Does (channel_close_row channel self.old) self.old self.new result }
    {
        let Some(stream) = self.stream_of(channel) else {
            return Ok(none(self.alloc));
        };
        let outputs = one(self.alloc, FwdOutput::CloseStream { stream })?;
        self.close_pair(stream, channel);
        Ok(outputs)
    }
}
