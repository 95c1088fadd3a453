//! A pair of a stream and a channel, and its turn for each kind of event.

ghost use Rattle.std.specs.Prelude.{◌≡◌, ◌++◌, ◌+◌, ◌<◌, [], ◌∷◌, IfOk, length, vec_len, vec_capacity, if◌then◌else◌};
ghost use Rattle.sshc_forward_core.specs.PairState.{new_pair, is_opened, is_read, is_written, has_failed};
ghost use Rattle.sshc_forward_core.specs.declared.output.FwdOutput.TheVariants.{EndWriting, CloseChannel};
ghost use Rattle.sshc_forward_core.specs.PairTurns.{Follows, turn, opened_turn, bytes_turn, passed_on, stream_end_turn};
ghost use Rattle.sshc_forward_core.specs.PairTurns.{stream_failed_turn, data_turn, channel_eof_turn, sent_on, close_to};
ghost use Rattle.sshc_forward_core.specs.PairTurns.{eof_to};

use crate::event::FwdEvent;
use crate::output::FwdOutput;
use crate::room::{none, one, two};
use sshc_wire::{NoMemory, Octets};
use std::alloc::Global;
use std::collections::VecDeque;
use std::marker::Model;

/// How far a stream has come.
#[derive(Clone, Copy, PartialEq, Eq)]
pub enum Reading {
    Going,
    /// It has no more bytes.
    Ended,
    /// A read or a write of it failed.
    Failed,
}

/// A pair, which contracts see as plain data.
#[derive(Drop)]
pub(crate) struct Pair {
    channel: Option<u32>,
    held: VecDeque<Octets>,
    reading: Reading,
    channel_ended: bool,
}

impl Model for Pair {
    ghost use Rattle.sshc_forward_core.specs.PairState.{PairState};

    ghost Value = { PairState };

    ghost view = { λ p. record {
      channel = p.channel;
      held = p.held.items;
      reading = p.reading;
      channel_ended = p.channel_ended;
    } };
}

impl Pair {
    pub(crate) fn new(alloc: Global, channel: Option<u32>) -> Pair
        ensures { result ≡ new_pair channel }
    {
        Pair {
            channel,
            held: VecDeque::new(alloc),
            reading: Reading::Going,
            channel_ended: false,
        }
    }

    pub(crate) fn is_opened(&self) -> bool
        ensures { result ≡ is_opened self.now }
    {
        self.channel.is_some()
    }

    /// Nothing more is read from the stream.
    fn is_read(&self) -> bool
        ensures { result ≡ is_read self.now.reading }
    {
        match self.reading {
            Reading::Going => false,
            Reading::Ended | Reading::Failed => true,
        }
    }

    /// Nothing more is written to the stream.
    fn is_written(&self) -> bool
        ensures { result ≡ is_written self.now }
    {
        if self.channel_ended {
            return true;
        }
        match self.reading {
            Reading::Failed => true,
            Reading::Going | Reading::Ended => false,
        }
    }

    /// The turn of an event of the pair, whose stream this is.
    pub(crate) fn turn(
        &mut self,
        alloc: Global,
        stream: u32,
        event: &FwdEvent,
    ) -> Result<Vec<FwdOutput>, NoMemory>
        ensures { Follows (turn stream event.now self.old) self.old self.new result }
    {
        match event {
            FwdEvent::Opened { channel, .. } => self.opened(alloc, *channel),
            FwdEvent::Bytes { bytes, .. } => self.bytes(alloc, bytes),
            FwdEvent::StreamEnd { .. } => self.stream_end(alloc),
            FwdEvent::Data { bytes, .. } => self.channel_data(alloc, stream, bytes),
            FwdEvent::ChannelEof { channel } => self.channel_eof(alloc, stream, *channel),
            FwdEvent::StreamFailed { .. } => self.stream_failed(alloc),
            FwdEvent::Accepted { .. }
            | FwdEvent::OpenFailed { .. }
            | FwdEvent::Incoming { .. }
            | FwdEvent::ChannelClose { .. } => Ok(none(alloc)),
        }
    }

    /// Bytes of the stream: sent, or held while there is no channel.
    fn bytes(&mut self, alloc: Global, bytes: &Octets) -> Result<Vec<FwdOutput>, NoMemory>
        ensures { Follows (bytes_turn bytes.now self.old) self.old self.new result }
    {
        if self.is_read() || bytes.as_slice().is_empty() {
            return Ok(none(alloc));
        }
        self.pass_on(alloc, bytes.copy()?)
    }

    fn pass_on(&mut self, alloc: Global, bytes: Octets) -> Result<Vec<FwdOutput>, NoMemory>
        ensures { Follows (passed_on bytes self.old.channel self.old) self.old self.new result }
    {
        match self.channel {
            Some(channel) => one(alloc, FwdOutput::SendData { channel, bytes }),
            None => {
                self.held.push_back(bytes)?;
                Ok(none(alloc))
            }
        }
    }

    /// The stream's end: EOF, and the close if the channel has ended too.
    fn stream_end(&mut self, alloc: Global) -> Result<Vec<FwdOutput>, NoMemory>
        ensures { Follows (stream_end_turn self.old) self.old self.new result }
    {
        if self.is_read() {
            return Ok(none(alloc));
        }
        let outputs = self.eof(alloc)?;
        self.reading = Reading::Ended;
        Ok(outputs)
    }

    fn eof(&self, alloc: Global) -> Result<Vec<FwdOutput>, NoMemory>
        ensures { IfOk result (λ v. v.items ≡ eof_to self.now.channel self.now.channel_ended) }
    {
        match self.channel {
            None => Ok(none(alloc)),
            Some(channel) => {
                let eof = FwdOutput::SendEof { channel };
                if self.channel_ended {
                    two(alloc, eof, FwdOutput::CloseChannel { channel })
                } else {
                    one(alloc, eof)
                }
            }
        }
    }

    /// The stream's failure: what is held is dropped, and the channel is closed.
    fn stream_failed(&mut self, alloc: Global) -> Result<Vec<FwdOutput>, NoMemory>
        ensures { Follows (stream_failed_turn self.old) self.old self.new result }
    {
        if self.is_read() && self.is_written() {
            return Ok(none(alloc));
        }
        let outputs = self.close(alloc)?;
        self.reading = Reading::Failed;
        self.held.clear();
        Ok(outputs)
    }

    fn close(&self, alloc: Global) -> Result<Vec<FwdOutput>, NoMemory>
        ensures { IfOk result (λ v. v.items ≡ close_to self.now.channel) }
    {
        match self.channel {
            None => Ok(none(alloc)),
            Some(channel) => one(alloc, FwdOutput::CloseChannel { channel }),
        }
    }

    /// The channel's bytes are written to the stream.
    fn channel_data(
        &mut self,
        alloc: Global,
        stream: u32,
        bytes: &Octets,
    ) -> Result<Vec<FwdOutput>, NoMemory>
        ensures { Follows (data_turn stream bytes.now self.old) self.old self.new result }
    {
        if self.is_written() || bytes.as_slice().is_empty() {
            return Ok(none(alloc));
        }
        let bytes = bytes.copy()?;
        one(alloc, FwdOutput::WriteBytes { stream, bytes })
    }

    /// The channel's end: the stream is told of it, and the channel is closed if the stream has ended too.
    fn channel_eof(
        &mut self,
        alloc: Global,
        stream: u32,
        channel: u32,
    ) -> Result<Vec<FwdOutput>, NoMemory>
        ensures { Follows (channel_eof_turn stream channel self.old) self.old self.new result }
    {
        if self.is_written() {
            return Ok(none(alloc));
        }
        let outputs = self.end_writing(alloc, stream, channel)?;
        self.channel_ended = true;
        Ok(outputs)
    }

    fn end_writing(
        &self,
        alloc: Global,
        stream: u32,
        channel: u32,
    ) -> Result<Vec<FwdOutput>, NoMemory>
        ensures { IfOk result (λ v. v.items ≡ EndWriting stream
            ∷ (if is_read self.now.reading then CloseChannel channel ∷ [] else [])) }
    {
        let end = FwdOutput::EndWriting { stream };
        if self.is_read() {
            two(alloc, end, FwdOutput::CloseChannel { channel })
        } else {
            one(alloc, end)
        }
    }

    /// The channel is open: what was held is sent, and then EOF if the stream has ended. If it has failed, the channel
    /// is closed.
    fn opened(&mut self, alloc: Global, channel: u32) -> Result<Vec<FwdOutput>, NoMemory>
        ensures { Follows (opened_turn channel self.old) self.old self.new result }
    {
        let room = self.held.len().saturating_add(1);
        let mut outputs = Vec::with_capacity(alloc, room)?;
        match self.reading {
            Reading::Failed => outputs.push_reserved(FwdOutput::CloseChannel { channel }),
            Reading::Ended => {
                send_held(channel, &mut self.held, &mut outputs);
                outputs.push_reserved(FwdOutput::SendEof { channel });
            }
            Reading::Going => send_held(channel, &mut self.held, &mut outputs),
        }
        self.held.clear();
        self.channel = Some(channel);
        Ok(outputs)
    }
}

/// Sends what was held, each piece by itself, in the order in which it came.
fn send_held(channel: u32, held: &mut VecDeque<Octets>, outputs: &mut Vec<FwdOutput>)
    requires room { vec_len outputs.old + length held.old.items < vec_capacity outputs.old }
    ensures outputs { outputs.new.items ≡ outputs.old.items ++ sent_on channel held.old.items }
    ensures room { vec_len outputs.new < vec_capacity outputs.new }
{
    while let Some(bytes) = held.pop_front() {
        outputs.push_reserved(FwdOutput::SendData { channel, bytes });
    }
}
