//! The core of port forwards: pairs, and one step for each event.

mod rows;

ghost use Rattle.std.specs.Prelude.{◌≡◌, OnErr, OnOk, option_copied};
ghost use Rattle.std.specs.FinMap.{get, insert, remove, contains_key, len};
ghost use Rattle.sshc_forward_core.specs.PairState.{PairState};
ghost use Rattle.sshc_forward_core.specs.Forwards.{no_pairs, Does, Steps, turn_at, is_taken, is_opened_at};

use crate::event::FwdEvent;
use crate::output::FwdOutput;
use crate::pair::Pair;
use crate::refused::FwdRefused;
use crate::room::none;
use sshc_wire::NoMemory;
use std::alloc::Global;
use std::collections::HashMap;
use std::marker::Model;

/// Pairs of streams and channels, which contracts see as a map from streams, and a map from channels to streams.
#[derive(Drop)]
pub struct ForwardCore {
    /// The pair of each stream.
    pairs: HashMap<u32, Pair>,
    /// The stream of each channel.
    joined: HashMap<u32, u32>,
    alloc: Global,
}

impl Model for ForwardCore {
    ghost use Rattle.std.specs.FinMap.{from_entries};
    ghost use Rattle.sshc_forward_core.specs.Forwards.{Forwards};
    ghost use Rattle.sshc_forward_core.specs.Codes.{forwards_code};

    ghost Value = { Forwards };

    ghost coded = { forwards_code };

    ghost view = { λ c. record { pairs = from_entries c.pairs.entries; joined = from_entries c.joined.entries } };
}

impl ForwardCore {
    /// No pairs.
    pub fn new(alloc: Global) -> ForwardCore
        ensures { result ≡ no_pairs }
    {
        ForwardCore {
            pairs: HashMap::new(alloc),
            joined: HashMap::new(alloc),
            alloc,
        }
    }

    /// Takes an event, and returns what is to be done for it, in order. An event that names a stream or a channel in
    /// use is refused. After a refusal nothing has changed.
    pub fn step(&mut self, event: &FwdEvent) -> Result<Vec<FwdOutput>, FwdRefused>
        ensures row { Steps event.now self.old self.new result }
    {
        if self.is_taken(event) {
            return Err(FwdRefused::Taken);
        }
        match self.row(event) {
            Ok(outputs) => Ok(outputs),
            Err(NoMemory) => Err(FwdRefused::NoMemory),
        }
    }

    /// How many pairs there are.
    #[tactic(auto, using(crate::proofs::MapLemmas::counted))]
    pub fn pair_count(&self) -> u64
        ensures { result ≡ len self.now.pairs }
    {
        self.pairs.len() as u64
    }

    /// Whether the event names a stream or a channel that is in use.
    fn is_taken(&self, event: &FwdEvent) -> bool
        ensures { result ≡ is_taken event.now self.now }
    {
        match event {
            FwdEvent::Accepted { stream, .. } => self.has_pair(*stream),
            FwdEvent::Opened { stream, channel } => {
                self.stream_of(*channel).is_some() || self.is_opened_at(*stream)
            }
            FwdEvent::Incoming { channel, stream } => {
                self.has_pair(*stream) || self.stream_of(*channel).is_some()
            }
            FwdEvent::OpenFailed { .. }
            | FwdEvent::Bytes { .. }
            | FwdEvent::StreamEnd { .. }
            | FwdEvent::Data { .. }
            | FwdEvent::ChannelEof { .. }
            | FwdEvent::ChannelClose { .. }
            | FwdEvent::StreamFailed { .. } => false,
        }
    }

    fn has_pair(&self, stream: u32) -> bool
        ensures { result ≡ contains_key self.now.pairs stream }
    {
        self.find(stream).is_some()
    }

    /// Whether the stream has a pair with a channel.
    fn is_opened_at(&self, stream: u32) -> bool
        ensures { result ≡ is_opened_at stream self.now }
    {
        match self.find(stream) {
            Some(pair) => pair.is_opened(),
            None => false,
        }
    }

    #[tactic(auto, using(crate::proofs::MapLemmas::get_is))]
    fn find(&self, stream: u32) -> Option<&Pair>
        ensures { option_copied result ≡ get self.now.pairs stream }
    {
        self.pairs.get(&stream)
    }

    /// The stream that the channel is joined to.
    #[tactic(auto, using(crate::proofs::MapLemmas::get_is))]
    fn stream_of(&self, channel: u32) -> Option<u32>
        ensures { result ≡ get self.now.joined channel }
    {
        self.joined.get(&channel).copied()
    }

    fn put(&mut self, stream: u32, pair: Pair) -> Result<(), NoMemory>
        ensures ok { OnOk result (self.new ≡ record self.old { pairs = insert self.old.pairs stream pair }) }
        ensures err { OnErr result (self.new ≡ self.old) }
    {
        let _ = self.pairs.insert(stream, pair)?;
        Ok(())
    }

    fn take_out(&mut self, stream: u32)
        ensures { self.new ≡ record self.old { pairs = remove self.old.pairs stream } }
    {
        let _ = self.pairs.remove(&stream);
    }

    fn join(&mut self, channel: u32, stream: u32) -> Result<(), NoMemory>
        ensures ok { OnOk result (self.new ≡ record self.old { joined = insert self.old.joined channel stream }) }
        ensures err { OnErr result (self.new ≡ self.old) }
    {
        let _ = self.joined.insert(channel, stream)?;
        Ok(())
    }

    fn part(&mut self, channel: u32)
        ensures { self.new ≡ record self.old { joined = remove self.old.joined channel } }
    {
        let _ = self.joined.remove(&channel);
    }

    /// The pair of the stream goes, and its channel with it.
    fn close_pair(&mut self, stream: u32, channel: u32)
        ensures { self.new ≡ record { pairs = remove self.old.pairs stream; joined = remove self.old.joined channel } }
    {
        self.take_out(stream);
        self.part(channel);
    }

    /// The turn of the stream's pair, if there is one.
    fn turn_at(&mut self, stream: u32, event: &FwdEvent) -> Result<Vec<FwdOutput>, NoMemory>
        ensures { Does (turn_at stream event.now self.old) self.old self.new result }
    {
        let alloc = self.alloc;
        let Some(pair) = self.pairs.get_mut(&stream) else {
            return Ok(none(alloc));
        };
        pair.turn(alloc, stream, event)
    }
}
