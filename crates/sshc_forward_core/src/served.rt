//! One pair that is opened from the start: its core, and which ends were given. The value that the threads of a pair
//! share.

ghost use Rattle.std.specs.Prelude.{◌≡◌, IfOk};
ghost use Rattle.sshc_forward_core.specs.Served.{Takes, fwd_event, opened_pair};

use crate::event::FwdEvent;
use crate::forward_core::ForwardCore;
use crate::given::Given;
use crate::output::FwdOutput;
use crate::refused::FwdRefused;
use sshc_wire::{NoMemory, Octets};
use std::alloc::Global;
use std::marker::Model;

/// What happens to the stream of the pair, or to its channel.
#[derive(Drop)]
pub enum PairEvent {
    /// Bytes that were read from the stream.
    Bytes(Octets),
    /// The stream has no more bytes.
    StreamEnd,
    /// The channel's bytes.
    Data(Octets),
    /// The channel has no more bytes.
    ChannelEof,
    /// The channel is gone.
    ChannelClose,
    /// A read or a write of the stream failed.
    StreamFailed,
}

/// A pair whose stream has its channel's number, which contracts see as that number, the core's pairs, and which ends
/// were given so far. Whatever happens to it, in any order, each end is given at most once.
#[derive(Drop)]
pub struct ServedPair {
    number: u32,
    core: ForwardCore,
    given: Given,
}

impl Model for ServedPair {
    ghost use Rattle.sshc_forward_core.specs.ServedCode.{served_code};
    ghost use Rattle.sshc_forward_core.specs.Served.{Served, IsServed};

    ghost Value = { Served };

    ghost coded = { served_code };

    ghost view = { λ s. record { number = s.number; pairs = s.core; given = s.given } };

    ghost invariant = { λ s. IsServed s.number s.core s.given };
}

/// The event of the core for an event of the pair.
fn fwd_event(number: u32, event: PairEvent) -> FwdEvent
    ensures { result ≡ fwd_event number event }
{
    match event {
        PairEvent::Bytes(bytes) => FwdEvent::Bytes {
            stream: number,
            bytes,
        },
        PairEvent::StreamEnd => FwdEvent::StreamEnd { stream: number },
        PairEvent::Data(bytes) => FwdEvent::Data {
            channel: number,
            bytes,
        },
        PairEvent::ChannelEof => FwdEvent::ChannelEof { channel: number },
        PairEvent::ChannelClose => FwdEvent::ChannelClose { channel: number },
        PairEvent::StreamFailed => FwdEvent::StreamFailed { stream: number },
    }
}

impl ServedPair {
    /// A pair for this channel of the peer's, of which nothing was given.
    pub fn new(alloc: Global, number: u32) -> Result<ServedPair, NoMemory>
        ensures { IfOk result (λ s. s ≡ opened_pair number) }
    {
        let mut core = ForwardCore::new(alloc);
        let coming = FwdEvent::Incoming {
            channel: number,
            stream: number,
        };
        match core.step(&coming) {
            Ok(_) => Ok(ServedPair {
                number,
                core,
                given: Given::nothing(),
            }),
            Err(_) => Err(NoMemory),
        }
    }

    /// Takes an event by one step of the core, and returns what is to be done for it, in order. Each of it is permitted
    /// by what was given before. Out of memory it changes nothing.
    pub fn take(&mut self, event: PairEvent) -> Result<Vec<FwdOutput>, NoMemory>
        ensures { Takes event self.old self.new result }
    {
        let event = fwd_event(self.number, event);
        match self.core.step(&event) {
            Ok(outputs) => {
                self.given = self.given.after(outputs.as_slice());
                Ok(outputs)
            }
            Err(FwdRefused::Taken | FwdRefused::NoMemory) => Err(NoMemory),
        }
    }

    /// Which ends were given so far.
    pub fn given(&self) -> Given
        ensures { result ≡ self.now.given }
    {
        self.given
    }
}
