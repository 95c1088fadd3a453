//! The transport below a session. Its contracts are about what `next` returned and what the transport was handed.

ghost use Rattle.std.specs.Prelude.{◌≡◌, ℕ, List, Option, IfOk, IfSome};
ghost use Rattle.sshc_wire.specs.Faults.{HasCause};
ghost use Rattle.sshc_transport.specs.Transports.{Answer, Handing, payload, exchange_begun, AnswersNext, Hands};
ghost use Rattle.sshc_transport.specs.Transports.{IsShortEvent};

use crate::exchange::ExchangeResult;
use sshc_wire::{Failed, Octets};

/// What `next` returns: an event of the transport.
#[derive(PartialEq, Eq, Drop)]
pub enum TransportEvent {
    /// The peer's KEXINIT came (RFC 4253, section 7.1).
    PeerKexinit,
    /// A key exchange is done.
    Done(ExchangeResult),
    /// A packet came that isn't of an exchange's own types.
    Payload(Octets),
    /// The transport failed.
    Failed,
    /// As much was sent under one key as is allowed (RFC 4253, section 9).
    RekeyLimit,
    /// Nothing has come yet. This event isn't passed to a session.
    Quiet,
}

/// A transport: it returns the events that come, takes packets and begins key exchanges. It holds back the packets that
/// it is handed while an exchange runs, and doesn't report an exchange's own packets.
pub trait Transport {
    /// What `next` returned, in order, without the results that are out of memory; `None` if it isn't known.
    ghost answers: { Self → Option (List Answer) };

    /// The packets and the beginnings of exchanges that the transport took, in order; `None` if they aren't known.
    ghost handed: { Self → Option (List Handing) };

    /// How often a call has failed.
    ghost faults: { Self → ℕ };

    /// Returns the next event, or `None` at the end. Each of its lists and texts has at most 262144 bytes.
    fn next(&mut self) -> Result<Option<TransportEvent>, Failed>
        ensures answered { AnswersNext (answers self.old) (answers self.new) result }
        ensures handed { handed self.new ≡ handed self.old }
        ensures short { IfOk result (λ o. IfSome o IsShortEvent) }
        ensures cause { HasCause (faults self.old) (faults self.new) result };

    /// Takes a packet.
    fn hand(&mut self, packet: &[u8]) -> Result<(), Failed>
        ensures handed { Hands (payload packet.now) (handed self.old) (handed self.new) result }
        ensures answered { answers self.new ≡ answers self.old }
        ensures cause { HasCause (faults self.old) (faults self.new) result };

    /// Begins a key exchange.
    fn begin_exchange(&mut self) -> Result<(), Failed>
        ensures handed { Hands exchange_begun (handed self.old) (handed self.new) result }
        ensures answered { answers self.new ≡ answers self.old }
        ensures cause { HasCause (faults self.old) (faults self.new) result };

    /// The peer's version line.
    fn remote_sshid(&self) -> &[u8];
}
