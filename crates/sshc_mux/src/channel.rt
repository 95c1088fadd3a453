//! One channel: its windows, the bytes that wait on it, and its ends.

mod ends;
mod sending;
mod windows;

ghost use Rattle.std.specs.Prelude.{◌≡◌, Some, option_copied, slice_get};
ghost use Rattle.sshc_mux.specs.WaitingPieces.{pieces_of_flow};
ghost use Rattle.sshc_mux.specs.ChannelTable.Opens.{opened_by_user, reserved_by_server, accepted, confirmed};
ghost use Rattle.sshc_mux.specs.ChannelTable.Opens.{awaited_by, reserved_by};
ghost use Rattle.sshc_mux.specs.ChannelTable.{waits};
ghost use Rattle.sshc_mux.specs.ChannelTable.Sending.{done, is_due};
ghost use Rattle.sshc_mux.specs.ChannelTable.Ends.{asked, is_sent, is_unasked};

use crate::chunk::Chunk;
use bytes::Bytes;
use sshc_wire::Ticket;
use std::alloc::Global;
use std::collections::VecDeque;
use std::marker::Model;

/// Who opened a channel.
#[derive(Clone, Copy, PartialEq, Eq)]
pub enum Opener {
    /// The user, with the ticket under which the open is answered, if there is one.
    User(Option<Ticket>),
    /// The server.
    Server,
}

/// The state of EOF or of our close on a channel.
#[derive(Clone, Copy, PartialEq, Eq)]
pub enum Stage {
    /// Nobody asked for it.
    Unasked,
    /// It was asked for, and waits.
    Asked,
    /// It was sent.
    Sent,
}

impl Stage {
    pub(crate) fn is_unasked(self) -> bool
        ensures { result ≡ is_unasked self }
    {
        matches!(self, Stage::Unasked)
    }

    pub(crate) fn is_due(self) -> bool
        ensures { result ≡ is_due self }
    {
        matches!(self, Stage::Asked)
    }

    pub(crate) fn is_sent(self) -> bool
        ensures { result ≡ is_sent self }
    {
        matches!(self, Stage::Sent)
    }

    /// The end was asked for.
    pub(crate) fn asked(self) -> Stage
        ensures { result ≡ asked self }
    {
        match self {
            Stage::Unasked => Stage::Asked,
            other => other,
        }
    }

    /// The state after sending what was asked for.
    pub(crate) fn done(self) -> Stage
        ensures { result ≡ done self }
    {
        match self {
            Stage::Asked => Stage::Sent,
            other => other,
        }
    }
}

/// A channel.
#[derive(Drop)]
pub(crate) struct Channel {
    number: u32,
    opener: Opener,
    is_established: bool,
    recipient: u32,
    packet_size: u32,
    own_window: u32,
    window: u32,
    pending: VecDeque<Chunk>,
    eof: Stage,
    close: Stage,
}

impl Model for Channel {
    ghost use Rattle.sshc_mux.specs.ChannelState.{ChannelState};

    ghost Value = { ChannelState };

    ghost view = { λ c. record {
      head = record {
        number = c.number;
        opener = c.opener;
        established = c.is_established;
        recipient = c.recipient;
        packet_size = c.packet_size;
      };
      own_window = c.own_window;
      flow = record {
        window = c.window;
        pending = c.pending.items;
        eof = c.eof;
        close = c.close;
      };
    } };
}

impl Channel {
    /// An open of ours, before the peer's answer.
    pub(crate) fn opened_by_user(
        alloc: Global,
        number: u32,
        window: u32,
        packet: u32,
        ticket: Option<Ticket>,
    ) -> Channel
        ensures { result ≡ opened_by_user number window packet ticket }
    {
        Channel {
            number,
            opener: Opener::User(ticket),
            is_established: false,
            recipient: 0,
            packet_size: packet,
            own_window: window,
            window: 0,
            pending: VecDeque::new(alloc),
            eof: Stage::Unasked,
            close: Stage::Unasked,
        }
    }

    /// An open of the peer's, before it is settled.
    pub(crate) fn reserved_by_server(
        alloc: Global,
        number: u32,
        recipient: u32,
        window: u32,
        packet: u32,
        own: u32,
    ) -> Channel
        ensures { result ≡ reserved_by_server number recipient window packet own }
    {
        Channel {
            number,
            opener: Opener::Server,
            is_established: false,
            recipient,
            packet_size: packet,
            own_window: own,
            window,
            pending: VecDeque::new(alloc),
            eof: Stage::Unasked,
            close: Stage::Unasked,
        }
    }

    pub(crate) fn number(&self) -> u32
        ensures { result ≡ self.now.head.number }
    {
        self.number
    }

    pub(crate) fn recipient(&self) -> u32
        ensures { result ≡ self.now.head.recipient }
    {
        self.recipient
    }

    pub(crate) fn window(&self) -> u32
        ensures { result ≡ self.now.flow.window }
    {
        self.window
    }

    pub(crate) fn is_established(&self) -> bool
        ensures { result ≡ self.now.head.established }
    {
        self.is_established
    }

    /// Whether bytes wait.
    pub(crate) fn waits(&self) -> bool
        ensures { result ≡ waits self.now }
    {
        self.pending.len() > 0
    }

    /// The bytes of one call that wait, by the place of the call, from 0.
    pub(crate) fn waiting(&self, at: usize) -> Option<&Bytes>
        ensures { option_copied result ≡ slice_get (pieces_of_flow self.now.flow) at }
    {
        match self.pending.get(at) {
            Some(chunk) => Some(chunk.body()),
            None => None,
        }
    }

    /// Whether our close was sent.
    pub(crate) fn is_close_sent(&self) -> bool
        ensures { result ≡ is_sent self.now.flow.close }
    {
        self.close.is_sent()
    }

    /// The ticket of an open of ours that waits for the peer's answer.
    pub(crate) fn awaited(&self) -> Option<Option<Ticket>>
        ensures { result ≡ awaited_by (Some self.now) }
    {
        match self.opener {
            Opener::User(ticket) if !self.is_established => Some(ticket),
            _ => None,
        }
    }

    /// Whether this is an open of the peer's that waits to be settled.
    pub(crate) fn is_reserved(&self) -> bool
        ensures { result ≡ reserved_by (Some self.now) }
    {
        matches!(self.opener, Opener::Server) && !self.is_established
    }

    /// The peer's confirmation of an open of ours.
    pub(crate) fn confirm(&mut self, recipient: u32, window: u32, packet: u32)
        ensures { self.new ≡ confirmed recipient window packet self.old }
    {
        self.is_established = true;
        self.recipient = recipient;
        self.window = window;
        self.packet_size = packet;
    }

    /// An open of the peer's is accepted.
    pub(crate) fn accept(&mut self)
        ensures { self.new ≡ accepted self.old }
    {
        self.is_established = true;
    }
}
