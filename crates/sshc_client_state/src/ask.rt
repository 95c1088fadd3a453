//! Global requests of ours, with what their replies are for (RFC 4254, section 4).

ghost use Rattle.std.specs.Prelude.{◌≡◌, IfOk};
ghost use Rattle.sshc_wire.specs.Outgoing.{listed};
ghost use Rattle.sshc_client_packets.specs.GlobalRequests.{global_request};
ghost use Rattle.sshc_client_table.specs.Messages.{asked_ticket, entry_of, queued, request_of, wants_answer};
ghost use Rattle.sshc_client_table.specs.Moves.{or_none};
ghost use Rattle.sshc_client_state.specs.Asks.{ask_of};

use sshc_client_packets::GlobalRequest;
use sshc_client_table::{ReplyEntry, ReplyKind};
use sshc_key::PublicKey;
use sshc_wire::{List, NoMemory, Ticket};
use std::alloc::Global;

/// A global request, with whom its answer is for. Ticket 0 means that no answer is wanted.
#[derive(Clone, Copy)]
pub enum Ask<'a> {
    /// To listen on a port; port 0 lets the server choose one (RFC 4254, section 7.1).
    Forward {
        ticket: Ticket,
        address: &'a str,
        port: u32,
    },
    CancelForward {
        ticket: Ticket,
        address: &'a str,
        port: u32,
    },
    /// To listen on a socket (OpenSSH's PROTOCOL, section 2.4).
    ForwardSocket {
        ticket: Ticket,
        path: &'a str,
    },
    CancelForwardSocket {
        ticket: Ticket,
        path: &'a str,
    },
    KeepAlive {
        want_reply: bool,
    },
    /// OpenSSH's PROTOCOL, section 2.2.
    NoMore {
        want_reply: bool,
    },
    /// A keepalive that always wants a reply.
    Ping {
        ticket: Ticket,
    },
    /// To prove these host keys (OpenSSH's PROTOCOL, section 2.5).
    Prove {
        ticket: Ticket,
        keys: &'a [PublicKey],
    },
    /// A request by its name and the bytes after the flag.
    OwnRequest {
        ticket: Ticket,
        name: &'a str,
        body: &'a [u8],
    },
}

impl<'a> Ask<'a> {
    /// The request as it is written.
    pub(crate) fn request(&self) -> GlobalRequest<'a>
        ensures { global_request result ≡ request_of (ask_of self.now) }
    {
        match *self {
            Ask::Forward { address, port, .. } => GlobalRequest::TcpIpForward { address, port },
            Ask::CancelForward { address, port, .. } => {
                GlobalRequest::CancelTcpIpForward { address, port }
            }
            Ask::ForwardSocket { path, .. } => GlobalRequest::StreamLocalForward {
                socket_path: path,
            },
            Ask::CancelForwardSocket { path, .. } => GlobalRequest::CancelStreamLocalForward {
                socket_path: path,
            },
            Ask::KeepAlive { .. } | Ask::Ping { .. } => GlobalRequest::Keepalive,
            Ask::NoMore { .. } => GlobalRequest::NoMoreSessions,
            Ask::Prove { keys, .. } => GlobalRequest::HostKeysProve { keys },
            Ask::OwnRequest { name, body, .. } => GlobalRequest::Own { name, body },
        }
    }

    /// Whether it is written with a reply wanted.
    pub fn wants_answer(&self) -> bool
        ensures { result ≡ wants_answer (ask_of self.now) }
    {
        match self {
            Ask::Forward { ticket, .. }
            | Ask::CancelForward { ticket, .. }
            | Ask::ForwardSocket { ticket, .. }
            | Ask::CancelForwardSocket { ticket, .. }
            | Ask::OwnRequest { ticket, .. } => ticket.0 != 0,
            Ask::KeepAlive { want_reply } | Ask::NoMore { want_reply } => *want_reply,
            Ask::Ping { .. } | Ask::Prove { .. } => true,
        }
    }

    /// Whom the answer is for.
    fn ticket(&self) -> Option<Ticket>
        ensures { result ≡ (entry_of (ask_of self.now)).ticket }
    {
        match self {
            Ask::Forward { ticket, .. }
            | Ask::CancelForward { ticket, .. }
            | Ask::ForwardSocket { ticket, .. }
            | Ask::CancelForwardSocket { ticket, .. }
            | Ask::Ping { ticket }
            | Ask::Prove { ticket, .. }
            | Ask::OwnRequest { ticket, .. } => asked_ticket(*ticket),
            Ask::KeepAlive { .. } | Ask::NoMore { .. } => None,
        }
    }

    /// What the meaning of the reply depends on.
    fn kind(&self) -> ReplyKind
        ensures { result ≡ (entry_of (ask_of self.now)).kind }
    {
        match self {
            Ask::Forward { .. } => ReplyKind::Forward,
            Ask::CancelForward { .. }
            | Ask::ForwardSocket { .. }
            | Ask::CancelForwardSocket { .. } => ReplyKind::Done,
            Ask::KeepAlive { .. } => ReplyKind::Keepalive,
            Ask::NoMore { .. } => ReplyKind::NoMoreSessions,
            Ask::Ping { .. } => ReplyKind::Ping,
            Ask::Prove { .. } => ReplyKind::Proof,
            Ask::OwnRequest { .. } => ReplyKind::Own,
        }
    }

    /// Copies of the host keys that are to be proved.
    fn keys(&self, alloc: Global) -> Result<List<PublicKey>, NoMemory>
        ensures { IfOk result (λ keys. keys ≡ (entry_of (ask_of self.now)).keys) }
    {
        match self {
            Ask::Prove { keys, .. } => copied_keys(alloc, keys),
            _ => Ok(List::new(alloc)),
        }
    }

    /// Its entry in the queue of requests, if it wants a reply.
    pub(crate) fn queued(&self, alloc: Global) -> Result<Option<ReplyEntry>, NoMemory>
        ensures { IfOk result (λ entry. listed entry ≡ queued (ask_of self.now)) }
    {
        if !self.wants_answer() {
            return Ok(None);
        }
        Ok(Some(ReplyEntry {
            kind: self.kind(),
            ticket: self.ticket(),
            keys: self.keys(alloc)?,
        }))
    }
}

/// `None` for ticket 0, which means no ticket.
pub fn asked_ticket(ticket: Ticket) -> Option<Ticket>
    ensures { result ≡ asked_ticket ticket }
{
    if ticket.0 == 0 { None } else { Some(ticket) }
}

/// The ticket, or ticket 0 for `None`.
pub fn ticket_or_none(ticket: Option<Ticket>) -> Ticket
    ensures { result ≡ or_none ticket }
{
    match ticket {
        Some(ticket) => ticket,
        None => Ticket(0),
    }
}

fn copied_keys(alloc: Global, keys: &[PublicKey]) -> Result<List<PublicKey>, NoMemory>
    ensures { IfOk result (λ l. l ≡ keys.now) }
{
    let mut copies = List::new(alloc);
    for key in keys {
        copies.push(key.copy()?)?;
    }
    Ok(copies)
}
