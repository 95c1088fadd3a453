//! What is known of an event before its row is done: where it comes from, its packet and its ticket.

ghost use Rattle.std.specs.Prelude.{◌≡◌, option_copied};
ghost use Rattle.sshc_auth.specs.OpeningTable.Order.{sort_of, packet_in, ticket_of};

use sshc_auth_event::Event;
use sshc_wire::{Octets, Ticket};

/// Where an event comes from, as the test of turns needs it.
#[derive(Clone, Copy, PartialEq, Eq)]
pub enum EventSort {
    /// The peer's KEXINIT.
    PeerKexinit,
    /// A key exchange is done.
    ExchangeDone,
    /// Anything else of the transport, and timers.
    Transport,
    /// The user.
    User,
}

/// Where the event comes from.
pub fn sort_of(event: &Event) -> EventSort
    ensures { result ≡ sort_of event.now }
{
    match event {
        Event::PeerKexinit => EventSort::PeerKexinit,
        Event::ExchangeDone(_) => EventSort::ExchangeDone,
        Event::Payload(_)
        | Event::TransportFailed
        | Event::RekeyLimit
        | Event::KeepaliveTimer
        | Event::InactivityTimer => EventSort::Transport,
        _ => EventSort::User,
    }
}

/// The packet of an event that is one.
pub fn packet_of(event: &Event) -> Option<&Octets>
    ensures { option_copied result ≡ packet_in event.now }
{
    match event {
        Event::Payload(packet) => Some(packet),
        _ => None,
    }
}

/// The ticket of an event of the user, 0 where it asks for no answer.
pub fn ticket_of(event: &Event) -> Ticket
    ensures { result ≡ ticket_of event.now }
{
    match event {
        Event::Authenticate { ticket, .. } => *ticket,
        Event::ChannelOpenSession { ticket } => *ticket,
        Event::ChannelOpenX11 { ticket, .. } => *ticket,
        Event::ChannelOpenDirectTcpIp { ticket, .. } => *ticket,
        Event::ChannelOpenDirectStreamLocal { ticket, .. } => *ticket,
        Event::TcpIpForward { ticket, .. } => *ticket,
        Event::CancelTcpIpForward { ticket, .. } => *ticket,
        Event::StreamLocalForward { ticket, .. } => *ticket,
        Event::CancelStreamLocalForward { ticket, .. } => *ticket,
        Event::AwaitExtensionInfo { ticket, .. } => *ticket,
        Event::GetServerSigAlgs { ticket } => *ticket,
        Event::Ping { ticket } => *ticket,
        Event::HostKeysProve { ticket, .. } => *ticket,
        Event::SendGlobalRequest { ticket, .. } => *ticket,
        _ => Ticket(0),
    }
}
