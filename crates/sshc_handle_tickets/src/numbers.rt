//! The numbers of records and tickets.

ghost use Rattle.std.specs.Prelude.{◌≡◌};
ghost use Rattle.sshc_handle_tickets.specs.Numbers.{channel_of, ticket_of};

use crate::line::Numbered;
use sshc_wire::{Record, Ticket};

/// The number of the ticket that a record names.
pub fn ticket_of(output: &Record) -> Option<u32>
    ensures { result ≡ ticket_of output.now }
{
    match output {
        Record::Resolved { ticket, .. } => Some(ticket.0),
        Record::Auth { ticket, .. } => Some(ticket.0),
        _ => None,
    }
}

/// The number of the channel on which something happened.
pub fn channel_of(output: &Record) -> Option<u32>
    ensures { result ≡ channel_of output.now }
{
    match output {
        Record::Channel { id, .. } => Some(id.0),
        _ => None,
    }
}

impl Numbered for Record {
    ghost use Rattle.sshc_handle_tickets.specs.Numbers.{channel_of, ticket_of};

    ghost ticket = { ticket_of };

    ghost channel = { channel_of };

    fn ticket(&self) -> Option<u32> {
        ticket_of(self)
    }

    fn channel(&self) -> Option<u32> {
        channel_of(self)
    }
}

impl Numbered for Ticket {
    ghost use Rattle.sshc_handle_tickets.specs.Numbers.{no_number, own_number};

    ghost ticket = { own_number };

    ghost channel = { no_number };

    fn ticket(&self) -> Option<u32> {
        Some(self.0)
    }

    fn channel(&self) -> Option<u32> {
        None
    }
}
