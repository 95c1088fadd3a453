//! Tickets and held records.

use sshc_handle_tickets::Tickets;
use sshc_wire::{NoMemory, Record, Resolution};
use std::alloc::Global;

/// Opens a ticket, holds the record that answers it, and takes that record.
pub fn hold_and_take(alloc: Global) -> Result<Option<Record>, NoMemory> {
    let mut tickets = Tickets::new(alloc);
    let ticket = tickets.open_ticket()?;
    tickets.hold(Record::Resolved {
        ticket,
        resolution: Resolution::Done,
    })?;
    Ok(tickets.poll(ticket))
}
