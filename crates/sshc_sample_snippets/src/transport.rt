//! A transport below a session.

use sshc_transport::Transport;
use sshc_wire::{Failed, Outbox};

/// Hands the packets among these records to a transport, in order.
pub fn hand_packets<T: Transport>(transport: &mut T, records: &Outbox) -> Result<(), Failed> {
    for at in 0..records.len() {
        if let Some(packet) = records.packet(at) {
            transport.hand(packet)?;
        }
    }
    Ok(())
}
