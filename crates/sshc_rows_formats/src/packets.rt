//! Worked packets: a packet of each kind is written and printed in hexadecimal, with the memory that it has where that
//! isn't its size, and packets are read and printed by their fields.

mod authenticating;
mod reading;
mod writing;

use sshc_wire::Octets;

/// Prints the packet, and how much memory it has if that isn't its size.
fn print_packet(rt: &HostRuntime, name: &str, packet: Octets) -> anyhow::Result<()> {
    let bytes = packet.into_vec();
    let digits = hex::encode(rt.alloc(), &bytes)?;
    println!(rt; "{name} {digits}")?;
    if bytes.capacity() != bytes.len() {
        println!(rt; "{name} has memory for {} bytes", bytes.capacity())?;
    }
    Ok(())
}

/// Prints all packets.
pub fn print_rows(rt: &HostRuntime) -> anyhow::Result<()> {
    writing::print_global_requests(rt)?;
    writing::print_opens(rt)?;
    writing::print_channel_requests(rt)?;
    writing::print_answers(rt)?;
    authenticating::print_packets(rt)?;
    reading::print_packets(rt)
}
