//! The channel table.

use sshc_mux::ChannelTable;
use sshc_wire::{NoMemory, Outbox};
use std::alloc::Global;

/// Opens a channel, which the peer confirms as its channel 5 with a window of 3 bytes, and sends `hello`: a packet with
/// `hel` is written, and `lo` waits for more window.
pub fn open_and_send(alloc: Global) -> Result<Outbox, NoMemory> {
    let mut out = Outbox::new(alloc);
    let mut channels = ChannelTable::new(alloc);
    let id = channels.open_user(2_097_152, 32_768, None)?;
    if channels.confirm(id, 5, 3, 32_768).is_ok() {
        channels.data(id, b"hello", false, &mut out)?;
    }
    Ok(out)
}
