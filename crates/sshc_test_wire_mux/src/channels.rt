//! Calls on numbers that no channel has, bytes that wait, and an outbox that drops packets. Worked channels are rows of
//! `sshc_rows_formats`.

use crate::let_go;
use sshc_mux::{ChannelId, ChannelTable};
use sshc_wire::{NoMemory, Octets, Outbox, Ticket};

/// Whether a call finds a channel of this number.
fn is_named(table: &mut ChannelTable, id: ChannelId, out: &mut Outbox) -> Result<bool, NoMemory> {
    let settled = table.settle_server(id, true);
    let confirmed = table.confirm(id, 5, 4, 9).is_ok();
    let failed = table.fail(id).is_some();
    let closed = table.close_peer(id, out)?;
    let granted = table.grant(id, 1, false, out)?.is_some();
    let received = table.received(id, 1, 100, out)?;
    Ok(settled || confirmed || failed || closed || granted || received)
}

/// Sends bytes and asks for EOF and close.
fn ask_all(table: &mut ChannelTable, id: ChannelId, out: &mut Outbox) -> Result<(), NoMemory> {
    table.data(id, b"a", false, out)?;
    table.extended_data(id, 1, b"a", false, out)?;
    table.eof(id, out)?;
    table.close_own(id, out)?;
    table.flush_all(out)
}

/// Whether an accessor finds a channel of this number.
fn is_shown(table: &ChannelTable, id: ChannelId) -> bool {
    table.is_established(id)
        || table.close_sent(id)
        || table.has_pending_data(id)
        || table.has_any_pending_data()
        || table.sender_window_size(id) > 0
        || table.recipient(id).is_some()
}

/// Numbers that no channel has, once the first channel is refused.
const UNKNOWN: &[ChannelId] = &[ChannelId(1), ChannelId(0), ChannelId(u32::MAX)];

/// Whether each call on a number that no channel has finds nothing, and writes nothing.
fn are_unknown(table: &mut ChannelTable, out: &mut Outbox) -> Result<bool, NoMemory> {
    let gone = table.reserve_server(5, 4, 9, 100)?;
    let mut are_unknown = gone == ChannelId(1) && table.settle_server(gone, false);
    for id in UNKNOWN {
        ask_all(table, *id, out)?;
        let is_there = is_named(table, *id, out)? || is_shown(table, *id);
        are_unknown = are_unknown && !is_there;
    }
    let next = table.open_user(100, 0, None)?;
    Ok(are_unknown && out.len() == 0 && next == ChannelId(2))
}

#[test]
fn a_number_that_no_channel_has_is_nothing(rt: HostRuntime) {
    let mut table = ChannelTable::new(rt.alloc());
    let mut out = Outbox::new(rt.alloc());
    let are_unknown = are_unknown(&mut table, &mut out);
    let_go(table);
    let_go(out);
    assert!(rt; are_unknown == Ok(true));
}

/// Whether bytes for a muted outbox are sent, as their window shows, and none is written.
fn are_dropped(table: &mut ChannelTable, out: &mut Outbox) -> Result<bool, NoMemory> {
    let id = table.open_user(100, 7, None)?;
    let is_confirmed = table.confirm(id, 5, 4, 9) == Ok(None);
    out.mute();
    table.data(id, b"abcdef", false, out)?;
    Ok(is_confirmed && out.len() == 0 && table.sender_window_size(id) == 0)
}

#[test]
fn a_muted_outbox_drops_packets(rt: HostRuntime) {
    let mut table = ChannelTable::new(rt.alloc());
    let mut out = Outbox::new(rt.alloc());
    let are_dropped = are_dropped(&mut table, &mut out);
    let_go(table);
    let_go(out);
    assert!(rt; are_dropped == Ok(true));
}

/// Whether an open is made with its packet, waits under its ticket until it is confirmed, and writes its packet once.
fn is_opened_with(
    table: &mut ChannelTable,
    packet: Octets,
    out: &mut Outbox,
) -> Result<bool, NoMemory> {
    let id = table.open_user_with(100, 7, Some(Ticket(9)), packet, out)?;
    let is_written = out.len() == 1 && out.packet(0) == Some(&[90, 1]);
    let waits = table.awaited(id) == Some(Some(Ticket(9)));
    let is_confirmed = table.confirm(id, 5, 4, 9) == Ok(Some(Ticket(9)));
    let is_settled = table.awaited(id).is_none() && table.awaited(ChannelId(7)).is_none();
    Ok(id == ChannelId(1) && is_written && waits && is_confirmed && is_settled)
}

#[test]
fn an_open_goes_out_with_its_packet(rt: HostRuntime) {
    let mut table = ChannelTable::new(rt.alloc());
    let mut out = Outbox::new(rt.alloc());
    let is_opened = match Octets::from_slice(rt.alloc(), &[90, 1]) {
        Ok(packet) => is_opened_with(&mut table, packet, &mut out),
        Err(NoMemory) => Err(NoMemory),
    };
    let_go(table);
    let_go(out);
    assert!(rt; is_opened == Ok(true));
}

/// Whether these bytes are the piece at this place.
fn is_piece(table: &ChannelTable, id: ChannelId, at: usize, bytes: &[u8]) -> bool {
    match table.waiting(id, at) {
        Some(piece) => piece.as_slice() == bytes,
        None => false,
    }
}

/// Whether the bytes of two calls wait as two pieces, and a grant cuts what it sends off their front.
fn are_cut(table: &mut ChannelTable, out: &mut Outbox) -> Result<bool, NoMemory> {
    let id = table.open_user(100, 7, None)?;
    let is_confirmed = table.confirm(id, 5, 4, 9) == Ok(None);
    table.data(id, b"abcdef", false, out)?;
    table.data(id, b"gh", false, out)?;
    let are_two = is_piece(table, id, 0, b"ef") && is_piece(table, id, 1, b"gh");
    let is_end = table.waiting(id, 2).is_none() && table.waiting(ChannelId(7), 0).is_none();
    let _window = table.grant(id, 3, false, out)?;
    let is_one = is_piece(table, id, 0, b"h") && table.waiting(id, 1).is_none();
    Ok(is_confirmed && are_two && is_end && is_one)
}

#[test]
fn bytes_that_wait_are_lent_as_pieces(rt: HostRuntime) {
    let mut table = ChannelTable::new(rt.alloc());
    let mut out = Outbox::new(rt.alloc());
    let are_cut = are_cut(&mut table, &mut out);
    let_go(table);
    let_go(out);
    assert!(rt; are_cut == Ok(true));
}
