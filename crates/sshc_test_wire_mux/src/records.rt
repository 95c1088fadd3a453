//! Records of an outbox.

use crate::let_go;
use sshc_wire::{
    ChannelId, ChannelRecord, List, NoMemory, Octets, Outbox, Record, Resolution, Sig, Text,
    Ticket, put_resolution,
};
use std::alloc::Global;

/// Pushes a packet of these bytes.
fn push_packet(outbox: &mut Outbox, alloc: Global, bytes: &[u8]) -> Result<(), NoMemory> {
    let packet = Octets::from_slice(alloc, bytes)?;
    outbox.push(Record::Payload(packet))
}

/// Pushes that an exchange is done, and that the next begins.
fn push_exchange(outbox: &mut Outbox, alloc: Global) -> Result<(), NoMemory> {
    let kex = Text::from_str(alloc, "k")?;
    outbox.push_both(Some(Record::KexDone { kex }), Some(Record::BeginExchange))
}

/// Adds an answer, a packet and a banner.
fn add_three(records: &mut Vec<Record>, alloc: Global) -> Result<(), NoMemory> {
    records.push(Record::Resolved {
        ticket: Ticket(1),
        resolution: Resolution::AuthSuccess,
    })?;
    let packet = Octets::from_slice(alloc, &[7])?;
    records.push(Record::Payload(packet))?;
    let banner = Text::from_str(alloc, "b")?;
    records.push(Record::AuthBanner { banner })?;
    Ok(())
}

fn append_three(outbox: &mut Outbox, alloc: Global) -> Result<(), NoMemory> {
    let mut records = Vec::new(alloc);
    let mut appended = add_three(&mut records, alloc);
    if appended.is_ok() {
        appended = outbox.append(&mut records);
    }
    let_go(records);
    appended
}

/// Fills an outbox, which is muted before its second packet.
fn fill(outbox: &mut Outbox, alloc: Global) -> Result<(), NoMemory> {
    outbox.push_packet(&[5], &[])?;
    outbox.mute();
    push_packet(outbox, alloc, &[6])?;
    push_exchange(outbox, alloc)?;
    outbox.push(Record::Opened)?;
    append_three(outbox, alloc)
}

/// The texts of the records, one after another.
const TEXTS: &[u8] =
    b"\x01\x05\x20\x00\x00\x00\x01k\x02\x03\x04\x00\x00\x00\x01\x00\x21\x00\x00\x00\x01b";

/// Whether the texts of the outbox's records, one by one and in a row, are these.
fn are_texts(alloc: Global, outbox: &Outbox, want: &[u8]) -> Result<bool, NoMemory> {
    let mut put = Vec::new(alloc);
    let mut lent = Vec::new(alloc);
    for at in 0..outbox.len() {
        outbox.put_text(at, &mut put)?;
        lent.extend_from_slice(outbox.text(at).unwrap_or(&[]))?;
    }
    Ok(put.as_slice() == want && lent.as_slice() == want && outbox.as_bytes() == want)
}

/// Whether the outbox, once filled, has the texts, and its packets by their places, until it is cleared.
fn is_filled(outbox: &mut Outbox, alloc: Global) -> Result<bool, NoMemory> {
    fill(outbox, alloc)?;
    let are_written = are_texts(alloc, outbox, TEXTS)?;
    let are_placed = outbox.packet(0) == Some([5u8].as_slice()) && outbox.packet(1).is_none();
    outbox.clear();
    Ok(are_written && are_placed && outbox.len() == 0 && outbox.as_bytes().is_empty())
}

#[test]
fn records_are_kept_and_written(rt: HostRuntime) {
    let mut outbox = Outbox::new(rt.alloc());
    let is_filled = is_filled(&mut outbox, rt.alloc());
    let_go(outbox);
    assert!(rt; is_filled == Ok(true));
}

/// Whether the value is there; it is dropped.
fn is_there<T: Drop>(found: Option<T>) -> bool {
    found.is_some()
}

/// Whether two packets are taken one after the other, and no third.
fn are_taken(outbox: &mut Outbox, alloc: Global) -> Result<bool, NoMemory> {
    push_packet(outbox, alloc, &[5])?;
    push_packet(outbox, alloc, &[6])?;
    let is_first_taken = is_there(outbox.take_first()?);
    let is_second_left = outbox.packet(0) == Some([6u8].as_slice());
    let is_second_taken = is_there(outbox.take_first()?);
    let is_third_taken = is_there(outbox.take_first()?);
    Ok(is_first_taken && is_second_left && is_second_taken && !is_third_taken)
}

#[test]
fn records_are_taken_from_the_front(rt: HostRuntime) {
    let mut outbox = Outbox::new(rt.alloc());
    let are_taken = are_taken(&mut outbox, rt.alloc());
    let_go(outbox);
    assert!(rt; are_taken == Ok(true));
}

/// Pushes the names of signature algorithms.
fn push_names(outbox: &mut Outbox, alloc: Global, name: &str) -> Result<(), NoMemory> {
    let mut names = List::new(alloc);
    names.push(Text::from_str(alloc, name)?)?;
    outbox.push(Record::Resolved {
        ticket: Ticket(1),
        resolution: Resolution::SigAlgs { known: true, names },
    })
}

/// Pushes a signal that no list of signals has.
fn push_signal(outbox: &mut Outbox, alloc: Global, name: &str) -> Result<(), NoMemory> {
    let error_message = Text::new(alloc);
    let lang_tag = Text::new(alloc);
    let signal_name = Sig::Custom(Text::from_str(alloc, name)?);
    outbox.push(Record::Channel {
        id: ChannelId(1),
        happened: ChannelRecord::ExitSignal {
            signal_name,
            core_dumped: false,
            error_message,
            lang_tag,
        },
    })
}

/// Whether the outbox takes names and signals that their texts tell, and no others.
fn tells_apart(outbox: &mut Outbox, alloc: Global) -> bool {
    push_names(outbox, alloc, "a").is_ok()
        && push_names(outbox, alloc, "a,b").is_err()
        && push_names(outbox, alloc, "").is_err()
        && push_signal(outbox, alloc, "CUSTOM").is_ok()
        && push_signal(outbox, alloc, "HUP").is_err()
        && outbox.len() == 2
}

#[test]
fn records_with_another_records_text_are_refused(rt: HostRuntime) {
    let mut outbox = Outbox::new(rt.alloc());
    let tells_apart = tells_apart(&mut outbox, rt.alloc());
    let_go(outbox);
    assert!(rt; tells_apart);
}

#[test]
fn a_resolution_is_written(rt: HostRuntime) {
    let mut out = Vec::new(rt.alloc());
    let dropped = Resolution::Dropped;
    let written = put_resolution(&mut out, &dropped);
    let_go(dropped);
    assert!(rt; written == Ok(()) && out.as_slice() == [0x0d].as_slice());
}
