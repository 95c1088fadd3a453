//! The peer's packets on a channel, each without its number (RFC 4254, sections 5.1 to 5.4).

ghost use Rattle.std.specs.Prelude.{◌≡◌};
ghost use Rattle.sshc_client_packets.specs.ChannelPackets.{channel_at, channel_of, confirmation_of, data_of};
ghost use Rattle.sshc_client_packets.specs.ChannelPackets.{extended_data_of, lent_data, lent_extended_data, lent_head};
ghost use Rattle.sshc_client_packets.specs.ChannelPackets.{lent_refusal, reason_of, refusal_of, request_head_of};
ghost use Rattle.sshc_client_packets.specs.ChannelPackets.{sender_at, window_adjust_of};
ghost use Rattle.sshc_client_packets.specs.Parts.{ReadsAll, ReadsFront};

use crate::channel_open::{Confirmation, Sender};
use sshc_wire::{ChannelId, ChannelOpenFailure, Cursor, WireError};

/// An open of ours that the peer refuses.
#[derive(Clone, Copy)]
pub struct OpenRefusal<'a> {
    pub id: ChannelId,
    pub reason: ChannelOpenFailure,
    pub description: &'a str,
    pub language: &'a str,
}

/// How many more bytes the peer takes.
#[derive(Clone, Copy, PartialEq, Eq)]
pub struct WindowAdjust {
    pub id: ChannelId,
    pub bytes_to_add: u32,
}

/// Bytes of the peer's.
#[derive(Clone, Copy)]
pub struct Data<'a> {
    pub id: ChannelId,
    pub body: &'a [u8],
}

/// Bytes of the peer's with a type; 1 is the standard error stream.
#[derive(Clone, Copy)]
pub struct ExtendedData<'a> {
    pub id: ChannelId,
    pub ext: u32,
    pub body: &'a [u8],
}

/// The front of a request on a channel; what follows is read by the name.
#[derive(Clone, Copy)]
pub struct RequestHead<'a> {
    pub id: ChannelId,
    pub name: &'a str,
    pub rest: &'a [u8],
}

#[tactic(auto, unfolding(crate::specs::ChannelPackets::channel_at))]
fn channel(packet: &mut Cursor<'_>) -> Result<ChannelId, WireError>
    ensures { ReadsFront (λ id. id) result packet.new (channel_at packet.old) }
{
    Ok(ChannelId(packet.u32()?))
}

/// 96, 97, 99 and 100, which have only a channel's number.
#[tactic(auto, unfolding(crate::specs::ChannelPackets::channel_of))]
pub fn read_channel(body: &[u8]) -> Result<ChannelId, WireError>
    ensures { ReadsAll (λ id. id) result (channel_of body.now) }
{
    let mut packet = Cursor::new(body);
    let id = channel(&mut packet)?;
    packet.ensure_end()?;
    Ok(id)
}

/// The sender's side of a channel, at the front. Where it is short, some of it may be taken.
#[tactic(auto, unfolding(crate::specs::ChannelPackets::sender_at))]
pub(crate) fn sender(packet: &mut Cursor<'_>) -> Result<Sender, WireError>
    ensures { ReadsFront (λ s. s) result packet.new (sender_at packet.old) }
{
    let channel = packet.u32()?;
    let window_size = packet.u32()?;
    let max_packet_size = packet.u32()?;
    Ok(Sender {
        channel,
        window_size,
        max_packet_size,
    })
}

/// CHANNEL_OPEN_CONFIRMATION (RFC 4254, section 5.1).
#[tactic(auto, unfolding(crate::specs::ChannelPackets::confirmation_of))]
pub fn read_confirmation(body: &[u8]) -> Result<Confirmation, WireError>
    ensures { ReadsAll (λ c. c) result (confirmation_of body.now) }
{
    let mut packet = Cursor::new(body);
    let recipient = packet.u32()?;
    let sender = sender(&mut packet)?;
    packet.ensure_end()?;
    Ok(Confirmation { recipient, sender })
}

fn reason_of(code: u32) -> ChannelOpenFailure
    ensures { result ≡ reason_of code }
{
    match ChannelOpenFailure::from_u32(code) {
        Some(reason) => reason,
        None => ChannelOpenFailure::AdministrativelyProhibited,
    }
}

/// CHANNEL_OPEN_FAILURE (RFC 4254, section 5.1). An unknown reason counts as 1.
#[tactic(auto, unfolding(crate::specs::ChannelPackets::refusal_of))]
pub fn read_open_failure(body: &[u8]) -> Result<OpenRefusal<'_>, WireError>
    ensures { ReadsAll lent_refusal result (refusal_of body.now) }
{
    let mut packet = Cursor::new(body);
    let id = channel(&mut packet)?;
    let reason = reason_of(packet.u32()?);
    let description = packet.text()?;
    let language = packet.text()?;
    packet.ensure_end()?;
    Ok(OpenRefusal {
        id,
        reason,
        description,
        language,
    })
}

/// CHANNEL_WINDOW_ADJUST (RFC 4254, section 5.2).
#[tactic(auto, unfolding(crate::specs::ChannelPackets::window_adjust_of))]
pub fn read_window_adjust(body: &[u8]) -> Result<WindowAdjust, WireError>
    ensures { ReadsAll (λ a. a) result (window_adjust_of body.now) }
{
    let mut packet = Cursor::new(body);
    let id = channel(&mut packet)?;
    let bytes_to_add = packet.u32()?;
    packet.ensure_end()?;
    Ok(WindowAdjust { id, bytes_to_add })
}

/// CHANNEL_DATA (RFC 4254, section 5.2).
#[tactic(auto, unfolding(crate::specs::ChannelPackets::data_of))]
pub fn read_data(body: &[u8]) -> Result<Data<'_>, WireError>
    ensures { ReadsAll lent_data result (data_of body.now) }
{
    let mut packet = Cursor::new(body);
    let id = channel(&mut packet)?;
    let body = packet.bytes()?;
    packet.ensure_end()?;
    Ok(Data { id, body })
}

/// CHANNEL_EXTENDED_DATA (RFC 4254, section 5.2).
#[tactic(auto, unfolding(crate::specs::ChannelPackets::extended_data_of))]
pub fn read_extended_data(body: &[u8]) -> Result<ExtendedData<'_>, WireError>
    ensures { ReadsAll lent_extended_data result (extended_data_of body.now) }
{
    let mut packet = Cursor::new(body);
    let id = channel(&mut packet)?;
    let ext = packet.u32()?;
    let body = packet.bytes()?;
    packet.ensure_end()?;
    Ok(ExtendedData { id, ext, body })
}

/// The front of CHANNEL_REQUEST (RFC 4254, section 5.4).
#[tactic(auto, unfolding(crate::specs::ChannelPackets::request_head_of))]
pub fn read_request_head(body: &[u8]) -> Result<RequestHead<'_>, WireError>
    ensures { ReadsAll lent_head result (request_head_of body.now) }
{
    let mut packet = Cursor::new(body);
    let id = channel(&mut packet)?;
    let name = packet.text()?;
    Ok(RequestHead {
        id,
        name,
        rest: packet.rest(),
    })
}
