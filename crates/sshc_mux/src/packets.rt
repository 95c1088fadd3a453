//! The packets of a channel as records (RFC 4254, sections 5.2 and 5.3).

ghost use Rattle.std.specs.Prelude.{◌≡◌, ◌∷◌, ◌++◌, ◌<◌, ◌^◌, [], length, IfOk, OnOk, OnErr, IsOk};
ghost use Rattle.sshc_wire.specs.MessageNumbers.{CHANNEL_EXTENDED_DATA};
ghost use Rattle.sshc_wire.specs.Outgoing.{Grows};
ghost use Rattle.sshc_wire.specs.Wire.{u32_text};
ghost use Rattle.sshc_mux.specs.Packets.{adding, packet_text, Piece, Eof, Close, Adjust, payloads};
ghost use Rattle.sshc_mux.specs.ChannelTable.Sending.{cut, pieces_of};

use crate::chunk::Stream;
use sshc_wire::{NoMemory, Outbox, msg};

/// A message's number and the recipient.
#[tactic(auto, unfolding(sshc_wire::specs::Wire::u32_text))]
fn addressed(number: u8, recipient: u32) -> [u8; 5]
    ensures { result ≡ number ∷ u32_text recipient }
{
    let r = recipient.to_be_bytes();
    [number, r[0], r[1], r[2], r[3]]
}

/// The same, and a number.
#[tactic(auto, unfolding(sshc_wire::specs::Wire::u32_text))]
fn numbered(number: u8, recipient: u32, amount: u32) -> [u8; 9]
    ensures { result ≡ number ∷ u32_text recipient ++ u32_text amount }
{
    let r = recipient.to_be_bytes();
    let a = amount.to_be_bytes();
    [number, r[0], r[1], r[2], r[3], a[0], a[1], a[2], a[3]]
}

/// What precedes the bytes of an extended data packet.
#[tactic(auto, unfolding(sshc_wire::specs::Wire::u32_text))]
fn extended_head(recipient: u32, code: u32, size: u32) -> [u8; 13]
    ensures { result ≡ CHANNEL_EXTENDED_DATA ∷ u32_text recipient ++ u32_text code ++ u32_text size }
{
    let r = recipient.to_be_bytes();
    let c = code.to_be_bytes();
    let s = size.to_be_bytes();
    [
        msg::CHANNEL_EXTENDED_DATA,
        r[0],
        r[1],
        r[2],
        r[3],
        c[0],
        c[1],
        c[2],
        c[3],
        s[0],
        s[1],
        s[2],
        s[3],
    ]
}

/// Adds a piece of a channel's bytes, which are copied once, or changes nothing.
fn push_piece(
    recipient: u32,
    stream: Stream,
    piece: &[u8],
    out: &mut Outbox,
) -> Result<(), NoMemory>
    requires { length piece.now < 2 ^ 32 }
    ensures ok { OnOk result (out.new ≡ adding out.old (payloads recipient (Piece stream piece.now ∷ []))) }
    ensures err { OnErr result (out.new ≡ out.old) }
{
    match stream {
        Stream::Data => push_data(recipient, piece, out),
        Stream::Extended(code) => push_extended(recipient, code, piece, out),
    }
}

#[tactic(auto, unfolding(sshc_wire::specs::Wire::string_text, sshc_wire::specs::Wire::u32_text, crate::specs::Packets::adding), using(crate::proofs::AddingLemmas::is_adding, crate::proofs::AddingLemmas::is_same))]
fn push_data(recipient: u32, piece: &[u8], out: &mut Outbox) -> Result<(), NoMemory>
    requires { length piece.now < 2 ^ 32 }
    ensures ok { OnOk result (out.new ≡ adding out.old (payloads recipient (Piece Stream.Data piece.now ∷ []))) }
    ensures err { OnErr result (out.new ≡ out.old) }
{
    let head = numbered(msg::CHANNEL_DATA, recipient, piece.len() as u32);
    out.push_packet(&head, piece)
}

#[tactic(auto, using(crate::proofs::AddingLemmas::is_same))]
fn push_extended(recipient: u32, code: u32, piece: &[u8], out: &mut Outbox) -> Result<(), NoMemory>
    requires { length piece.now < 2 ^ 32 }
    ensures ok { OnOk result
        (out.new ≡ adding out.old (payloads recipient (Piece (Stream.Extended code) piece.now ∷ []))) }
    ensures err { OnErr result (out.new ≡ out.old) }
{
    let head = extended_head(recipient, code, piece.len() as u32);
    out.push_packet(&head, piece)?;
    Ok(())
}

/// Adds the end of a channel's bytes, or changes nothing.
#[tactic(auto, unfolding(sshc_wire::specs::Wire::u32_text, crate::specs::Packets::adding), using(crate::proofs::AddingLemmas::is_adding, crate::proofs::AddingLemmas::is_same))]
pub(crate) fn push_eof(recipient: u32, out: &mut Outbox) -> Result<(), NoMemory>
    ensures ok { OnOk result (out.new ≡ adding out.old (payloads recipient (Eof ∷ []))) }
    ensures err { OnErr result (out.new ≡ out.old) }
{
    out.push_packet(&addressed(msg::CHANNEL_EOF, recipient), &[])
}

/// Adds our close, or changes nothing.
#[tactic(auto, unfolding(sshc_wire::specs::Wire::u32_text, crate::specs::Packets::adding), using(crate::proofs::AddingLemmas::is_adding, crate::proofs::AddingLemmas::is_same))]
pub(crate) fn push_close(recipient: u32, out: &mut Outbox) -> Result<(), NoMemory>
    ensures ok { OnOk result (out.new ≡ adding out.old (payloads recipient (Close ∷ []))) }
    ensures err { OnErr result (out.new ≡ out.old) }
{
    out.push_packet(&addressed(msg::CHANNEL_CLOSE, recipient), &[])
}

/// Adds more room in our window, or changes nothing.
#[tactic(auto, unfolding(sshc_wire::specs::Wire::u32_text, crate::specs::Packets::adding), using(crate::proofs::AddingLemmas::is_adding, crate::proofs::AddingLemmas::is_same))]
pub(crate) fn push_adjust(recipient: u32, amount: u32, out: &mut Outbox) -> Result<(), NoMemory>
    ensures ok { OnOk result (out.new ≡ adding out.old (payloads recipient (Adjust amount ∷ []))) }
    ensures err { OnErr result (out.new ≡ out.old) }
{
    out.push_packet(
        &numbered(msg::CHANNEL_WINDOW_ADJUST, recipient, amount),
        &[],
    )
}

/// Adds the bytes in pieces of at most `size`. Out of memory, some of them may be added.
pub(crate) fn push_pieces(
    recipient: u32,
    size: u32,
    stream: Stream,
    part: &[u8],
    out: &mut Outbox,
) -> Result<(), NoMemory>
    requires { 0 < length part.now → 0 < size }
    ensures output { OnOk result
        (out.new ≡ adding out.old (payloads recipient (pieces_of stream (cut size part.now)))) }
    ensures some { OnErr result (Grows out.old.records out.new.records) }
    ensures same { out.new.muted ≡ out.old.muted }
    ensures succeeds { part.now ≡ [] → IsOk result }
{
    let mut rest = part;
    while rest.len() > 0 {
        let count = rest.len().min(size as usize);
        let (piece, more) = rest.split_at(count);
        push_piece(recipient, stream, piece, out)?;
        rest = more;
    }
    Ok(())
}
