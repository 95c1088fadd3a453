//! Reads the fields of events (docs/FORMATS.md, "Events").

mod authentication;
mod bare;
mod channels;
mod exchange;
mod lists;
mod requests;

ghost use Rattle.std.specs.Prelude.{◌≡◌, ◌↔◌, ℕ, List, Ok};
ghost use Rattle.sshc_wire.specs.Grammar.{finished};
ghost use Rattle.sshc_run_reader.specs.EventFields.{IsFields, kind_of};
ghost use Rattle.sshc_run_reader.specs.EventReading.{event_of, request_of, payload_of, named_at, addressed_at};
ghost use Rattle.sshc_run_reader.specs.Gives.{Gives, GivesAll};

use crate::error::EventError;
use crate::event_kind::EventKind;
use crate::parts::{octets_of, text_of, ticket_of, token_field, u32_of};
use sshc_auth_event::Event;
use sshc_wire::{Cursor, Octets, Text, Ticket};
use std::alloc::Global;

/// A ticket and a text.
#[tactic(auto, unfolding(crate::specs::EventReading::named_at))]
fn named(alloc: Global, c: &mut Cursor<'_>) -> Result<(Ticket, Text), EventError>
    ensures { Gives (λ x. (x.0, x.1)) result c.new (named_at c.old) }
{
    let ticket = ticket_of(c)?;
    let name = text_of(alloc, c)?;
    Ok((ticket, name))
}

/// A ticket, an address and a port.
#[tactic(auto, unfolding(crate::specs::EventReading::addressed_at))]
fn addressed(alloc: Global, c: &mut Cursor<'_>) -> Result<(Ticket, Text, u32), EventError>
    ensures { Gives (λ x. (x.0, (x.1, x.2))) result c.new (addressed_at c.old) }
{
    let ticket = ticket_of(c)?;
    let address = text_of(alloc, c)?;
    let port = u32_of(c)?;
    Ok((ticket, address, port))
}

/// A packet; those of an exchange's own types, 20 to 49, are refused.
#[tactic(auto, unfolding(crate::specs::EventReading::payload_of))]
fn payload(alloc: Global, fields: &[u8]) -> Result<Event, EventError>
    ensures { GivesAll (λ e. e) result (payload_of fields.now) }
{
    if let Some(number) = fields.first() {
        if *number >= 20 && *number <= 49 {
            return Err(EventError::Bad);
        }
    }
    Ok(Event::Payload(Octets::from_slice(alloc, fields)?))
}

#[tactic(auto, unfolding(crate::specs::EventReading::event_of))]
fn read_fields(alloc: Global, kind: EventKind, fields: &[u8]) -> Result<Event, EventError>
    ensures { GivesAll (λ e. e) result (event_of kind fields.now) }
{
    let c = &mut Cursor::new(fields);
    match kind {
        EventKind::PeerKexinit => bare::peer_kexinit(c),
        EventKind::ExchangeDone => exchange::exchange_done(alloc, c),
        EventKind::Payload => payload(alloc, fields),
        EventKind::TransportFailed => bare::transport_failed(c),
        EventKind::RekeyLimit => bare::rekey_limit(c),
        EventKind::KeepaliveTimer => bare::keepalive_timer(c),
        EventKind::InactivityTimer => bare::inactivity_timer(c),
        EventKind::Authenticate => authentication::authenticate(alloc, c),
        EventKind::AuthInfoResponse => authentication::info_response(alloc, c),
        EventKind::AuthGssapiToken => authentication::gssapi_token(alloc, c),
        EventKind::AuthGssapiMic => authentication::gssapi_mic(alloc, c),
        EventKind::AuthGssapiExchangeComplete => authentication::gssapi_complete(alloc, c),
        EventKind::Signed => authentication::signed(alloc, c),
        EventKind::SignFailed => bare::sign_failed(c),
        EventKind::ChannelOpenSession => requests::open_session(c),
        EventKind::ChannelOpenX11 => requests::open_x11(alloc, c),
        EventKind::ChannelOpenDirectTcpIp => requests::open_direct_tcpip(alloc, c),
        EventKind::ChannelOpenDirectStreamLocal => requests::open_direct_streamlocal(alloc, c),
        _ => requests::request(alloc, kind, c),
    }
}

/// Reads the session's event of this kind from its fields (docs/FORMATS.md, "Events"). `Bad` for an agent's kind, for a
/// part that is short, isn't text or is outside its table, and for bytes that remain at the end.
pub fn read_event(alloc: Global, kind: EventKind, fields: &[u8]) -> Result<Event, EventError>
    ensures reads { GivesAll (λ e. e) result (event_of kind fields.now) }
    // The fields are read as an event exactly if the grammar has them for that event.
    ensures grammar { (e : Event) → (event_of kind fields.now ≡ Ok e) ↔ ((kind_of e ≡ kind) × IsFields e fields.now) }
{
    read_fields(alloc, kind, fields)
}
