//! Events of a transport that are short enough to be returned.

ghost use Rattle.std.specs.Prelude.{◌≡◌, ◌↔◌, true};
ghost use Rattle.sshc_transport.specs.Transports.{AreShortNames, IsShortEvent, IsShortExchange, IsShortKey};

use sshc_transport::{ExchangeKey, ExchangeResult, NamesChosen, TransportEvent};

/// The most bytes of one list or text.
const LONGEST: usize = 262_144;

fn is_short_key(key: &ExchangeKey) -> bool
    ensures { (result ≡ true) ↔ IsShortKey key.now }
{
    match key {
        ExchangeKey::Missing => true,
        ExchangeKey::Key(blob) => blob.as_slice().len() <= LONGEST,
        ExchangeKey::Certificate(blob) => blob.as_slice().len() <= LONGEST,
    }
}

fn are_short(names: &NamesChosen) -> bool
    ensures { (result ≡ true) ↔ AreShortNames names.now }
{
    let names = names.names();
    names.kex.as_str().len() <= LONGEST
        && names.key.as_str().len() <= LONGEST
        && names.cipher.as_str().len() <= LONGEST
        && names.client_mac.as_str().len() <= LONGEST
        && names.server_mac.as_str().len() <= LONGEST
}

fn is_short_exchange(exchange: &ExchangeResult) -> bool
    ensures { (result ≡ true) ↔ IsShortExchange exchange.now }
{
    let secret = match &exchange.secret {
        Some(secret) => secret.as_slice().len() <= LONGEST,
        None => true,
    };
    secret
        && is_short_key(&exchange.key)
        && exchange.session_hash.as_slice().len() <= LONGEST
        && exchange.signature.as_slice().len() <= LONGEST
        && are_short(&exchange.names)
}

/// Whether each list and text of the event has at most 262144 bytes, as the results of a transport have to.
pub fn is_short(event: &TransportEvent) -> bool
    ensures { (result ≡ true) ↔ IsShortEvent event.now }
{
    match event {
        TransportEvent::Done(exchange) => is_short_exchange(exchange),
        TransportEvent::Payload(packet) => packet.as_slice().len() <= LONGEST,
        TransportEvent::PeerKexinit
        | TransportEvent::Failed
        | TransportEvent::RekeyLimit
        | TransportEvent::Quiet => true,
    }
}
