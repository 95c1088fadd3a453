//! What an event's row asks of the gate.

ghost use Rattle.std.specs.Prelude.{◌≡◌, IfOk, false, if◌then◌else◌};
ghost use Rattle.sshc_auth.specs.Stepping.{is_banner, may_ask};
ghost use Rattle.sshc_auth.specs.OpeningTable.{asked_of, exchange_asks, banner_asks, is_held_back, number_asks};
ghost use Rattle.sshc_auth.specs.OpeningTable.{packet_asks};
ghost use Rattle.sshc_auth.specs.OpeningTable.Exchange.{has_kept_key};

use super::{Opening, Phase};
use crate::step::Asks;
use sshc_auth_event::{Event, host_key_of};
use sshc_transport::{ExchangeFlag, ExchangeResult};
use sshc_wire::{Cursor, NoMemory, Octets, Text, msg};

/// Whether the packet has the number of a banner (RFC 4252, section 5.4).
fn is_banner(packet: &[u8]) -> bool
    ensures { result ≡ is_banner packet.now }
{
    match packet {
        [] => false,
        [number, ..] => *number == msg::USERAUTH_BANNER,
    }
}

fn may_ask(event: &Event) -> bool
    ensures { result ≡ may_ask event.now }
{
    match event {
        Event::ExchangeDone(_) => true,
        Event::Payload(packet) => is_banner(packet.as_slice()),
        _ => false,
    }
}

impl Opening {
    /// What the event's row asks of the gate.
    #[tactic(auto, unfolding(crate::specs::OpeningTable::asked_of))]
    pub fn asks(&self, event: &Event) -> Result<Asks, NoMemory>
        ensures { IfOk result (λ a. a ≡ asked_of self.now event.now) }
    {
        if self.is_closed || self.is_out_of_turn(event) {
            return Ok(Asks::Nothing);
        }
        match event {
            Event::ExchangeDone(exchange) => self.exchange_asks(exchange),
            Event::Payload(packet) => self.packet_asks(packet),
            _ => Ok(Asks::Nothing),
        }
    }

    /// Whether the event is of the kinds whose rows ask the gate: an exchange that is done, and a banner. Of any other
    /// event a caller knows so that nothing is asked, without a key or a text made for it.
    #[tactic(auto, using(crate::specs::AskedLaws::unasked))]
    pub fn may_ask(&self, event: &Event) -> bool
        ensures kinds { result ≡ may_ask event.now }
        ensures nothing { result ≡ false → asked_of self.now event.now ≡ Asks.Nothing }
    {
        may_ask(event)
    }

    fn exchange_asks(&self, exchange: &ExchangeResult) -> Result<Asks, NoMemory>
        ensures { IfOk result (λ a. a ≡ exchange_asks self.now.phase self.now exchange.now) }
    {
        match self.phase {
            Phase::Exchanging => match host_key_of(self.alloc, &exchange.key)? {
                Some(key) => Ok(Asks::HostKey(key)),
                None => Ok(Asks::Nothing),
            },
            _ => self.later_asks(exchange),
        }
    }

    /// A later exchange asks for no key, and for nothing where its host key isn't the first exchange's.
    fn later_asks(&self, exchange: &ExchangeResult) -> Result<Asks, NoMemory>
        ensures { IfOk result (λ a. a ≡ (if has_kept_key self.now exchange.now then Asks.Exchange else Asks.Nothing)) }
    {
        if self.has_kept_key(exchange) {
            Ok(Asks::Exchange)
        } else {
            Ok(Asks::Nothing)
        }
    }

    fn packet_asks(&self, packet: &Octets) -> Result<Asks, NoMemory>
        ensures { IfOk result (λ a. a ≡ packet_asks self.now packet.now) }
    {
        match packet.as_slice() {
            [] => Ok(Asks::Nothing),
            [number, body @ ..] => self.number_asks(packet.as_slice().len() as u64, *number, body),
        }
    }

    fn number_asks(&self, len: u64, number: u8, body: &[u8]) -> Result<Asks, NoMemory>
        ensures { IfOk result (λ a. a ≡ number_asks self.now.phase self.now len number body.now) }
    {
        match self.phase {
            Phase::Auth => {
                if number == msg::USERAUTH_BANNER && !self.is_held_back(len) {
                    self.banner_asks(body)
                } else {
                    Ok(Asks::Nothing)
                }
            }
            _ => Ok(Asks::Nothing),
        }
    }

    /// Whether a packet from 50 on is refused, whatever it is.
    fn is_held_back(&self, len: u64) -> bool
        ensures { result ≡ is_held_back self.now.flag self.now len }
    {
        match self.flag {
            ExchangeFlag::Idle => false,
            ExchangeFlag::Peer => true,
            ExchangeFlag::Ours => self.is_too_much(len),
        }
    }

    /// The banner, where its packet can be read.
    fn banner_asks(&self, body: &[u8]) -> Result<Asks, NoMemory>
        ensures { IfOk result (λ a. a ≡ banner_asks body.now) }
    {
        let mut packet = Cursor::new(body);
        let Ok(banner) = packet.text() else {
            return Ok(Asks::Nothing);
        };
        let Ok(_language) = packet.text() else {
            return Ok(Asks::Nothing);
        };
        if packet.ensure_end().is_err() {
            return Ok(Asks::Nothing);
        }
        Ok(Asks::Banner(Text::from_str(self.alloc, banner)?))
    }
}
