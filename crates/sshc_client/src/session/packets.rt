//! Packets in an open session, by their numbers.

ghost use Rattle.std.specs.Prelude.{◌≡◌, [], ◌∷◌, true};
ghost use Rattle.sshc_auth.specs.OpeningTable.Packets.{is_ignored};
ghost use Rattle.sshc_client_table.specs.Moves.{Counts, Hears};
ghost use Rattle.sshc_client_table.specs.SessionRow.{behind_moves};
ghost use Rattle.sshc_client_table.specs.SessionState.{is_live};
ghost use Rattle.sshc_client_table.specs.SessionTable.{numbered_row, packet_row, payload_row};
ghost use Rattle.sshc_client.specs.HandledRow.{FollowsWith};

use super::Session;
use crate::handler::Handler;
use crate::stop::{Stop, own};
use sshc_auth::{Error, ExchangeFlag};
use sshc_client_rows::{RowFlow, disconnect, request_failure, request_success};
use sshc_key::Verifier;
use sshc_wire::{ChannelRecord, Octets, msg};

/// 2, IGNORE; 3, UNIMPLEMENTED; 4, DEBUG (RFC 4253, section 11).
fn is_ignored(number: u8) -> bool
    ensures { result ≡ is_ignored number }
{
    number == msg::IGNORE || number == msg::UNIMPLEMENTED || number == msg::DEBUG
}

impl Session {
    /// An empty packet is passed over, and doesn't count as heard from the peer.
    #[tactic(auto, using(crate::proofs::Hints::passed), unfolding(sshc_client_table::specs::SessionTable::payload_row))]
    pub(super) fn payload<V: Verifier, H: Handler>(
        &mut self,
        packet: &Octets,
        verifier: &V,
        handler: &mut H,
    ) -> Result<RowFlow, Stop<H::Error>>
        requires { is_live self.old ≡ true }
        ensures row { FollowsWith H.keeps_defaults
            (H.at handler.old)
            (H.at handler.new)
            (λ o. payload_row (V.accepts verifier.now) o self.old packet.now) self.old self.new result }
    {
        match packet.as_slice() {
            [] => Ok(RowFlow::Went),
            [number, body @ ..] => self.first(packet, *number, body, verifier, handler),
        }
    }

    /// A packet by its first byte. A disconnection and a global request don't count as heard from the peer.
    #[tactic(auto, using(crate::proofs::Hints::first))]
    fn first<V: Verifier, H: Handler>(
        &mut self,
        packet: &Octets,
        number: u8,
        body: &[u8],
        verifier: &V,
        handler: &mut H,
    ) -> Result<RowFlow, Stop<H::Error>>
        requires live { is_live self.old ≡ true }
        requires whole { packet.now ≡ number ∷ body.now }
        ensures row { FollowsWith H.keeps_defaults
            (H.at handler.old)
            (H.at handler.new)
            (λ o. payload_row (V.accepts verifier.now) o self.old packet.now) self.old self.new result }
    {
        let len = packet.as_slice().len() as u64;
        if number == msg::DISCONNECT {
            return own(disconnect(&mut self.connection, body));
        }
        if number == msg::GLOBAL_REQUEST {
            return self.packet(len, msg::GLOBAL_REQUEST, body, verifier, handler);
        }
        self.heard(len, number, body, verifier, handler)
    }

    /// Marks the peer as heard, and continues with the packet.
    #[tactic(auto, using(crate::proofs::RowLemmas::heard_first, crate::proofs::RowLemmas::heard_lives))]
    fn heard<V: Verifier, H: Handler>(
        &mut self,
        len: u64,
        number: u8,
        body: &[u8],
        verifier: &V,
        handler: &mut H,
    ) -> Result<RowFlow, Stop<H::Error>>
        requires { is_live self.old ≡ true }
        ensures row { FollowsWith H.keeps_defaults
            (H.at handler.old)
            (H.at handler.new)
            (λ o. behind_moves (Hears ∷ []) (packet_row (V.accepts verifier.now) o self.old len number body.now))
            self.old self.new result }
    {
        self.connection.hear();
        self.packet(len, number, body, verifier, handler)
    }

    /// A packet of so many bytes. Those from 50 on may not come while the peer's exchange runs (RFC 4253, section 7.1).
    #[tactic(auto, using(crate::proofs::HandlerLemmas::passed_with, crate::proofs::HandlerLemmas::refused_with))]
    fn packet<V: Verifier, H: Handler>(
        &mut self,
        len: u64,
        number: u8,
        body: &[u8],
        verifier: &V,
        handler: &mut H,
    ) -> Result<RowFlow, Stop<H::Error>>
        requires { is_live self.old ≡ true }
        ensures row { FollowsWith H.keeps_defaults
            (H.at handler.old)
            (H.at handler.new)
            (λ o. packet_row (V.accepts verifier.now) o self.old len number body.now) self.old self.new result }
    {
        if is_ignored(number) {
            return Ok(RowFlow::Went);
        }
        if number < 50 {
            return self.numbered(number, body, verifier, handler);
        }
        let flag = self.connection.opening().flag();
        match flag {
            ExchangeFlag::Idle => self.numbered(number, body, verifier, handler),
            ExchangeFlag::Peer => Err(Stop::Own(Error::Inconsistent)),
            ExchangeFlag::Ours => {
                if self.connection.opening().is_too_much(len) {
                    return Err(Stop::Own(Error::Pending));
                }
                self.counted(len, number, body, verifier, handler)
            }
        }
    }

    /// A packet that is counted while an exchange of ours runs.
    #[tactic(auto, using(crate::proofs::RowLemmas::counted_first, crate::proofs::RowLemmas::counted_lives))]
    fn counted<V: Verifier, H: Handler>(
        &mut self,
        len: u64,
        number: u8,
        body: &[u8],
        verifier: &V,
        handler: &mut H,
    ) -> Result<RowFlow, Stop<H::Error>>
        requires { is_live self.old ≡ true }
        ensures row { FollowsWith H.keeps_defaults
            (H.at handler.old)
            (H.at handler.new)
            (λ o. behind_moves (Counts len ∷ []) (numbered_row (V.accepts verifier.now) o self.old number body.now))
            self.old self.new result }
    {
        self.connection.count(len);
        self.numbered(number, body, verifier, handler)
    }

    /// A packet by its number; one that isn't known is passed over.
    #[tactic(auto, using(crate::proofs::Hints::passed), unfolding(crate::proofs::By::numbered_row))]
    fn numbered<V: Verifier, H: Handler>(
        &mut self,
        number: u8,
        body: &[u8],
        verifier: &V,
        handler: &mut H,
    ) -> Result<RowFlow, Stop<H::Error>>
        requires { is_live self.old ≡ true }
        ensures row { FollowsWith H.keeps_defaults
            (H.at handler.old)
            (H.at handler.new)
            (λ o. numbered_row (V.accepts verifier.now) o self.old number body.now) self.old self.new result }
    {
        match number {
            msg::GLOBAL_REQUEST => self.global_request(body, handler),
            msg::REQUEST_SUCCESS => own(request_success(&mut self.connection, body, verifier)),
            msg::REQUEST_FAILURE => own(request_failure(&mut self.connection, body)),
            msg::CHANNEL_OPEN => self.channel_open(body, handler),
            msg::CHANNEL_OPEN_CONFIRMATION => self.open_confirmation(body, handler),
            msg::CHANNEL_OPEN_FAILURE => self.open_failure(body, handler),
            msg::CHANNEL_WINDOW_ADJUST => self.window_adjust(body, handler),
            msg::CHANNEL_DATA => self.channel_data(body, handler),
            msg::CHANNEL_EXTENDED_DATA => self.channel_extended_data(body, handler),
            msg::CHANNEL_EOF => self.channel_report(ChannelRecord::Eof, body, handler),
            msg::CHANNEL_CLOSE => self.channel_close(body, handler),
            msg::CHANNEL_REQUEST => self.channel_request(body, handler),
            msg::CHANNEL_SUCCESS => self.channel_report(ChannelRecord::Success, body, handler),
            msg::CHANNEL_FAILURE => self.channel_report(ChannelRecord::Failure, body, handler),
            _ => Ok(RowFlow::Went),
        }
    }
}
