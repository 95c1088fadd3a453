//! The tests of a packet before its phase's row (RFC 4253, sections 7 and 11).

ghost use Rattle.std.specs.Prelude.{◌≡◌, Some};
ghost use Rattle.sshc_auth.specs.OpeningTable.{payload_row, numbered_row, held_packet_row, phase_packet_row};
ghost use Rattle.sshc_auth.specs.OpeningTable.{auth_packet_row};
ghost use Rattle.sshc_auth.specs.OpeningTable.Packets.{disconnect_row, disconnect_reason_row, is_too_much};
ghost use Rattle.sshc_auth.specs.OpeningTable.Packets.{counted_with};
ghost use Rattle.sshc_auth.specs.Row.{Follows, FollowsAsking, signer_at, span};

use super::{Class, Opening, Phase};
use crate::ended::RemoteDisconnectInfo;
use crate::ending::Ending;
use crate::error::Error;
use crate::step::Flow;
use sshc_key::LocalSigner;
use sshc_transport::{ExchangeFlag, PendingCount};
use sshc_wire::{Cursor, Disconnect, Octets, Outbox, Text, msg};

impl Opening {
    /// A packet from the peer.
    #[tactic(auto, unfolding(crate::specs::OpeningTable::payload_row))]
    pub(super) fn payload<S: LocalSigner>(
        &mut self,
        packet: &Octets,
        signer: &mut S,
        out: &mut Outbox,
    ) -> Result<Flow, Error>
        ensures row { FollowsAsking (payload_row self.old packet.now)
            (signer_at (S.calls signer.old) (S.refusals signer.old))
            (signer_at (S.calls signer.new) (S.refusals signer.new)) (span self.old self.new out.old out.new) result }
    {
        match packet.as_slice() {
            [] => Ok(Flow::Went),
            [number, body @ ..] => {
                self.numbered(packet.as_slice().len() as u64, *number, body, signer, out)
            }
        }
    }

    /// A packet of `len` bytes.
    #[tactic(auto, unfolding(crate::specs::OpeningTable::numbered_row))]
    fn numbered<S: LocalSigner>(
        &mut self,
        len: u64,
        number: u8,
        body: &[u8],
        signer: &mut S,
        out: &mut Outbox,
    ) -> Result<Flow, Error>
        ensures row { FollowsAsking (numbered_row self.old len number body.now)
            (signer_at (S.calls signer.old) (S.refusals signer.old))
            (signer_at (S.calls signer.new) (S.refusals signer.new)) (span self.old self.new out.old out.new) result }
    {
        if number == msg::DISCONNECT {
            return self.peer_disconnect(body, out);
        }
        let is_ignored = number == msg::IGNORE
            || number == msg::UNIMPLEMENTED
            || number == msg::DEBUG;
        if is_ignored || self.phase == Phase::Exchanging {
            return Ok(Flow::Went);
        }
        if number >= 50 {
            self.held_packet(len, number, body, signer, out)
        } else {
            self.phase_packet(number, body, signer, out)
        }
    }

    /// DISCONNECT (RFC 4253, section 11.1).
    #[tactic(auto, unfolding(crate::specs::OpeningTable::Packets::disconnect_row))]
    fn peer_disconnect(&mut self, body: &[u8], out: &mut Outbox) -> Result<Flow, Error>
        ensures row { Follows (disconnect_row body.now) (span self.old self.new out.old out.new) result }
    {
        let mut packet = Cursor::new(body);
        let code = packet.u32()?;
        match Disconnect::from_u32(code) {
            Some(reason) => self.peer_disconnect_for(reason, packet.rest(), out),
            None => Err(Error::InvalidDisconnect),
        }
    }

    fn peer_disconnect_for(
        &mut self,
        reason_code: Disconnect,
        rest: &[u8],
        out: &mut Outbox,
    ) -> Result<Flow, Error>
        ensures row { Follows (disconnect_reason_row (Some reason_code) rest.now)
            (span self.old self.new out.old out.new) result }
    {
        let _ = out;
        let mut packet = Cursor::new(rest);
        let message = packet.text()?;
        let lang_tag = packet.text()?;
        let message = Text::from_str(self.alloc, message)?;
        let lang_tag = Text::from_str(self.alloc, lang_tag)?;
        let info = RemoteDisconnectInfo {
            reason_code,
            message,
            lang_tag,
        };
        Ok(Flow::Ended(Ending::remote(self.alloc, info)?))
    }

    /// Whether more than twice our window came while an exchange of ours runs, with these bytes.
    pub fn is_too_much(&self, len: u64) -> bool
        ensures { result ≡ is_too_much self.now len }
    {
        let mut pending = self.pending.copy();
        pending.add(len, self.settings.window_size)
    }

    /// A packet from 50 on: it may not come once the peer has begun an exchange, and is counted while one of ours runs.
    #[tactic(auto, unfolding(crate::specs::OpeningTable::held_packet_row))]
    fn held_packet<S: LocalSigner>(
        &mut self,
        len: u64,
        number: u8,
        body: &[u8],
        signer: &mut S,
        out: &mut Outbox,
    ) -> Result<Flow, Error>
        ensures row { FollowsAsking (held_packet_row self.old.flag self.old len number body.now)
            (signer_at (S.calls signer.old) (S.refusals signer.old))
            (signer_at (S.calls signer.new) (S.refusals signer.new)) (span self.old self.new out.old out.new) result }
    {
        match self.flag {
            ExchangeFlag::Idle => self.phase_packet(number, body, signer, out),
            ExchangeFlag::Peer => Err(Error::Inconsistent),
            ExchangeFlag::Ours => {
                if self.is_too_much(len) {
                    Err(Error::Pending)
                } else {
                    self.counted_packet(len, number, body, signer, out)
                }
            }
        }
    }

    fn pending_so_far(&self) -> PendingCount
        ensures { result ≡ self.now.counted }
    {
        self.pending.copy()
    }

    /// Counts a packet's bytes. An open session counts those of an exchange of ours here too.
    pub fn count(&mut self, len: u64)
        ensures { self.new ≡ record self.old { counted = counted_with self.old len } }
    {
        let _ = self.pending.add(len, self.settings.window_size);
    }

    /// Restores an earlier count.
    fn restore(&mut self, pending: PendingCount)
        ensures { self.new ≡ record self.old { counted = pending } }
    {
        self.pending = pending;
    }

    /// A packet that is counted. The count stays as it was where the packet is refused.
    fn counted_packet<S: LocalSigner>(
        &mut self,
        len: u64,
        number: u8,
        body: &[u8],
        signer: &mut S,
        out: &mut Outbox,
    ) -> Result<Flow, Error>
        ensures row { FollowsAsking
            (phase_packet_row (record self.old { counted = counted_with self.old len }) number body.now)
            (signer_at (S.calls signer.old) (S.refusals signer.old))
            (signer_at (S.calls signer.new) (S.refusals signer.new)) (span self.old self.new out.old out.new) result }
    {
        let before = self.pending_so_far();
        self.count(len);
        match self.phase_packet(number, body, signer, out) {
            Ok(Flow::Went) => Ok(Flow::Went),
            Ok(Flow::Opened) => Ok(Flow::Opened),
            Ok(Flow::Ended(e)) => {
                self.restore(before);
                Ok(Flow::Ended(e))
            }
            Err(e) => {
                self.restore(before);
                Err(e)
            }
        }
    }

    /// A packet by its phase.
    fn phase_packet<S: LocalSigner>(
        &mut self,
        number: u8,
        body: &[u8],
        signer: &mut S,
        out: &mut Outbox,
    ) -> Result<Flow, Error>
        ensures row { FollowsAsking (phase_packet_row self.old number body.now)
            (signer_at (S.calls signer.old) (S.refusals signer.old))
            (signer_at (S.calls signer.new) (S.refusals signer.new)) (span self.old self.new out.old out.new) result }
    {
        match self.phase {
            Phase::Service => self.service_packet(number, body, out),
            Phase::Auth => self.auth_packet(number, body, signer, out),
            _ => Ok(Flow::Went),
        }
    }

    /// A packet of phase Auth. After a request by key, packet 60 asks the signer.
    #[tactic(auto, unfolding(crate::specs::OpeningTable::auth_packet_row))]
    fn auth_packet<S: LocalSigner>(
        &mut self,
        number: u8,
        body: &[u8],
        signer: &mut S,
        out: &mut Outbox,
    ) -> Result<Flow, Error>
        ensures row { FollowsAsking (auth_packet_row self.old number body.now)
            (signer_at (S.calls signer.old) (S.refusals signer.old))
            (signer_at (S.calls signer.new) (S.refusals signer.new)) (span self.old self.new out.old out.new) result }
    {
        if self.class == Class::Key && number == msg::USERAUTH_PK_OK {
            self.pk_ok(body, signer, out)
        } else {
            self.auth(number, body, out)
        }
    }
}
