//! Rows of phase Auth for GSSAPI, and the user's events that answer them (RFC 4462, section 3).

ghost use Rattle.std.specs.Prelude.{◌≡◌, IfOk, Option, option_copied};
ghost use Rattle.sshc_wire.specs.Outgoing.{listed};
ghost use Rattle.sshc_auth.specs.OpeningTable.AuthGssapi.{gssapi_step, gssapi_response_row, gssapi_token_row};
ghost use Rattle.sshc_auth.specs.OpeningTable.AuthGssapi.{gssapi_error_row, gssapi_errtok_row, gssapi_user_row};
ghost use Rattle.sshc_auth.specs.OpeningTable.AuthGssapi.{is_gssapi, last_token, user_token_row, user_mic_row};
ghost use Rattle.sshc_auth.specs.OpeningTable.AuthGssapi.{user_complete_row};
ghost use Rattle.sshc_auth.specs.Row.{Follows, span};
ghost use Rattle.sshc_auth_request.specs.RequestTexts.{mic};

use super::{Class, Opening, Phase};
use crate::error::Error;
use crate::step::Flow;
use sshc_auth_request::{gssapi_complete_packet, gssapi_mic_packet, gssapi_token_packet, mic_data};
use sshc_wire::{AuthRecord, Cursor, GssapiRecord, NoMemory, Octets, Outbox, Record, Text};

impl Opening {
    /// The bytes of which a MIC is made.
    fn mic_bytes(&self) -> Result<Octets, NoMemory>
        ensures { IfOk result (λ o. o ≡ mic self.now.session_id self.now.user) }
    {
        Octets::from_vec(mic_data(self.alloc, self.session_id.as_slice(), self.user.as_str())?)
    }

    /// Hands a step to the user.
    fn gssapi_step(&mut self, step: GssapiRecord, out: &mut Outbox) -> Result<Flow, Error>
        ensures row { Follows (gssapi_step self.old step) (span self.old self.new out.old out.new) result }
    {
        out.push(Record::Auth {
            ticket: self.ticket,
            asked: AuthRecord::Gssapi(step),
        })?;
        Ok(Flow::Went)
    }

    /// USERAUTH_GSSAPI_RESPONSE (RFC 4462, section 3.3).
    #[tactic(auto, unfolding(crate::specs::OpeningTable::AuthGssapi::gssapi_response_row))]
    pub(super) fn gssapi_response(&mut self, body: &[u8], out: &mut Outbox) -> Result<Flow, Error>
        ensures row { Follows (gssapi_response_row self.old body.now) (span self.old self.new out.old out.new) result }
    {
        let mut packet = Cursor::new(body);
        let mechanism = packet.bytes()?;
        packet.ensure_end()?;
        let mechanism = Octets::from_slice(self.alloc, mechanism)?;
        let mic_data = self.mic_bytes()?;
        self.gssapi_step(
            GssapiRecord::Response {
                mechanism,
                mic_data,
            },
            out,
        )
    }

    /// USERAUTH_GSSAPI_TOKEN (RFC 4462, section 3.4).
    #[tactic(auto, unfolding(crate::specs::OpeningTable::AuthGssapi::gssapi_token_row))]
    pub(super) fn gssapi_token(&mut self, body: &[u8], out: &mut Outbox) -> Result<Flow, Error>
        ensures row { Follows (gssapi_token_row self.old body.now) (span self.old self.new out.old out.new) result }
    {
        let mut packet = Cursor::new(body);
        let token = packet.bytes()?;
        packet.ensure_end()?;
        let token = Octets::from_slice(self.alloc, token)?;
        let mic_data = self.mic_bytes()?;
        self.gssapi_step(GssapiRecord::Token { token, mic_data }, out)
    }

    /// USERAUTH_GSSAPI_ERROR (RFC 4462, section 3.8).
    #[tactic(auto, unfolding(crate::specs::OpeningTable::AuthGssapi::gssapi_error_row))]
    pub(super) fn gssapi_error(&mut self, body: &[u8], out: &mut Outbox) -> Result<Flow, Error>
        ensures row { Follows (gssapi_error_row self.old body.now) (span self.old self.new out.old out.new) result }
    {
        let mut packet = Cursor::new(body);
        let major_status = packet.u32()?;
        let minor_status = packet.u32()?;
        let message = packet.text()?;
        let _language = packet.text()?;
        packet.ensure_end()?;
        let message = Text::from_str(self.alloc, message)?;
        self.gssapi_step(
            GssapiRecord::Error {
                major_status,
                minor_status,
                message,
            },
            out,
        )
    }

    /// USERAUTH_GSSAPI_ERRTOK (RFC 4462, section 3.9).
    #[tactic(auto, unfolding(crate::specs::OpeningTable::AuthGssapi::gssapi_errtok_row))]
    pub(super) fn gssapi_errtok(&mut self, body: &[u8], out: &mut Outbox) -> Result<Flow, Error>
        ensures row { Follows (gssapi_errtok_row self.old body.now) (span self.old self.new out.old out.new) result }
    {
        let mut packet = Cursor::new(body);
        let token = packet.bytes()?;
        packet.ensure_end()?;
        let token = Octets::from_slice(self.alloc, token)?;
        self.gssapi_step(GssapiRecord::ErrorToken { token }, out)
    }

    /// Whether a request by GSSAPI was written last.
    fn is_gssapi(&self) -> bool
        ensures { result ≡ is_gssapi self.now.phase self.now.class }
    {
        self.phase == Phase::Auth && self.class == Class::Gssapi
    }

    /// The packet of the last token, unless it is empty.
    fn last_token(&self, token: &Option<Octets>) -> Result<Option<Record>, NoMemory>
        ensures { IfOk result (λ o. listed o ≡ last_token token.now) }
    {
        match token {
            Some(token) => match token.as_slice() {
                [] => Ok(None),
                [_, ..] => {
                    let packet = gssapi_token_packet(self.alloc, token.as_slice())?;
                    Ok(Some(Record::Payload(packet)))
                }
            },
            None => Ok(None),
        }
    }

    /// The user's token.
    #[tactic(auto, unfolding(crate::specs::OpeningTable::AuthGssapi::user_token_row))]
    pub(super) fn user_token(&mut self, token: &Octets, out: &mut Outbox) -> Result<Flow, Error>
        ensures row { Follows (user_token_row self.old token.now) (span self.old self.new out.old out.new) result }
    {
        if !self.is_gssapi() {
            return Ok(Flow::Went);
        }
        let packet = gssapi_token_packet(self.alloc, token.as_slice())?;
        out.push(Record::Payload(packet))?;
        Ok(Flow::Went)
    }

    /// The user's last token and the MIC.
    #[tactic(auto, unfolding(crate::specs::OpeningTable::AuthGssapi::user_mic_row))]
    pub(super) fn user_mic(
        &mut self,
        token: &Option<Octets>,
        mic: &Octets,
        out: &mut Outbox,
    ) -> Result<Flow, Error>
        ensures row { Follows (user_mic_row self.old token.now mic.now)
            (span self.old self.new out.old out.new) result }
    {
        if !self.is_gssapi() {
            return Ok(Flow::Went);
        }
        let packet = gssapi_mic_packet(self.alloc, mic.as_slice())?;
        let last = self.last_token(token)?;
        out.push_both(last, Some(Record::Payload(packet)))?;
        Ok(Flow::Went)
    }

    /// The user's last token, without a MIC.
    #[tactic(auto, unfolding(crate::specs::OpeningTable::AuthGssapi::user_complete_row))]
    pub(super) fn user_complete(
        &mut self,
        token: &Option<Octets>,
        out: &mut Outbox,
    ) -> Result<Flow, Error>
        ensures row { Follows (user_complete_row self.old token.now) (span self.old self.new out.old out.new) result }
    {
        if !self.is_gssapi() {
            return Ok(Flow::Went);
        }
        let packet = gssapi_complete_packet(self.alloc)?;
        let last = self.last_token(token)?;
        out.push_both(last, Some(Record::Payload(packet)))?;
        Ok(Flow::Went)
    }
}
