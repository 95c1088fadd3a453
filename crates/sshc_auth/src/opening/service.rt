//! Rows of phase Service: the service is asked for, and the user's request is stored (RFC 4253, section 10).

ghost use Rattle.std.specs.Prelude.{◌≡◌, IfOk, OnOk, OnErr};
ghost use Rattle.std.specs.Option.{unwrap_or};
ghost use Rattle.sshc_wire.specs.Outgoing.{listed};
ghost use Rattle.sshc_auth.specs.OpeningState.{class_of};
ghost use Rattle.sshc_auth.specs.OpeningTable.Service.{service_packet_row, service_accept_row, authenticate_first_row};
ghost use Rattle.sshc_auth.specs.OpeningTable.Service.{stored_request, asked_for_service, as_records, asked_by};
ghost use Rattle.sshc_auth.specs.Row.{Follows, span};

use super::{Class, Opening, Phase, resolved};
use crate::error::Error;
use crate::slot::put_unless;
use crate::step::Flow;
use sshc_auth_event::{Method, SharedMethod};
use sshc_auth_request::{request_packet, service_request_packet};
use sshc_wire::{Cursor, NoMemory, Octets, Outbox, Record, Resolution, Text, Ticket, msg};

impl Opening {
    #[tactic(auto, unfolding(crate::specs::OpeningTable::Service::service_packet_row))]
    pub(super) fn service_packet(
        &mut self,
        number: u8,
        body: &[u8],
        out: &mut Outbox,
    ) -> Result<Flow, Error>
        ensures row { Follows (service_packet_row self.old number body.now)
            (span self.old self.new out.old out.new) result }
    {
        match number {
            msg::SERVICE_ACCEPT => self.service_accept(body, out),
            msg::EXT_INFO => self.ext_info(body, out),
            _ => Err(Error::Inconsistent),
        }
    }

    /// SERVICE_ACCEPT (RFC 4253, section 10).
    #[tactic(auto, unfolding(crate::specs::OpeningTable::Service::service_accept_row))]
    fn service_accept(&mut self, body: &[u8], out: &mut Outbox) -> Result<Flow, Error>
        ensures row { Follows (service_accept_row self.old body.now) (span self.old self.new out.old out.new) result }
    {
        if !self.requested {
            return Err(Error::Inconsistent);
        }
        let mut packet = Cursor::new(body);
        let name = packet.bytes()?;
        if name != b"ssh-userauth".as_slice() {
            return Ok(Flow::Went);
        }
        packet.ensure_end()?;
        let request = self.stored_request()?;
        out.push_both(request, None)?;
        self.phase = Phase::Auth;
        Ok(Flow::Went)
    }

    /// The packet of the stored request, if there is one.
    fn stored_request(&self) -> Result<Option<Record>, NoMemory>
        ensures { IfOk result (λ o. listed o ≡ stored_request self.now.user self.now.method) }
    {
        match &self.method {
            Some(stored) => {
                let request = request_packet(self.alloc, &self.user, stored.as_method())?;
                Ok(Some(Record::Payload(request)))
            }
            None => Ok(None),
        }
    }

    /// The user asks before the service is there.
    #[tactic(auto, unfolding(crate::specs::OpeningTable::Service::authenticate_first_row))]
    pub(super) fn authenticate_first(
        &mut self,
        ticket: Ticket,
        user: &Text,
        method: &SharedMethod,
        out: &mut Outbox,
    ) -> Result<Flow, Error>
        ensures row { Follows (authenticate_first_row self.old ticket user.now method.now)
            (span self.old self.new out.old out.new) result }
    {
        let other_user = self.user_to_keep(user)?;
        let request = self.asking_for_service()?;
        let kept = method.share()?;
        let dropped = resolved(self.ticket, Resolution::Dropped);
        let added = out.push_both(dropped, as_record(request));
        self.ask(ticket, other_user, kept, added)?;
        self.requested = true;
        Ok(Flow::Went)
    }

    /// A copy of the user's name; `None` if that name is stored already.
    pub(super) fn user_to_keep(&self, user: &Text) -> Result<Option<Text>, NoMemory>
        ensures { IfOk result (λ other. unwrap_or other self.now.user ≡ user.now) }
    {
        if self.user.as_str() == user.as_str() {
            return Ok(None);
        }
        Ok(Some(user.copy()?))
    }

    /// Keeps what the user asked for last, unless memory ran out before. No name is the stored one.
    pub(super) fn ask(
        &mut self,
        ticket: Ticket,
        user: Option<Text>,
        method: SharedMethod,
        before: Result<(), NoMemory>,
    ) -> Result<(), NoMemory>
        ensures ok { OnOk result (self.new ≡ asked_by self.old ticket (unwrap_or user self.old.user) method) }
        ensures err { OnErr result (self.new ≡ self.old) }
        ensures same { result ≡ before }
    {
        let class = class_of(method.as_method());
        put_unless(&mut self.method, method, before)?;
        self.ticket = ticket;
        self.class = class;
        if let Some(user) = user {
            self.user = user;
        }
        Ok(())
    }

    /// The packet that asks for the service, unless it was asked for.
    fn asking_for_service(&self) -> Result<Option<Octets>, NoMemory>
        ensures { IfOk result (λ o. as_records o ≡ asked_for_service self.now.requested) }
    {
        if self.requested {
            return Ok(None);
        }
        Ok(Some(service_request_packet(self.alloc)?))
    }
}

/// The packet as a record. It is made last, so that no record is held where a step can fail.
fn as_record(packet: Option<Octets>) -> Option<Record>
    ensures { listed result ≡ as_records packet }
{
    match packet {
        Some(packet) => Some(Record::Payload(packet)),
        None => None,
    }
}

/// The class of a method.
fn class_of(method: &Method) -> Class
    ensures { result ≡ class_of method.now }
{
    match method {
        Method::None | Method::Password { .. } => Class::Plain,
        Method::KeyboardInteractive { .. } => Class::Prompts,
        Method::GssapiWithMic { .. } => Class::Gssapi,
        Method::PublicKey { .. }
        | Method::OpenSshCertificate { .. }
        | Method::FuturePublicKey { .. }
        | Method::FutureCertificate { .. } => Class::Key,
    }
}
