//! Rows while an answer of the user is awaited.

ghost use Rattle.std.specs.Prelude.{◌≡◌};
ghost use Rattle.sshc_auth.specs.OpeningTable.Awaiting.{awaiting_row, answer_row_in, responses_row, signature_row};
ghost use Rattle.sshc_auth.specs.OpeningTable.Awaiting.{signed_row, unsigned_row, is_signed};
ghost use Rattle.sshc_auth.specs.Row.{Follows, span};

use super::{Opening, Phase, resolved};
use crate::error::Error;
use crate::order::ticket_of;
use crate::step::Flow;
use sshc_auth_event::Event;
use sshc_wire::{Octets, Outbox, Record, Resolution, Ticket};

impl Opening {
    /// An event while an answer is awaited.
    #[tactic(auto, unfolding(crate::specs::OpeningTable::Awaiting::awaiting_row))]
    pub(super) fn awaiting(&mut self, event: &Event, out: &mut Outbox) -> Result<Flow, Error>
        ensures row { Follows (awaiting_row self.old event.now) (span self.old self.new out.old out.new) result }
    {
        match event {
            Event::Gone => Err(Error::RecvError),
            Event::Disconnect {
                reason,
                description,
                language_tag,
            } => self.user_disconnect(*reason, description, language_tag, out),
            _ => self.answer_awaited(event, out),
        }
    }

    fn answer_awaited(&mut self, event: &Event, out: &mut Outbox) -> Result<Flow, Error>
        ensures row { Follows (answer_row_in self.old.phase self.old event.now)
            (span self.old self.new out.old out.new) result }
    {
        match self.phase {
            Phase::AwaitResponses => self.responses(event, out),
            _ => self.signature(event, out),
        }
    }

    fn responses(&mut self, event: &Event, out: &mut Outbox) -> Result<Flow, Error>
        ensures row { Follows (responses_row self.old event.now) (span self.old self.new out.old out.new) result }
    {
        match event {
            Event::AuthInfoResponse { responses } => self.info_response(responses, out),
            _ => self.answered(ticket_of(event), Resolution::Dropped, out),
        }
    }

    fn signature(&mut self, event: &Event, out: &mut Outbox) -> Result<Flow, Error>
        ensures row { Follows (signature_row self.old event.now) (span self.old self.new out.old out.new) result }
    {
        match event {
            Event::Signed { body } => self.signed(body, out),
            Event::SignFailed => self.unsigned(out),
            _ => self.answered(ticket_of(event), Resolution::Dropped, out),
        }
    }

    /// Whether these are the bytes that were handed out, followed by a signature.
    fn is_signed(&self, body: &[u8]) -> bool
        ensures { result ≡ is_signed self.now.handed body.now }
    {
        let handed = self.handed.as_slice();
        handed.len() < body.len() && body.starts_with(handed)
    }

    /// The outside signer returns what it was handed, followed by the signature.
    #[tactic(auto, unfolding(crate::specs::OpeningTable::Awaiting::signed_row))]
    fn signed(&mut self, body: &Octets, out: &mut Outbox) -> Result<Flow, Error>
        ensures row { Follows (signed_row self.old body.now) (span self.old self.new out.old out.new) result }
    {
        if !self.is_signed(body.as_slice()) {
            return self.unsigned(out);
        }
        let begins = 4 + self.session_id.as_slice().len();
        let request = match body.as_slice().get(begins..) {
            Some(request) => Octets::from_slice(self.alloc, request)?,
            None => Octets::new(self.alloc),
        };
        out.push(Record::Payload(request))?;
        self.phase = Phase::Auth;
        Ok(Flow::Went)
    }

    /// The outside signer didn't sign.
    fn unsigned(&mut self, out: &mut Outbox) -> Result<Flow, Error>
        ensures row { Follows (unsigned_row self.old) (span self.old self.new out.old out.new) result }
    {
        out.push_both(resolved(self.ticket, Resolution::Dropped), None)?;
        self.phase = Phase::Auth;
        self.ticket = Ticket(0);
        Ok(Flow::Went)
    }
}
