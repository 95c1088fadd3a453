//! Rows of phase Auth: the server answers the request, or the user asks again (RFC 4252, section 5).

ghost use Rattle.std.specs.Prelude.{◌≡◌, [], IfOk};
ghost use Rattle.sshc_wire.specs.Names.{names_in};
ghost use Rattle.sshc_auth.specs.OpeningTable.{auth_row, answer_row, gssapi_row};
ghost use Rattle.sshc_auth.specs.OpeningTable.Auth.{userauth_failure_row, userauth_success_row, userauth_banner_row};
ghost use Rattle.sshc_auth.specs.OpeningTable.Auth.{authenticate_again_row, answered, known_behind};
ghost use Rattle.sshc_auth.specs.OpeningTable.AuthKey.{taken};
ghost use Rattle.sshc_auth.specs.Row.{Follows, span};

use super::{Class, Opening, Phase, drop_and_send, resolve, resolved};
use crate::error::Error;
use crate::slot::clear;
use crate::step::Flow;
use sshc_auth_event::SharedMethod;
use sshc_auth_request::request_packet;
use sshc_wire::{
    Cursor, MethodKind, MethodSet, Names, NoMemory, Outbox, Record, Resolution, Text, Ticket, msg,
};
use std::alloc::Global;

impl Opening {
    /// A packet of phase Auth that asks no signer.
    #[tactic(auto, unfolding(crate::specs::OpeningTable::auth_row))]
    pub(super) fn auth(&mut self, number: u8, body: &[u8], out: &mut Outbox) -> Result<Flow, Error>
        ensures row { Follows (auth_row self.old number body.now) (span self.old self.new out.old out.new) result }
    {
        match number {
            msg::USERAUTH_FAILURE => self.userauth_failure(body, out),
            msg::USERAUTH_SUCCESS => self.userauth_success(body, out),
            msg::USERAUTH_BANNER => self.userauth_banner(body, out),
            msg::USERAUTH_PK_OK => self.answer(body, out),
            msg::EXT_INFO => self.ext_info(body, out),
            _ => self.gssapi(number, body, out),
        }
    }

    /// Packet 60, by the class of the request.
    #[tactic(auto, unfolding(crate::specs::OpeningTable::answer_row))]
    fn answer(&mut self, body: &[u8], out: &mut Outbox) -> Result<Flow, Error>
        ensures row { Follows (answer_row self.old.class self.old body.now)
            (span self.old self.new out.old out.new) result }
    {
        match self.class {
            Class::Prompts => self.info_request(body, out),
            Class::Gssapi => self.gssapi_response(body, out),
            Class::Plain | Class::Key => {
                self.forget_method();
                Ok(Flow::Went)
            }
        }
    }

    /// The packets that belong to GSSAPI alone.
    #[tactic(auto, unfolding(crate::specs::OpeningTable::gssapi_row))]
    fn gssapi(&mut self, number: u8, body: &[u8], out: &mut Outbox) -> Result<Flow, Error>
        ensures row { Follows (gssapi_row self.old.class self.old number body.now)
            (span self.old self.new out.old out.new) result }
    {
        if self.class != Class::Gssapi {
            return Err(Error::Inconsistent);
        }
        match number {
            msg::USERAUTH_GSSAPI_TOKEN => self.gssapi_token(body, out),
            msg::USERAUTH_GSSAPI_ERROR => self.gssapi_error(body, out),
            msg::USERAUTH_GSSAPI_ERRTOK => self.gssapi_errtok(body, out),
            _ => Err(Error::Inconsistent),
        }
    }

    /// USERAUTH_FAILURE (RFC 4252, section 5.1).
    #[tactic(auto, unfolding(crate::specs::OpeningTable::Auth::userauth_failure_row))]
    fn userauth_failure(&mut self, body: &[u8], out: &mut Outbox) -> Result<Flow, Error>
        ensures row { Follows (userauth_failure_row self.old body.now) (span self.old self.new out.old out.new) result }
    {
        let mut packet = Cursor::new(body);
        let list = packet.text()?;
        let partial_success = packet.boolean()?;
        packet.ensure_end()?;
        let remaining_methods = known_methods(self.alloc, list)?;
        let is_empty = remaining_methods.is_empty();
        let failure = Resolution::AuthFailure {
            remaining_methods,
            partial_success,
        };
        resolve(out, self.ticket, failure)?;
        if is_empty {
            return Err(Error::NoAuthMethod);
        }
        self.forget_request();
        Ok(Flow::Went)
    }

    /// USERAUTH_SUCCESS (RFC 4252, section 5.1).
    #[tactic(auto, unfolding(crate::specs::OpeningTable::Auth::userauth_success_row))]
    fn userauth_success(&mut self, body: &[u8], out: &mut Outbox) -> Result<Flow, Error>
        ensures row { Follows (userauth_success_row self.old body.now) (span self.old self.new out.old out.new) result }
    {
        Cursor::new(body).ensure_end()?;
        let success = resolved(self.ticket, Resolution::AuthSuccess);
        out.push_both(success, Some(Record::Opened))?;
        self.forget_request();
        self.phase = Phase::Open;
        Ok(Flow::Opened)
    }

    /// The request was answered: its method and its ticket are cleared.
    fn forget_request(&mut self)
        ensures { self.new ≡ answered self.old }
    {
        self.forget_method();
        self.ticket = Ticket(0);
    }

    /// The method was answered.
    pub(super) fn forget_method(&mut self)
        ensures { self.new ≡ taken self.old }
    {
        clear(&mut self.method);
    }

    /// USERAUTH_BANNER (RFC 4252, section 5.4).
    #[tactic(auto, unfolding(crate::specs::OpeningTable::Auth::userauth_banner_row))]
    fn userauth_banner(&mut self, body: &[u8], out: &mut Outbox) -> Result<Flow, Error>
        ensures row { Follows (userauth_banner_row self.old body.now) (span self.old self.new out.old out.new) result }
    {
        let mut packet = Cursor::new(body);
        let banner = packet.text()?;
        let _language = packet.text()?;
        packet.ensure_end()?;
        let banner = Text::from_str(self.alloc, banner)?;
        out.push(Record::AuthBanner { banner })?;
        Ok(Flow::Went)
    }

    /// The user asks again.
    #[tactic(auto, unfolding(crate::specs::OpeningTable::Auth::authenticate_again_row))]
    pub(super) fn authenticate_again(
        &mut self,
        ticket: Ticket,
        user: &Text,
        method: &SharedMethod,
        out: &mut Outbox,
    ) -> Result<Flow, Error>
        ensures row { Follows (authenticate_again_row self.old ticket user.now method.now)
            (span self.old self.new out.old out.new) result }
    {
        let other_user = self.user_to_keep(user)?;
        let request = request_packet(self.alloc, user, method.as_method())?;
        let kept = method.share()?;
        let added = drop_and_send(out, self.ticket, request);
        self.ask(ticket, other_user, kept, added)?;
        Ok(Flow::Went)
    }
}

/// The known methods, in the order in which they first occur.
fn known_methods(alloc: Global, list: &str) -> Result<MethodSet, NoMemory>
    ensures { IfOk result (λ m. m ≡ known_behind [] (names_in list.now)) }
{
    let mut methods = MethodSet::empty(alloc);
    for name in Names::new(list) {
        if let Some(method) = MethodKind::from_name(name) {
            methods.insert(method)?;
        }
    }
    Ok(methods)
}
