//! The order of the table's tests: out of turn; the answers that are awaited; then by kind.

ghost use Rattle.std.specs.Prelude.{◌≡◌};
ghost use Rattle.sshc_auth.specs.OpeningTable.{open_row, turn_row, event_row, plain_row, user_row, unopened_row};
ghost use Rattle.sshc_auth.specs.OpeningTable.{authenticate_row_in};
ghost use Rattle.sshc_auth.specs.OpeningTable.Order.{is_early_at, is_out_of_turn, packet_in};
ghost use Rattle.sshc_auth.specs.OpeningTable.Transport.{inactivity_timer_row};
ghost use Rattle.sshc_auth.specs.Row.{Follows, FollowsAsking, signer_at, span};

use super::{Opening, Phase};
use crate::ending::Ending;
use crate::error::Error;
use crate::order::{EventSort, packet_of, sort_of};
use crate::step::{Flow, Told};
use sshc_auth_event::{Event, SharedMethod};
use sshc_key::LocalSigner;
use sshc_transport::ExchangeFlag;
use sshc_wire::{Outbox, Resolution, Text, Ticket};

/// Whether an event of this sort comes too early by the exchange flag (RFC 4253, section 7).
fn is_early_at(flag: ExchangeFlag, sort: EventSort) -> bool
    ensures { result ≡ is_early_at flag sort }
{
    match flag {
        ExchangeFlag::Idle => sort == EventSort::ExchangeDone,
        ExchangeFlag::Ours => sort == EventSort::ExchangeDone || sort == EventSort::User,
        ExchangeFlag::Peer => sort == EventSort::PeerKexinit || sort == EventSort::User,
    }
}

impl Opening {
    /// Whether the event may not come now: while an answer is awaited, anything that isn't the user's; else a second
    /// KEXINIT of the peer, an exchange that is done without one, and a user's event while an exchange runs (RFC 4253,
    /// section 7).
    pub fn is_out_of_turn(&self, event: &Event) -> bool
        ensures { result ≡ is_out_of_turn self.now event.now }
    {
        let sort = sort_of(event);
        if self.is_awaiting() {
            sort != EventSort::User
        } else {
            is_early_at(self.flag, sort)
        }
    }

    /// The row of an event.
    #[tactic(auto, unfolding(crate::specs::OpeningTable::open_row))]
    pub(super) fn row<S: LocalSigner>(
        &mut self,
        event: &Event,
        told: Told,
        signer: &mut S,
        out: &mut Outbox,
    ) -> Result<Flow, Error>
        ensures row { FollowsAsking (open_row self.old event.now told)
            (signer_at (S.calls signer.old) (S.refusals signer.old))
            (signer_at (S.calls signer.new) (S.refusals signer.new)) (span self.old self.new out.old out.new) result }
    {
        if self.is_out_of_turn(event) {
            return Err(Error::OutOfTurn);
        }
        if self.is_awaiting() {
            self.awaiting(event, out)
        } else {
            match packet_of(event) {
                Some(packet) => self.payload(packet, signer, out),
                None => self.plain(event, told, out),
            }
        }
    }

    /// The row of an event that is no packet, once it may come and no answer is awaited.
    #[tactic(auto, unfolding(crate::specs::OpeningTable::plain_row))]
    fn plain(&mut self, event: &Event, told: Told, out: &mut Outbox) -> Result<Flow, Error>
        ensures row { Follows (plain_row self.old event.now told) (span self.old self.new out.old out.new) result }
    {
        match event {
            Event::PeerKexinit => self.peer_kexinit(out),
            Event::ExchangeDone(exchange) => self.exchange_done(exchange, told, out),
            Event::TransportFailed => Err(Error::TransportFailed),
            Event::InactivityTimer => self.inactivity_timer(out),
            _ => self.user(event, out),
        }
    }

    /// The user's events.
    #[tactic(auto, unfolding(crate::specs::OpeningTable::user_row))]
    fn user(&mut self, event: &Event, out: &mut Outbox) -> Result<Flow, Error>
        ensures row { Follows (user_row self.old event.now) (span self.old self.new out.old out.new) result }
    {
        match event {
            Event::Authenticate {
                ticket,
                user,
                method,
            } => self.authenticate(*ticket, user, method, out),
            Event::AuthGssapiToken { token } => self.user_token(token, out),
            Event::AuthGssapiMic { token, mic } => self.user_mic(token, mic, out),
            Event::AuthGssapiExchangeComplete { token } => self.user_complete(token, out),
            Event::Disconnect {
                reason,
                description,
                language_tag,
            } => self.user_disconnect(*reason, description, language_tag, out),
            Event::Rekey => self.rekey(out),
            Event::AwaitExtensionInfo {
                ticket,
                extension_name,
            } => self.await_extension_info(*ticket, extension_name, out),
            Event::GetServerSigAlgs { ticket } => self.get_server_sig_algs(*ticket, out),
            Event::Gone => Ok(Flow::Ended(Ending::closed())),
            _ => self.unopened(event, out),
        }
    }

    /// What needs an open session: channels are refused, and other requests denied.
    #[tactic(auto, unfolding(crate::specs::OpeningTable::unopened_row))]
    fn unopened(&mut self, event: &Event, out: &mut Outbox) -> Result<Flow, Error>
        ensures row { Follows (unopened_row self.old event.now) (span self.old self.new out.old out.new) result }
    {
        match event {
            Event::ChannelOpenSession { .. }
            | Event::ChannelOpenX11 { .. }
            | Event::ChannelOpenDirectTcpIp { .. }
            | Event::ChannelOpenDirectStreamLocal { .. } => Err(Error::NotAuthenticated),
            Event::TcpIpForward { ticket, .. }
            | Event::CancelTcpIpForward { ticket, .. }
            | Event::StreamLocalForward { ticket, .. }
            | Event::CancelStreamLocalForward { ticket, .. }
            | Event::Ping { ticket }
            | Event::SendGlobalRequest { ticket, .. } => {
                self.answered(*ticket, Resolution::Denied, out)
            }
            Event::HostKeysProve { ticket, keys } => self.host_keys_prove(*ticket, keys, out),
            _ => Ok(Flow::Went),
        }
    }

    /// Nothing came for as long as the settings allow.
    fn inactivity_timer(&mut self, out: &mut Outbox) -> Result<Flow, Error>
        ensures row { Follows (inactivity_timer_row self.old) (span self.old self.new out.old out.new) result }
    {
        let _ = out;
        if self.settings.inactivity {
            Err(Error::InactivityTimeout)
        } else {
            Ok(Flow::Went)
        }
    }

    /// A request to authenticate.
    fn authenticate(
        &mut self,
        ticket: Ticket,
        user: &Text,
        method: &SharedMethod,
        out: &mut Outbox,
    ) -> Result<Flow, Error>
        ensures row { Follows (authenticate_row_in self.old.phase self.old ticket user.now method.now)
            (span self.old self.new out.old out.new) result }
    {
        match self.phase {
            Phase::Service => self.authenticate_first(ticket, user, method, out),
            Phase::Auth => self.authenticate_again(ticket, user, method, out),
            _ => Ok(Flow::Went),
        }
    }
}
