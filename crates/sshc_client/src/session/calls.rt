//! Calls of the handler that is lent the session, each with the record that follows it.

ghost use Rattle.std.specs.Prelude.{◌≡◌, [], ◌∷◌, Ok};
ghost use Rattle.sshc_client_table.specs.Moves.{Does, Grants, Tells};
ghost use Rattle.sshc_client_table.specs.SessionRow.{Happened, on_channel, reports};
ghost use Rattle.sshc_client.specs.HandledRow.{Calls, FollowsOne};

use super::Session;
use crate::handler::Handler;
use crate::signal::signal_copied;
use crate::stop::{Stop, lent, went};
use sshc_client_rows::RowFlow;
use sshc_wire::{ChannelId, ChannelOpenFailure, ChannelRecord, NoMemory, Record, Sig, Text};

impl Session {
    /// Calls the handler for what happened on a channel.
    #[tactic(auto, using(crate::proofs::HandlerLemmas::called))]
    fn call<H: Handler>(
        &mut self,
        id: ChannelId,
        happened: &ChannelRecord,
        handler: &mut H,
    ) -> Result<(), Stop<H::Error>>
        ensures { Calls H.keeps_defaults (Happened id.0 happened.now) (Ok tt)
            (H.at handler.old)
            (H.at handler.new)
            self.old self.new result }
    {
        match happened {
            ChannelRecord::Open {
                max_packet_size,
                window_size,
            } => lent(handler.channel_open_confirmation(id, *max_packet_size, *window_size, self)),
            ChannelRecord::Success => lent(handler.channel_success(id, self)),
            ChannelRecord::Failure => lent(handler.channel_failure(id, self)),
            ChannelRecord::Close => lent(handler.channel_close(id, self)),
            ChannelRecord::Eof => lent(handler.channel_eof(id, self)),
            ChannelRecord::OpenFailure {
                reason,
                description,
                language,
            } => self.call_open_failure(id, *reason, description, language, handler),
            ChannelRecord::Data { body } => lent(handler.data(id, body.as_slice(), self)),
            ChannelRecord::ExtendedData { ext, body } => {
                lent(handler.extended_data(id, *ext, body.as_slice(), self))
            }
            ChannelRecord::XonXoff { client_can_do } => {
                lent(handler.xon_xoff(id, *client_can_do, self))
            }
            ChannelRecord::ExitStatus { exit_status } => {
                lent(handler.exit_status(id, *exit_status, self))
            }
            ChannelRecord::ExitSignal {
                signal_name: signal,
                core_dumped,
                error_message: message,
                lang_tag: language,
            } => self.call_signal(id, signal, *core_dumped, message, language, handler),
            ChannelRecord::WindowAdjusted { new_size } => {
                lent(handler.window_adjusted(id, *new_size, self))
            }
        }
    }

    /// Calls the handler for an open of ours that the peer refused (RFC 4254, section 5.1).
    #[tactic(auto, using(crate::proofs::HandlerLemmas::called))]
    fn call_open_failure<H: Handler>(
        &mut self,
        id: ChannelId,
        reason: ChannelOpenFailure,
        description: &Text,
        language: &Text,
        handler: &mut H,
    ) -> Result<(), Stop<H::Error>>
        ensures { Calls H.keeps_defaults
            (Happened id.0 (ChannelRecord.OpenFailure reason description.now language.now)) (Ok tt)
            (H.at handler.old)
            (H.at handler.new)
            self.old self.new result }
    {
        let (description, language) = (description.as_str(), language.as_str());
        lent(handler.channel_open_failure(id, reason, description, language, self))
    }

    /// Calls the handler for a signal that ended the program on a channel (RFC 4254, section 6.10).
    #[tactic(auto, using(crate::proofs::HandlerLemmas::called))]
    fn call_signal<H: Handler>(
        &mut self,
        id: ChannelId,
        signal_name: &Sig,
        core_dumped: bool,
        error_message: &Text,
        lang_tag: &Text,
        handler: &mut H,
    ) -> Result<(), Stop<H::Error>>
        ensures { Calls H.keeps_defaults
            (Happened id.0
            (ChannelRecord.ExitSignal signal_name.now core_dumped error_message.now lang_tag.now)) (Ok tt)
            (H.at handler.old)
            (H.at handler.new)
            self.old self.new result }
    {
        let signal = signal_copied(signal_name)?;
        lent(handler.exit_signal(
            id,
            signal,
            core_dumped,
            error_message.as_str(),
            lang_tag.as_str(),
            self,
        ))
    }

    /// Adds the record of what happened on a channel.
    fn say(&mut self, id: ChannelId, happened: ChannelRecord) -> Result<(), NoMemory>
        ensures { Does (Tells (on_channel id.0 happened) ∷ []) self.old self.new result }
    {
        self.connection.tell(Record::Channel { id, happened })
    }

    /// Calls the handler for what happened on a channel, and then adds its record.
    #[tactic(auto, using(crate::proofs::HandlerLemmas::refused_call, crate::proofs::HandlerLemmas::let_go_call))]
    pub(super) fn report<H: Handler>(
        &mut self,
        id: ChannelId,
        happened: ChannelRecord,
        handler: &mut H,
    ) -> Result<RowFlow, Stop<H::Error>>
        ensures row { FollowsOne H.keeps_defaults
            (H.at handler.old)
            (H.at handler.new)
            (reports [] id.0 happened []) self.old self.new result }
    {
        match self.call(id, &happened, handler) {
            Ok(()) => went(self.say(id, happened)),
            Err(stop) => Err(stop),
        }
    }

    /// The same, and then the bytes that wait on the channel are sent.
    #[tactic(auto, using(crate::proofs::HandlerLemmas::refused_call, crate::proofs::HandlerLemmas::let_go_call))]
    pub(super) fn report_and_grant<H: Handler>(
        &mut self,
        id: ChannelId,
        happened: ChannelRecord,
        handler: &mut H,
    ) -> Result<RowFlow, Stop<H::Error>>
        ensures row { FollowsOne H.keeps_defaults
            (H.at handler.old)
            (H.at handler.new)
            (reports [] id.0 happened (Grants id.0 0 ∷ [])) self.old self.new result }
    {
        match self.call(id, &happened, handler) {
            Ok(()) => went(self.say_and_grant(id, happened)),
            Err(stop) => Err(stop),
        }
    }

    fn say_and_grant(&mut self, id: ChannelId, happened: ChannelRecord) -> Result<(), NoMemory>
        ensures { Does (Tells (on_channel id.0 happened) ∷ Grants id.0 0 ∷ []) self.old self.new result }
    {
        self.say(id, happened)?;
        let _left = self.connection.grant(id, 0)?;
        Ok(())
    }
}
