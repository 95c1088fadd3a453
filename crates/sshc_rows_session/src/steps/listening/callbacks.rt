//! The calls of the handler of the tests.
#![tactic(auto, using(crate::proofs::HeardLemmas::handles))]

ghost use Rattle.std.specs.Prelude.{◌≡◌};
ghost use Rattle.sshc_client.specs.Handling.{ended_by};
ghost use Rattle.sshc_rows_session.specs.declared.steps.listening.Refused.TheVariants as refused;

use super::{Listening, Refused};
use crate::steps::plan::answer;
use crate::steps::values::Values;
use sshc_auth::NamesChosen;
use sshc_client::{DisconnectReason, Error, Handler, OpenAnswer, Session};
use sshc_key::{PublicKey, PublicKeyBase64, PublicKeyOrCertificate};
use sshc_wire::{ChannelId, ChannelOpenFailure, NoMemory, Sig};
use std::alloc::Global;

/// A key's blob.
fn put_key(values: Values, key: &PublicKey) -> Values {
    match key.public_key_bytes() {
        Ok(blob) => values.bytes(blob.as_slice()),
        Err(NoMemory) => values.text("no memory"),
    }
}

/// The host key: a plain key's blob.
fn host_key(alloc: Global, key: &PublicKeyOrCertificate) -> Values {
    let values = Values::new(alloc);
    match key {
        PublicKeyOrCertificate::PublicKey { key, .. } => put_key(values, key),
        PublicKeyOrCertificate::Certificate(_) => values.text("certificate"),
    }
}

/// The blobs of the keys.
fn keys_of(alloc: Global, keys: &[PublicKey]) -> Values {
    let mut values = Values::new(alloc);
    for key in keys {
        values = put_key(values, key);
    }
    values
}

/// The secret of an exchange, and the names that it chose.
fn exchange_of(alloc: Global, secret: Option<&[u8]>, names: &NamesChosen) -> Values {
    let values = match secret {
        Some(secret) => Values::new(alloc).bytes(secret),
        None => Values::new(alloc).text("no secret"),
    };
    let names = names.names();
    values
        .text(names.kex.as_str())
        .text(names.key.as_str())
        .text(names.cipher.as_str())
        .text(names.client_mac.as_str())
        .text(names.server_mac.as_str())
        .flag(names.strict_kex)
}

impl Handler for Listening {
    type Error = Refused;

    ghost use Rattle.std.specs.Prelude.{[]};

    ghost at = { λ h. record { refusals = h; setting = []; heard = [] } };

    ghost judges = { λ _ _ _. Unit {0} };

    ghost told_as = { λ e. refused.Client e };

    ghost keeps_defaults = { ⊥ };

    fn from_client(e: Error) -> Refused {
        Refused::Client(e)
    }

    /// The key is accepted unless the plan states `no` or `refuse`.
    fn check_server_key(&mut self, key: &PublicKeyOrCertificate) -> Result<bool, Refused> {
        let values = host_key(self.alloc, key);
        self.hear_alone("check_server_key", &values);
        match answer(self.plan.as_str(), "check_server_key") {
            None => Ok(true),
            Some("no") => Ok(false),
            Some(_) => Err(self.refuse(Refused::Planned)),
        }
    }

    fn disconnected(&mut self, reason: DisconnectReason<Refused>) -> Result<(), Refused>
        ensures default { result ≡ ended_by reason }
    {
        match reason {
            DisconnectReason::ReceivedDisconnect(_) => Ok(()),
            DisconnectReason::Error(e) => Err(e),
        }
    }

    /// A type is taken if the plan states any answer.
    fn should_accept_unknown_server_channel(&mut self, id: ChannelId, kind: &str) -> bool {
        let values = Values::new(self.alloc).number(id.0).text(kind);
        self.hear_alone("should_accept_unknown_server_channel", &values);
        answer(self.plan.as_str(), "should_accept_unknown_server_channel").is_some()
    }

    /// The plan states a number of bytes; else the target doesn't change.
    fn adjust_window(&mut self, id: ChannelId, window: u32) -> u32 {
        let values = Values::new(self.alloc).number(id.0).number(window);
        self.hear_alone("adjust_window", &values);
        match answer(self.plan.as_str(), "adjust_window") {
            Some(bytes) => bytes.parse::<u32>().unwrap_or(0),
            None => window,
        }
    }

    fn auth_banner(&mut self, banner: &str, session: &mut Session) -> Result<(), Refused> {
        let values = Values::new(self.alloc).text(banner);
        self.hear("auth_banner", &values, session)
    }

    fn kex_done(
        &mut self,
        shared_secret: Option<&[u8]>,
        names: &NamesChosen,
        session: &mut Session,
    ) -> Result<(), Refused> {
        let values = exchange_of(self.alloc, shared_secret, names);
        self.hear("kex_done", &values, session)
    }

    fn channel_open_confirmation(
        &mut self,
        id: ChannelId,
        max_packet_size: u32,
        window_size: u32,
        session: &mut Session,
    ) -> Result<(), Refused> {
        let values = Values::new(self.alloc)
            .number(id.0)
            .number(max_packet_size)
            .number(window_size);
        self.hear("channel_open_confirmation", &values, session)
    }

    fn channel_success(
        &mut self,
        channel: ChannelId,
        session: &mut Session,
    ) -> Result<(), Refused> {
        let values = Values::new(self.alloc).number(channel.0);
        self.hear("channel_success", &values, session)
    }

    fn channel_failure(
        &mut self,
        channel: ChannelId,
        session: &mut Session,
    ) -> Result<(), Refused> {
        let values = Values::new(self.alloc).number(channel.0);
        self.hear("channel_failure", &values, session)
    }

    fn channel_close(&mut self, channel: ChannelId, session: &mut Session) -> Result<(), Refused> {
        let values = Values::new(self.alloc).number(channel.0);
        self.hear("channel_close", &values, session)
    }

    fn channel_eof(&mut self, channel: ChannelId, session: &mut Session) -> Result<(), Refused> {
        let values = Values::new(self.alloc).number(channel.0);
        self.hear("channel_eof", &values, session)
    }

    fn channel_open_failure(
        &mut self,
        channel: ChannelId,
        reason: ChannelOpenFailure,
        description: &str,
        language: &str,
        session: &mut Session,
    ) -> Result<(), Refused> {
        let values = Values::new(self.alloc)
            .number(channel.0)
            .number(reason.code())
            .text(description)
            .text(language);
        self.hear("channel_open_failure", &values, session)
    }

    fn server_channel_open_session(
        &mut self,
        id: ChannelId,
        session: &mut Session,
    ) -> Result<OpenAnswer, Refused> {
        let values = Values::new(self.alloc).number(id.0);
        self.hear_open("server_channel_open_session", &values, session)
    }

    fn server_channel_open_direct_tcpip(
        &mut self,
        id: ChannelId,
        host: &str,
        port: u32,
        originator_address: &str,
        originator_port: u32,
        session: &mut Session,
    ) -> Result<OpenAnswer, Refused> {
        let values = Values::new(self.alloc)
            .number(id.0)
            .text(host)
            .number(port)
            .text(originator_address)
            .number(originator_port);
        self.hear_open("server_channel_open_direct_tcpip", &values, session)
    }

    fn server_channel_open_direct_streamlocal(
        &mut self,
        id: ChannelId,
        socket_path: &str,
        session: &mut Session,
    ) -> Result<OpenAnswer, Refused> {
        let values = Values::new(self.alloc).number(id.0).text(socket_path);
        self.hear_open("server_channel_open_direct_streamlocal", &values, session)
    }

    fn server_channel_open_x11(
        &mut self,
        id: ChannelId,
        originator_address: &str,
        originator_port: u32,
        session: &mut Session,
    ) -> Result<OpenAnswer, Refused> {
        let values = Values::new(self.alloc)
            .number(id.0)
            .text(originator_address)
            .number(originator_port);
        self.hear_open("server_channel_open_x11", &values, session)
    }

    fn server_channel_open_forwarded_tcpip(
        &mut self,
        id: ChannelId,
        host: &str,
        port: u32,
        originator_address: &str,
        originator_port: u32,
        session: &mut Session,
    ) -> Result<OpenAnswer, Refused> {
        let values = Values::new(self.alloc)
            .number(id.0)
            .text(host)
            .number(port)
            .text(originator_address)
            .number(originator_port);
        self.hear_open("server_channel_open_forwarded_tcpip", &values, session)
    }

    fn server_channel_open_forwarded_streamlocal(
        &mut self,
        id: ChannelId,
        socket_path: &str,
        session: &mut Session,
    ) -> Result<OpenAnswer, Refused> {
        let values = Values::new(self.alloc).number(id.0).text(socket_path);
        self.hear_open(
            "server_channel_open_forwarded_streamlocal",
            &values,
            session,
        )
    }

    fn server_channel_open_agent_forward(
        &mut self,
        id: ChannelId,
        session: &mut Session,
    ) -> Result<OpenAnswer, Refused> {
        let values = Values::new(self.alloc).number(id.0);
        self.hear_open("server_channel_open_agent_forward", &values, session)
    }

    fn server_channel_open_unknown(
        &mut self,
        id: ChannelId,
        session: &mut Session,
    ) -> Result<OpenAnswer, Refused> {
        let values = Values::new(self.alloc).number(id.0);
        self.hear_open("server_channel_open_unknown", &values, session)
    }

    fn data(
        &mut self,
        channel: ChannelId,
        body: &[u8],
        session: &mut Session,
    ) -> Result<(), Refused> {
        let values = Values::new(self.alloc).number(channel.0).bytes(body);
        self.hear("data", &values, session)
    }

    fn extended_data(
        &mut self,
        channel: ChannelId,
        ext: u32,
        body: &[u8],
        session: &mut Session,
    ) -> Result<(), Refused> {
        let values = Values::new(self.alloc)
            .number(channel.0)
            .number(ext)
            .bytes(body);
        self.hear("extended_data", &values, session)
    }

    fn xon_xoff(
        &mut self,
        channel: ChannelId,
        client_can_do: bool,
        session: &mut Session,
    ) -> Result<(), Refused> {
        let values = Values::new(self.alloc)
            .number(channel.0)
            .flag(client_can_do);
        self.hear("xon_xoff", &values, session)
    }

    fn exit_status(
        &mut self,
        channel: ChannelId,
        exit_status: u32,
        session: &mut Session,
    ) -> Result<(), Refused> {
        let values = Values::new(self.alloc)
            .number(channel.0)
            .number(exit_status);
        self.hear("exit_status", &values, session)
    }

    fn exit_signal(
        &mut self,
        channel: ChannelId,
        signal_name: Sig,
        core_dumped: bool,
        error_message: &str,
        lang_tag: &str,
        session: &mut Session,
    ) -> Result<(), Refused> {
        let values = Values::new(self.alloc)
            .number(channel.0)
            .text(signal_name.name())
            .flag(core_dumped)
            .text(error_message)
            .text(lang_tag);
        self.hear("exit_signal", &values, session)
    }

    fn window_adjusted(
        &mut self,
        channel: ChannelId,
        new_size: u32,
        session: &mut Session,
    ) -> Result<(), Refused> {
        let values = Values::new(self.alloc).number(channel.0).number(new_size);
        self.hear("window_adjusted", &values, session)
    }

    fn openssh_ext_host_keys_announced(
        &mut self,
        keys: Vec<PublicKey>,
        session: &mut Session,
    ) -> Result<(), Refused> {
        let values = keys_of(self.alloc, keys.as_slice());
        self.hear("openssh_ext_host_keys_announced", &values, session)
    }
}
