//! The trait of a session's handler.

ghost use Rattle.std.specs.Prelude.{◌≡◌, ◌≤◌, ℕ, List, [], ◌∷◌, Result, Bool, false, Ok, OnErr, option_copied};
ghost use Rattle.sshc_wire.specs.declared.channel_record.ChannelRecord.TheVariants as happened;
ghost use Rattle.sshc_wire.specs.declared.channel_record.ServerOpen.TheVariants as opens;
ghost use Rattle.sshc_wire.specs.Faults.{Rose};
ghost use Rattle.sshc_key.specs.declared.identity.PublicKeyOrCertificate.{PublicKeyOrCertificate as ServerKey};
ghost use Rattle.sshc_auth.specs.declared.error.Error.{Error as Refusal};
ghost use Rattle.sshc_client_table.specs.SessionRow.{Banner, Callback, Happened, HostKey, HostKeysAnnounced, KexDone};
ghost use Rattle.sshc_client_table.specs.SessionRow.{ServerOpened, UnknownOffered, WindowRefilled};
ghost use Rattle.sshc_client.specs.Handling.{HandlerAt, Handles, Hears, Opines, ended_by};

use crate::answers::DisconnectReason;
use crate::session::Session;
use sshc_auth::{Error, NamesChosen};
use sshc_client_table::OpenAnswer;
use sshc_key::{PublicKey, PublicKeyOrCertificate};
use sshc_wire::{ChannelId, ChannelOpenFailure, Sig};

/// The callbacks that a session makes. A callback that is lent the session may call its methods, and nothing else
/// changes the session meanwhile: the session afterwards is grown from the one before (`Grown`). A callback returns an
/// error only if the count of refusals rose; the error ends the session.
///
/// `check_server_key` has no default body, since what it may return is the handler's relation `judges`. A handler that
/// keeps all the other default bodies declares so by `keeps_defaults`, and then a step is exactly the row of the event.
pub trait Handler: Send {
    type Error: Drop;

    /// What is known of the handler at one moment: how often it has refused, what it judges host keys by, which no call
    /// changes, and the calls of it with their arguments, newest first, as far as it keeps them. A session makes only
    /// calls that the row asks for.
    ghost at: { Self → HandlerAt };

    /// What the handler may return for a host key.
    ghost judges: { Self → ServerKey → Result Bool Self.Error → Type 0 };

    /// The handler's error for an error of the session.
    ghost told_as: { Refusal → Self.Error };

    /// Whether the handler keeps the default bodies below: `Unit {0}` if it does, else `⊥`.
    ghost keeps_defaults: { Type 0 };

    /// Converts an error of the session to one of the handler.
    fn from_client(e: Error) -> Self::Error
        ensures { result ≡ told_as e };

    /// Whether the host key of the first exchange is accepted.
    fn check_server_key(&mut self, key: &PublicKeyOrCertificate) -> Result<bool, Self::Error>
        ensures judged { judges self.old key.now result }
        ensures cause { OnErr result (Rose (at self.old).refusals (at self.new).refusals) }
        ensures later { (at self.old).refusals ≤ (at self.new).refusals }
        ensures kept { (at self.new).setting ≡ (at self.old).setting }
        ensures heard { Hears (HostKey key.now ∷ []) (at self.old).heard (at self.new).heard };

    /// The session has ended. Whoever runs a session calls it once, after the last step.
    fn disconnected(&mut self, reason: DisconnectReason<Self::Error>) -> Result<(), Self::Error>
        ensures default { keeps_defaults → result ≡ ended_by reason }
    {
        match reason {
            DisconnectReason::ReceivedDisconnect(_) => Ok(()),
            DisconnectReason::Error(e) => Err(e),
        }
    }

    /// Whether to take a channel of an unknown type, named `kind`, and so to call `server_channel_open_unknown`. With
    /// `false` the channel is refused.
    #[tactic(auto, using(crate::proofs::HandlerLemmas::opines_default))]
    fn should_accept_unknown_server_channel(&mut self, id: ChannelId, kind: &str) -> bool
        ensures { Opines keeps_defaults (UnknownOffered id.0 kind.now) false
            (at self.old)
            (at self.new)
            result }
    {
        false
    }

    /// Our window of a channel was refilled; `window` is the window target, in bytes. A result above 0 is the target
    /// that the next call is made with; the result doesn't change the window itself.
    #[tactic(auto, using(crate::proofs::HandlerLemmas::opines_default))]
    fn adjust_window(&mut self, id: ChannelId, window: u32) -> u32
        ensures { Opines keeps_defaults (WindowRefilled id.0 window) window
            (at self.old)
            (at self.new)
            result }
    {
        window
    }

    /// The server's banner (RFC 4252, section 5.4), before the session is open.
    #[tactic(auto, using(crate::proofs::HandlerLemmas::does_nothing))]
    fn auth_banner(&mut self, banner: &str, session: &mut Session) -> Result<(), Self::Error>
        ensures { Handles keeps_defaults (Banner banner.now) (Ok tt)
            (at self.old)
            (at self.new)
            session.old session.new result }
    {
        Ok(())
    }

    /// A key exchange is done. `session` is as it was before: at the first exchange it isn't open yet, and its host key
    /// has just been accepted.
    #[tactic(auto, using(crate::proofs::HandlerLemmas::does_nothing))]
    fn kex_done(
        &mut self,
        shared_secret: Option<&[u8]>,
        names: &NamesChosen,
        session: &mut Session,
    ) -> Result<(), Self::Error>
        ensures { Handles keeps_defaults (KexDone (option_copied shared_secret.entry) names.now) (Ok tt)
            (at self.old)
            (at self.new)
            session.old session.new result }
    {
        Ok(())
    }

    /// The server confirmed a channel of ours: its packet size and its window, in bytes.
    #[tactic(auto, using(crate::proofs::HandlerLemmas::does_nothing))]
    fn channel_open_confirmation(
        &mut self,
        id: ChannelId,
        max_packet_size: u32,
        window_size: u32,
        session: &mut Session,
    ) -> Result<(), Self::Error>
        ensures { Handles keeps_defaults (Happened id.0 (happened.Open max_packet_size window_size)) (Ok tt)
            (at self.old)
            (at self.new)
            session.old session.new result }
    {
        Ok(())
    }

    /// The server did what was asked on a channel.
    #[tactic(auto, using(crate::proofs::HandlerLemmas::does_nothing))]
    fn channel_success(
        &mut self,
        channel: ChannelId,
        session: &mut Session,
    ) -> Result<(), Self::Error>
        ensures { Handles keeps_defaults (Happened channel.0 happened.Success) (Ok tt)
            (at self.old)
            (at self.new)
            session.old session.new result }
    {
        Ok(())
    }

    /// The server did not do what was asked on a channel.
    #[tactic(auto, using(crate::proofs::HandlerLemmas::does_nothing))]
    fn channel_failure(
        &mut self,
        channel: ChannelId,
        session: &mut Session,
    ) -> Result<(), Self::Error>
        ensures { Handles keeps_defaults (Happened channel.0 happened.Failure) (Ok tt)
            (at self.old)
            (at self.new)
            session.old session.new result }
    {
        Ok(())
    }

    /// The server closed a channel, which is gone.
    #[tactic(auto, using(crate::proofs::HandlerLemmas::does_nothing))]
    fn channel_close(
        &mut self,
        channel: ChannelId,
        session: &mut Session,
    ) -> Result<(), Self::Error>
        ensures { Handles keeps_defaults (Happened channel.0 happened.Close) (Ok tt)
            (at self.old)
            (at self.new)
            session.old session.new result }
    {
        Ok(())
    }

    /// The server sends no more bytes on a channel.
    #[tactic(auto, using(crate::proofs::HandlerLemmas::does_nothing))]
    fn channel_eof(&mut self, channel: ChannelId, session: &mut Session) -> Result<(), Self::Error>
        ensures { Handles keeps_defaults (Happened channel.0 happened.Eof) (Ok tt)
            (at self.old)
            (at self.new)
            session.old session.new result }
    {
        Ok(())
    }

    /// The server refused a channel of ours, which is gone.
    #[tactic(auto, using(crate::proofs::HandlerLemmas::does_nothing))]
    fn channel_open_failure(
        &mut self,
        channel: ChannelId,
        reason: ChannelOpenFailure,
        description: &str,
        language: &str,
        session: &mut Session,
    ) -> Result<(), Self::Error>
        ensures { Handles keeps_defaults
            (Happened channel.0 (happened.OpenFailure reason description.now language.now)) (Ok tt)
            (at self.old)
            (at self.new)
            session.old session.new result }
    {
        Ok(())
    }

    /// The server opens a session (RFC 4254, section 6.1).
    #[tactic(auto, using(crate::proofs::HandlerLemmas::does_nothing))]
    fn server_channel_open_session(
        &mut self,
        id: ChannelId,
        session: &mut Session,
    ) -> Result<OpenAnswer, Self::Error>
        ensures { Handles keeps_defaults (ServerOpened id.0 opens.Session) (Ok OpenAnswer.Accept)
            (at self.old)
            (at self.new)
            session.old session.new result }
    {
        Ok(OpenAnswer::Accept)
    }

    /// The server opens a connection to a host (RFC 4254, section 7.2).
    #[tactic(auto, using(crate::proofs::HandlerLemmas::does_nothing))]
    fn server_channel_open_direct_tcpip(
        &mut self,
        id: ChannelId,
        host: &str,
        port: u32,
        originator_address: &str,
        originator_port: u32,
        session: &mut Session,
    ) -> Result<OpenAnswer, Self::Error>
        ensures { Handles keeps_defaults
            (ServerOpened id.0 (opens.DirectTcpIp host.now port originator_address.now originator_port))
            (Ok OpenAnswer.Accept)
            (at self.old)
            (at self.new)
            session.old session.new result }
    {
        Ok(OpenAnswer::Accept)
    }

    /// The server opens a connection to a socket (OpenSSH's PROTOCOL, section 2.4).
    #[tactic(auto, using(crate::proofs::HandlerLemmas::does_nothing))]
    fn server_channel_open_direct_streamlocal(
        &mut self,
        id: ChannelId,
        socket_path: &str,
        session: &mut Session,
    ) -> Result<OpenAnswer, Self::Error>
        ensures { Handles keeps_defaults (ServerOpened id.0 (opens.DirectStreamLocal socket_path.now))
            (Ok OpenAnswer.Accept)
            (at self.old)
            (at self.new)
            session.old session.new result }
    {
        Ok(OpenAnswer::Accept)
    }

    /// The server opens a connection to the display (RFC 4254, section 6.3.2).
    #[tactic(auto, using(crate::proofs::HandlerLemmas::does_nothing))]
    fn server_channel_open_x11(
        &mut self,
        id: ChannelId,
        originator_address: &str,
        originator_port: u32,
        session: &mut Session,
    ) -> Result<OpenAnswer, Self::Error>
        ensures { Handles keeps_defaults (ServerOpened id.0 (opens.X11 originator_address.now originator_port))
            (Ok OpenAnswer.Accept)
            (at self.old)
            (at self.new)
            session.old session.new result }
    {
        Ok(OpenAnswer::Accept)
    }

    /// A connection came to a port that the server forwards (RFC 4254, section 7.2).
    #[tactic(auto, using(crate::proofs::HandlerLemmas::does_nothing))]
    fn server_channel_open_forwarded_tcpip(
        &mut self,
        id: ChannelId,
        host: &str,
        port: u32,
        originator_address: &str,
        originator_port: u32,
        session: &mut Session,
    ) -> Result<OpenAnswer, Self::Error>
        ensures { Handles keeps_defaults
            (ServerOpened id.0 (opens.ForwardedTcpIp host.now port originator_address.now originator_port))
            (Ok OpenAnswer.Accept)
            (at self.old)
            (at self.new)
            session.old session.new result }
    {
        Ok(OpenAnswer::Accept)
    }

    /// A connection came to a socket that the server forwards (OpenSSH's PROTOCOL, section 2.4).
    #[tactic(auto, using(crate::proofs::HandlerLemmas::does_nothing))]
    fn server_channel_open_forwarded_streamlocal(
        &mut self,
        id: ChannelId,
        socket_path: &str,
        session: &mut Session,
    ) -> Result<OpenAnswer, Self::Error>
        ensures { Handles keeps_defaults (ServerOpened id.0 (opens.ForwardedStreamLocal socket_path.now))
            (Ok OpenAnswer.Accept)
            (at self.old)
            (at self.new)
            session.old session.new result }
    {
        Ok(OpenAnswer::Accept)
    }

    /// The server opens a connection to the user's agent.
    #[tactic(auto, using(crate::proofs::HandlerLemmas::does_nothing))]
    fn server_channel_open_agent_forward(
        &mut self,
        id: ChannelId,
        session: &mut Session,
    ) -> Result<OpenAnswer, Self::Error>
        ensures { Handles keeps_defaults (ServerOpened id.0 opens.AgentForward) (Ok OpenAnswer.Accept)
            (at self.old)
            (at self.new)
            session.old session.new result }
    {
        Ok(OpenAnswer::Accept)
    }

    /// The server opens a channel of a type that isn't known, which `should_accept_unknown_server_channel` took.
    #[tactic(auto, using(crate::proofs::HandlerLemmas::does_nothing))]
    fn server_channel_open_unknown(
        &mut self,
        id: ChannelId,
        session: &mut Session,
    ) -> Result<OpenAnswer, Self::Error>
        ensures { Handles keeps_defaults (ServerOpened id.0 opens.Unknown)
            (Ok (OpenAnswer.Reject ChannelOpenFailure.AdministrativelyProhibited))
            (at self.old)
            (at self.new)
            session.old session.new result }
    {
        Ok(OpenAnswer::Reject(ChannelOpenFailure::AdministrativelyProhibited))
    }

    /// Bytes came on a channel.
    #[tactic(auto, using(crate::proofs::HandlerLemmas::does_nothing))]
    fn data(
        &mut self,
        channel: ChannelId,
        body: &[u8],
        session: &mut Session,
    ) -> Result<(), Self::Error>
        ensures { Handles keeps_defaults (Happened channel.0 (happened.Data body.now)) (Ok tt)
            (at self.old)
            (at self.new)
            session.old session.new result }
    {
        Ok(())
    }

    /// Bytes of a type came on a channel; type 1 is the standard error stream.
    #[tactic(auto, using(crate::proofs::HandlerLemmas::does_nothing))]
    fn extended_data(
        &mut self,
        channel: ChannelId,
        ext: u32,
        body: &[u8],
        session: &mut Session,
    ) -> Result<(), Self::Error>
        ensures { Handles keeps_defaults (Happened channel.0 (happened.ExtendedData ext body.now)) (Ok tt)
            (at self.old)
            (at self.new)
            session.old session.new result }
    {
        Ok(())
    }

    /// Whether we may do flow control (RFC 4254, section 6.8).
    #[tactic(auto, using(crate::proofs::HandlerLemmas::does_nothing))]
    fn xon_xoff(
        &mut self,
        channel: ChannelId,
        client_can_do: bool,
        session: &mut Session,
    ) -> Result<(), Self::Error>
        ensures { Handles keeps_defaults (Happened channel.0 (happened.XonXoff client_can_do)) (Ok tt)
            (at self.old)
            (at self.new)
            session.old session.new result }
    {
        Ok(())
    }

    /// The exit status of the remote command (RFC 4254, section 6.10).
    #[tactic(auto, using(crate::proofs::HandlerLemmas::does_nothing))]
    fn exit_status(
        &mut self,
        channel: ChannelId,
        exit_status: u32,
        session: &mut Session,
    ) -> Result<(), Self::Error>
        ensures { Handles keeps_defaults (Happened channel.0 (happened.ExitStatus exit_status)) (Ok tt)
            (at self.old)
            (at self.new)
            session.old session.new result }
    {
        Ok(())
    }

    /// The signal that ended the remote command (RFC 4254, section 6.10).
    #[tactic(auto, using(crate::proofs::HandlerLemmas::does_nothing))]
    fn exit_signal(
        &mut self,
        channel: ChannelId,
        signal_name: Sig,
        core_dumped: bool,
        error_message: &str,
        lang_tag: &str,
        session: &mut Session,
    ) -> Result<(), Self::Error>
        ensures { Handles keeps_defaults
            (Happened channel.0 (happened.ExitSignal signal_name core_dumped error_message.now lang_tag.now)) (Ok tt)
            (at self.old)
            (at self.new)
            session.old session.new result }
    {
        Ok(())
    }

    /// The server granted more bytes: `new_size` is the window that remains, in bytes, after the waiting bytes were
    /// sent.
    #[tactic(auto, using(crate::proofs::HandlerLemmas::does_nothing))]
    fn window_adjusted(
        &mut self,
        channel: ChannelId,
        new_size: u32,
        session: &mut Session,
    ) -> Result<(), Self::Error>
        ensures { Handles keeps_defaults (Happened channel.0 (happened.WindowAdjusted new_size)) (Ok tt)
            (at self.old)
            (at self.new)
            session.old session.new result }
    {
        Ok(())
    }

    /// The server announced host keys (OpenSSH's PROTOCOL, section 2.5). Nothing proves them yet.
    #[tactic(auto, using(crate::proofs::HandlerLemmas::does_nothing))]
    fn openssh_ext_host_keys_announced(
        &mut self,
        keys: Vec<PublicKey>,
        session: &mut Session,
    ) -> Result<(), Self::Error>
        ensures { Handles keeps_defaults (HostKeysAnnounced keys.items) (Ok tt)
            (at self.old)
            (at self.new)
            session.old session.new result }
    {
        Ok(())
    }
}
