//! The calls of a channel, which submit without waiting. Each gives a line to the function of its name in
//! `sshc_handle_calls`, with the channel's number, and its clause says of that line what the function's says.
#![tactic(auto, using(crate::proofs::Hints::channel_calls))]

ghost use Rattle.std.specs.Prelude.{◌≡◌, IfErr};
ghost use Rattle.sshc_wire.specs.declared.channel_id.ChannelId.{ChannelId as Number};
ghost use Rattle.sshc_auth_event.specs.declared.channel_msg.ChannelMsg.TheVariants as asks;
ghost use Rattle.sshc_client.specs.declared.message.Msg.TheVariants as msgs;
ghost use Rattle.sshc_handle_calls.specs.Asking.{Tells, Told};
ghost use Rattle.sshc_handle_calls.specs.Lines.{IsDeclined};
ghost use Rattle.sshc_handle.specs.SomeLine.{OnSomeLine};

use crate::channel::Channel;
use crate::line::HasLine;
use sshc_auth::Error;
use sshc_client::Handler;
use sshc_handle_calls as calls;
use sshc_wire::{ChannelId, Pty, Sig};
use std::sync::Wait;

/// The calls of a `Channel`. An `impl` gives its lines and its number, and can't change a call.
pub trait ChannelCalls: HasLine {
    ghost number: { Self → Number };

    /// Our number of the channel.
    fn id(self) -> ChannelId
        ensures { result ≡ number self };

    /// Bytes for the peer (RFC 4254, section 5.2).
    final fn data<R: Wait>(self, rt: &R, body: &[u8]) -> Result<(), Error>
        ensures call { OnSomeLine (Self.used self) (λ old new.
            Tells (msgs.Channel (number self) (asks.Data body.now)) old new result) }
        ensures declined { IfErr result IsDeclined }
    {
        let mut line = self.line();
        let answer = calls::data(rt, &mut line, self.alloc(), self.id(), body);
        self.done(line);
        answer
    }

    /// Bytes for the peer with a type code (RFC 4254, section 5.2).
    final fn extended_data<R: Wait>(self, rt: &R, ext: u32, body: &[u8]) -> Result<(), Error>
        ensures call { OnSomeLine (Self.used self) (λ old new.
            Tells (msgs.Channel (number self) (asks.ExtendedData ext body.now)) old new result) }
        ensures declined { IfErr result IsDeclined }
    {
        let mut line = self.line();
        let answer = calls::extended_data(rt, &mut line, self.alloc(), self.id(), ext, body);
        self.done(line);
        answer
    }

    /// No more bytes will be sent (RFC 4254, section 5.3).
    final fn eof<R: Wait>(self, rt: &R) -> Result<(), Error>
        ensures call { OnSomeLine (Self.used self) (λ old new.
            Told (msgs.Channel (number self) asks.Eof) old new result) }
        ensures declined { IfErr result IsDeclined }
    {
        let mut line = self.line();
        let answer = calls::eof(rt, &mut line, self.id());
        self.done(line);
        answer
    }

    /// The channel is to be closed (RFC 4254, section 5.3).
    final fn close<R: Wait>(self, rt: &R) -> Result<(), Error>
        ensures call { OnSomeLine (Self.used self) (λ old new.
            Told (msgs.Channel (number self) asks.Close) old new result) }
        ensures declined { IfErr result IsDeclined }
    {
        let mut line = self.line();
        let answer = calls::close(rt, &mut line, self.id());
        self.done(line);
        answer
    }

    /// A terminal (RFC 4254, section 6.2): width and height in characters, then in pixels, and its modes.
    final fn request_pty<R: Wait>(
        self,
        rt: &R,
        want_reply: bool,
        term: &str,
        col_width: u32,
        row_height: u32,
        pix_width: u32,
        pix_height: u32,
        modes: &[(Pty, u32)],
    ) -> Result<(), Error>
        ensures call { OnSomeLine (Self.used self) (λ old new.
            Tells (msgs.Channel (number self) (asks.RequestPty want_reply term.now
            col_width row_height pix_width pix_height modes.now)) old new result) }
        ensures declined { IfErr result IsDeclined }
    {
        let mut line = self.line();
        let answer = calls::request_pty(
            rt,
            &mut line,
            self.alloc(),
            self.id(),
            want_reply,
            term,
            col_width,
            row_height,
            pix_width,
            pix_height,
            modes,
        );
        self.done(line);
        answer
    }

    /// X11 forwarding, by a protocol, a cookie and a screen (RFC 4254, section 6.3.1).
    final fn request_x11<R: Wait>(
        self,
        rt: &R,
        want_reply: bool,
        single_connection: bool,
        protocol: &str,
        cookie: &str,
        screen: u32,
    ) -> Result<(), Error>
        ensures call { OnSomeLine (Self.used self) (λ old new.
            Tells (msgs.Channel (number self) (asks.RequestX11 want_reply single_connection
            protocol.now cookie.now screen)) old new result) }
        ensures declined { IfErr result IsDeclined }
    {
        let mut line = self.line();
        let answer = calls::request_x11(
            rt,
            &mut line,
            self.alloc(),
            self.id(),
            want_reply,
            single_connection,
            protocol,
            cookie,
            screen,
        );
        self.done(line);
        answer
    }

    /// A variable of the environment (RFC 4254, section 6.4).
    final fn set_env<R: Wait>(
        self,
        rt: &R,
        want_reply: bool,
        name: &str,
        value: &str,
    ) -> Result<(), Error>
        ensures call { OnSomeLine (Self.used self) (λ old new.
            Tells (msgs.Channel (number self) (asks.SetEnv want_reply name.now value.now)) old new result) }
        ensures declined { IfErr result IsDeclined }
    {
        let mut line = self.line();
        let answer = calls::set_env(
            rt,
            &mut line,
            self.alloc(),
            self.id(),
            want_reply,
            name,
            value,
        );
        self.done(line);
        answer
    }

    /// The user's shell (RFC 4254, section 6.5).
    final fn request_shell<R: Wait>(self, rt: &R, want_reply: bool) -> Result<(), Error>
        ensures call { OnSomeLine (Self.used self) (λ old new.
            Told (msgs.Channel (number self) (asks.RequestShell want_reply)) old new result) }
        ensures declined { IfErr result IsDeclined }
    {
        let mut line = self.line();
        let answer = calls::request_shell(rt, &mut line, self.id(), want_reply);
        self.done(line);
        answer
    }

    /// A command (RFC 4254, section 6.5).
    final fn exec<R: Wait>(self, rt: &R, want_reply: bool, words: &[u8]) -> Result<(), Error>
        ensures call { OnSomeLine (Self.used self) (λ old new.
            Tells (msgs.Channel (number self) (asks.Exec want_reply words.now)) old new result) }
        ensures declined { IfErr result IsDeclined }
    {
        let mut line = self.line();
        let answer = calls::exec(rt, &mut line, self.alloc(), self.id(), want_reply, words);
        self.done(line);
        answer
    }

    /// A signal for the remote process (RFC 4254, section 6.9).
    final fn signal<R: Wait>(self, rt: &R, signal: &Sig) -> Result<(), Error>
        ensures call { OnSomeLine (Self.used self) (λ old new.
            Tells (msgs.Channel (number self) (asks.Signal signal.now)) old new result) }
        ensures declined { IfErr result IsDeclined }
    {
        let mut line = self.line();
        let answer = calls::signal(rt, &mut line, self.id(), signal);
        self.done(line);
        answer
    }

    /// A subsystem by its name (RFC 4254, section 6.5).
    final fn request_subsystem<R: Wait>(
        self,
        rt: &R,
        want_reply: bool,
        name: &str,
    ) -> Result<(), Error>
        ensures call { OnSomeLine (Self.used self) (λ old new.
            Tells (msgs.Channel (number self) (asks.RequestSubsystem want_reply name.now)) old new result) }
        ensures declined { IfErr result IsDeclined }
    {
        let mut line = self.line();
        let answer = calls::request_subsystem(
            rt,
            &mut line,
            self.alloc(),
            self.id(),
            want_reply,
            name,
        );
        self.done(line);
        answer
    }

    /// The terminal's new size (RFC 4254, section 6.7), in characters, then in pixels.
    final fn window_change<R: Wait>(
        self,
        rt: &R,
        col_width: u32,
        row_height: u32,
        pix_width: u32,
        pix_height: u32,
    ) -> Result<(), Error>
        ensures call { OnSomeLine (Self.used self) (λ old new.
            Told (msgs.Channel (number self) (asks.WindowChange col_width row_height pix_width pix_height))
            old new result) }
        ensures declined { IfErr result IsDeclined }
    {
        let mut line = self.line();
        let answer = calls::window_change(
            rt,
            &mut line,
            self.id(),
            col_width,
            row_height,
            pix_width,
            pix_height,
        );
        self.done(line);
        answer
    }

    /// Agent forwarding (`auth-agent-req@openssh.com`).
    final fn agent_forward<R: Wait>(self, rt: &R, want_reply: bool) -> Result<(), Error>
        ensures call { OnSomeLine (Self.used self) (λ old new.
            Told (msgs.Channel (number self) (asks.AgentForward want_reply)) old new result) }
        ensures declined { IfErr result IsDeclined }
    {
        let mut line = self.line();
        let answer = calls::agent_forward(rt, &mut line, self.id(), want_reply);
        self.done(line);
        answer
    }
}

impl<'a, H: Handler> ChannelCalls for &'a Channel<H> {
    ghost number = { λ c. c.now };

    fn id(self) -> ChannelId {
        self.id
    }
}
