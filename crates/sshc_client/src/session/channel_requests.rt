//! Requests on a channel (RFC 4254, section 6), for code that the session is lent to. On a channel that isn't
//! established, or after our close was sent, nothing is written.

ghost use Rattle.std.specs.Prelude.{◌≡◌, ◌∷◌, []};
ghost use Rattle.sshc_client_packets.specs.ChannelRequests.{AgentForward, Env, Exec, PtyReq, Shell, Signal, Subsystem};
ghost use Rattle.sshc_client_packets.specs.ChannelRequests.{WindowChange, X11, channel_request};
ghost use Rattle.sshc_client_table.specs.Grown.{Grown};
ghost use Rattle.sshc_client_table.specs.Moves.{RequestsOn};
ghost use Rattle.sshc_client_table.specs.SessionTable.Users.{size_of};
ghost use Rattle.sshc_client.specs.Methods.{Acts};

use super::Session;
use super::acting::acted;
use sshc_auth::Error;
use sshc_client_packets::{ChannelRequest, TerminalSize};
use sshc_wire::{ChannelId, Pty, Sig};

impl Session {
    #[tactic(auto, using(crate::proofs::MethodLemmas::moved_acts, crate::proofs::MethodLemmas::moved_grown))]
    fn request(&mut self, id: ChannelId, request: &ChannelRequest<'_>) -> Result<(), Error>
        ensures does { Acts (RequestsOn id.0 (channel_request request.now) ∷ []) self.old self.new result }
        ensures grown { Grown self.old self.new }
    {
        acted(self.connection.request_on(id, request))
    }

    /// A terminal (RFC 4254, section 6.2): its name, columns and rows, the same in pixels, and its modes with their
    /// values.
    pub fn request_pty(
        &mut self,
        id: ChannelId,
        want_reply: bool,
        term: &str,
        col_width: u32,
        row_height: u32,
        pix_width: u32,
        pix_height: u32,
        modes: &[(Pty, u32)],
    ) -> Result<(), Error>
        ensures does { Acts (RequestsOn id.0
            (PtyReq want_reply term.now (size_of col_width row_height pix_width pix_height) modes.now) ∷ [])
            self.old self.new result }
        ensures grown { Grown self.old self.new }
    {
        let size = TerminalSize {
            col_width,
            row_height,
            pix_width,
            pix_height,
        };
        self.request(
            id,
            &ChannelRequest::PtyReq {
                want_reply,
                term,
                size,
                modes,
            },
        )
    }

    /// X11 forwarding (RFC 4254, section 6.3.1).
    pub fn request_x11(
        &mut self,
        id: ChannelId,
        want_reply: bool,
        single_connection: bool,
        protocol: &str,
        cookie: &str,
        screen: u32,
    ) -> Result<(), Error>
        ensures does { Acts (RequestsOn id.0 (X11 want_reply single_connection protocol.now cookie.now screen) ∷ [])
            self.old self.new result }
        ensures grown { Grown self.old self.new }
    {
        self.request(
            id,
            &ChannelRequest::X11 {
                want_reply,
                single_connection,
                protocol,
                cookie,
                screen,
            },
        )
    }

    /// A variable of the environment (RFC 4254, section 6.4).
    pub fn set_env(
        &mut self,
        id: ChannelId,
        want_reply: bool,
        name: &str,
        value: &str,
    ) -> Result<(), Error>
        ensures does { Acts (RequestsOn id.0 (Env want_reply name.now value.now) ∷ []) self.old self.new result }
        ensures grown { Grown self.old self.new }
    {
        self.request(
            id,
            &ChannelRequest::Env {
                want_reply,
                name,
                value,
            },
        )
    }

    /// The user's shell (RFC 4254, section 6.5).
    pub fn request_shell(&mut self, want_reply: bool, id: ChannelId) -> Result<(), Error>
        ensures does { Acts (RequestsOn id.0 (Shell want_reply) ∷ []) self.old self.new result }
        ensures grown { Grown self.old self.new }
    {
        self.request(id, &ChannelRequest::Shell { want_reply })
    }

    /// A command (RFC 4254, section 6.5).
    pub fn exec(&mut self, id: ChannelId, want_reply: bool, command: &[u8]) -> Result<(), Error>
        ensures does { Acts (RequestsOn id.0 (Exec want_reply command.now) ∷ []) self.old self.new result }
        ensures grown { Grown self.old self.new }
    {
        self.request(
            id,
            &ChannelRequest::Exec {
                want_reply,
                command,
            },
        )
    }

    /// A signal for the remote process (RFC 4254, section 6.9), which is never answered.
    pub fn signal(&mut self, id: ChannelId, signal: &Sig) -> Result<(), Error>
        ensures does { Acts (RequestsOn id.0 (Signal signal.now) ∷ []) self.old self.new result }
        ensures grown { Grown self.old self.new }
    {
        self.request(id, &ChannelRequest::Signal { signal })
    }

    /// A subsystem by its name (RFC 4254, section 6.5).
    pub fn request_subsystem(
        &mut self,
        want_reply: bool,
        id: ChannelId,
        name: &str,
    ) -> Result<(), Error>
        ensures does { Acts (RequestsOn id.0 (Subsystem want_reply name.now) ∷ []) self.old self.new result }
        ensures grown { Grown self.old self.new }
    {
        self.request(id, &ChannelRequest::Subsystem { want_reply, name })
    }

    /// The terminal's new size (RFC 4254, section 6.7), which is never answered: columns and rows, then pixels.
    pub fn window_change(
        &mut self,
        id: ChannelId,
        col_width: u32,
        row_height: u32,
        pix_width: u32,
        pix_height: u32,
    ) -> Result<(), Error>
        ensures does { Acts (RequestsOn id.0 (WindowChange (size_of col_width row_height pix_width pix_height)) ∷ [])
            self.old self.new result }
        ensures grown { Grown self.old self.new }
    {
        let size = TerminalSize {
            col_width,
            row_height,
            pix_width,
            pix_height,
        };
        self.request(id, &ChannelRequest::WindowChange { size })
    }

    /// Forwarding of the user's agent.
    pub fn agent_forward(&mut self, id: ChannelId, want_reply: bool) -> Result<(), Error>
        ensures does { Acts (RequestsOn id.0 (AgentForward want_reply) ∷ []) self.old self.new result }
        ensures grown { Grown self.old self.new }
    {
        self.request(id, &ChannelRequest::AgentForward { want_reply })
    }
}
