//! Channels of ours (RFC 4254, section 5.1), for code that the session is lent to.

ghost use Rattle.std.specs.Prelude.{◌≡◌};
ghost use Rattle.sshc_client_packets.specs.ChannelOpens.{DirectStreamLocal, DirectTcpIp, Session as SessionOpen, X11};
ghost use Rattle.sshc_client_packets.specs.ChannelOpens.{channel_open};
ghost use Rattle.sshc_client_table.specs.Grown.{Grown};
ghost use Rattle.sshc_client.specs.Methods.{OpensChannel};

use super::Session;
use sshc_auth::Error;
use sshc_client_packets::ChannelOpen;
use sshc_wire::ChannelId;

impl Session {
    /// Opens a channel, and returns its number; `NotAuthenticated` if the session isn't open.
    #[tactic(auto, using(crate::proofs::MethodLemmas::grown_by_open, crate::proofs::MethodLemmas::same_grown))]
    fn open(&mut self, asked: &ChannelOpen<'_>) -> Result<ChannelId, Error>
        ensures opened { OpensChannel (channel_open asked.now) self.old self.new result }
        ensures grown { Grown self.old self.new }
    {
        if !self.connection.is_live() {
            return Err(Error::NotAuthenticated);
        }
        Ok(self.connection.open(asked, None)?)
    }

    /// A session (RFC 4254, section 6.1). Returns the channel's number; `NotAuthenticated` if and only if the session
    /// isn't open.
    pub fn channel_open_session(&mut self) -> Result<ChannelId, Error>
        ensures opened { OpensChannel SessionOpen self.old self.new result }
        ensures grown { Grown self.old self.new }
    {
        self.open(&ChannelOpen::Session)
    }

    /// A connection to the server's display (RFC 4254, section 6.3.2).
    pub fn channel_open_x11(
        &mut self,
        originator_address: &str,
        originator_port: u32,
    ) -> Result<ChannelId, Error>
        ensures opened { OpensChannel (X11 originator_address.now originator_port) self.old self.new result }
        ensures grown { Grown self.old self.new }
    {
        self.open(&ChannelOpen::X11 {
            originator_address,
            originator_port,
        })
    }

    /// A connection from the server to a host (RFC 4254, section 7.2).
    pub fn channel_open_direct_tcpip(
        &mut self,
        host: &str,
        port: u32,
        originator_address: &str,
        originator_port: u32,
    ) -> Result<ChannelId, Error>
        ensures opened { OpensChannel (DirectTcpIp host.now port originator_address.now originator_port)
            self.old self.new result }
        ensures grown { Grown self.old self.new }
    {
        self.open(&ChannelOpen::DirectTcpIp {
            host_to_connect: host,
            port_to_connect: port,
            originator_address,
            originator_port,
        })
    }

    /// A connection from the server to a socket (OpenSSH's PROTOCOL, section 2.4).
    pub fn channel_open_direct_streamlocal(&mut self, socket_path: &str) -> Result<ChannelId, Error>
        ensures opened { OpensChannel (DirectStreamLocal socket_path.now) self.old self.new result }
        ensures grown { Grown self.old self.new }
    {
        self.open(&ChannelOpen::DirectStreamLocal { socket_path })
    }
}
