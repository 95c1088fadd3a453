//! Global requests of ours (RFC 4254, section 4), for code that the session is lent to. With a ticket, an answer is
//! wanted. Before the session is open the ticket is denied; once it has ended nothing is done.

ghost use Rattle.std.specs.Prelude.{◌≡◌, ◌∷◌, []};
ghost use Rattle.sshc_client_table.specs.Grown.{Grown};
ghost use Rattle.sshc_client_table.specs.Messages.{CancelForward, CancelForwardSocket, Forward, ForwardSocket};
ghost use Rattle.sshc_client_table.specs.Messages.{KeepAlive, NoMore, OwnRequest, Ping};
ghost use Rattle.sshc_client_table.specs.Moves.{Asks, or_none};
ghost use Rattle.sshc_client_state.specs.Asks.{ask_of};
ghost use Rattle.sshc_client.specs.Methods.{Acts, asks_or_denies};

use super::Session;
use super::acting::acted;
use sshc_auth::{Error, Phase};
use sshc_client_state::{Ask, ticket_or_none};
use sshc_wire::Ticket;

impl Session {
    #[tactic(auto, using(crate::proofs::MethodLemmas::moved_acts, crate::proofs::MethodLemmas::moved_grown))]
    fn ask_or_deny(&mut self, ticket: Ticket, ask: &Ask<'_>) -> Result<(), Error>
        ensures does { Acts (asks_or_denies ticket (ask_of ask.now) self.old) self.old self.new result }
        ensures grown { Grown self.old self.new }
    {
        if self.connection.opening().phase() == Phase::Open {
            acted(self.connection.ask(ask))
        } else {
            acted(self.connection.deny(ticket))
        }
    }

    /// Asks the server to listen on a port and to forward its connections (RFC 4254, section 7.1); with port 0 the
    /// server chooses one.
    pub fn tcpip_forward(
        &mut self,
        ticket: Option<Ticket>,
        address: &str,
        port: u32,
    ) -> Result<(), Error>
        ensures does { Acts (asks_or_denies (or_none ticket) (Forward (or_none ticket) address.now port) self.old)
            self.old self.new result }
        ensures grown { Grown self.old self.new }
    {
        let ticket = ticket_or_none(ticket);
        self.ask_or_deny(
            ticket,
            &Ask::Forward {
                ticket,
                address,
                port,
            },
        )
    }

    /// Asks the server to stop listening on a port.
    pub fn cancel_tcpip_forward(
        &mut self,
        ticket: Option<Ticket>,
        address: &str,
        port: u32,
    ) -> Result<(), Error>
        ensures does { Acts (asks_or_denies (or_none ticket)
            (CancelForward (or_none ticket) address.now port) self.old) self.old self.new result }
        ensures grown { Grown self.old self.new }
    {
        let ticket = ticket_or_none(ticket);
        self.ask_or_deny(
            ticket,
            &Ask::CancelForward {
                ticket,
                address,
                port,
            },
        )
    }

    /// Asks the server to listen on a socket and to forward its connections (OpenSSH's PROTOCOL, section 2.4).
    pub fn streamlocal_forward(
        &mut self,
        ticket: Option<Ticket>,
        socket_path: &str,
    ) -> Result<(), Error>
        ensures does { Acts (asks_or_denies (or_none ticket)
            (ForwardSocket (or_none ticket) socket_path.now) self.old) self.old self.new result }
        ensures grown { Grown self.old self.new }
    {
        let ticket = ticket_or_none(ticket);
        self.ask_or_deny(
            ticket,
            &Ask::ForwardSocket {
                ticket,
                path: socket_path,
            },
        )
    }

    /// Asks the server to stop listening on a socket.
    pub fn cancel_streamlocal_forward(
        &mut self,
        ticket: Option<Ticket>,
        socket_path: &str,
    ) -> Result<(), Error>
        ensures does { Acts (asks_or_denies (or_none ticket)
            (CancelForwardSocket (or_none ticket) socket_path.now) self.old) self.old self.new result }
        ensures grown { Grown self.old self.new }
    {
        let ticket = ticket_or_none(ticket);
        self.ask_or_deny(
            ticket,
            &Ask::CancelForwardSocket {
                ticket,
                path: socket_path,
            },
        )
    }

    /// A request by its name and the bytes after it.
    pub fn send_global_request(
        &mut self,
        ticket: Option<Ticket>,
        name: &str,
        body: &[u8],
    ) -> Result<(), Error>
        ensures does { Acts (asks_or_denies (or_none ticket) (OwnRequest (or_none ticket) name.now body.now) self.old)
            self.old self.new result }
        ensures grown { Grown self.old self.new }
    {
        let ticket = ticket_or_none(ticket);
        self.ask_or_deny(ticket, &Ask::OwnRequest { ticket, name, body })
    }

    /// A keepalive that is always answered.
    pub fn send_ping(&mut self, ticket: Option<Ticket>) -> Result<(), Error>
        ensures does { Acts (asks_or_denies (or_none ticket) (Ping (or_none ticket)) self.old)
            self.old self.new result }
        ensures grown { Grown self.old self.new }
    {
        let ticket = ticket_or_none(ticket);
        self.ask_or_deny(ticket, &Ask::Ping { ticket })
    }

    /// A keepalive, with an answer wanted or not.
    #[tactic(auto, using(crate::proofs::MethodLemmas::moved_acts, crate::proofs::MethodLemmas::moved_grown))]
    pub fn send_keepalive(&mut self, want_reply: bool) -> Result<(), Error>
        ensures does { Acts (Asks (KeepAlive want_reply) ∷ []) self.old self.new result }
        ensures grown { Grown self.old self.new }
    {
        acted(self.connection.ask(&Ask::KeepAlive { want_reply }))
    }

    /// No more sessions will be opened (OpenSSH's PROTOCOL, section 2.2).
    #[tactic(auto, using(crate::proofs::MethodLemmas::moved_acts, crate::proofs::MethodLemmas::moved_grown))]
    pub fn no_more_sessions(&mut self, want_reply: bool) -> Result<(), Error>
        ensures does { Acts (Asks (NoMore want_reply) ∷ []) self.old self.new result }
        ensures grown { Grown self.old self.new }
    {
        acted(self.connection.ask(&Ask::NoMore { want_reply }))
    }
}
