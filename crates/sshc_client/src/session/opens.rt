//! Rows of opens and their answers (RFC 4254, section 5.1).

ghost use Rattle.std.specs.Prelude.{◌≡◌, ℕ, List, [], ◌∷◌, Ok, Some, true, false};
ghost use Rattle.sshc_mux.specs.ChannelTable.Opens.{awaited, next_number};
ghost use Rattle.sshc_client_packets.specs.ChannelPackets.{lent_refusal};
ghost use Rattle.sshc_client_table.specs.Moves.{Does, Tells};
ghost use Rattle.sshc_client_table.specs.SessionState.{is_live};
ghost use Rattle.sshc_client_table.specs.SessionRow.{ServerOpened};
ghost use Rattle.sshc_client_table.specs.SessionTable.Opens.{channel_open_row, confirmed_row, failed_row};
ghost use Rattle.sshc_client_table.specs.SessionTable.Opens.{numbered_open_row, open_confirmation_row};
ghost use Rattle.sshc_client_table.specs.SessionTable.Opens.{open_failure_row, settled};
ghost use Rattle.sshc_wire.specs.declared.record.Record.TheVariants.{ServerOpened as ServerOpenedRecord};
ghost use Rattle.sshc_client.specs.HandledRow.{Accepts, Calls, FollowsOne, FollowsWith, default_answer, is_unknown};
ghost use Rattle.sshc_client.specs.HandledRow.{served};

use super::Session;
use crate::handler::Handler;
use crate::stop::{Stop, lent, went};
use sshc_auth::Error;
use sshc_client_packets::{
    Confirmation, OpenRefusal, Sender, read_channel_open, read_confirmation, read_open_failure,
    read_server_open,
};
use sshc_client_rows::{RowFlow, refusal_of};
use sshc_client_table::OpenAnswer;
use sshc_wire::{ChannelId, ChannelOpenFailure, ChannelRecord, NoMemory, Record, ServerOpen, Text};

impl Session {
    /// CHANNEL_OPEN_CONFIRMATION.
    #[tactic(auto, using(crate::proofs::Hints::handed_on), unfolding(crate::proofs::By::open_confirmation_row))]
    pub(super) fn open_confirmation<H: Handler>(
        &mut self,
        body: &[u8],
        handler: &mut H,
    ) -> Result<RowFlow, Stop<H::Error>>
        requires { is_live self.old ≡ true }
        ensures row { FollowsOne H.keeps_defaults
            (H.at handler.old)
            (H.at handler.new)
            (open_confirmation_row self.old body.now) self.old self.new result }
    {
        let c = read_confirmation(body)?;
        self.confirmed(c, handler)
    }

    /// An open of ours that waits is confirmed, and then the bytes that wait on the channel are sent.
    #[tactic(auto, using(crate::proofs::Hints::confirmed))]
    fn confirmed<H: Handler>(
        &mut self,
        c: Confirmation,
        handler: &mut H,
    ) -> Result<RowFlow, Stop<H::Error>>
        requires { is_live self.old ≡ true }
        ensures row { FollowsOne H.keeps_defaults
            (H.at handler.old)
            (H.at handler.new)
            (confirmed_row (awaited c.recipient self.old.table) c) self.old self.new result }
    {
        if !self.connection.confirm(c)? {
            return Err(Stop::Own(Error::Inconsistent));
        }
        self.report_and_grant(
            ChannelId(c.recipient),
            ChannelRecord::Open {
                max_packet_size: c.sender.max_packet_size,
                window_size: c.sender.window_size,
            },
            handler,
        )
    }

    /// CHANNEL_OPEN_FAILURE.
    #[tactic(auto, using(crate::proofs::Hints::handed_on), unfolding(crate::proofs::By::open_failure_row))]
    pub(super) fn open_failure<H: Handler>(
        &mut self,
        body: &[u8],
        handler: &mut H,
    ) -> Result<RowFlow, Stop<H::Error>>
        requires { is_live self.old ≡ true }
        ensures row { FollowsOne H.keeps_defaults
            (H.at handler.old)
            (H.at handler.new)
            (open_failure_row self.old body.now) self.old self.new result }
    {
        let refusal = read_open_failure(body)?;
        self.failed_open(&refusal, handler)
    }

    #[tactic(auto, using(crate::proofs::Hints::failed_open))]
    fn failed_open<H: Handler>(
        &mut self,
        refusal: &OpenRefusal<'_>,
        handler: &mut H,
    ) -> Result<RowFlow, Stop<H::Error>>
        requires { is_live self.old ≡ true }
        ensures row { FollowsOne H.keeps_defaults
            (H.at handler.old)
            (H.at handler.new)
            (failed_row (awaited refusal.now.id.0 self.old.table) (lent_refusal refusal.now)) self.old self.new result }
    {
        let description = Text::from_str(self.alloc, refusal.description)?;
        let language = Text::from_str(self.alloc, refusal.language)?;
        if !self.connection.fail(refusal.id, refusal.reason)? {
            return Ok(RowFlow::Went);
        }
        self.report(
            refusal.id,
            ChannelRecord::OpenFailure {
                reason: refusal.reason,
                description,
                language,
            },
            handler,
        )
    }

    /// CHANNEL_OPEN. If no number is free, it is out of memory.
    #[tactic(auto, using(crate::proofs::Hints::handed_on), unfolding(crate::proofs::By::channel_open_row))]
    pub(super) fn channel_open<H: Handler>(
        &mut self,
        body: &[u8],
        handler: &mut H,
    ) -> Result<RowFlow, Stop<H::Error>>
        requires { is_live self.old ≡ true }
        ensures row { FollowsWith H.keeps_defaults
            (H.at handler.old)
            (H.at handler.new)
            (λ o. channel_open_row o self.old body.now) self.old self.new result }
    {
        let head = read_channel_open(body)?;
        match read_server_open(self.alloc, head.kind, head.rest) {
            Ok(ServerOpen::Unknown) => self.unknown_open(head.sender, head.kind, handler),
            Ok(opened) => self.known_open(head.sender, opened, handler),
            Err(e) => Err(Stop::Own(refusal_of(e))),
        }
    }

    /// An open of a type that is known.
    #[tactic(auto, using(crate::proofs::Hints::known_opens))]
    fn known_open<H: Handler>(
        &mut self,
        sender: Sender,
        opened: ServerOpen,
        handler: &mut H,
    ) -> Result<RowFlow, Stop<H::Error>>
        requires live { is_live self.old ≡ true }
        requires known { is_unknown opened ≡ false }
        ensures row { (kind : List ℕ) → FollowsWith H.keeps_defaults
            (H.at handler.old)
            (H.at handler.new)
            (λ o. numbered_open_row o (next_number self.old.table) sender kind opened) self.old self.new result }
    {
        let id = self.connection.reserve(sender)?;
        self.serve(id, opened, handler)
    }

    /// An open of an unknown type is refused, unless the handler takes the type.
    #[tactic(auto, using(crate::proofs::Hints::unknown_open))]
    fn unknown_open<H: Handler>(
        &mut self,
        sender: Sender,
        kind: &str,
        handler: &mut H,
    ) -> Result<RowFlow, Stop<H::Error>>
        requires { is_live self.old ≡ true }
        ensures row { FollowsWith H.keeps_defaults
            (H.at handler.old)
            (H.at handler.new)
            (λ o. numbered_open_row o (next_number self.old.table) sender kind.now ServerOpen.Unknown)
            self.old self.new result }
    {
        let id = self.connection.reserve(sender)?;
        if handler.should_accept_unknown_server_channel(id, kind) {
            return self.serve(id, ServerOpen::Unknown, handler);
        }
        self.connection
            .reject(id, ChannelOpenFailure::UnknownChannelType)?;
        Ok(RowFlow::Went)
    }

    /// Calls the handler for an open of the peer's, and does what the handler returns.
    #[tactic(auto, using(crate::proofs::HandlerLemmas::refused_open, crate::proofs::HandlerLemmas::let_go_open))]
    fn serve<H: Handler>(
        &mut self,
        id: ChannelId,
        opened: ServerOpen,
        handler: &mut H,
    ) -> Result<RowFlow, Stop<H::Error>>
        requires { Accepts H.keeps_defaults (default_answer opened) }
        ensures row { FollowsOne H.keeps_defaults
            (H.at handler.old)
            (H.at handler.new)
            (served id.0 opened) self.old self.new result }
    {
        match self.call_for_open(id, &opened, handler) {
            Ok(answer) => went(self.settle(id, opened, answer)),
            Err(stop) => Err(stop),
        }
    }

    /// Adds the record of the peer's open, and does what the handler returned.
    fn settle(
        &mut self,
        id: ChannelId,
        opened: ServerOpen,
        answer: OpenAnswer,
    ) -> Result<(), NoMemory>
        ensures { Does (Tells (ServerOpenedRecord id opened) ∷ settled id.0 answer) self.old self.new result }
    {
        self.connection.tell(Record::ServerOpened { id, opened })?;
        match answer {
            OpenAnswer::Accept => {
                self.connection.accept(id)?;
                let _left = self.connection.grant(id, 0)?;
                Ok(())
            }
            OpenAnswer::Reject(reason) => self.connection.reject(id, reason),
            OpenAnswer::Later => Ok(()),
        }
    }

    /// Calls the handler for an open of the peer's.
    #[tactic(auto, using(crate::proofs::HandlerLemmas::called))]
    fn call_for_open<H: Handler>(
        &mut self,
        id: ChannelId,
        opened: &ServerOpen,
        handler: &mut H,
    ) -> Result<OpenAnswer, Stop<H::Error>>
        ensures { Calls H.keeps_defaults (ServerOpened id.0 opened.now) (Ok (default_answer opened.now))
            (H.at handler.old)
            (H.at handler.new)
            self.old self.new result }
    {
        match opened {
            ServerOpen::Session => lent(handler.server_channel_open_session(id, self)),
            ServerOpen::DirectTcpIp {
                host_to_connect: host,
                port_to_connect: port,
                originator_address: originator,
                originator_port,
            } => self.call_direct_tcpip(id, host, *port, originator, *originator_port, handler),
            ServerOpen::DirectStreamLocal { socket_path } => lent(
                handler.server_channel_open_direct_streamlocal(id, socket_path.as_str(), self),
            ),
            ServerOpen::X11 {
                originator_address,
                originator_port,
            } => lent(handler.server_channel_open_x11(
                id,
                originator_address.as_str(),
                *originator_port,
                self,
            )),
            ServerOpen::ForwardedTcpIp {
                connected_address: host,
                connected_port: port,
                originator_address: originator,
                originator_port,
            } => self.call_forwarded_tcpip(id, host, *port, originator, *originator_port, handler),
            ServerOpen::ForwardedStreamLocal { socket_path } => lent(
                handler.server_channel_open_forwarded_streamlocal(id, socket_path.as_str(), self),
            ),
            ServerOpen::AgentForward => {
                lent(handler.server_channel_open_agent_forward(id, self))
            }
            ServerOpen::Unknown => lent(handler.server_channel_open_unknown(id, self)),
        }
    }

    /// Calls the handler for a connection that the server opens to a host (RFC 4254, section 7.2).
    #[tactic(auto, using(crate::proofs::HandlerLemmas::called))]
    fn call_direct_tcpip<H: Handler>(
        &mut self,
        id: ChannelId,
        host_to_connect: &Text,
        port_to_connect: u32,
        originator_address: &Text,
        originator_port: u32,
        handler: &mut H,
    ) -> Result<OpenAnswer, Stop<H::Error>>
        ensures { Calls H.keeps_defaults
            (ServerOpened id.0
            (ServerOpen.DirectTcpIp host_to_connect.now port_to_connect originator_address.now originator_port))
            (Ok OpenAnswer.Accept)
            (H.at handler.old)
            (H.at handler.new)
            self.old self.new result }
    {
        lent(handler.server_channel_open_direct_tcpip(
            id,
            host_to_connect.as_str(),
            port_to_connect,
            originator_address.as_str(),
            originator_port,
            self,
        ))
    }

    /// Calls the handler for a connection to an address that the server was asked to forward (RFC 4254, section 7.2).
    #[tactic(auto, using(crate::proofs::HandlerLemmas::called))]
    fn call_forwarded_tcpip<H: Handler>(
        &mut self,
        id: ChannelId,
        connected_address: &Text,
        connected_port: u32,
        originator_address: &Text,
        originator_port: u32,
        handler: &mut H,
    ) -> Result<OpenAnswer, Stop<H::Error>>
        ensures { Calls H.keeps_defaults
            (ServerOpened id.0
            (ServerOpen.ForwardedTcpIp connected_address.now connected_port originator_address.now originator_port))
            (Ok OpenAnswer.Accept)
            (H.at handler.old)
            (H.at handler.new)
            self.old self.new result }
    {
        lent(handler.server_channel_open_forwarded_tcpip(
            id,
            connected_address.as_str(),
            connected_port,
            originator_address.as_str(),
            originator_port,
            self,
        ))
    }
}
