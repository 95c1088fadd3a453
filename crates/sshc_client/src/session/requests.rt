//! Rows of the peer's requests, on a channel and of us as a whole (RFC 4254, sections 4 and 5.4).

ghost use Rattle.std.specs.Prelude.{◌≡◌, [], ◌∷◌, Ok};
ghost use Rattle.sshc_wire.specs.declared.record.Record.TheVariants.{HostKeysAnnounced as AnnouncedRecord};
ghost use Rattle.sshc_client_packets.specs.PeerGlobals.{blobs_of};
ghost use Rattle.sshc_client_table.specs.Moves.{Does, Tells};
ghost use Rattle.sshc_client_table.specs.SessionRow.{HostKeysAnnounced, asking};
ghost use Rattle.sshc_client_table.specs.SessionTable.Requests.{asked_row, channel_request_row, global_request_row};
ghost use Rattle.sshc_client_table.specs.SessionTable.Requests.{requested_row};
ghost use Rattle.sshc_client.specs.HandledRow.{Calls, FollowsOne};

use super::Session;
use crate::handler::Handler;
use crate::stop::{Stop, lent, own, went};
use sshc_client_packets::{
    PeerGlobal, PeerRequest, key_blobs, read_channel_request, read_global_request,
    read_request_head,
};
use sshc_client_rows::{RowFlow, answered, answered_on, refusal_of};
use sshc_key::PublicKey;
use sshc_wire::{ChannelId, ChannelRecord, List, NoMemory, Octets, Record};

impl Session {
    /// CHANNEL_REQUEST: number and name are read first; on a channel that isn't established the rest isn't.
    #[tactic(auto, using(crate::proofs::Hints::handed_on), unfolding(crate::proofs::By::channel_request_row))]
    pub(super) fn channel_request<H: Handler>(
        &mut self,
        body: &[u8],
        handler: &mut H,
    ) -> Result<RowFlow, Stop<H::Error>>
        ensures { FollowsOne H.keeps_defaults
            (H.at handler.old)
            (H.at handler.new)
            (channel_request_row self.old body.now) self.old self.new result }
    {
        let head = read_request_head(body)?;
        if !self.is_established(head.id) {
            return Ok(RowFlow::Went);
        }
        match read_channel_request(self.alloc, head.name, head.rest) {
            Ok(request) => self.requested(head.id, request, handler),
            Err(e) => Err(Stop::Own(refusal_of(e))),
        }
    }

    #[tactic(auto, using(crate::proofs::HandlerLemmas::own_with))]
    fn requested<H: Handler>(
        &mut self,
        id: ChannelId,
        request: PeerRequest,
        handler: &mut H,
    ) -> Result<RowFlow, Stop<H::Error>>
        ensures { FollowsOne H.keeps_defaults
            (H.at handler.old)
            (H.at handler.new)
            (requested_row id.0 request) self.old self.new result }
    {
        match request {
            PeerRequest::XonXoff { client_can_do } => {
                self.report(id, ChannelRecord::XonXoff { client_can_do }, handler)
            }
            PeerRequest::ExitStatus { exit_status } => {
                self.report(id, ChannelRecord::ExitStatus { exit_status }, handler)
            }
            PeerRequest::ExitSignal {
                signal_name,
                core_dumped,
                error_message,
                lang_tag,
            } => self.report(
                id,
                ChannelRecord::ExitSignal {
                    signal_name,
                    core_dumped,
                    error_message,
                    lang_tag,
                },
                handler,
            ),
            PeerRequest::Keepalive { want_reply } => {
                own(answered_on(&mut self.connection, id, want_reply, true))
            }
            PeerRequest::Unknown { want_reply } => {
                own(answered_on(&mut self.connection, id, want_reply, false))
            }
        }
    }

    /// GLOBAL_REQUEST.
    #[tactic(auto, using(crate::proofs::Hints::handed_on), unfolding(crate::proofs::By::global_request_row))]
    pub(super) fn global_request<H: Handler>(
        &mut self,
        body: &[u8],
        handler: &mut H,
    ) -> Result<RowFlow, Stop<H::Error>>
        ensures { FollowsOne H.keeps_defaults
            (H.at handler.old)
            (H.at handler.new)
            (global_request_row body.now) self.old self.new result }
    {
        match read_global_request(self.alloc, body) {
            Ok(request) => self.asked_by_peer(request, handler),
            Err(e) => Err(Stop::Own(refusal_of(e))),
        }
    }

    #[tactic(auto, using(crate::proofs::HandlerLemmas::own_with))]
    fn asked_by_peer<H: Handler>(
        &mut self,
        request: PeerGlobal,
        handler: &mut H,
    ) -> Result<RowFlow, Stop<H::Error>>
        ensures { FollowsOne H.keeps_defaults
            (H.at handler.old)
            (H.at handler.new)
            (asked_row request) self.old self.new result }
    {
        match request {
            PeerGlobal::Keepalive { want_reply } => {
                own(answered(&mut self.connection, want_reply, true))
            }
            PeerGlobal::HostKeys { keys } => self.announced(keys, handler),
            PeerGlobal::Unknown { want_reply } => {
                own(answered(&mut self.connection, want_reply, false))
            }
        }
    }

    /// Announced host keys count as heard and are passed to the handler; they get no answer.
    #[tactic(auto, using(crate::proofs::Hints::announced))]
    fn announced<H: Handler>(
        &mut self,
        keys: List<PublicKey>,
        handler: &mut H,
    ) -> Result<RowFlow, Stop<H::Error>>
        ensures { FollowsOne H.keeps_defaults
            (H.at handler.old)
            (H.at handler.new)
            (asked_row (PeerGlobal.HostKeys keys)) self.old self.new result }
    {
        let blobs = key_blobs(self.alloc, keys.as_slice())?;
        self.connection.hear();
        self.announce(keys, blobs, handler)
    }

    #[tactic(auto, using(crate::proofs::Hints::announce))]
    fn announce<H: Handler>(
        &mut self,
        keys: List<PublicKey>,
        blobs: List<Octets>,
        handler: &mut H,
    ) -> Result<RowFlow, Stop<H::Error>>
        requires { blobs ≡ blobs_of keys }
        ensures { FollowsOne H.keeps_defaults
            (H.at handler.old)
            (H.at handler.new)
            (asking [] (HostKeysAnnounced keys) (Tells (AnnouncedRecord (blobs_of keys)) ∷ []))
            self.old self.new result }
    {
        match self.call_announced(keys.into_vec(), handler) {
            Ok(()) => went(self.say_announced(blobs)),
            Err(stop) => Err(stop),
        }
    }

    #[tactic(auto, using(crate::proofs::HandlerLemmas::called))]
    fn call_announced<H: Handler>(
        &mut self,
        keys: Vec<PublicKey>,
        handler: &mut H,
    ) -> Result<(), Stop<H::Error>>
        ensures { Calls H.keeps_defaults (HostKeysAnnounced keys.items) (Ok tt)
            (H.at handler.old)
            (H.at handler.new)
            self.old self.new result }
    {
        lent(handler.openssh_ext_host_keys_announced(keys, self))
    }

    fn say_announced(&mut self, keys: List<Octets>) -> Result<(), NoMemory>
        ensures { Does (Tells (AnnouncedRecord keys) ∷ []) self.old self.new result }
    {
        self.connection.tell(Record::HostKeysAnnounced { keys })
    }
}
