//! What a user submits to a session, one message per event.

ghost use Rattle.std.specs.Prelude.{◌≡◌};
ghost use Rattle.sshc_client.specs.declared.message.Msg.TheVariants as msgs;

use sshc_auth::{ChannelMsg, SharedMethod};
use sshc_key::PublicKey;
use sshc_wire::{ChannelId, ChannelOpenFailure, Disconnect, List, Octets, Text, Ticket};

/// A message that a user submits. One with a ticket gets an answer with that ticket; `None` asks for no answer.
#[derive(PartialEq, Eq, Drop)]
pub enum Msg {
    /// RFC 4252, section 5.
    Authenticate {
        user: Text,
        method: SharedMethod,
        ticket: Option<Ticket>,
    },
    /// The answers to prompts, in order (RFC 4256, section 3.4).
    AuthInfoResponse {
        responses: List<Text>,
    },
    /// RFC 4462, section 3.4.
    AuthGssapiToken {
        token: Octets,
    },
    /// RFC 4462, section 3.5.
    AuthGssapiMic {
        token: Option<Octets>,
        mic: Octets,
    },
    AuthGssapiExchangeComplete {
        token: Option<Octets>,
    },
    /// The result of an outside signer: the bytes that it was asked to sign, followed by the signature as a string.
    Signed {
        body: Octets,
    },
    SignFailed,
    ChannelOpenSession {
        ticket: Option<Ticket>,
    },
    ChannelOpenX11 {
        originator_address: Text,
        originator_port: u32,
        ticket: Option<Ticket>,
    },
    ChannelOpenDirectTcpIp {
        host_to_connect: Text,
        port_to_connect: u32,
        originator_address: Text,
        originator_port: u32,
        ticket: Option<Ticket>,
    },
    ChannelOpenDirectStreamLocal {
        socket_path: Text,
        ticket: Option<Ticket>,
    },
    TcpIpForward {
        ticket: Option<Ticket>,
        address: Text,
        port: u32,
    },
    CancelTcpIpForward {
        ticket: Option<Ticket>,
        address: Text,
        port: u32,
    },
    StreamLocalForward {
        ticket: Option<Ticket>,
        socket_path: Text,
    },
    CancelStreamLocalForward {
        ticket: Option<Ticket>,
        socket_path: Text,
    },
    Close {
        id: ChannelId,
    },
    Disconnect {
        reason: Disconnect,
        description: Text,
        language_tag: Text,
    },
    /// A request or bytes for a channel.
    Channel(ChannelId, ChannelMsg),
    /// The user's answer to a channel that the server opens.
    ServerChannelOpenReply {
        id: ChannelId,
        result: Result<(), ChannelOpenFailure>,
    },
    Rekey,
    AwaitExtensionInfo {
        extension_name: Text,
        ticket: Option<Ticket>,
    },
    GetServerSigAlgs {
        ticket: Option<Ticket>,
    },
    Keepalive {
        want_reply: bool,
    },
    NoMoreSessions {
        want_reply: bool,
    },
    Ping {
        ticket: Option<Ticket>,
    },
    HostKeysProve {
        ticket: Option<Ticket>,
        keys: List<PublicKey>,
    },
    SendGlobalRequest {
        name: Text,
        body: Octets,
        ticket: Option<Ticket>,
    },
}

impl From<(ChannelId, ChannelMsg)> for Msg {
    ghost from_gives = { λ pair msg. msg ≡ msgs.Channel pair.0 pair.1 };

    fn from(pair: (ChannelId, ChannelMsg)) -> Msg {
        let (id, msg) = pair;
        Msg::Channel(id, msg)
    }
}
