//! What happens to a session.

use crate::channel_msg::ChannelMsg;
use crate::shared_method::SharedMethod;
use sshc_key::PublicKey;
use sshc_transport::ExchangeResult;
use sshc_wire::{ChannelId, ChannelOpenFailure, Disconnect, List, Octets, Text, Ticket};

/// What happens to a session: the transport's results first, then timers, then what the user asks. Ticket 0 means that
/// the user wants no answer.
#[derive(PartialEq, Eq, Drop)]
pub enum Event {
    /// The peer's KEXINIT came (RFC 4253, section 7.1).
    PeerKexinit,
    /// A key exchange is done.
    ExchangeDone(ExchangeResult),
    /// A packet came that isn't of an exchange's own types, 20 to 49. It may be empty.
    Payload(Octets),
    /// The transport failed.
    TransportFailed,
    /// The transport asks for a key exchange (RFC 4253, section 9).
    RekeyLimit,
    /// The time for a keepalive has come.
    KeepaliveTimer,
    /// Nothing came for as long as the settings allow.
    InactivityTimer,
    /// The user asks to be authenticated (RFC 4252, section 5).
    Authenticate {
        ticket: Ticket,
        user: Text,
        method: SharedMethod,
    },
    /// The user's answers to prompts, in order (RFC 4256, section 3.4).
    AuthInfoResponse {
        responses: List<Text>,
    },
    /// A GSSAPI token (RFC 4462, section 3.4).
    AuthGssapiToken {
        token: Octets,
    },
    /// The last GSSAPI token, if there is one, and the MIC (RFC 4462, section 3.5).
    AuthGssapiMic {
        token: Option<Octets>,
        mic: Octets,
    },
    /// The last GSSAPI token, if there is one, where no MIC can be made (RFC 4462, section 3.5).
    AuthGssapiExchangeComplete {
        token: Option<Octets>,
    },
    /// What an outside signer returns: the bytes that it was handed, followed by the signature as a string.
    Signed {
        body: Octets,
    },
    /// The outside signer refused.
    SignFailed,
    /// RFC 4254, section 6.1.
    ChannelOpenSession {
        ticket: Ticket,
    },
    /// RFC 4254, section 6.3.2.
    ChannelOpenX11 {
        ticket: Ticket,
        originator_address: Text,
        originator_port: u32,
    },
    /// RFC 4254, section 7.2.
    ChannelOpenDirectTcpIp {
        ticket: Ticket,
        host_to_connect: Text,
        port_to_connect: u32,
        originator_address: Text,
        originator_port: u32,
    },
    /// OpenSSH's PROTOCOL, section 2.4.
    ChannelOpenDirectStreamLocal {
        ticket: Ticket,
        socket_path: Text,
    },
    /// RFC 4254, section 7.1.
    TcpIpForward {
        ticket: Ticket,
        address: Text,
        port: u32,
    },
    CancelTcpIpForward {
        ticket: Ticket,
        address: Text,
        port: u32,
    },
    /// OpenSSH's PROTOCOL, section 2.4.
    StreamLocalForward {
        ticket: Ticket,
        socket_path: Text,
    },
    CancelStreamLocalForward {
        ticket: Ticket,
        socket_path: Text,
    },
    /// A channel is to be closed.
    Close {
        id: ChannelId,
    },
    /// The user disconnects (RFC 4253, section 11.1).
    Disconnect {
        reason: Disconnect,
        description: Text,
        language_tag: Text,
    },
    /// What the user asks of a channel.
    Channel {
        id: ChannelId,
        msg: ChannelMsg,
    },
    /// The answer to a channel that the server opens: accepted, or refused for a reason.
    ServerChannelOpenReply {
        id: ChannelId,
        result: Result<(), ChannelOpenFailure>,
    },
    /// The user asks for a key exchange (RFC 4253, section 9).
    Rekey,
    /// The user waits until the server has named an extension (RFC 8308).
    AwaitExtensionInfo {
        ticket: Ticket,
        extension_name: Text,
    },
    /// The user asks for the server's signature names (RFC 8308, section 3.1).
    GetServerSigAlgs {
        ticket: Ticket,
    },
    /// A keepalive, which asks for a reply or not.
    Keepalive {
        want_reply: bool,
    },
    /// A keepalive whose reply resolves the ticket.
    Ping {
        ticket: Ticket,
    },
    /// OpenSSH's PROTOCOL, section 2.2.
    NoMoreSessions {
        want_reply: bool,
    },
    /// The server is to prove that it holds these keys (OpenSSH's PROTOCOL, section 2.5).
    HostKeysProve {
        ticket: Ticket,
        keys: List<PublicKey>,
    },
    /// A global request: its name and the bytes that follow it (RFC 4254, section 4).
    SendGlobalRequest {
        ticket: Ticket,
        name: Text,
        body: Octets,
    },
    /// No user is left.
    Gone,
}
