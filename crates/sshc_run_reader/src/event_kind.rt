//! The kinds of events in a script.

ghost use Rattle.std.specs.Prelude.{◌≡◌};
ghost use Rattle.sshc_run_reader.specs.EventKinds.{kind_numbered, transport_kind, timer_kind, authentication_kind};
ghost use Rattle.sshc_run_reader.specs.EventKinds.{open_kind, forward_kind, channel_kind, request_kind, agent_kind};

/// The kind of an event, by its number.
#[derive(Clone, Copy, PartialEq, Eq)]
pub enum EventKind {
    PeerKexinit,
    ExchangeDone,
    Payload,
    TransportFailed,
    RekeyLimit,
    KeepaliveTimer,
    InactivityTimer,
    Authenticate,
    AuthInfoResponse,
    AuthGssapiToken,
    AuthGssapiMic,
    AuthGssapiExchangeComplete,
    Signed,
    SignFailed,
    ChannelOpenSession,
    ChannelOpenX11,
    ChannelOpenDirectTcpIp,
    ChannelOpenDirectStreamLocal,
    TcpIpForward,
    CancelTcpIpForward,
    StreamLocalForward,
    CancelStreamLocalForward,
    Close,
    Disconnect,
    Channel,
    ServerChannelOpenReply,
    Rekey,
    AwaitExtensionInfo,
    GetServerSigAlgs,
    Keepalive,
    Ping,
    NoMoreSessions,
    HostKeysProve,
    SendGlobalRequest,
    Gone,
    AgentBytes,
    AgentRequestAnswer,
    AgentKeyAnswer,
    AgentClose,
}

/// The kinds of the transport's results.
fn transport_kind(number: u8) -> Option<EventKind>
    ensures { result ≡ transport_kind number }
{
    match number {
        0x01 => Some(EventKind::PeerKexinit),
        0x02 => Some(EventKind::ExchangeDone),
        0x03 => Some(EventKind::Payload),
        0x04 => Some(EventKind::TransportFailed),
        0x05 => Some(EventKind::RekeyLimit),
        _ => None,
    }
}

/// The kinds of timers.
fn timer_kind(number: u8) -> Option<EventKind>
    ensures { result ≡ timer_kind number }
{
    match number {
        0x08 => Some(EventKind::KeepaliveTimer),
        0x09 => Some(EventKind::InactivityTimer),
        _ => None,
    }
}

/// The kinds of what the user asks while it is authenticated.
fn authentication_kind(number: u8) -> Option<EventKind>
    ensures { result ≡ authentication_kind number }
{
    match number {
        0x10 => Some(EventKind::Authenticate),
        0x11 => Some(EventKind::AuthInfoResponse),
        0x12 => Some(EventKind::AuthGssapiToken),
        0x13 => Some(EventKind::AuthGssapiMic),
        0x14 => Some(EventKind::AuthGssapiExchangeComplete),
        0x15 => Some(EventKind::Signed),
        0x16 => Some(EventKind::SignFailed),
        _ => None,
    }
}

/// The kinds of channels that the user opens.
fn open_kind(number: u8) -> Option<EventKind>
    ensures { result ≡ open_kind number }
{
    match number {
        0x17 => Some(EventKind::ChannelOpenSession),
        0x18 => Some(EventKind::ChannelOpenX11),
        0x19 => Some(EventKind::ChannelOpenDirectTcpIp),
        0x1a => Some(EventKind::ChannelOpenDirectStreamLocal),
        _ => None,
    }
}

/// The kinds of forwards.
fn forward_kind(number: u8) -> Option<EventKind>
    ensures { result ≡ forward_kind number }
{
    match number {
        0x1b => Some(EventKind::TcpIpForward),
        0x1c => Some(EventKind::CancelTcpIpForward),
        0x1d => Some(EventKind::StreamLocalForward),
        0x1e => Some(EventKind::CancelStreamLocalForward),
        _ => None,
    }
}

/// The kinds of channels and the end.
fn channel_kind(number: u8) -> Option<EventKind>
    ensures { result ≡ channel_kind number }
{
    match number {
        0x1f => Some(EventKind::Close),
        0x20 => Some(EventKind::Disconnect),
        0x21 => Some(EventKind::Channel),
        0x22 => Some(EventKind::ServerChannelOpenReply),
        _ => None,
    }
}

/// The kinds of requests without a channel.
fn request_kind(number: u8) -> Option<EventKind>
    ensures { result ≡ request_kind number }
{
    match number {
        0x24 => Some(EventKind::Rekey),
        0x25 => Some(EventKind::AwaitExtensionInfo),
        0x26 => Some(EventKind::GetServerSigAlgs),
        0x27 => Some(EventKind::Keepalive),
        0x28 => Some(EventKind::Ping),
        0x29 => Some(EventKind::NoMoreSessions),
        0x2a => Some(EventKind::HostKeysProve),
        0x2b => Some(EventKind::SendGlobalRequest),
        0x2f => Some(EventKind::Gone),
        _ => None,
    }
}

/// The kinds of an agent's events.
fn agent_kind(number: u8) -> Option<EventKind>
    ensures { result ≡ agent_kind number }
{
    match number {
        0x40 => Some(EventKind::AgentBytes),
        0x41 => Some(EventKind::AgentRequestAnswer),
        0x42 => Some(EventKind::AgentKeyAnswer),
        0x43 => Some(EventKind::AgentClose),
        _ => None,
    }
}

impl EventKind {
    /// The kind with this number; `None` for any other number.
    pub fn from_u8(number: u8) -> Option<EventKind>
        ensures { result ≡ kind_numbered number }
    {
        if number < 0x08 {
            transport_kind(number)
        } else if number < 0x10 {
            timer_kind(number)
        } else if number < 0x17 {
            authentication_kind(number)
        } else if number < 0x1b {
            open_kind(number)
        } else if number < 0x1f {
            forward_kind(number)
        } else if number < 0x24 {
            channel_kind(number)
        } else if number < 0x40 {
            request_kind(number)
        } else {
            agent_kind(number)
        }
    }
}
