//! The event of a message that a user submits.

ghost use Rattle.std.specs.Prelude.{◌≡◌};
ghost use Rattle.sshc_handle_state.specs.Submission.{asks_answer, channel_event, is_reported, stamped, ticket_in};
ghost use Rattle.sshc_handle_state.specs.Submission.{event_of, forward_event, open_event, request_event};

use sshc_auth::{ChannelMsg, Event};
use sshc_client::Msg;
use sshc_wire::{ChannelId, Ticket};

/// The ticket that a message names, if it has one.
fn ticket_in(msg: &Msg) -> Option<Ticket>
    ensures { result ≡ ticket_in msg.now }
{
    match msg {
        Msg::Authenticate { ticket, .. }
        | Msg::ChannelOpenSession { ticket }
        | Msg::ChannelOpenX11 { ticket, .. }
        | Msg::ChannelOpenDirectTcpIp { ticket, .. }
        | Msg::ChannelOpenDirectStreamLocal { ticket, .. }
        | Msg::TcpIpForward { ticket, .. }
        | Msg::CancelTcpIpForward { ticket, .. }
        | Msg::StreamLocalForward { ticket, .. }
        | Msg::CancelStreamLocalForward { ticket, .. }
        | Msg::AwaitExtensionInfo { ticket, .. }
        | Msg::GetServerSigAlgs { ticket }
        | Msg::Ping { ticket }
        | Msg::HostKeysProve { ticket, .. }
        | Msg::SendGlobalRequest { ticket, .. } => *ticket,
        _ => None,
    }
}

/// Whether an answer is asked for.
pub(crate) fn asks_answer(msg: &Msg) -> bool
    ensures { result ≡ asks_answer msg.now }
{
    ticket_in(msg).is_some()
}

fn stamped(fresh: Ticket, asked: Option<Ticket>) -> Ticket
    ensures { result ≡ stamped fresh asked }
{
    match asked {
        Some(_) => fresh,
        None => Ticket(0),
    }
}

/// Whether the message only reports what happened, and can't be submitted as a request.
fn is_reported(msg: &ChannelMsg) -> bool
    ensures { result ≡ is_reported msg.now }
{
    matches!(
        msg,
        ChannelMsg::Open { .. }
            | ChannelMsg::OpenFailure(_)
            | ChannelMsg::Success
            | ChannelMsg::Failure
            | ChannelMsg::XonXoff { .. }
            | ChannelMsg::ExitStatus { .. }
            | ChannelMsg::ExitSignal { .. }
            | ChannelMsg::WindowAdjusted { .. }
    )
}

fn channel_event(id: ChannelId, msg: ChannelMsg) -> Option<Event>
    ensures { result ≡ channel_event id msg }
{
    if is_reported(&msg) {
        drop(msg);
        None
    } else {
        Some(Event::Channel { id, msg })
    }
}

/// The event of a message, with this ticket if an answer is asked for; `None` for a message that only reports what
/// happened. Here are a login and what asks for no answer; `open_event` has the others.
#[tactic(auto, unfolding(crate::specs::Submission::event_of))]
pub(crate) fn event_of(fresh: Ticket, msg: Msg) -> Option<Event>
    ensures { result ≡ event_of fresh msg }
{
    Some(match msg {
        Msg::Authenticate {
            user,
            method,
            ticket,
        } => Event::Authenticate {
            ticket: stamped(fresh, ticket),
            user,
            method,
        },
        Msg::AuthInfoResponse { responses } => Event::AuthInfoResponse { responses },
        Msg::AuthGssapiToken { token } => Event::AuthGssapiToken { token },
        Msg::AuthGssapiMic { token, mic } => Event::AuthGssapiMic { token, mic },
        Msg::AuthGssapiExchangeComplete { token } => Event::AuthGssapiExchangeComplete { token },
        Msg::Signed { body } => Event::Signed { body },
        Msg::SignFailed => Event::SignFailed,
        Msg::Close { id } => Event::Close { id },
        Msg::Disconnect {
            reason,
            description,
            language_tag,
        } => Event::Disconnect {
            reason,
            description,
            language_tag,
        },
        Msg::Channel(id, msg) => return channel_event(id, msg),
        Msg::ServerChannelOpenReply { id, result } => Event::ServerChannelOpenReply { id, result },
        Msg::Rekey => Event::Rekey,
        Msg::Keepalive { want_reply } => Event::Keepalive { want_reply },
        Msg::NoMoreSessions { want_reply } => Event::NoMoreSessions { want_reply },
        msg => return open_event(fresh, msg),
    })
}

/// The event of a message that opens a channel, or else what `forward_event` has for it.
#[tactic(auto, unfolding(crate::specs::Submission::open_event))]
fn open_event(fresh: Ticket, msg: Msg) -> Option<Event>
    ensures { result ≡ open_event fresh msg }
{
    Some(match msg {
        Msg::ChannelOpenSession { ticket } => Event::ChannelOpenSession {
            ticket: stamped(fresh, ticket),
        },
        Msg::ChannelOpenX11 {
            originator_address,
            originator_port,
            ticket,
        } => Event::ChannelOpenX11 {
            ticket: stamped(fresh, ticket),
            originator_address,
            originator_port,
        },
        Msg::ChannelOpenDirectTcpIp {
            host_to_connect,
            port_to_connect,
            originator_address,
            originator_port,
            ticket,
        } => Event::ChannelOpenDirectTcpIp {
            ticket: stamped(fresh, ticket),
            host_to_connect,
            port_to_connect,
            originator_address,
            originator_port,
        },
        Msg::ChannelOpenDirectStreamLocal {
            socket_path,
            ticket,
        } => Event::ChannelOpenDirectStreamLocal {
            ticket: stamped(fresh, ticket),
            socket_path,
        },
        msg => return forward_event(fresh, msg),
    })
}

/// The event of a global request that begins or ends forwarding, or else what `request_event` has for it.
#[tactic(auto, unfolding(crate::specs::Submission::forward_event))]
fn forward_event(fresh: Ticket, msg: Msg) -> Option<Event>
    ensures { result ≡ forward_event fresh msg }
{
    Some(match msg {
        Msg::TcpIpForward {
            ticket,
            address,
            port,
        } => Event::TcpIpForward {
            ticket: stamped(fresh, ticket),
            address,
            port,
        },
        Msg::CancelTcpIpForward {
            ticket,
            address,
            port,
        } => Event::CancelTcpIpForward {
            ticket: stamped(fresh, ticket),
            address,
            port,
        },
        Msg::StreamLocalForward {
            ticket,
            socket_path,
        } => Event::StreamLocalForward {
            ticket: stamped(fresh, ticket),
            socket_path,
        },
        Msg::CancelStreamLocalForward {
            ticket,
            socket_path,
        } => Event::CancelStreamLocalForward {
            ticket: stamped(fresh, ticket),
            socket_path,
        },
        msg => return request_event(fresh, msg),
    })
}

/// The event of a question about the server's extensions, or of a global request that asks for an answer and forwards
/// nothing; `None` for any other message.
#[tactic(auto, unfolding(crate::specs::Submission::request_event))]
fn request_event(fresh: Ticket, msg: Msg) -> Option<Event>
    ensures { result ≡ request_event fresh msg }
{
    match msg {
        Msg::AwaitExtensionInfo {
            extension_name,
            ticket,
        } => Some(Event::AwaitExtensionInfo {
            ticket: stamped(fresh, ticket),
            extension_name,
        }),
        Msg::GetServerSigAlgs { ticket } => Some(Event::GetServerSigAlgs {
            ticket: stamped(fresh, ticket),
        }),
        Msg::Ping { ticket } => Some(Event::Ping {
            ticket: stamped(fresh, ticket),
        }),
        Msg::HostKeysProve { ticket, keys } => Some(Event::HostKeysProve {
            ticket: stamped(fresh, ticket),
            keys,
        }),
        Msg::SendGlobalRequest { name, body, ticket } => Some(Event::SendGlobalRequest {
            ticket: stamped(fresh, ticket),
            name,
            body,
        }),
        other => {
            drop(other);
            None
        }
    }
}
