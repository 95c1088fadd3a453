//! Channels that the user opens, forwards and other requests (RFC 4254; OpenSSH's PROTOCOL).

ghost use Rattle.std.specs.Prelude.{◌≡◌};
ghost use Rattle.sshc_wire.specs.Format.{made_at, no_bytes_at};
ghost use Rattle.sshc_wire.specs.Grammar.{finished_at};
ghost use Rattle.sshc_run_reader.specs.EventParts.{keys_at};
ghost use Rattle.sshc_run_reader.specs.EventReading.{reply_of, open_reply_at, direct_tcpip_at, disconnect_at};
ghost use Rattle.sshc_run_reader.specs.EventReading.{channel_event_at, server_open_reply_at};
ghost use Rattle.sshc_run_reader.specs.EventReading.{global_request_at, await_extension_info_of};
ghost use Rattle.sshc_run_reader.specs.EventReading.{cancel_streamlocal_forward_of, cancel_tcpip_forward_of};
ghost use Rattle.sshc_run_reader.specs.EventReading.{channel_of, close_of, disconnect_of, get_server_sig_algs_of};
ghost use Rattle.sshc_run_reader.specs.EventReading.{global_request_of, host_keys_prove_of, keepalive_of};
ghost use Rattle.sshc_run_reader.specs.EventReading.{no_more_sessions_of, open_direct_streamlocal_of};
ghost use Rattle.sshc_run_reader.specs.EventReading.{open_direct_tcpip_of, open_session_of, open_x11_of, ping_of};
ghost use Rattle.sshc_run_reader.specs.EventReading.{server_open_reply_of, streamlocal_forward_of, tcpip_forward_of};
ghost use Rattle.sshc_run_reader.specs.EventReading.{request_of};
ghost use Rattle.sshc_run_reader.specs.Gives.{Gives, GivesAll};

use crate::error::EventError;
use crate::event_kind::EventKind;
use crate::fields::channels::channel_msg;
use crate::fields::lists::list_of;
use crate::fields::{addressed, named};
use crate::parts::{
    channel_of, failure_of, flag_of, octets_of, reason_of, text_of, ticket_of, u32_of,
};
use sshc_auth_event::Event;
use sshc_wire::{ChannelOpenFailure, Cursor};
use std::alloc::Global;

#[tactic(auto, unfolding(crate::specs::EventReading::open_session_of))]
pub fn open_session(c: &mut Cursor<'_>) -> Result<Event, EventError>
    ensures { GivesAll (λ e. e) result (open_session_of c.old) }
{
    let ticket = ticket_of(c)?;
    c.ensure_end()?;
    Ok(Event::ChannelOpenSession { ticket })
}

#[tactic(auto, unfolding(crate::specs::EventReading::open_x11_of))]
pub fn open_x11(alloc: Global, c: &mut Cursor<'_>) -> Result<Event, EventError>
    ensures { GivesAll (λ e. e) result (open_x11_of c.old) }
{
    let (ticket, originator_address, originator_port) = addressed(alloc, c)?;
    c.ensure_end()?;
    Ok(Event::ChannelOpenX11 {
        ticket,
        originator_address,
        originator_port,
    })
}

#[tactic(auto, unfolding(crate::proofs::By::open_direct_tcpip_of, crate::proofs::By::direct_tcpip_at))]
pub fn open_direct_tcpip(alloc: Global, c: &mut Cursor<'_>) -> Result<Event, EventError>
    ensures { GivesAll (λ e. e) result (open_direct_tcpip_of c.old) }
{
    let ticket = ticket_of(c)?;
    let host_to_connect = text_of(alloc, c)?;
    let port_to_connect = u32_of(c)?;
    let originator_address = text_of(alloc, c)?;
    let originator_port = u32_of(c)?;
    c.ensure_end()?;
    Ok(Event::ChannelOpenDirectTcpIp {
        ticket,
        host_to_connect,
        port_to_connect,
        originator_address,
        originator_port,
    })
}

#[tactic(auto, unfolding(crate::specs::EventReading::open_direct_streamlocal_of))]
pub fn open_direct_streamlocal(alloc: Global, c: &mut Cursor<'_>) -> Result<Event, EventError>
    ensures { GivesAll (λ e. e) result (open_direct_streamlocal_of c.old) }
{
    let (ticket, socket_path) = named(alloc, c)?;
    c.ensure_end()?;
    Ok(Event::ChannelOpenDirectStreamLocal {
        ticket,
        socket_path,
    })
}

#[tactic(auto, unfolding(crate::specs::EventReading::tcpip_forward_of))]
fn tcpip_forward(alloc: Global, c: &mut Cursor<'_>) -> Result<Event, EventError>
    ensures { GivesAll (λ e. e) result (tcpip_forward_of c.old) }
{
    let (ticket, address, port) = addressed(alloc, c)?;
    c.ensure_end()?;
    Ok(Event::TcpIpForward {
        ticket,
        address,
        port,
    })
}

#[tactic(auto, unfolding(crate::specs::EventReading::cancel_tcpip_forward_of))]
fn cancel_tcpip_forward(alloc: Global, c: &mut Cursor<'_>) -> Result<Event, EventError>
    ensures { GivesAll (λ e. e) result (cancel_tcpip_forward_of c.old) }
{
    let (ticket, address, port) = addressed(alloc, c)?;
    c.ensure_end()?;
    Ok(Event::CancelTcpIpForward {
        ticket,
        address,
        port,
    })
}

#[tactic(auto, unfolding(crate::specs::EventReading::streamlocal_forward_of))]
fn streamlocal_forward(alloc: Global, c: &mut Cursor<'_>) -> Result<Event, EventError>
    ensures { GivesAll (λ e. e) result (streamlocal_forward_of c.old) }
{
    let (ticket, socket_path) = named(alloc, c)?;
    c.ensure_end()?;
    Ok(Event::StreamLocalForward {
        ticket,
        socket_path,
    })
}

#[tactic(auto, unfolding(crate::specs::EventReading::cancel_streamlocal_forward_of))]
fn cancel_streamlocal_forward(alloc: Global, c: &mut Cursor<'_>) -> Result<Event, EventError>
    ensures { GivesAll (λ e. e) result (cancel_streamlocal_forward_of c.old) }
{
    let (ticket, socket_path) = named(alloc, c)?;
    c.ensure_end()?;
    Ok(Event::CancelStreamLocalForward {
        ticket,
        socket_path,
    })
}

#[tactic(auto, unfolding(crate::specs::EventReading::close_of))]
fn close(c: &mut Cursor<'_>) -> Result<Event, EventError>
    ensures { GivesAll (λ e. e) result (close_of c.old) }
{
    let id = channel_of(c)?;
    c.ensure_end()?;
    Ok(Event::Close { id })
}

#[tactic(auto, unfolding(crate::specs::EventReading::disconnect_of, crate::specs::EventReading::disconnect_at))]
fn disconnect(alloc: Global, c: &mut Cursor<'_>) -> Result<Event, EventError>
    ensures { GivesAll (λ e. e) result (disconnect_of c.old) }
{
    let reason = reason_of(c)?;
    let description = text_of(alloc, c)?;
    let language_tag = text_of(alloc, c)?;
    c.ensure_end()?;
    Ok(Event::Disconnect {
        reason,
        description,
        language_tag,
    })
}

#[tactic(auto, unfolding(crate::specs::EventReading::channel_of, crate::specs::EventReading::channel_event_at))]
fn channel(alloc: Global, c: &mut Cursor<'_>) -> Result<Event, EventError>
    ensures { GivesAll (λ e. e) result (channel_of c.old) }
{
    let id = channel_of(c)?;
    let msg = channel_msg(alloc, c)?;
    c.ensure_end()?;
    Ok(Event::Channel { id, msg })
}

fn reply_by(accept: bool, reason: ChannelOpenFailure) -> Result<(), ChannelOpenFailure>
    ensures { result ≡ reply_of accept reason }
{
    if accept { Ok(()) } else { Err(reason) }
}

#[tactic(auto, unfolding(crate::specs::EventReading::open_reply_at))]
fn open_reply(c: &mut Cursor<'_>) -> Result<Result<(), ChannelOpenFailure>, EventError>
    ensures { Gives (λ r. r) result c.new (open_reply_at c.old) }
{
    let accept = flag_of(c)?;
    let reason = failure_of(c)?;
    Ok(reply_by(accept, reason))
}

#[tactic(auto, unfolding(crate::proofs::By::server_open_reply_of, crate::proofs::By::server_open_reply_at))]
fn server_open_reply(c: &mut Cursor<'_>) -> Result<Event, EventError>
    ensures { GivesAll (λ e. e) result (server_open_reply_of c.old) }
{
    let id = channel_of(c)?;
    let result = open_reply(c)?;
    c.ensure_end()?;
    Ok(Event::ServerChannelOpenReply { id, result })
}

#[tactic(auto, unfolding(crate::specs::EventReading::await_extension_info_of))]
fn await_extension_info(alloc: Global, c: &mut Cursor<'_>) -> Result<Event, EventError>
    ensures { GivesAll (λ e. e) result (await_extension_info_of c.old) }
{
    let (ticket, extension_name) = named(alloc, c)?;
    c.ensure_end()?;
    Ok(Event::AwaitExtensionInfo {
        ticket,
        extension_name,
    })
}

#[tactic(auto, unfolding(crate::specs::EventReading::get_server_sig_algs_of))]
fn get_server_sig_algs(c: &mut Cursor<'_>) -> Result<Event, EventError>
    ensures { GivesAll (λ e. e) result (get_server_sig_algs_of c.old) }
{
    let ticket = ticket_of(c)?;
    c.ensure_end()?;
    Ok(Event::GetServerSigAlgs { ticket })
}

#[tactic(auto, unfolding(crate::specs::EventReading::keepalive_of))]
fn keepalive(c: &mut Cursor<'_>) -> Result<Event, EventError>
    ensures { GivesAll (λ e. e) result (keepalive_of c.old) }
{
    let want_reply = flag_of(c)?;
    c.ensure_end()?;
    Ok(Event::Keepalive { want_reply })
}

#[tactic(auto, unfolding(crate::specs::EventReading::ping_of))]
fn ping(c: &mut Cursor<'_>) -> Result<Event, EventError>
    ensures { GivesAll (λ e. e) result (ping_of c.old) }
{
    let ticket = ticket_of(c)?;
    c.ensure_end()?;
    Ok(Event::Ping { ticket })
}

#[tactic(auto, unfolding(crate::specs::EventReading::no_more_sessions_of))]
fn no_more_sessions(c: &mut Cursor<'_>) -> Result<Event, EventError>
    ensures { GivesAll (λ e. e) result (no_more_sessions_of c.old) }
{
    let want_reply = flag_of(c)?;
    c.ensure_end()?;
    Ok(Event::NoMoreSessions { want_reply })
}

#[tactic(auto, unfolding(crate::proofs::By::host_keys_prove_of, crate::specs::EventParts::keys_at))]
fn host_keys_prove(alloc: Global, c: &mut Cursor<'_>) -> Result<Event, EventError>
    ensures { GivesAll (λ e. e) result (host_keys_prove_of c.old) }
{
    let ticket = ticket_of(c)?;
    let keys = list_of(alloc, 4, c)?;
    c.ensure_end()?;
    Ok(Event::HostKeysProve { ticket, keys })
}

#[tactic(auto, unfolding(crate::specs::EventReading::global_request_of, crate::specs::EventReading::global_request_at))]
fn global_request(alloc: Global, c: &mut Cursor<'_>) -> Result<Event, EventError>
    ensures { GivesAll (λ e. e) result (global_request_of c.old) }
{
    let ticket = ticket_of(c)?;
    let name = text_of(alloc, c)?;
    let body = octets_of(alloc, c)?;
    c.ensure_end()?;
    Ok(Event::SendGlobalRequest { ticket, name, body })
}

/// What the user asks, other than authentication and opening channels.
#[tactic(auto, unfolding(crate::specs::EventReading::request_of))]
pub fn request(alloc: Global, kind: EventKind, c: &mut Cursor<'_>) -> Result<Event, EventError>
    ensures { GivesAll (λ e. e) result (request_of kind c.old) }
{
    match kind {
        EventKind::TcpIpForward => tcpip_forward(alloc, c),
        EventKind::CancelTcpIpForward => cancel_tcpip_forward(alloc, c),
        EventKind::StreamLocalForward => streamlocal_forward(alloc, c),
        EventKind::CancelStreamLocalForward => cancel_streamlocal_forward(alloc, c),
        EventKind::Close => close(c),
        EventKind::Disconnect => disconnect(alloc, c),
        EventKind::Channel => channel(alloc, c),
        EventKind::ServerChannelOpenReply => server_open_reply(c),
        EventKind::Rekey => {
            c.ensure_end()?;
            Ok(Event::Rekey)
        }
        EventKind::AwaitExtensionInfo => await_extension_info(alloc, c),
        EventKind::GetServerSigAlgs => get_server_sig_algs(c),
        EventKind::Keepalive => keepalive(c),
        EventKind::Ping => ping(c),
        EventKind::NoMoreSessions => no_more_sessions(c),
        EventKind::HostKeysProve => host_keys_prove(alloc, c),
        EventKind::SendGlobalRequest => global_request(alloc, c),
        EventKind::Gone => {
            c.ensure_end()?;
            Ok(Event::Gone)
        }
        _ => Err(EventError::Bad),
    }
}
