//! What the user asks of a channel (RFC 4254, sections 5 and 6).

ghost use Rattle.std.specs.Prelude.{◌≡◌, [], ◌∷◌};
ghost use Rattle.sshc_client_packets.specs.ChannelRequests.{Env, PtyReq, channel_request};
ghost use Rattle.sshc_client_table.specs.Moves.{Does, RequestsOn};
ghost use Rattle.sshc_client_table.specs.SessionTable.Users.{channel_moves, forwarded_moves, program_moves, size_of};
ghost use Rattle.sshc_client_table.specs.SessionTable.Users.{terminal_moves};

use sshc_auth::ChannelMsg;
use sshc_client_packets::{ChannelRequest, TerminalSize};
use sshc_client_state::Connection;
use sshc_mux::Stream;
use sshc_wire::{ChannelId, NoMemory, Pty, Text};

fn size_of(col_width: u32, row_height: u32, pix_width: u32, pix_height: u32) -> TerminalSize
    ensures { result ≡ size_of col_width row_height pix_width pix_height }
{
    TerminalSize {
        col_width,
        row_height,
        pix_width,
        pix_height,
    }
}

fn request(
    session: &mut Connection,
    id: ChannelId,
    request: &ChannelRequest<'_>,
) -> Result<(), NoMemory>
    ensures { Does (RequestsOn id.0 (channel_request request.now) ∷ []) session.old session.new result }
{
    session.request_on(id, request)
}

/// Bytes and ends; otherwise a request.
#[tactic(auto, unfolding(sshc_client_table::specs::SessionTable::Users::channel_moves))]
pub(crate) fn channel_moves(
    session: &mut Connection,
    id: ChannelId,
    msg: &ChannelMsg,
) -> Result<(), NoMemory>
    ensures { Does (channel_moves id.0 msg.now) session.old session.new result }
{
    match msg {
        ChannelMsg::Data { body } => { session.send(id, Stream::Data, body.as_slice()) }
        ChannelMsg::ExtendedData { ext, body } => {
            session.send(id, Stream::Extended(*ext), body.as_slice())
        }
        ChannelMsg::Eof => session.end_bytes(id),
        ChannelMsg::Close => session.close(id),
        _ => terminal_moves(session, id, msg),
    }
}

/// A terminal's size and modes; otherwise something to forward, or something for a program.
#[tactic(auto, unfolding(sshc_client_table::specs::SessionTable::Users::terminal_moves))]
fn terminal_moves(session: &mut Connection, id: ChannelId, msg: &ChannelMsg) -> Result<(), NoMemory>
    ensures { Does (terminal_moves id.0 msg.now) session.old session.new result }
{
    match msg {
        ChannelMsg::RequestPty {
            want_reply,
            term,
            col_width,
            row_height,
            pix_width,
            pix_height,
            terminal_modes,
        } => {
            let size = size_of(*col_width, *row_height, *pix_width, *pix_height);
            request_pty(
                session,
                id,
                *want_reply,
                term.as_str(),
                size,
                terminal_modes.as_slice(),
            )
        }
        ChannelMsg::WindowChange {
            col_width,
            row_height,
            pix_width,
            pix_height,
        } => {
            let size = size_of(*col_width, *row_height, *pix_width, *pix_height);
            request(session, id, &ChannelRequest::WindowChange { size })
        }
        _ => forwarded_moves(session, id, msg),
    }
}

fn request_pty(
    session: &mut Connection,
    id: ChannelId,
    want_reply: bool,
    term: &str,
    size: TerminalSize,
    modes: &[(Pty, u32)],
) -> Result<(), NoMemory>
    ensures { Does (RequestsOn id.0 (PtyReq want_reply term.now size modes.now) ∷ []) session.old
        session.new result }
{
    request(
        session,
        id,
        &ChannelRequest::PtyReq {
            want_reply,
            term,
            size,
            modes,
        },
    )
}

/// Forwards a display or the user's agent; otherwise something for a program.
#[tactic(auto, unfolding(sshc_client_table::specs::SessionTable::Users::forwarded_moves))]
fn forwarded_moves(
    session: &mut Connection,
    id: ChannelId,
    msg: &ChannelMsg,
) -> Result<(), NoMemory>
    ensures { Does (forwarded_moves id.0 msg.now) session.old session.new result }
{
    match msg {
        ChannelMsg::RequestX11 {
            want_reply,
            single_connection,
            x11_authentication_protocol,
            x11_authentication_cookie,
            x11_screen_number,
        } => request(
            session,
            id,
            &ChannelRequest::X11 {
                want_reply: *want_reply,
                single_connection: *single_connection,
                protocol: x11_authentication_protocol.as_str(),
                cookie: x11_authentication_cookie.as_str(),
                screen: *x11_screen_number,
            },
        ),
        ChannelMsg::AgentForward { want_reply } => {
            let want_reply = *want_reply;
            request(session, id, &ChannelRequest::AgentForward { want_reply })
        }
        _ => program_moves(session, id, msg),
    }
}

/// What a program is asked or sent.
#[tactic(auto, unfolding(sshc_client_table::specs::SessionTable::Users::program_moves))]
fn program_moves(session: &mut Connection, id: ChannelId, msg: &ChannelMsg) -> Result<(), NoMemory>
    ensures { Does (program_moves id.0 msg.now) session.old session.new result }
{
    match msg {
        ChannelMsg::SetEnv {
            want_reply,
            variable_name,
            variable_value,
        } => set_env(session, id, *want_reply, variable_name, variable_value),
        ChannelMsg::RequestShell { want_reply } => {
            let want_reply = *want_reply;
            request(session, id, &ChannelRequest::Shell { want_reply })
        }
        ChannelMsg::Exec {
            want_reply,
            command,
        } => {
            let (want_reply, command) = (*want_reply, command.as_slice());
            request(
                session,
                id,
                &ChannelRequest::Exec {
                    want_reply,
                    command,
                },
            )
        }
        ChannelMsg::Signal { signal } => {
            request(session, id, &ChannelRequest::Signal { signal })
        }
        ChannelMsg::RequestSubsystem { want_reply, name } => {
            let (want_reply, name) = (*want_reply, name.as_str());
            request(session, id, &ChannelRequest::Subsystem { want_reply, name })
        }
        _ => Ok(()),
    }
}

fn set_env(
    session: &mut Connection,
    id: ChannelId,
    want_reply: bool,
    name: &Text,
    value: &Text,
) -> Result<(), NoMemory>
    ensures { Does (RequestsOn id.0 (Env want_reply name.now value.now) ∷ []) session.old session.new result }
{
    request(
        session,
        id,
        &ChannelRequest::Env {
            want_reply,
            name: name.as_str(),
            value: value.as_str(),
        },
    )
}
