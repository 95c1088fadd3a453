//! Rows of what the user asks of an open session.

ghost use Rattle.std.specs.Prelude.{◌≡◌, [], ◌∷◌, true};
ghost use Rattle.sshc_client_table.specs.Moves.{Asks, Does, Opens, Resolves};
ghost use Rattle.sshc_client_table.specs.Messages.{CancelForward, Forward};
ghost use Rattle.sshc_client_table.specs.SessionState.{is_live};
ghost use Rattle.sshc_client_table.specs.SessionTable.Users.{asked_row, extension_moves, forward_moves, global_moves};
ghost use Rattle.sshc_client_table.specs.SessionTable.Users.{open_moves, opens, prove_moves, reply_moves, user_moves};
ghost use Rattle.sshc_client_table.specs.SessionTable.Users.{user_row};
ghost use Rattle.sshc_auth.specs.OpeningTable.User.{is_seen, sig_algs_answer};
ghost use Rattle.sshc_client_packets.specs.ChannelOpens.{DirectStreamLocal, channel_open};
ghost use Rattle.sshc_client_state.specs.Asks.{ask_of};
ghost use Rattle.sshc_client_rows.specs.Follows.{Follows};

use crate::asked_of_channel::channel_moves;
use crate::flow::RowFlow;
use sshc_auth::{Ending, Error, Event};
use sshc_client_packets::ChannelOpen;
use sshc_client_state::{Ask, Connection, asked_ticket};
use sshc_key::PublicKey;
use sshc_wire::{ChannelId, ChannelOpenFailure, Disconnect, NoMemory, Resolution, Text, Ticket};

/// What the user asks; while an exchange runs it is out of turn.
#[tactic(auto, unfolding(sshc_client_table::specs::SessionTable::Users::user_row))]
pub fn user(session: &mut Connection, event: &Event) -> Result<RowFlow, Error>
    requires { is_live session.old ≡ true }
    ensures row { Follows (user_row session.old event.now) session.old session.new result }
{
    if session.is_exchanging() {
        return Err(Error::OutOfTurn);
    }
    asked(session, event)
}

#[tactic(auto, unfolding(sshc_client_table::specs::SessionTable::Users::asked_row))]
fn asked(session: &mut Connection, event: &Event) -> Result<RowFlow, Error>
    requires { is_live session.old ≡ true }
    ensures row { Follows (asked_row session.old event.now) session.old session.new result }
{
    match event {
        Event::Disconnect {
            reason,
            description,
            language_tag,
        } => {
            session.write_disconnect(*reason, description, language_tag)?;
            Ok(RowFlow::Ended(Ending::disconnected()))
        }
        Event::Gone => Ok(RowFlow::Ended(Ending::closed())),
        _ => {
            user_moves(session, event)?;
            Ok(RowFlow::Went)
        }
    }
}

/// An open of ours.
fn opens(session: &mut Connection, asked: &ChannelOpen<'_>, ticket: Ticket) -> Result<(), NoMemory>
    requires { is_live session.old ≡ true }
    ensures { Does (opens (channel_open asked.now) ticket) session.old session.new result }
{
    let _id = session.open(asked, asked_ticket(ticket))?;
    Ok(())
}

/// The answer to an open of the peer's that waits.
fn reply_to_open(
    session: &mut Connection,
    id: ChannelId,
    answer: &Result<(), ChannelOpenFailure>,
) -> Result<(), NoMemory>
    ensures { Does (reply_moves session.old id.0 answer.now) session.old session.new result }
{
    if session.table().unsettled(id).is_none() {
        return Ok(());
    }
    match answer {
        Ok(()) => {
            session.accept(id)?;
            let _left = session.grant(id, 0)?;
            Ok(())
        }
        Err(reason) => session.reject(id, *reason),
    }
}

/// Without keys there is nothing to prove.
fn prove(session: &mut Connection, ticket: Ticket, keys: &[PublicKey]) -> Result<(), NoMemory>
    ensures { Does (prove_moves ticket keys.now) session.old session.new result }
{
    match keys {
        [] => session.resolve(ticket, Resolution::HostKeysProved),
        [_, ..] => session.ask(&Ask::Prove { ticket, keys }),
    }
}

/// An extension isn't waited for in an open session.
fn await_extension(session: &mut Connection, ticket: Ticket, name: &str) -> Result<(), NoMemory>
    ensures { Does (extension_moves (is_seen session.old.opening.seen name.now) ticket) session.old session.new result }
{
    if session.opening().was_seen(name) {
        session.resolve(ticket, Resolution::ExtInfoSeen)
    } else {
        session.resolve(ticket, Resolution::Dropped)
    }
}

fn tell_sig_algs(session: &mut Connection, ticket: Ticket) -> Result<(), NoMemory>
    ensures { Does (Resolves ticket (sig_algs_answer session.old.opening.sig_algs) ∷ []) session.old session.new
        result }
{
    let answer = session.opening().sig_algs_answer()?;
    session.resolve(ticket, answer)
}

/// The moves of what the user asks without ending the session.
#[tactic(auto, unfolding(sshc_client_table::specs::SessionTable::Users::user_moves))]
fn user_moves(session: &mut Connection, event: &Event) -> Result<(), NoMemory>
    requires { is_live session.old ≡ true }
    ensures { Does (user_moves session.old event.now) session.old session.new result }
{
    match event {
        Event::Authenticate { ticket, .. } => { session.resolve(*ticket, Resolution::Dropped) }
        Event::Close { id } => session.close(*id),
        Event::Channel { id, msg } => channel_moves(session, *id, msg),
        Event::ServerChannelOpenReply { id, result } => reply_to_open(session, *id, result),
        Event::Rekey => session.begin_exchange(),
        Event::AwaitExtensionInfo {
            ticket,
            extension_name,
        } => await_extension(session, *ticket, extension_name.as_str()),
        Event::GetServerSigAlgs { ticket } => tell_sig_algs(session, *ticket),
        Event::HostKeysProve { ticket, keys } => prove(session, *ticket, keys.as_slice()),
        _ => open_moves(session, event),
    }
}

/// Opens of ours; otherwise a forward.
#[tactic(auto, unfolding(sshc_client_table::specs::SessionTable::Users::open_moves))]
fn open_moves(session: &mut Connection, event: &Event) -> Result<(), NoMemory>
    requires { is_live session.old ≡ true }
    ensures { Does (open_moves event.now) session.old session.new result }
{
    match event {
        Event::ChannelOpenSession { ticket } => opens(session, &ChannelOpen::Session, *ticket),
        Event::ChannelOpenX11 {
            ticket,
            originator_address,
            originator_port,
        } => opens(
            session,
            &ChannelOpen::X11 {
                originator_address: originator_address.as_str(),
                originator_port: *originator_port,
            },
            *ticket,
        ),
        Event::ChannelOpenDirectTcpIp {
            ticket,
            host_to_connect,
            port_to_connect,
            originator_address,
            originator_port,
        } => opens(
            session,
            &ChannelOpen::DirectTcpIp {
                host_to_connect: host_to_connect.as_str(),
                port_to_connect: *port_to_connect,
                originator_address: originator_address.as_str(),
                originator_port: *originator_port,
            },
            *ticket,
        ),
        Event::ChannelOpenDirectStreamLocal {
            ticket,
            socket_path,
        } => open_socket(session, socket_path, *ticket),
        _ => forward_moves(session, event),
    }
}

/// An open of a socket of the server's.
fn open_socket(session: &mut Connection, path: &Text, ticket: Ticket) -> Result<(), NoMemory>
    requires { is_live session.old ≡ true }
    ensures { Does (opens (DirectStreamLocal path.now) ticket) session.old session.new result }
{
    let socket_path = path.as_str();
    opens(
        session,
        &ChannelOpen::DirectStreamLocal { socket_path },
        ticket,
    )
}

/// A forward of a port of the server's.
fn forward(
    session: &mut Connection,
    ticket: Ticket,
    address: &Text,
    port: u32,
) -> Result<(), NoMemory>
    ensures { Does (Asks (Forward ticket address.now port) ∷ []) session.old session.new result }
{
    let address = address.as_str();
    ask(
        session,
        &Ask::Forward {
            ticket,
            address,
            port,
        },
    )
}

/// The end of such a forward.
fn cancel_forward(
    session: &mut Connection,
    ticket: Ticket,
    address: &Text,
    port: u32,
) -> Result<(), NoMemory>
    ensures { Does (Asks (CancelForward ticket address.now port) ∷ []) session.old session.new result }
{
    let address = address.as_str();
    ask(
        session,
        &Ask::CancelForward {
            ticket,
            address,
            port,
        },
    )
}

/// Forwards; otherwise another global request.
#[tactic(auto, unfolding(sshc_client_table::specs::SessionTable::Users::forward_moves))]
fn forward_moves(session: &mut Connection, event: &Event) -> Result<(), NoMemory>
    ensures { Does (forward_moves event.now) session.old session.new result }
{
    match event {
        Event::TcpIpForward {
            ticket,
            address,
            port,
        } => forward(session, *ticket, address, *port),
        Event::CancelTcpIpForward {
            ticket,
            address,
            port,
        } => cancel_forward(session, *ticket, address, *port),
        Event::StreamLocalForward {
            ticket,
            socket_path,
        } => {
            let (ticket, path) = (*ticket, socket_path.as_str());
            ask(session, &Ask::ForwardSocket { ticket, path })
        }
        Event::CancelStreamLocalForward {
            ticket,
            socket_path,
        } => {
            let (ticket, path) = (*ticket, socket_path.as_str());
            ask(session, &Ask::CancelForwardSocket { ticket, path })
        }
        _ => global_moves(session, event),
    }
}

/// Global requests.
#[tactic(auto, unfolding(sshc_client_table::specs::SessionTable::Users::global_moves))]
fn global_moves(session: &mut Connection, event: &Event) -> Result<(), NoMemory>
    ensures { Does (global_moves event.now) session.old session.new result }
{
    match event {
        Event::Keepalive { want_reply } => {
            let want_reply = *want_reply;
            ask(session, &Ask::KeepAlive { want_reply })
        }
        Event::Ping { ticket } => ask(session, &Ask::Ping { ticket: *ticket }),
        Event::NoMoreSessions { want_reply } => {
            let want_reply = *want_reply;
            ask(session, &Ask::NoMore { want_reply })
        }
        Event::SendGlobalRequest { ticket, name, body } => {
            let (ticket, name, body) = (*ticket, name.as_str(), body.as_slice());
            ask(session, &Ask::OwnRequest { ticket, name, body })
        }
        _ => Ok(()),
    }
}

fn ask(session: &mut Connection, ask: &Ask<'_>) -> Result<(), NoMemory>
    ensures { Does (Asks (ask_of ask.now) ∷ []) session.old session.new result }
{
    session.ask(ask)
}
