//! The peer's disconnection (RFC 4253, section 11.1).

ghost use Rattle.std.specs.Prelude.{◌≡◌, Some};
ghost use Rattle.sshc_client_table.specs.SessionTable.{disconnect_row, reason_row};
ghost use Rattle.sshc_client_rows.specs.Follows.{Follows};

use crate::flow::RowFlow;
use sshc_auth::{Ending, Error, RemoteDisconnectInfo};
use sshc_client_state::Connection;
use sshc_wire::{Cursor, Disconnect, Text};

/// DISCONNECT (RFC 4253, section 11.1).
#[tactic(auto, unfolding(sshc_client_table::specs::SessionTable::disconnect_row))]
pub fn disconnect(session: &mut Connection, body: &[u8]) -> Result<RowFlow, Error>
    ensures row { Follows (disconnect_row body.now) session.old session.new result }
{
    let mut packet = Cursor::new(body);
    let code = packet.u32()?;
    match Disconnect::from_u32(code) {
        Some(reason) => disconnect_for(session, reason, packet.rest()),
        None => Err(Error::InvalidDisconnect),
    }
}

fn disconnect_for(
    session: &mut Connection,
    reason_code: Disconnect,
    rest: &[u8],
) -> Result<RowFlow, Error>
    ensures row { Follows (reason_row (Some reason_code) rest.now) session.old session.new result }
{
    let mut packet = Cursor::new(rest);
    let message = packet.text()?;
    let lang_tag = packet.text()?;
    let message = Text::from_str(session.alloc(), message)?;
    let lang_tag = Text::from_str(session.alloc(), lang_tag)?;
    let info = RemoteDisconnectInfo {
        reason_code,
        message,
        lang_tag,
    };
    Ok(RowFlow::Ended(Ending::remote(session.alloc(), info)?))
}
