//! Rows of key exchanges in an open session (RFC 4253, section 7).

ghost use Rattle.std.specs.Prelude.{◌≡◌, [], ◌∷◌};
ghost use Rattle.sshc_client_table.specs.Moves.{Begins};
ghost use Rattle.sshc_client_table.specs.SessionRow.{plain_row};
ghost use Rattle.sshc_client_table.specs.SessionTable.Exchanges.{peer_kexinit_row};
ghost use Rattle.sshc_client_rows.specs.Follows.{Follows};

use crate::flow::RowFlow;
use sshc_auth::{Error, ExchangeFlag};
use sshc_client_state::Connection;

/// The transport asks for an exchange.
pub fn rekey_limit(session: &mut Connection) -> Result<RowFlow, Error>
    ensures row { Follows (plain_row (Begins ∷ [])) session.old session.new result }
{
    session.begin_exchange()?;
    Ok(RowFlow::Went)
}

/// The peer's KEXINIT; a second is out of turn.
pub fn peer_kexinit(session: &mut Connection) -> Result<RowFlow, Error>
    ensures row { Follows (peer_kexinit_row session.old.opening.flag) session.old session.new result }
{
    let flag = session.opening().flag();
    match flag {
        ExchangeFlag::Idle => peer_begins(session),
        ExchangeFlag::Ours => peer_begins(session),
        ExchangeFlag::Peer => Err(Error::OutOfTurn),
    }
}

fn peer_begins(session: &mut Connection) -> Result<RowFlow, Error>
    ensures row { Follows (peer_kexinit_row ExchangeFlag.Idle) session.old session.new result }
{
    session.peer_begins()?;
    Ok(RowFlow::Went)
}
