//! Rows of timers.

ghost use Rattle.std.specs.Prelude.{◌≡◌};
ghost use Rattle.sshc_client_table.specs.SessionTable.Timers.{inactivity_timer_row, keepalive_timer_row, missed_row};
ghost use Rattle.sshc_client_rows.specs.Follows.{Follows};

use crate::flow::RowFlow;
use sshc_auth::Error;
use sshc_client_state::{Ask, Connection};

/// A keepalive is due, if the settings ask for keepalives.
#[tactic(auto, unfolding(sshc_client_table::specs::SessionTable::Timers::keepalive_timer_row))]
pub fn keepalive_timer(session: &mut Connection) -> Result<RowFlow, Error>
    ensures row { Follows (keepalive_timer_row session.old) session.old session.new result }
{
    match session.settings().keepalive_interval {
        Some(_) => missed(session),
        None => Ok(RowFlow::Went),
    }
}

fn missed(session: &mut Connection) -> Result<RowFlow, Error>
    ensures row { Follows (missed_row session.old) session.old session.new result }
{
    let most = session.settings().keepalive_max;
    let count = session.keepalives().saturating_add(1);
    let are_too_many = most != 0 && most < count;
    session.miss();
    if are_too_many {
        return Err(Error::KeepaliveTimeout);
    }
    session.ask(&Ask::KeepAlive { want_reply: true })?;
    Ok(RowFlow::Went)
}

/// Nothing came for as long as the settings allow.
pub fn inactivity_timer(session: &mut Connection) -> Result<RowFlow, Error>
    ensures row { Follows (inactivity_timer_row session.old) session.old session.new result }
{
    if session.opening().settings().inactivity {
        Err(Error::InactivityTimeout)
    } else {
        Ok(RowFlow::Went)
    }
}
