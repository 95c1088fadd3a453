//! Our replies to the peer's requests (RFC 4254, sections 4 and 5.4).

ghost use Rattle.std.specs.Prelude.{◌≡◌};
ghost use Rattle.sshc_client_table.specs.Moves.{Answers, AnswersOn};
ghost use Rattle.sshc_client_table.specs.SessionRow.{plain_row};
ghost use Rattle.sshc_client_table.specs.SessionTable.Requests.{if_wanted};
ghost use Rattle.sshc_client_rows.specs.Follows.{Follows};

use crate::flow::RowFlow;
use sshc_auth::Error;
use sshc_client_state::Connection;
use sshc_wire::ChannelId;

/// The reply to a request on a channel, if one is wanted.
pub fn answered_on(
    session: &mut Connection,
    id: ChannelId,
    want_reply: bool,
    done: bool,
) -> Result<RowFlow, Error>
    ensures row { Follows (plain_row (if_wanted want_reply (AnswersOn id.0 done))) session.old session.new result }
{
    if want_reply {
        session.answer_on(id, done)?;
    }
    Ok(RowFlow::Went)
}

/// The reply to a global request, if one is wanted.
pub fn answered(session: &mut Connection, want_reply: bool, done: bool) -> Result<RowFlow, Error>
    ensures row { Follows (plain_row (if_wanted want_reply (Answers done))) session.old session.new result }
{
    if want_reply {
        session.answer(done)?;
    }
    Ok(RowFlow::Went)
}
