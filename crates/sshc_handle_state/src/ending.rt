//! Copies of how a session has ended.

ghost use Rattle.std.specs.Prelude.{◌≡◌, IfOk, OnErr};
ghost use Rattle.sshc_handle_state.specs.Ends.{IsRemote};

use sshc_auth::{Ended, RemoteDisconnectInfo};
use sshc_wire::NoMemory;

fn info_copied(info: &RemoteDisconnectInfo) -> Result<RemoteDisconnectInfo, NoMemory>
    ensures { IfOk result (λ i. i ≡ info.now) }
{
    Ok(RemoteDisconnectInfo {
        reason_code: info.reason_code,
        message: info.message.copy()?,
        lang_tag: info.lang_tag.copy()?,
    })
}

pub(crate) fn ended_copied(ended: &Ended) -> Result<Ended, NoMemory>
    ensures ok { IfOk result (λ e. e ≡ ended.now) }
    ensures err { OnErr result (IsRemote ended.now) }
{
    match ended {
        Ended::RemoteDisconnect(info) => Ok(Ended::RemoteDisconnect(info_copied(info)?)),
        Ended::Disconnected => Ok(Ended::Disconnected),
        Ended::Closed => Ok(Ended::Closed),
        Ended::ScriptEnd => Ok(Ended::ScriptEnd),
    }
}
