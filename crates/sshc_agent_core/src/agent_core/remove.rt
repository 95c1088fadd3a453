//! REMOVE_IDENTITY and REMOVE_ALL_IDENTITIES (draft-miller-ssh-agent, section 3.4).

ghost use Rattle.sshc_agent_core.specs.AgentTable.Remove.{remove_all_turn, remove_turn};
ghost use Rattle.sshc_agent_core.specs.Turn.{Follows};

use super::AgentCore;
use super::turn::Turn;
use sshc_key::agent_msg::{FAILURE, SUCCESS};
use sshc_wire::{Cursor, NoMemory};

impl AgentCore {
    #[tactic(auto, unfolding(crate::specs::AgentTable::Remove::remove_turn), using(crate::proofs::Hints::remove))]
    pub(super) fn remove<'a>(&mut self, body: &'a [u8]) -> Result<Turn<'a>, NoMemory>
        ensures row { Follows (remove_turn body.now self.old) self.old self.new result }
    {
        let Ok(blob) = Cursor::new(body).bytes() else {
            return self.answers(&[FAILURE]);
        };
        if self.keys.find(blob).is_none() {
            return self.answers(&[FAILURE]);
        }
        let done = self.answers(&[SUCCESS])?;
        match self.keys.remove(blob) {
            Ok(()) => Ok(done),
            Err(refused) => {
                drop(done);
                Err(refused)
            }
        }
    }

    pub(super) fn remove_all<'a>(&mut self) -> Result<Turn<'a>, NoMemory>
        ensures row { Follows (remove_all_turn self.old) self.old self.new result }
    {
        let done = self.answers(&[SUCCESS])?;
        self.keys.clear();
        Ok(done)
    }
}
