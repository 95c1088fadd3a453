//! LOCK and UNLOCK (draft-miller-ssh-agent, section 3.7).

ghost use Rattle.std.specs.Prelude.{◌≡◌};
ghost use Rattle.sshc_agent_core.specs.AgentTable.Lock.{is_passphrase, lock_turn, unlock_turn};
ghost use Rattle.sshc_agent_core.specs.Turn.{Follows};

use super::AgentCore;
use super::turn::Turn;
use sshc_key::agent_msg::{FAILURE, SUCCESS};
use sshc_wire::{Cursor, NoMemory, Octets};

fn is_passphrase(own: &Option<Octets>, word: &[u8]) -> bool
    ensures { result ≡ is_passphrase own.now word.now }
{
    match own {
        None => false,
        Some(own) => own.as_slice() == word,
    }
}

impl AgentCore {
    #[tactic(auto, unfolding(crate::specs::AgentTable::Lock::lock_turn))]
    pub(super) fn lock<'a>(&mut self, body: &'a [u8]) -> Result<Turn<'a>, NoMemory>
        ensures row { Follows (lock_turn body.now self.old) self.old self.new result }
    {
        let Ok(passphrase) = Cursor::new(body).bytes() else {
            return self.answers(&[FAILURE]);
        };
        let passphrase = Octets::from_slice(self.alloc, passphrase)?;
        let done = self.answers(&[SUCCESS])?;
        self.passphrase = Some(passphrase);
        Ok(done)
    }

    #[tactic(auto, unfolding(crate::specs::AgentTable::Lock::unlock_turn))]
    pub(super) fn unlock<'a>(&mut self, body: &'a [u8]) -> Result<Turn<'a>, NoMemory>
        ensures row { Follows (unlock_turn body.now self.old) self.old self.new result }
    {
        let Ok(word) = Cursor::new(body).bytes() else {
            return self.answers(&[FAILURE]);
        };
        if !is_passphrase(&self.passphrase, word) {
            return self.answers(&[FAILURE]);
        }
        let done = self.answers(&[SUCCESS])?;
        self.passphrase = None;
        Ok(done)
    }
}
