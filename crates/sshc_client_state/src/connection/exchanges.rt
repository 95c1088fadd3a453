//! Key exchanges in an open session (RFC 4253, section 7).

ghost use Rattle.std.specs.Prelude.{◌≡◌};
ghost use Rattle.sshc_client_table.specs.Moves.{Begins, Counts, Moved, PeerBegins, Resumes, after};

use super::Connection;
use sshc_auth::ExchangeFlag;
use sshc_wire::{NoMemory, Record};

impl Connection {
    /// Begins an exchange of ours, if the session is live and no exchange runs.
    #[tactic(auto, using(crate::proofs::Hints::moves_on))]
    pub fn begin_exchange(&mut self) -> Result<(), NoMemory>
        ensures { Moved Begins self.old self.new result }
    {
        if !self.is_live() || self.is_exchanging() {
            return Ok(());
        }
        self.outbox.push(Record::BeginExchange)?;
        self.opening.set_exchange(ExchangeFlag::Ours);
        Ok(())
    }

    /// The peer's KEXINIT, which begins an exchange or answers ours.
    #[tactic(auto, using(crate::proofs::Hints::moves_on))]
    pub fn peer_begins(&mut self) -> Result<(), NoMemory>
        ensures { Moved PeerBegins self.old self.new result }
    {
        if !self.is_live() {
            return Ok(());
        }
        if self.is_exchanging() {
            self.opening.answer_exchange();
            return Ok(());
        }
        self.outbox.push(Record::BeginExchange)?;
        self.opening.set_exchange(ExchangeFlag::Peer);
        Ok(())
    }

    /// No exchange runs any more, and what waits on the channels is sent.
    #[tactic(auto, using(crate::proofs::Hints::resume))]
    pub fn resume(&mut self) -> Result<(), NoMemory>
        ensures { Moved Resumes self.old self.new result }
    {
        if !self.is_live() {
            return Ok(());
        }
        self.table.flush_all(&mut self.outbox)?;
        self.opening.set_exchange(ExchangeFlag::Idle);
        Ok(())
    }

    /// A packet of `len` bytes came while an exchange of ours runs.
    #[tactic(auto, using(sshc_client_table::specs::MoveLaws::is_done, sshc_client_table::specs::MoveLaws::not_done))]
    pub fn count(&mut self, len: u64)
        ensures { self.new ≡ after (Counts len) self.old }
    {
        if self.is_live() {
            self.opening.count(len);
        }
    }
}
