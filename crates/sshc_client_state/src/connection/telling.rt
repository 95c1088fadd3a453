//! Reports, and resolutions that no packet of the peer's brings.

ghost use Rattle.std.specs.Prelude.{◌≡◌, ◌++◌, OnErr, OnOk, true};
ghost use Rattle.sshc_wire.specs.Outgoing.{listed};
ghost use Rattle.sshc_client_table.specs.Moves.{DeniesTicket, Moved, Resolves, Tells, direct_answer, told};
ghost use Rattle.sshc_client_table.specs.SessionState.{runs};

use super::Connection;
use sshc_auth::resolved;
use sshc_wire::{NoMemory, Record, Resolution, Ticket};

/// The record of a resolution that no packet of the peer's brings; `None` for any other resolution.
fn direct_record(ticket: Ticket, resolution: Resolution) -> Option<Record>
    ensures { listed result ≡ direct_answer ticket resolution }
{
    match resolution {
        Resolution::Dropped
        | Resolution::ExtInfoSeen
        | Resolution::SigAlgs { .. }
        | Resolution::HostKeysProved => resolved(ticket, resolution),
        _ => None,
    }
}

/// A record that may be reported: neither a packet nor an answer to a ticket.
fn told_record(output: Record) -> Option<Record>
    ensures { listed result ≡ told output }
{
    match output {
        Record::Payload(_) | Record::Resolved { .. } => None,
        output => Some(output),
    }
}

impl Connection {
    /// Adds the record, if there is one; the session runs.
    #[tactic(auto, using(crate::proofs::LiveLemmas::shown_open, crate::proofs::LiveLemmas::nothing_more))]
    pub(super) fn push_if(&mut self, output: Option<Record>) -> Result<(), NoMemory>
        requires { runs self.old.life ≡ true }
        ensures ok { OnOk result (self.new ≡ record self.old { records = self.old.records ++ listed output }) }
        ensures err { OnErr result (self.new ≡ self.old) }
    {
        match output {
            Some(output) => self.outbox.push(output),
            None => Ok(()),
        }
    }

    /// Reports a record. A packet or an answer to a ticket is ignored.
    #[tactic(auto, using(crate::proofs::Hints::tell))]
    pub fn tell(&mut self, output: Record) -> Result<(), NoMemory>
        ensures { Moved (Tells output) self.old self.new result }
    {
        if self.may_tell() {
            self.push_told(output)
        } else {
            drop(output);
            Ok(())
        }
    }

    #[tactic(auto, using(crate::proofs::LiveLemmas::shown_told, crate::proofs::LiveLemmas::nothing_more))]
    fn push_told(&mut self, output: Record) -> Result<(), NoMemory>
        ensures ok { OnOk result (self.new ≡ record self.old { records = self.old.records ++ told output }) }
        ensures err { OnErr result (self.new ≡ self.old) }
    {
        match told_record(output) {
            Some(output) => self.outbox.push(output),
            None => Ok(()),
        }
    }

    /// Resolves a ticket as Dropped, ExtInfoSeen, SigAlgs or HostKeysProved; any other resolution is ignored.
    #[tactic(auto, using(crate::proofs::Hints::resolve))]
    pub fn resolve(&mut self, ticket: Ticket, resolution: Resolution) -> Result<(), NoMemory>
        ensures { Moved (Resolves ticket resolution) self.old self.new result }
    {
        if self.is_live() {
            self.push_if(direct_record(ticket, resolution))
        } else {
            drop(resolution);
            Ok(())
        }
    }

    /// Denies a ticket before the session is open.
    #[tactic(auto, using(crate::proofs::Hints::deny))]
    pub fn deny(&mut self, ticket: Ticket) -> Result<(), NoMemory>
        ensures { Moved (DeniesTicket ticket) self.old self.new result }
    {
        if !self.opens_later() {
            return Ok(());
        }
        self.push_if(resolved(ticket, Resolution::Denied))
    }
}
