//! Rows of the user's other events before the session is open.

ghost use Rattle.std.specs.Prelude.{◌≡◌, IfOk};
ghost use Rattle.sshc_auth.specs.OpeningTable.User.{answered_row, rekey_row, await_extension_info_row};
ghost use Rattle.sshc_auth.specs.OpeningTable.User.{get_server_sig_algs_row, sig_algs_answer, host_keys_answer};
ghost use Rattle.sshc_auth.specs.OpeningTable.User.{user_disconnect_row};
ghost use Rattle.sshc_auth.specs.Row.{Follows, span};

use super::{Opening, Waiter, resolved};
use crate::ending::Ending;
use crate::error::Error;
use crate::step::Flow;
use sshc_auth_request::disconnect_packet;
use sshc_key::PublicKey;
use sshc_transport::ExchangeFlag;
use sshc_wire::{Disconnect, List, NoMemory, Outbox, Record, Resolution, Text, Ticket};

pub(super) fn copied_texts(texts: &List<Text>) -> Result<List<Text>, NoMemory>
    ensures { IfOk result (λ l. l ≡ texts.now) }
{
    let mut copies = List::new(texts.allocator());
    for text in texts.as_slice() {
        copies.push(text.copy()?)?;
    }
    Ok(copies)
}

impl Opening {
    /// Resolves a ticket at once.
    pub(super) fn answered(
        &mut self,
        ticket: Ticket,
        resolution: Resolution,
        out: &mut Outbox,
    ) -> Result<Flow, Error>
        ensures row { Follows (answered_row self.old ticket resolution)
            (span self.old self.new out.old out.new) result }
    {
        out.push_both(resolved(ticket, resolution), None)?;
        Ok(Flow::Went)
    }

    /// The user asks for a key exchange (RFC 4253, section 9).
    #[tactic(auto, unfolding(crate::specs::OpeningTable::User::rekey_row))]
    pub(super) fn rekey(&mut self, out: &mut Outbox) -> Result<Flow, Error>
        ensures row { Follows (rekey_row self.old) (span self.old self.new out.old out.new) result }
    {
        out.push(Record::BeginExchange)?;
        self.flag = ExchangeFlag::Ours;
        self.pending.reset();
        Ok(Flow::Went)
    }

    /// The user waits for an extension (RFC 8308).
    #[tactic(auto, unfolding(crate::specs::OpeningTable::User::await_extension_info_row))]
    pub(super) fn await_extension_info(
        &mut self,
        ticket: Ticket,
        name: &Text,
        out: &mut Outbox,
    ) -> Result<Flow, Error>
        ensures row { Follows (await_extension_info_row self.old ticket name.now)
            (span self.old self.new out.old out.new) result }
    {
        if self.was_seen(name.as_str()) {
            return self.answered(ticket, Resolution::ExtInfoSeen, out);
        }
        let extension_name = name.copy()?;
        self.waiters.push(Waiter {
            ticket,
            extension_name,
        })?;
        Ok(Flow::Went)
    }

    /// The resolution with the server's signature names, used in an open session too.
    pub fn sig_algs_answer(&self) -> Result<Resolution, NoMemory>
        ensures { IfOk result (λ r. r ≡ sig_algs_answer self.now.sig_algs) }
    {
        match &self.sig_algs {
            Some(names) => Ok(Resolution::SigAlgs {
                known: true,
                names: copied_texts(names)?,
            }),
            None => Ok(Resolution::SigAlgs {
                known: false,
                names: List::new(self.alloc),
            }),
        }
    }

    /// The user asks for the server's signature names (RFC 8308, section 3.1).
    #[tactic(auto, unfolding(crate::specs::OpeningTable::User::get_server_sig_algs_row))]
    pub(super) fn get_server_sig_algs(
        &mut self,
        ticket: Ticket,
        out: &mut Outbox,
    ) -> Result<Flow, Error>
        ensures row { Follows (get_server_sig_algs_row self.old ticket)
            (span self.old self.new out.old out.new) result }
    {
        let answer = self.sig_algs_answer()?;
        self.answered(ticket, answer, out)
    }

    /// There are no keys to prove, or they can't be proved yet.
    pub(super) fn host_keys_prove(
        &mut self,
        ticket: Ticket,
        keys: &List<PublicKey>,
        out: &mut Outbox,
    ) -> Result<Flow, Error>
        ensures row { Follows (answered_row self.old ticket (host_keys_answer keys.now))
            (span self.old self.new out.old out.new) result }
    {
        match keys.as_slice() {
            [] => self.answered(ticket, Resolution::HostKeysProved, out),
            [_, ..] => self.answered(ticket, Resolution::Denied, out),
        }
    }

    /// The user disconnects (RFC 4253, section 11.1).
    #[tactic(auto, unfolding(crate::specs::OpeningTable::User::user_disconnect_row))]
    pub(super) fn user_disconnect(
        &mut self,
        reason: Disconnect,
        description: &Text,
        language: &Text,
        out: &mut Outbox,
    ) -> Result<Flow, Error>
        ensures row { Follows (user_disconnect_row reason description.now language.now)
            (span self.old self.new out.old out.new) result }
    {
        let packet = disconnect_packet(self.alloc, reason, description, language)?;
        out.push(Record::Payload(packet))?;
        Ok(Flow::Ended(Ending::disconnected()))
    }
}
