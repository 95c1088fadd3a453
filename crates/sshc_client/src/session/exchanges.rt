//! An exchange that is done in an open session (RFC 4253, section 7).

ghost use Rattle.std.specs.Prelude.{◌≡◌, true, [], ◌∷◌, Ok, option_copied};
ghost use Rattle.sshc_wire.specs.declared.record.Record.TheVariants.{KexDone as KexDoneRecord};
ghost use Rattle.sshc_client_table.specs.Moves.{Does, Resumes, Tells};
ghost use Rattle.sshc_client_table.specs.SessionRow.{KexDone};
ghost use Rattle.sshc_client_table.specs.SessionTable.Exchanges.{exchange_done_row, later_exchange_row};
ghost use Rattle.sshc_auth.specs.OpeningTable.Exchange.{has_kept_key};
ghost use Rattle.sshc_client.specs.HandledRow.{Calls, FollowsOne};

use super::Session;
use crate::handler::Handler;
use crate::stop::{Stop, lent, went};
use sshc_auth::{Error, ExchangeFlag, ExchangeResult};
use sshc_client_rows::RowFlow;
use sshc_wire::{NoMemory, Record, Text};

/// The shared secret of an exchange, if the transport passed it on.
pub(super) fn secret_of(exchange: &ExchangeResult) -> Option<&[u8]>
    ensures { option_copied result ≡ exchange.now.secret }
{
    match &exchange.secret {
        Some(secret) => Some(secret.as_slice()),
        None => None,
    }
}

impl Session {
    /// An exchange is done.
    #[tactic(auto, using(crate::proofs::HandlerLemmas::ran_out_with, crate::proofs::HandlerLemmas::refused_with))]
    pub(super) fn exchange_done<H: Handler>(
        &mut self,
        exchange: &ExchangeResult,
        handler: &mut H,
    ) -> Result<RowFlow, Stop<H::Error>>
        ensures { FollowsOne H.keeps_defaults
            (H.at handler.old)
            (H.at handler.new)
            (exchange_done_row self.old.opening.flag (has_kept_key self.old.opening exchange.now) exchange.now)
            self.old self.new result }
    {
        let flag = self.connection.opening().flag();
        match flag {
            ExchangeFlag::Idle => Err(Stop::Own(Error::OutOfTurn)),
            ExchangeFlag::Ours => Err(Stop::Own(Error::OutOfTurn)),
            ExchangeFlag::Peer => self.later_exchange(exchange, handler),
        }
    }

    /// The host key isn't judged again, and is refused where it isn't the first exchange's.
    #[tactic(auto, using(crate::proofs::HandlerLemmas::refused_with))]
    fn later_exchange<H: Handler>(
        &mut self,
        exchange: &ExchangeResult,
        handler: &mut H,
    ) -> Result<RowFlow, Stop<H::Error>>
        ensures { FollowsOne H.keeps_defaults
            (H.at handler.old)
            (H.at handler.new)
            (later_exchange_row (has_kept_key self.old.opening exchange.now) exchange.now) self.old self.new result }
    {
        let same = self.connection.opening().has_kept_key(exchange);
        match same {
            true => self.go_on_behind(exchange, handler),
            false => Err(Stop::Own(Error::RekeyKey)),
        }
    }

    #[tactic(auto, using(crate::proofs::HandlerLemmas::ran_out_with))]
    fn go_on_behind<H: Handler>(
        &mut self,
        exchange: &ExchangeResult,
        handler: &mut H,
    ) -> Result<RowFlow, Stop<H::Error>>
        ensures { FollowsOne H.keeps_defaults
            (H.at handler.old)
            (H.at handler.new)
            (later_exchange_row true exchange.now) self.old self.new result }
    {
        let kex = exchange.names.kex().copy()?;
        self.go_on_with(kex, exchange, handler)
    }

    /// The same with a copy of the exchange's name, for the record.
    #[tactic(auto, using(crate::proofs::HandlerLemmas::refused_call, crate::proofs::HandlerLemmas::let_go_call))]
    fn go_on_with<H: Handler>(
        &mut self,
        kex: Text,
        exchange: &ExchangeResult,
        handler: &mut H,
    ) -> Result<RowFlow, Stop<H::Error>>
        requires { kex ≡ exchange.now.names.kex }
        ensures { FollowsOne H.keeps_defaults
            (H.at handler.old)
            (H.at handler.new)
            (later_exchange_row true exchange.now) self.old self.new result }
    {
        match self.call_kex_done(exchange, handler) {
            Ok(()) => went(self.resume(kex)),
            Err(stop) => Err(stop),
        }
    }

    #[tactic(auto, using(crate::proofs::HandlerLemmas::called))]
    fn call_kex_done<H: Handler>(
        &mut self,
        exchange: &ExchangeResult,
        handler: &mut H,
    ) -> Result<(), Stop<H::Error>>
        ensures { Calls H.keeps_defaults (KexDone exchange.now.secret exchange.now.names) (Ok tt)
            (H.at handler.old)
            (H.at handler.new)
            self.old self.new result }
    {
        lent(handler.kex_done(secret_of(exchange), &exchange.names, self))
    }

    /// Adds the record of the exchange that is done; then the bytes that wait on the channels are sent.
    fn resume(&mut self, kex: Text) -> Result<(), NoMemory>
        ensures { Does (Tells (KexDoneRecord kex) ∷ Resumes ∷ []) self.old self.new result }
    {
        self.connection.tell(Record::KexDone { kex })?;
        self.connection.resume()
    }
}
