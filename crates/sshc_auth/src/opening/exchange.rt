//! Rows of key exchanges (RFC 4253, section 7).

ghost use Rattle.std.specs.Prelude.{◌≡◌};
ghost use Rattle.sshc_auth.specs.Row.{Follows, span};
ghost use Rattle.sshc_auth.specs.OpeningTable.Exchange.{peer_kexinit_row, exchange_done_row, exchanged};
ghost use Rattle.sshc_auth.specs.OpeningTable.Exchange.{first_exchange_row, later_exchange_row};

use super::{Opening, Phase};
use crate::error::Error;
use crate::step::{Flow, Told};
use sshc_auth_event::copied_host_key;
use sshc_transport::{ExchangeFlag, ExchangeKey, ExchangeResult};
use sshc_wire::{Octets, Outbox, Record};

impl Opening {
    /// The peer's KEXINIT (RFC 4253, section 7.1).
    #[tactic(auto, unfolding(crate::specs::OpeningTable::Exchange::peer_kexinit_row))]
    pub(super) fn peer_kexinit(&mut self, out: &mut Outbox) -> Result<Flow, Error>
        ensures row { Follows (peer_kexinit_row self.old) (span self.old self.new out.old out.new) result }
    {
        match self.flag {
            ExchangeFlag::Idle => {
                out.push(Record::BeginExchange)?;
                self.flag = ExchangeFlag::Peer;
                self.pending.reset();
                Ok(Flow::Went)
            }
            ExchangeFlag::Ours | ExchangeFlag::Peer => {
                self.flag = ExchangeFlag::Peer;
                Ok(Flow::Went)
            }
        }
    }

    /// A key exchange is done.
    #[tactic(auto, unfolding(crate::specs::OpeningTable::Exchange::exchange_done_row))]
    pub(super) fn exchange_done(
        &mut self,
        exchange: &ExchangeResult,
        told: Told,
        out: &mut Outbox,
    ) -> Result<Flow, Error>
        ensures row { Follows (exchange_done_row self.old exchange.now told)
            (span self.old self.new out.old out.new) result }
    {
        match self.phase {
            Phase::Exchanging => self.first_exchange(exchange, told, out),
            _ => self.later_exchange(exchange, out),
        }
    }

    /// The first exchange: the session continues only with a host key that the gate accepts.
    fn first_exchange(
        &mut self,
        exchange: &ExchangeResult,
        told: Told,
        out: &mut Outbox,
    ) -> Result<Flow, Error>
        ensures row { Follows (first_exchange_row self.old exchange.now told)
            (span self.old self.new out.old out.new) result }
    {
        if told != Told::Went {
            return Err(Error::UnknownKey);
        }
        let session_id = exchange.session_hash.copy()?;
        let host_key = copied_host_key(&exchange.key)?;
        let kex = exchange.names.kex().copy()?;
        let kex = Record::KexDone { kex };
        if self.settings.anonymous {
            out.push_both(Some(kex), Some(Record::Opened))?;
            self.accepted(session_id, host_key, Phase::Open);
            Ok(Flow::Opened)
        } else {
            out.push(kex)?;
            self.accepted(session_id, host_key, Phase::Service);
            Ok(Flow::Went)
        }
    }

    /// Stores the session id and the host key, and continues in this phase.
    fn accepted(&mut self, session_id: Octets, host_key: ExchangeKey, phase: Phase)
        ensures { self.new ≡ record (exchanged self.old)
            { session_id = session_id; host_key = host_key; phase = phase } }
    {
        self.session_id = session_id;
        self.host_key = host_key;
        self.exchanged();
        self.phase = phase;
    }

    /// No exchange runs any more.
    fn exchanged(&mut self)
        ensures { self.new ≡ exchanged self.old }
    {
        self.flag = ExchangeFlag::Idle;
        self.pending.reset();
    }

    /// A later exchange keeps the session id; its host key isn't judged, and is refused where it isn't the first
    /// exchange's.
    fn later_exchange(&mut self, exchange: &ExchangeResult, out: &mut Outbox) -> Result<Flow, Error>
        ensures row { Follows (later_exchange_row self.old exchange.now)
            (span self.old self.new out.old out.new) result }
    {
        if !self.has_kept_key(exchange) {
            return Err(Error::RekeyKey);
        }
        let kex = exchange.names.kex().copy()?;
        out.push(Record::KexDone { kex })?;
        self.exchanged();
        Ok(Flow::Went)
    }
}
