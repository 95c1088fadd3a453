//! A connection's seat at a shared agent.

ghost use Rattle.std.specs.Prelude.{◌≡◌};
ghost use Rattle.sshc_agent_shared.specs.Kept.{refused_once};

use crate::kept::KeptCall;
use std::marker::Model;
use std::sync::ledger::{Ledger, Share};

/// A connection's number, its calls so far, how many of its calls were refused, and its part of the agent's ledger.
#[derive(Drop)]
pub struct Seat<L: Ledger> {
    pub(crate) conn: u32,
    pub(crate) calls: Vec<KeptCall>,
    pub(crate) refused: u64,
    pub(crate) part: Share<L>,
}

impl<L: Ledger> Model for Seat<L> {
    ghost use Rattle.std.specs.Prelude.{◌≡◌, vec_len};
    ghost use Rattle.sshc_agent_shared.specs.Kept.{SeatState};

    ghost Value = { SeatState };

    ghost view = { λ s. record {
      conn = s.conn;
      calls = s.calls.items;
      refused = s.refused;
      parts = s.part.parts;
      amount = s.part.amount;
    } };

    ghost invariant = { λ s. (s.part.parts ≡ 1) × (s.part.amount ≡ vec_len s.calls) };
}

impl<L: Ledger> Seat<L> {
    /// The number of the connection.
    pub fn conn(&self) -> u32
        ensures { result ≡ self.now.conn }
    {
        self.conn
    }

    /// The calls that weren't refused, in order.
    pub fn calls(&self) -> &[KeptCall]
        ensures { result.now ≡ self.now.calls }
    {
        self.calls.as_slice()
    }

    /// How many calls were refused.
    pub fn refused(&self) -> u64
        ensures { result ≡ self.now.refused }
    {
        self.refused
    }

    /// Counts one more refused call.
    pub(crate) fn refuse(&mut self)
        ensures { self.new ≡ refused_once self.old }
    {
        self.refused = self.refused.saturating_add(1);
    }
}
