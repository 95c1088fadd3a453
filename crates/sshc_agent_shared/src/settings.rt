//! The settings of one shared agent, as a type.

ghost use Rattle.std.specs.Prelude.{◌≡◌, ℕ, Bool, false};

use std::marker::{Brand, PhantomData};
use std::sync::ledger::Ledger;

/// A type that identifies one shared agent: its ledger, whether its user is asked about each request, and the greatest
/// weight of its journal. They are chosen by the caller that makes the agent, in a call that is generic in this type.
pub trait Settings: Ledger {
    ghost asks: { Bool };

    ghost limit: { ℕ };
}

impl Settings for Brand {
    ghost asks = { false };

    ghost limit = { 0 };
}

/// The settings that an agent was made with.
#[derive(Drop)]
pub(crate) struct Given<L: Settings> {
    pub(crate) asks: bool,
    pub(crate) limit: u32,
    pub(crate) of: PhantomData<L>,
    ghost asked: { asks ≡ L.asks },
    ghost limited: { limit ≡ L.limit },
}
