//! ADD_IDENTITY and ADD_ID_CONSTRAINED (draft-miller-ssh-agent, sections 3.2 and 3.2.7).

ghost use Rattle.std.specs.Prelude.{◌≡◌, ◌<◌, Err, IfOk, MatchOption, MatchResult, None, Ok, length};
ghost use Rattle.sshc_wire.specs.Reads.{text_at};
ghost use Rattle.sshc_wire.specs.Whole.{all_at};
ghost use Rattle.sshc_agent_core.specs.AgentTable.Add.{add_turn, added_turn, commented_turn, constraint_at};
ghost use Rattle.sshc_agent_core.specs.AgentTable.Add.{constraints_in, kept_in, keyed_turn, with_one};
ghost use Rattle.sshc_key.specs.KeyGrammar.{key_text};
ghost use Rattle.sshc_agent_core.specs.KeyList.{deadline_of};
ghost use Rattle.sshc_agent_core.specs.Turn.{Follows};

use super::AgentCore;
use super::turn::Turn;
use crate::constraints::Constraints;
use crate::key_list::HeldKey;
use sshc_key::agent_msg::{CONSTRAIN_CONFIRM, CONSTRAIN_LIFETIME, FAILURE, SUCCESS};
use sshc_key::{PrivateKey, PublicKeyBase64, read_key_pair};
use sshc_wire::{Cursor, NoMemory, Octets, WireError};

/// No lifetime and no confirmation.
const UNCONSTRAINED: Constraints = Constraints {
    lifetime: None,
    confirm: false,
};

/// The moment from which a key of this lifetime is no longer held.
fn deadline_of(now: u64, lifetime: Option<u32>) -> Option<u64>
    ensures { result ≡ deadline_of now lifetime }
{
    match lifetime {
        None => None,
        Some(seconds) => Some(now.saturating_add(1000 * u64::from(seconds))),
    }
}

/// Reads one constraint: a lifetime in seconds, or `None` for a confirmation.
#[tactic(auto, unfolding(crate::specs::AgentTable::Add::constraint_at))]
fn constraint_of(c: &mut Cursor<'_>) -> Result<Option<u32>, WireError>
    ensures { MatchResult result (λ x. constraint_at c.old ≡ Ok (x, c.new)) (λ e. constraint_at c.old ≡ Err e) }
{
    match c.u8()? {
        CONSTRAIN_LIFETIME => Ok(Some(c.u32()?)),
        CONSTRAIN_CONFIRM => Ok(None),
        _ => Err(WireError::Short),
    }
}

/// Adds a constraint to those read so far; `None` for a second lifetime.
fn with_one(held: Constraints, one: Option<u32>) -> Option<Constraints>
    ensures { result ≡ with_one held one }
{
    match (one, held.lifetime) {
        (None, _) => Some(Constraints {
            lifetime: held.lifetime,
            confirm: true,
        }),
        (Some(seconds), None) => Some(Constraints {
            lifetime: Some(seconds),
            confirm: held.confirm,
        }),
        (Some(_), Some(_)) => None,
    }
}

/// Reads the next constraint and adds it to `held`; `None` if it can't be read or is a second lifetime.
#[tactic(auto, using(crate::proofs::Hints::next_held))]
fn next_held(c: &mut Cursor<'_>, held: Constraints) -> Option<Constraints>
    requires { 0 < length c.old }
    ensures kept { MatchOption result (kept_in (all_at constraint_at c.old) held ≡ None)
        (λ more. (kept_in (all_at constraint_at c.old) held ≡ kept_in (all_at constraint_at c.new) more)
        × (length c.new < length c.old)) }
{
    match constraint_of(c) {
        Ok(one) => with_one(held, one),
        Err(_) => None,
    }
}

/// The constraints up to the end of the bytes; `None` if they can't be read or hold two lifetimes.
#[tactic(auto, using(crate::proofs::Constrained::kept_all))]
fn constraints_of(bytes: &[u8]) -> Option<Constraints>
    ensures { result ≡ constraints_in bytes.now }
{
    let mut c = Cursor::new(bytes);
    let mut held = UNCONSTRAINED;
    while !c.rest().is_empty() {
        held = next_held(&mut c, held)?;
    }
    Some(held)
}

impl AgentCore {
    /// Reads the key pair, the comment and, if `constrained`, the constraints, and adds the key.
    #[tactic(auto, unfolding(crate::specs::AgentTable::Add::add_turn))]
    pub(super) fn add<'a>(
        &mut self,
        constrained: bool,
        body: &'a [u8],
    ) -> Result<Turn<'a>, NoMemory>
        ensures row { Follows (add_turn constrained body.now self.old) self.old self.new result }
    {
        let mut c = Cursor::new(body);
        match read_key_pair(self.alloc, &mut c) {
            Ok(pair) => self.add_commented(constrained, pair, c.rest()),
            Err(sshc_key::Error::NoMemory) => Err(NoMemory),
            Err(_) => self.answers(&[FAILURE]),
        }
    }

    fn add_commented<'a>(
        &mut self,
        constrained: bool,
        pair: PrivateKey,
        rest: &'a [u8],
    ) -> Result<Turn<'a>, NoMemory>
        ensures row { Follows (commented_turn constrained (text_at rest.now) pair self.old) self.old self.new result }
    {
        let mut c = Cursor::new(rest);
        if c.text().is_err() {
            drop(pair);
            return self.answers(&[FAILURE]);
        }
        let constraints = if constrained {
            constraints_of(c.rest())
        } else {
            Some(UNCONSTRAINED)
        };
        self.add_pair(pair, constraints)
    }

    /// Adds the pair under these constraints, unless the listing would get too long.
    fn add_pair<'a>(
        &mut self,
        pair: PrivateKey,
        constraints: Option<Constraints>,
    ) -> Result<Turn<'a>, NoMemory>
        ensures row { Follows (added_turn constraints pair self.old) self.old self.new result }
    {
        let Some(constraints) = constraints else {
            drop(pair);
            return self.answers(&[FAILURE]);
        };
        match blob_of(&pair) {
            Ok(blob) => self.add_key(HeldKey {
                blob,
                pair,
                deadline: deadline_of(self.latest, constraints.lifetime),
                constraints,
            }),
            Err(refused) => {
                drop(pair);
                Err(refused)
            }
        }
    }

    /// Adds the key, unless the listing would get too long. No pair is held where a step can fail.
    fn add_key<'a>(&mut self, key: HeldKey) -> Result<Turn<'a>, NoMemory>
        ensures row { Follows (keyed_turn key self.old) self.old self.new result }
    {
        if !self.keys.has_room(&key.blob) {
            drop(key);
            return self.answers(&[FAILURE]);
        }
        match self.answers(&[SUCCESS]) {
            Ok(done) => match self.keys.put(key) {
                Ok(()) => Ok(done),
                Err(refused) => {
                    drop(done);
                    Err(refused)
                }
            },
            Err(refused) => {
                drop(key);
                Err(refused)
            }
        }
    }
}

/// The blob of the pair's public key.
fn blob_of(pair: &PrivateKey) -> Result<Octets, NoMemory>
    ensures { IfOk result (λ o. o ≡ key_text pair.now.public.0) }
{
    Octets::from_vec(pair.public_key_bytes()?)
}
