//! The keys that an agent holds, in the order in which they were added.

ghost use Rattle.std.specs.Prelude.{◌≡◌, [], IfOk, OnOk, OnErr, option_copied};
ghost use Rattle.std.specs.BTreeMap.{get};
ghost use Rattle.std.specs.Ordering.{nat_cmp};
ghost use Rattle.sshc_wire.specs.Wire.{string_text};
ghost use Rattle.sshc_agent_core.specs.Deadlines.{Agree, AreApart};

use crate::constraints::Constraints;
use due::cut_due;
use holding::{drop_key, drop_past, find_key, find_live, fits, framed_listing, put_key};
use indexmap::IndexMap;
use sshc_key::PrivateKey;
use sshc_wire::{List, NoMemory, Octets};
use std::alloc::Global;
use std::collections::BTreeMap;
use std::marker::Model;

mod due;
mod holding;

/// A key pair that the agent holds.
#[derive(Drop)]
pub struct HeldKey {
    /// The blob of the public key.
    pub blob: Octets,
    pub pair: PrivateKey,
    /// From this moment on, in milliseconds, the key is no longer held.
    pub deadline: Option<u64>,
    pub constraints: Constraints,
}

/// Keys in the order in which they were added, which contracts see as a list. Their deadlines are kept beside them, and
/// agree with them.
#[derive(Drop)]
pub(crate) struct KeyList {
    alloc: Global,
    /// Each key by its blob.
    keys: IndexMap<Vec<u8>, HeldKey>,
    /// The blobs of the keys at each deadline.
    due: BTreeMap<u64, List<Octets>>,
}

impl Model for KeyList {
    ghost use Rattle.std.specs.Prelude.{List as Items};
    ghost use Rattle.std.specs.BTreeMap.{get};
    ghost use Rattle.std.specs.Coded.{codes};
    ghost use Rattle.std.specs.Ordering.{nat_cmp};
    ghost use Rattle.indexmap.specs.IndexMap.{values};
    ghost use Rattle.sshc_key.specs.PairCode.{key_pair_code};
    ghost use Rattle.sshc_agent_core.specs.declared.key_list.HeldKey.{HeldKey as Held};
    ghost use Rattle.sshc_agent_core.specs.Deadlines.{Agree, AreApart};
    ghost use Rattle.sshc_agent_core.specs.Stored.{AreKeyed};

    ghost Value = { Items Held };

    ghost coded = { Prim.hlevel (codes, key_pair_code) };

    ghost view = { λ k. values k.keys };

    ghost invariant = { λ k. AreKeyed k.keys.entries × AreApart (values k.keys)
        × Agree (values k.keys) (get nat_cmp k.due) };
}

impl KeyList {
    ghost use Rattle.sshc_agent_core.specs.KeyList.{has_room, held, listing, unexpired, with_key, without_key};

    #[tactic(auto, using(crate::proofs::DueLemmas::none_agree, crate::proofs::DueLemmas::none_apart))]
    pub(crate) fn new(alloc: Global) -> KeyList
        ensures { result ≡ [] }
    {
        KeyList {
            alloc,
            keys: IndexMap::new(alloc),
            due: BTreeMap::new(alloc),
        }
    }

    /// The blobs of the keys at each deadline.
    pub(crate) fn deadlines(&self) -> &BTreeMap<u64, List<Octets>>
        ensures agree { Agree self.now (get nat_cmp result.now) }
        ensures apart { AreApart self.now }
    {
        &self.due
    }

    /// The key with this blob.
    pub(crate) fn find(&self, blob: &[u8]) -> Option<&HeldKey>
        ensures { option_copied result ≡ held self.now blob.now }
    {
        find_key(&self.keys, blob)
    }

    /// The key with this blob, if it is still held at this moment.
    pub(crate) fn find_at(&self, blob: &[u8], now: u64) -> Option<&HeldKey>
        ensures { option_copied result ≡ held (unexpired now self.now) blob.now }
    {
        find_live(&self.keys, blob, now)
    }

    /// Drops the keys whose deadline has come. Takes no memory.
    #[tactic(auto, using(crate::proofs::Hints::expire))]
    pub(crate) fn expire(&mut self, now: u64)
        ensures { self.new ≡ unexpired now self.old }
    {
        if cut_due(&mut self.due, now) {
            drop_past(&mut self.keys, now);
        }
    }

    /// Drops all keys. Takes no memory.
    #[tactic(auto, using(crate::proofs::DueLemmas::none_agree, crate::proofs::DueLemmas::none_apart))]
    pub(crate) fn clear(&mut self)
        ensures { self.new ≡ [] }
    {
        self.keys.clear();
        self.due.clear();
    }

    /// Drops the key with this blob, or changes nothing. Takes memory only where other keys have its deadline.
    pub(crate) fn remove(&mut self, blob: &[u8]) -> Result<(), NoMemory>
        ensures ok { OnOk result (self.new ≡ without_key self.old blob.now) }
        ensures err { OnErr result (self.new ≡ self.old) }
    {
        drop_key(self.alloc, &mut self.keys, &mut self.due, blob)
    }

    /// Whether the listing with a key of this blob in it still fits in a frame.
    pub(crate) fn has_room(&self, blob: &Octets) -> bool
        ensures { result ≡ has_room self.now blob.now }
    {
        let start = if self.find(blob.as_slice()).is_some() {
            5
        } else {
            blob.as_slice().len() + 13
        };
        fits(&self.keys, start)
    }

    /// Replaces the key with the same blob, or appends the key; or changes nothing.
    pub(crate) fn put(&mut self, key: HeldKey) -> Result<(), NoMemory>
        ensures ok { OnOk result (self.new ≡ with_key self.old key) }
        ensures err { OnErr result (self.new ≡ self.old) }
    {
        put_key(self.alloc, &mut self.keys, &mut self.due, key)
    }

    /// The answer that lists the keys, as a whole frame.
    pub(crate) fn listing(&self, alloc: Global) -> Result<Octets, NoMemory>
        ensures { IfOk result (λ o. o ≡ string_text (listing self.now)) }
    {
        framed_listing(alloc, &self.keys)
    }
}
