//! The map of keys, and what is done to it and to the deadlines together.

ghost use Rattle.std.specs.Prelude.{◌≡◌, ◌+◌, ◌<◌, ◌≤◌, IfOk, MatchOption, nat_le, None, option_copied, OnOk, OnErr};
ghost use Rattle.std.specs.Prelude.{Some, length, position, sum_by, slice_get, slice_set, ◌++◌, ◌∷◌, []};
ghost use Rattle.std.specs.BTreeMap.{get};
ghost use Rattle.std.specs.List.{flat_map};
ghost use Rattle.sshc_wire.specs.Wire.{string_text};
ghost use Rattle.std.specs.Ordering.{nat_cmp};
ghost use Rattle.indexmap.specs.IndexMap.{values, spare, index_map_len};
ghost use Rattle.sshc_agent_core.specs.Deadlines.{Adds, Agree, AreApart, IsMoved, IsSame};
ghost use Rattle.sshc_agent_core.specs.KeyList.{held, identity_text, is_key, is_past, listed, listing, unexpired};
ghost use Rattle.sshc_agent_core.specs.KeyList.{with_key, without_key};
ghost use Rattle.sshc_agent_core.specs.Stored.{AreKeyed};
ghost use Rattle.sshc_agent_core.specs.declared.key_list.HeldKey.{HeldKey as Held};

use super::HeldKey;
use super::due::{add_due_if, drop_due_if, move_due};
use indexmap::IndexMap;
use sshc_key::agent_msg::{IDENTITIES_ANSWER, MAX_AGENT_FRAME_LEN};
use sshc_wire::{List, NoMemory, Octets, begin_string, end_string, put_bytes, put_u32};
use std::alloc::Global;
use std::collections::BTreeMap;

/// The bytes of a listing before its keys: its length, its number and their count.
const LISTING_HEAD: usize = 9;

/// The bytes that a key of the usual size takes in a listing, rounded up: of Ed25519 it takes 59.
const IDENTITY_ROOM: usize = 64;

/// An empty string, as it stands in a listing.
const EMPTY: [u8; 4] = [0, 0, 0, 0];

pub(super) fn is_past(deadline: Option<u64>, now: u64) -> bool
    ensures { result ≡ is_past deadline now }
{
    match deadline {
        None => false,
        Some(deadline) => deadline <= now,
    }
}

/// The index of the key with this blob, which is the key that `held` finds.
#[tactic(auto, using(crate::proofs::Hints::find_place))]
pub(super) fn find_place(keys: &IndexMap<Vec<u8>, HeldKey>, blob: &[u8]) -> Option<usize>
    requires { AreKeyed keys.now.entries }
    ensures found { MatchOption result (held (values keys.now) blob.now ≡ None)
        (λ at. (at < length (values keys.now)) × (held (values keys.now) blob.now ≡ slice_get (values keys.now) at)) }
    ensures place { result ≡ position (is_key blob.now) (values keys.now) }
{
    keys.get_index_of(blob)
}

/// The key at this index.
pub(super) fn key_at(keys: &IndexMap<Vec<u8>, HeldKey>, at: usize) -> &HeldKey
    requires { at < length (values keys.now) }
    ensures { slice_get (values keys.now) at ≡ Some result.now }
{
    match keys.get_index(at) {
        Some((_, key)) => key,
        None => unreachable!(),
    }
}

/// Whether `start` bytes and those of the keys in a listing fit in a frame.
#[tactic(auto, using(crate::proofs::StoredLemmas::too_many))]
pub(super) fn fits(keys: &IndexMap<Vec<u8>, HeldKey>, start: usize) -> bool
    requires { start ≤ 4294967309 }
    ensures { result ≡ nat_le (start + sum_by listed (values keys.now)) MAX_AGENT_FRAME_LEN }
{
    let mut total = start;
    for key in keys.values() {
        if total > MAX_AGENT_FRAME_LEN as usize {
            return false;
        }
        total += key.blob.as_slice().len() + 8;
    }
    total <= MAX_AGENT_FRAME_LEN as usize
}

/// Appends a key of a listing: its blob and an empty comment.
#[tactic(auto, unfolding(sshc_wire::specs::Wire::string_text, sshc_wire::specs::Wire::u32_text))]
fn put_identity(out: &mut Vec<u8>, key: &HeldKey) -> Result<(), NoMemory>
    ensures { OnOk result (out.new.items ≡ out.old.items ++ identity_text key.now) }
{
    put_bytes(out, key.blob.as_slice())?;
    out.extend_from_slice(&EMPTY)?;
    Ok(())
}

/// Appends the body of the answer that lists the keys.
#[tactic(auto, unfolding(sshc_wire::specs::Wire::counted_text))]
fn put_listing(out: &mut Vec<u8>, keys: &IndexMap<Vec<u8>, HeldKey>) -> Result<(), NoMemory>
    ensures { OnOk result (out.new.items ≡ out.old.items ++ listing (values keys.now)) }
{
    if keys.len() >= 1 << 32 {
        return Err(NoMemory);
    }
    out.push(IDENTITIES_ANSWER)?;
    put_u32(out, keys.len() as u32)?;
    put_identities(out, keys)
}

/// Appends the keys of a listing, in their order.
fn put_identities(out: &mut Vec<u8>, keys: &IndexMap<Vec<u8>, HeldKey>) -> Result<(), NoMemory>
    ensures { OnOk result (out.new.items ≡ out.old.items ++ flat_map identity_text (values keys.now)) }
{
    for key in keys.values() {
        put_identity(out, key)?;
    }
    Ok(())
}

/// The answer that lists the keys, as a whole frame. It is written where it stays, with room for keys of the usual
/// size.
pub(super) fn framed_listing(
    alloc: Global,
    keys: &IndexMap<Vec<u8>, HeldKey>,
) -> Result<Octets, NoMemory>
    ensures { IfOk result (λ o. o ≡ string_text (listing (values keys.now))) }
{
    let mut frame = Vec::new(alloc);
    frame.reserve(
        keys.len()
            .saturating_mul(IDENTITY_ROOM)
            .saturating_add(LISTING_HEAD),
    )?;
    let at = begin_string(&mut frame)?;
    put_listing(&mut frame, keys)?;
    end_string(&mut frame, at)?;
    Octets::from_vec(frame)
}

/// The key with this blob.
#[tactic(auto, using(crate::proofs::StoredLemmas::held_stored))]
pub(super) fn find_key<'a>(keys: &'a IndexMap<Vec<u8>, HeldKey>, blob: &[u8]) -> Option<&'a HeldKey>
    requires { AreKeyed keys.now.entries }
    ensures { option_copied result ≡ held (values keys.now) blob.now }
{
    keys.get(blob)
}

/// The key with this blob, if it is still held at this moment.
#[tactic(auto, using(crate::proofs::Living::held_live))]
pub(super) fn find_live<'a>(
    keys: &'a IndexMap<Vec<u8>, HeldKey>,
    blob: &[u8],
    now: u64,
) -> Option<&'a HeldKey>
    requires keyed { AreKeyed keys.now.entries }
    requires apart { AreApart (values keys.now) }
    ensures { option_copied result ≡ held (unexpired now (values keys.now)) blob.now }
{
    match find_key(keys, blob) {
        None => None,
        Some(key) => {
            if is_past(key.deadline, now) {
                None
            } else {
                Some(key)
            }
        }
    }
}

/// Drops the keys whose deadline has come.
pub(super) fn drop_past(keys: &mut IndexMap<Vec<u8>, HeldKey>, now: u64)
    requires { AreKeyed keys.old.entries }
    ensures left { values keys.new ≡ unexpired now (values keys.old) }
    ensures keyed { AreKeyed keys.new.entries }
{
    keys.retain(|_, key| !is_past(key.deadline, now));
}

/// Drops the key with this blob from the map of keys alone.
fn drop_named(keys: &mut IndexMap<Vec<u8>, HeldKey>, blob: &[u8])
    requires { AreKeyed keys.old.entries }
    ensures left { values keys.new ≡ without_key (values keys.old) blob.now }
    ensures keyed { AreKeyed keys.new.entries }
{
    keys.retain(|_, key| key.blob.as_slice() != blob);
}

/// Adds a key at the end. There is room, so no memory is taken.
#[tactic(auto, using(crate::proofs::StoredLemmas::pushed, crate::proofs::StoredLemmas::pushed_keyed))]
fn push_key(keys: &mut IndexMap<Vec<u8>, HeldKey>, name: Vec<u8>, key: HeldKey)
    requires room { 0 < spare keys.old }
    requires absent { held (values keys.old) key.blob ≡ None }
    requires named { name.items ≡ key.blob }
    requires keyed { AreKeyed keys.old.entries }
    ensures added { values keys.new ≡ values keys.old ++ key ∷ [] }
    ensures keyed { AreKeyed keys.new.entries }
{
    match keys.insert(name, key) {
        Ok(_) => {}
        Err(_) => unreachable!(),
    }
}

/// Puts a key in the place of one with its blob. Takes no memory.
#[tactic(auto, using(crate::proofs::StoredLemmas::set_stored, crate::proofs::StoredLemmas::set_keyed))]
fn set_key(keys: &mut IndexMap<Vec<u8>, HeldKey>, at: usize, key: HeldKey)
    requires within { at < length (values keys.old) }
    requires same { (k : Held) → slice_get (values keys.old) at ≡ Some k → k.blob ≡ key.blob }
    requires keyed { AreKeyed keys.old.entries }
    ensures set { values keys.new ≡ slice_set (values keys.old) at key }
    ensures keyed { AreKeyed keys.new.entries }
{
    if let Some(slot) = keys.get_index_mut(at) {
        *slot = key;
    }
}

/// Makes room for a key of this blob and adds the blob at its deadline, or changes nothing. Returns the blob's copy by
/// which the key is to be stored.
fn make_room(
    alloc: Global,
    keys: &mut IndexMap<Vec<u8>, HeldKey>,
    due: &mut BTreeMap<u64, List<Octets>>,
    deadline: Option<u64>,
    blob: &Octets,
) -> Result<Vec<u8>, NoMemory>
    requires keyed { AreKeyed keys.old.entries }
    ensures named { IfOk result (λ name. name.items ≡ blob.now) }
    ensures room { OnOk result (0 < spare keys.new) }
    ensures due { OnOk result (Adds deadline blob.now (get nat_cmp due.old) (get nat_cmp due.new)) }
    ensures err { OnErr result (IsSame (get nat_cmp due.old) (get nat_cmp due.new)) }
    ensures same { values keys.new ≡ values keys.old }
    ensures keyed { AreKeyed keys.new.entries }
{
    let name = Vec::from_slice(alloc, blob.as_slice())?;
    keys.reserve(1)?;
    add_due_if(alloc, due, deadline, blob)?;
    Ok(name)
}

/// Appends a key whose blob no other key has, or changes nothing.
fn append(
    alloc: Global,
    keys: &mut IndexMap<Vec<u8>, HeldKey>,
    due: &mut BTreeMap<u64, List<Octets>>,
    key: HeldKey,
) -> Result<(), NoMemory>
    requires absent { held (values keys.old) key.blob ≡ None }
    requires keyed { AreKeyed keys.old.entries }
    ensures ok { OnOk result (values keys.new ≡ values keys.old ++ key ∷ []) }
    ensures due { OnOk result (Adds key.deadline key.blob (get nat_cmp due.old) (get nat_cmp due.new)) }
    ensures err { OnErr result (values keys.new ≡ values keys.old) }
    ensures same { OnErr result (IsSame (get nat_cmp due.old) (get nat_cmp due.new)) }
    ensures keyed { AreKeyed keys.new.entries }
{
    match make_room(alloc, keys, due, key.deadline, &key.blob) {
        Ok(name) => {
            push_key(keys, name, key);
            Ok(())
        }
        Err(refused) => {
            drop(key);
            Err(refused)
        }
    }
}

/// Drops the key with this blob and its deadline, or changes nothing.
#[tactic(auto, using(crate::proofs::DueLemmas::unheld))]
pub(super) fn drop_key(
    alloc: Global,
    keys: &mut IndexMap<Vec<u8>, HeldKey>,
    due: &mut BTreeMap<u64, List<Octets>>,
    blob: &[u8],
) -> Result<(), NoMemory>
    requires keyed { AreKeyed keys.old.entries }
    requires apart { AreApart (values keys.old) }
    requires agree { Agree (values keys.old) (get nat_cmp due.old) }
    ensures ok { OnOk result (values keys.new ≡ without_key (values keys.old) blob.now) }
    ensures err { OnErr result (values keys.new ≡ values keys.old) }
    ensures keyed { AreKeyed keys.new.entries }
    ensures apart { AreApart (values keys.new) }
    ensures agree { Agree (values keys.new) (get nat_cmp due.new) }
{
    match find_place(keys, blob) {
        Some(at) => drop_found(alloc, keys, due, at, blob),
        None => Ok(()),
    }
}

/// Drops the key at this index, whose blob this is, and its deadline; or changes nothing. The list of its deadline
/// first.
#[tactic(auto, using(crate::proofs::Hints::drop_found))]
fn drop_found(
    alloc: Global,
    keys: &mut IndexMap<Vec<u8>, HeldKey>,
    due: &mut BTreeMap<u64, List<Octets>>,
    at: usize,
    blob: &[u8],
) -> Result<(), NoMemory>
    requires within { at < length (values keys.old) }
    requires found { held (values keys.old) blob.now ≡ slice_get (values keys.old) at }
    requires keyed { AreKeyed keys.old.entries }
    requires apart { AreApart (values keys.old) }
    requires agree { Agree (values keys.old) (get nat_cmp due.old) }
    ensures ok { OnOk result (values keys.new ≡ without_key (values keys.old) blob.now) }
    ensures err { OnErr result (values keys.new ≡ values keys.old) }
    ensures keyed { AreKeyed keys.new.entries }
    ensures apart { AreApart (values keys.new) }
    ensures agree { Agree (values keys.new) (get nat_cmp due.new) }
{
    let deadline = key_at(keys, at).deadline;
    drop_due_if(alloc, due, deadline, blob)?;
    drop_named(keys, blob);
    Ok(())
}

/// Puts a key in the place of the one with its blob, or changes nothing. Its deadline first.
#[tactic(auto, using(crate::proofs::Hints::replace))]
fn replace(
    alloc: Global,
    keys: &mut IndexMap<Vec<u8>, HeldKey>,
    due: &mut BTreeMap<u64, List<Octets>>,
    at: usize,
    key: HeldKey,
) -> Result<(), NoMemory>
    requires within { at < length (values keys.old) }
    requires same { (k : Held) → slice_get (values keys.old) at ≡ Some k → k.blob ≡ key.blob }
    requires keyed { AreKeyed keys.old.entries }
    requires apart { AreApart (values keys.old) }
    requires agree { Agree (values keys.old) (get nat_cmp due.old) }
    ensures ok { OnOk result (values keys.new ≡ slice_set (values keys.old) at key) }
    ensures err { OnErr result (values keys.new ≡ values keys.old) }
    ensures keyed { AreKeyed keys.new.entries }
    ensures apart { AreApart (values keys.new) }
    ensures agree { Agree (values keys.new) (get nat_cmp due.new) }
{
    let before = key_at(keys, at).deadline;
    if before == key.deadline {
        set_key(keys, at, key);
        return Ok(());
    }
    match move_due(alloc, due, before, key.deadline, &key.blob) {
        Ok(()) => {
            set_key(keys, at, key);
            Ok(())
        }
        Err(refused) => {
            drop(key);
            Err(refused)
        }
    }
}

/// Replaces the key with the same blob, or appends the key; or changes nothing.
#[tactic(auto, using(crate::proofs::Hints::put_key))]
pub(super) fn put_key(
    alloc: Global,
    keys: &mut IndexMap<Vec<u8>, HeldKey>,
    due: &mut BTreeMap<u64, List<Octets>>,
    key: HeldKey,
) -> Result<(), NoMemory>
    requires keyed { AreKeyed keys.old.entries }
    requires apart { AreApart (values keys.old) }
    requires agree { Agree (values keys.old) (get nat_cmp due.old) }
    ensures ok { OnOk result (values keys.new ≡ with_key (values keys.old) key) }
    ensures err { OnErr result (values keys.new ≡ values keys.old) }
    ensures keyed { AreKeyed keys.new.entries }
    ensures apart { AreApart (values keys.new) }
    ensures agree { Agree (values keys.new) (get nat_cmp due.new) }
{
    match find_place(keys, key.blob.as_slice()) {
        Some(at) => replace(alloc, keys, due, at, key),
        None => append(alloc, keys, due, key),
    }
}
