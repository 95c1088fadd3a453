//! The lists of blobs at their deadlines.

ghost use Rattle.std.specs.Prelude.{◌≡◌, ℕ, ◌<◌, ◌≤◌, [], false, not, true, bytes_eq, IfOk, OnErr, OnOk, None, Some};
ghost use Rattle.std.specs.Prelude.{length, slice_get};
ghost use Rattle.std.specs.BTreeMap.{get};
ghost use Rattle.std.specs.Ordering.{nat_cmp};
ghost use Rattle.sshc_agent_core.specs.Deadlines.{Adds, Drops, IsAdded, IsCut, IsMoved, IsReplaced, IsReplacedAt};
ghost use Rattle.sshc_agent_core.specs.Deadlines.{IsSame, Leaves, if_there, listed_at, others, unless_empty};

use sshc_wire::{List, NoMemory, Octets};
use std::alloc::Global;
use std::collections::BTreeMap;

// ---- a blob is added

/// Adds a copy of the blob at the end of the list of its deadline, if it has one, or changes nothing.
pub(super) fn add_due_if(
    alloc: Global,
    due: &mut BTreeMap<u64, List<Octets>>,
    deadline: Option<u64>,
    blob: &Octets,
) -> Result<(), NoMemory>
    ensures ok { OnOk result (Adds deadline blob.now (get nat_cmp due.old) (get nat_cmp due.new)) }
    ensures err { OnErr result (IsSame (get nat_cmp due.old) (get nat_cmp due.new)) }
{
    match deadline {
        Some(moment) => add_due(alloc, due, moment, blob.copy()?),
        None => Ok(()),
    }
}

/// Adds the blob at the end of the list of this moment, or changes nothing.
fn add_due(
    alloc: Global,
    due: &mut BTreeMap<u64, List<Octets>>,
    moment: u64,
    blob: Octets,
) -> Result<(), NoMemory>
    ensures ok { OnOk result (IsAdded moment blob (get nat_cmp due.old) (get nat_cmp due.new)) }
    ensures err { OnErr result (IsSame (get nat_cmp due.old) (get nat_cmp due.new)) }
{
    if !due.contains_key(&moment) {
        return add_first(alloc, due, moment, blob);
    }
    add_next(due, moment, blob)
}

/// Adds a list of this blob alone.
fn add_first(
    alloc: Global,
    due: &mut BTreeMap<u64, List<Octets>>,
    moment: u64,
    blob: Octets,
) -> Result<(), NoMemory>
    requires { get nat_cmp due.old moment ≡ None }
    ensures ok { OnOk result (IsAdded moment blob (get nat_cmp due.old) (get nat_cmp due.new)) }
    ensures err { OnErr result (IsSame (get nat_cmp due.old) (get nat_cmp due.new)) }
{
    let mut blobs = List::new(alloc);
    blobs.push(blob)?;
    due.insert(moment, blobs)?;
    Ok(())
}

/// Adds the blob to the list that is there.
fn add_next(
    due: &mut BTreeMap<u64, List<Octets>>,
    moment: u64,
    blob: Octets,
) -> Result<(), NoMemory>
    ensures ok { OnOk result (IsAdded moment blob (get nat_cmp due.old) (get nat_cmp due.new)) }
    ensures err { OnErr result (IsSame (get nat_cmp due.old) (get nat_cmp due.new)) }
{
    match due.get_mut(&moment) {
        Some(blobs) => blobs.push(blob),
        None => Err(NoMemory),
    }
}

// ---- a blob goes

/// Lets the blob go from the list of its deadline, if it has one, and the list with its last blob; or changes nothing.
/// Takes memory only where other blobs are in that list.
#[tactic(auto, using(crate::proofs::DueLists::dropped_by))]
pub(super) fn drop_due_if(
    alloc: Global,
    due: &mut BTreeMap<u64, List<Octets>>,
    deadline: Option<u64>,
    blob: &[u8],
) -> Result<(), NoMemory>
    ensures ok { OnOk result (Drops deadline blob.now (get nat_cmp due.old) (get nat_cmp due.new)) }
    ensures err { OnErr result (IsSame (get nat_cmp due.old) (get nat_cmp due.new)) }
{
    let rest = others_if(alloc, due, deadline, blob)?;
    replace_if(due, deadline, rest);
    Ok(())
}

/// Moves the blob from the list of one deadline to that of another, or changes nothing.
pub(super) fn move_due(
    alloc: Global,
    due: &mut BTreeMap<u64, List<Octets>>,
    before: Option<u64>,
    deadline: Option<u64>,
    blob: &Octets,
) -> Result<(), NoMemory>
    requires { before ≡ deadline → ⊥ }
    ensures ok { OnOk result (IsMoved before deadline blob.now (get nat_cmp due.old) (get nat_cmp due.new)) }
    ensures err { OnErr result (IsSame (get nat_cmp due.old) (get nat_cmp due.new)) }
{
    let rest = others_if(alloc, due, before, blob.as_slice())?;
    add_due_if(alloc, due, deadline, blob)?;
    replace_if(due, before, rest);
    Ok(())
}

/// The blobs at this deadline without this one, if the blob has a deadline.
fn others_if(
    alloc: Global,
    due: &BTreeMap<u64, List<Octets>>,
    deadline: Option<u64>,
    blob: &[u8],
) -> Result<Option<List<Octets>>, NoMemory>
    ensures { IfOk result (λ rest. Leaves deadline blob.now (get nat_cmp due.now) rest) }
{
    match deadline {
        Some(moment) => others_at(alloc, due, moment, blob),
        None => Ok(None),
    }
}

/// Copies of the blobs at this moment without this one; `None` where no other is there.
fn others_at(
    alloc: Global,
    due: &BTreeMap<u64, List<Octets>>,
    moment: u64,
    blob: &[u8],
) -> Result<Option<List<Octets>>, NoMemory>
    ensures { IfOk result (λ rest. rest ≡ unless_empty (others blob.now (listed_at (get nat_cmp due.now moment)))) }
{
    match due.get(&moment) {
        Some(blobs) => Ok(unless_empty(copied_others(alloc, blobs.as_slice(), blob)?)),
        None => Ok(None),
    }
}

#[tactic(auto, using(crate::proofs::DueLists::some_unless, crate::proofs::DueLists::none_unless))]
fn unless_empty(blobs: List<Octets>) -> Option<List<Octets>>
    ensures { result ≡ unless_empty blobs }
{
    if blobs.as_slice().len() == 0 {
        return None;
    }
    Some(blobs)
}

/// Copies of the blobs except this one. Takes no memory where there is no other.
fn copied_others(alloc: Global, blobs: &[Octets], blob: &[u8]) -> Result<List<Octets>, NoMemory>
    ensures { IfOk result (λ rest. rest ≡ others blob.now blobs.now) }
{
    let mut rest = List::new(alloc);
    for item in blobs {
        if differs(item, blob) {
            rest.push(item.copy()?)?;
        }
    }
    Ok(rest)
}

/// Whether these are other bytes.
fn differs(item: &Octets, blob: &[u8]) -> bool
    ensures { result ≡ not (bytes_eq item.now blob.now) }
{
    item.as_slice() != blob
}

/// Puts what is left in the place of the list at this deadline, if there is one. Takes no memory.
fn replace_if(
    due: &mut BTreeMap<u64, List<Octets>>,
    deadline: Option<u64>,
    rest: Option<List<Octets>>,
)
    ensures { IsReplacedAt deadline rest (get nat_cmp due.old) (get nat_cmp due.new) }
{
    if let Some(moment) = deadline {
        replace(due, moment, rest);
    }
}

/// Puts what is left in the place of the list at this moment: nothing where there is no list.
fn replace(due: &mut BTreeMap<u64, List<Octets>>, moment: u64, rest: Option<List<Octets>>)
    ensures { IsReplaced moment rest (get nat_cmp due.old) (get nat_cmp due.new) }
{
    match rest {
        Some(blobs) => replace_list(due, moment, blobs),
        None => {
            let _ = due.remove(&moment);
        }
    }
}

fn replace_list(due: &mut BTreeMap<u64, List<Octets>>, moment: u64, blobs: List<Octets>)
    ensures list { get nat_cmp due.new moment ≡ if_there (Some blobs) (get nat_cmp due.old moment) }
    ensures others { (q : ℕ) → (moment ≡ q → ⊥) → get nat_cmp due.new q ≡ get nat_cmp due.old q }
{
    if let Some(slot) = due.get_mut(&moment) {
        *slot = blobs;
    }
}

// ---- a moment comes

/// Whether the first list is at this moment or before.
fn is_first_past(due: &BTreeMap<u64, List<Octets>>, now: u64) -> bool
    ensures past { result ≡ true → (k : ℕ) (v : _) → slice_get due.now.entries 0 ≡ Some (k, v) → k ≤ now }
    ensures some { result ≡ true → 0 < length due.now.entries }
    ensures none { result ≡ false → (q : ℕ) → q ≤ now → get nat_cmp due.now q ≡ None }
{
    match due.first_key_value() {
        Some((first, _)) => *first <= now,
        None => false,
    }
}

/// Lets the lists up to a moment go. Returns whether there was one. Takes no memory.
pub(super) fn cut_due(due: &mut BTreeMap<u64, List<Octets>>, now: u64) -> bool
    ensures cut { IsCut now (get nat_cmp due.old) (get nat_cmp due.new) }
    ensures none { result ≡ false → (q : ℕ) → q ≤ now → get nat_cmp due.old q ≡ None }
{
    let mut any = false;
    while is_first_past(due, now) {
        let _ = due.pop_first();
        any = true;
    }
    any
}
