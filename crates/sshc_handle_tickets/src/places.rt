//! The places of things by their numbers.

ghost use Rattle.std.specs.Prelude.{◌≡◌, ℕ, false, IfNone, IfSome, OnOk};
ghost use Rattle.sshc_handle_tickets.specs.Places.{Forgets, ForgetsHappened, IsAt, Keeps, KeepsHappened, Notes};
ghost use Rattle.sshc_handle_tickets.specs.Places.{NotesHappened, is_there, stands};

use sshc_wire::NoMemory;
use std::collections::BTreeSet;

/// The first place of this number.
pub(crate) fn first_place(places: &BTreeSet<(u32, u64)>, number: u32) -> Option<u64>
    ensures found { IfSome result (λ place. IsAt (stands places.now number) place) }
    ensures none { IfNone result ((place : ℕ) → stands places.now number place ≡ false) }
{
    match places.range((number, 0)..).next() {
        Some(first) if first.0 == number => Some(first.1),
        _ => None,
    }
}

/// Notes the place of something that may have a number.
pub(crate) fn note(
    places: &mut BTreeSet<(u32, u64)>,
    number: Option<u32>,
    place: u64,
) -> Result<(), NoMemory>
    ensures noted { OnOk result (Notes number place places.old places.new) }
    ensures others { Keeps number place places.old places.new }
{
    if let Some(number) = number {
        let _is_new = places.insert((number, place))?;
    }
    Ok(())
}

/// Forgets the place of something that may have a number.
pub(crate) fn forget(places: &mut BTreeSet<(u32, u64)>, number: Option<u32>, place: u64)
    ensures { Forgets number place places.old places.new }
{
    if let Some(number) = number {
        let _was_there = places.remove(&(number, place));
    }
}

/// Notes the place of something, if it happened.
pub(crate) fn note_happened(
    places: &mut BTreeSet<u64>,
    happened: bool,
    place: u64,
) -> Result<(), NoMemory>
    ensures noted { OnOk result (NotesHappened happened place places.old places.new) }
    ensures others { KeepsHappened happened place places.old places.new }
{
    if happened {
        let _is_new = places.insert(place)?;
    }
    Ok(())
}

/// Forgets the place of something, if it happened.
pub(crate) fn forget_happened(places: &mut BTreeSet<u64>, happened: bool, place: u64)
    ensures { ForgetsHappened happened place places.old places.new }
{
    if happened {
        let _was_there = places.remove(&place);
    }
}

/// The first place at which something happened.
pub(crate) fn first_happened(places: &BTreeSet<u64>) -> Option<u64>
    ensures found { IfSome result (λ place. IsAt (is_there places.now) place) }
    ensures none { IfNone result ((place : ℕ) → is_there places.now place ≡ false) }
{
    match places.first() {
        Some(first) => Some(*first),
        None => None,
    }
}
