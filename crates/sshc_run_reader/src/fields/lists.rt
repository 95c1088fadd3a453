//! Counted lists: a number below 2^32, and that many parts. A count that is too large for the remaining bytes is
//! refused before anything is allocated for it.

ghost use Rattle.std.specs.Prelude.{◌≡◌, ◌<◌, ◌≤◌, List as Items, ℕ, Result};
ghost use Rattle.sshc_wire.specs.Counted.{times_at, counted_at};
ghost use Rattle.sshc_run_reader.specs.EventParts.{u32_at, octets_at, words_at, mode_at, key_at};
ghost use Rattle.sshc_run_reader.specs.Gives.{Gives};

use crate::error::EventError;
use crate::keys::key_of;
use crate::parts::{mode_of, octets_of, text_of, u32_of};
use sshc_key::PublicKey;
use sshc_wire::{Cursor, List, Octets, Pty, Text};
use std::alloc::Global;

/// A part that can be an element of a list.
pub trait Part: Drop {
    ghost use Rattle.sshc_run_reader.specs.declared.error.EventError.{EventError};

    ghost at: { Items ℕ → Result (Self × Items ℕ) EventError };

    fn read(alloc: Global, c: &mut Cursor<'_>) -> Result<Self, EventError>
        ensures { Gives (λ x. x) result c.new (at c.old) };
}

impl Part for Octets {
    ghost at = { octets_at };

    fn read(alloc: Global, c: &mut Cursor<'_>) -> Result<Octets, EventError> {
        octets_of(alloc, c)
    }
}

impl Part for Text {
    ghost at = { words_at };

    fn read(alloc: Global, c: &mut Cursor<'_>) -> Result<Text, EventError> {
        text_of(alloc, c)
    }
}

impl Part for (Pty, u32) {
    ghost at = { mode_at };

    fn read(_alloc: Global, c: &mut Cursor<'_>) -> Result<(Pty, u32), EventError> {
        mode_of(c)
    }
}

impl Part for PublicKey {
    ghost at = { key_at };

    fn read(alloc: Global, c: &mut Cursor<'_>) -> Result<PublicKey, EventError> {
        key_of(alloc, c)
    }
}

/// Reads `count` parts.
fn parts<T: Part>(alloc: Global, count: u32, c: &mut Cursor<'_>) -> Result<List<T>, EventError>
    ensures { Gives (λ l. l) result c.new (times_at count T.at c.old) }
{
    let mut parts = List::new(alloc);
    for _taken in 0..count {
        let part = T::read(alloc, c)?;
        parts.push(part)?;
    }
    Ok(parts)
}

/// Reads a count and that many parts, of which each has at least `least` bytes.
#[tactic(auto, unfolding(sshc_wire::specs::Counted::counted_at))]
pub fn list_of<T: Part>(
    alloc: Global,
    least: usize,
    c: &mut Cursor<'_>,
) -> Result<List<T>, EventError>
    requires { least ≤ 8 }
    ensures { Gives (λ l. l) result c.new (counted_at least EventError.Bad u32_at T.at c.old) }
{
    let count = u32_of(c)?;
    if c.rest().len() < count as usize * least {
        return Err(EventError::Bad);
    }
    parts(alloc, count, c)
}
