//! Reads counted lists: a number of four bytes, and that many parts.

ghost use Rattle.std.specs.Prelude.{◌≡◌, ℕ, List as Items, Ok, Result, IfOk};
ghost use Rattle.sshc_wire.specs.Counted.{times_at};
ghost use Rattle.sshc_wire.specs.Reads.{string_at};
ghost use Rattle.sshc_wire.specs.RecordReads.{prompt_at, prompts_at, strings_at};

use crate::auth_record::Prompt;
use crate::cursor::Cursor;
use crate::error::RecordError;
use crate::list::List;
use crate::octets::Octets;
use crate::reading::part::{read_octets, read_text};
use std::alloc::Global;

/// A part that lists have.
trait Part: Drop {
    ghost use Rattle.sshc_wire.specs.declared.error.WireError.{WireError};

    ghost at: { Items ℕ → Result (Self × Items ℕ) WireError };

    fn read(alloc: Global, c: &mut Cursor<'_>) -> Result<Self, RecordError>
        ensures { IfOk result (λ x. at c.old ≡ Ok (x, c.new)) };
}

impl Part for Octets {
    ghost at = { string_at };

    fn read(alloc: Global, c: &mut Cursor<'_>) -> Result<Octets, RecordError> {
        read_octets(alloc, c)
    }
}

impl Part for Prompt {
    ghost at = { prompt_at };

    #[tactic(auto, unfolding(crate::specs::RecordReads::prompt_at))]
    fn read(alloc: Global, c: &mut Cursor<'_>) -> Result<Prompt, RecordError> {
        let prompt = read_text(alloc, c)?;
        let echo = c.boolean()?;
        Ok(Prompt { prompt, echo })
    }
}

/// So many parts.
fn parts<T: Part>(alloc: Global, count: u32, c: &mut Cursor<'_>) -> Result<List<T>, RecordError>
    ensures { IfOk result (λ l. times_at count T.at c.old ≡ Ok (l, c.new)) }
{
    let mut parts = List::new(alloc);
    for _taken in 0..count {
        let part = T::read(alloc, c)?;
        parts.push(part)?;
    }
    Ok(parts)
}

#[tactic(auto, unfolding(crate::specs::RecordReads::strings_at))]
pub(super) fn read_strings(alloc: Global, c: &mut Cursor<'_>) -> Result<List<Octets>, RecordError>
    ensures { IfOk result (λ l. strings_at c.old ≡ Ok (l, c.new)) }
{
    let count = c.u32()?;
    parts::<Octets>(alloc, count, c)
}

#[tactic(auto, unfolding(crate::specs::RecordReads::prompts_at))]
pub(super) fn read_prompts(alloc: Global, c: &mut Cursor<'_>) -> Result<List<Prompt>, RecordError>
    ensures { IfOk result (λ l. prompts_at c.old ≡ Ok (l, c.new)) }
{
    let count = c.u32()?;
    parts::<Prompt>(alloc, count, c)
}
