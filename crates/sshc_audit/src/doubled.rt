//! Drops doubled lines.

ghost use Rattle.std.specs.Prelude.{◌≡◌, ◌++◌, ◌∷◌, [], List, ℕ, IfOk, OnOk, Some, None, if◌then◌else◌};
ghost use Rattle.sshc_audit.specs.Rewriting.{rewritten, Agrees};
ghost use Rattle.sshc_audit.specs.Joining.{with_text};
ghost use Rattle.sshc_audit.specs.Doubled.{is_doubled, drops_doubled, IsSeen};

use crate::joining::Joining;
use crate::line::line_of;
use sshc_hosts::cut;
use sshc_wire::{NoMemory, Text};
use std::alloc::Global;
use std::collections::HashSet;

/// The fields by which lines are compared: whether the line revokes its key, its host field and its third field.
type SeenEntry<'a> = (bool, &'a str, &'a str);

/// Whether the part is a line with the same compared fields as an earlier one. Adds the part to the earlier ones.
fn is_doubled<'a>(seen: &mut HashSet<SeenEntry<'a>>, part: &'a str) -> Result<bool, NoMemory>
    ensures answer { (earlier : List (List ℕ)) → IsSeen seen.old earlier
        → IfOk result (λ b. b ≡ is_doubled earlier part.now) }
    ensures seen { (earlier : List (List ℕ)) → IsSeen seen.old earlier
        → OnOk result (IsSeen seen.new (earlier ++ part.now ∷ [])) }
{
    match line_of(part) {
        None => Ok(false),
        Some(line) => Ok(!seen.insert((line.mark.is_revoked(), line.host, line.key))?),
    }
}

/// Adds the part, unless it is doubled.
fn add_undoubled<'a>(
    seen: &mut HashSet<SeenEntry<'a>>,
    out: &mut Joining,
    part: &'a str,
) -> Result<(), NoMemory>
    ensures added { (earlier : List (List ℕ)) → IsSeen seen.old earlier
        → OnOk result (out.new ≡ with_text out.old (if is_doubled earlier part.now then None else Some part.now)) }
    ensures seen { (earlier : List (List ℕ)) → IsSeen seen.old earlier
        → OnOk result (IsSeen seen.new (earlier ++ part.now ∷ [])) }
{
    if is_doubled(seen, part)? {
        Ok(())
    } else {
        out.add(part)
    }
}

/// The known hosts text without each line whose mark, host field and third field are those of an earlier line. No
/// verdict changes except for its line number.
#[tactic(auto, using(crate::proofs::DoubledLaws::doubled_agrees))]
pub fn drop_doubled(alloc: Global, text: &str) -> Result<Text, NoMemory>
    ensures text { IfOk result (λ t. t ≡ rewritten (drops_doubled text.now)) }
    ensures verdicts { (host : List ℕ) → Agrees text.now (drops_doubled text.now) host }
{
    let mut seen = HashSet::new(alloc);
    let mut out = Joining::new(alloc, b'\n');
    let mut left = text;
    'parts: loop {
        let (part, rest) = cut(left, b'\n');
        add_undoubled(&mut seen, &mut out, part)?;
        match rest {
            None => return out.into_text(),
            Some(others) => left = others,
        }
    }
}
