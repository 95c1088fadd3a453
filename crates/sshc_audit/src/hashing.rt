//! Hashes names.

ghost use Rattle.std.specs.Prelude.{◌≡◌, ◌∷◌, [], IfOk, OnOk, OnErr, IsErrOf};
ghost use Rattle.sshc_hosts.specs.MatchingLines.{parts_at};
ghost use Rattle.sshc_audit.specs.declared.error.AuditError.TheVariants.{SaltFault};
ghost use Rattle.sshc_audit.specs.Joining.{with_piece};
ghost use Rattle.sshc_audit.specs.Salts.{Took, TookAtMost, Wants, HasSaltCause};
ghost use Rattle.sshc_audit.specs.Hashing.{is_name, hashed_entry, total, first_salt, entry_needs, hashed_or_same};
ghost use Rattle.sshc_audit.specs.Hashing.{hashed_field, part_needs, hashed_part, names_of, Hashes};
ghost use Rattle.sshc_audit.specs.HashingSteps.{Made, MadeNext};

use crate::error::AuditError;
use crate::joining::Joining;
use crate::line::{add_with_host, line_of};
use crate::salts::Salts;
use sshc_hosts::{cut, hmac_sha1};
use sshc_wire::{Failed, NoMemory, Text};
use std::alloc::Global;

/// Whether the entry is a name that isn't hashed yet.
fn is_name(entry: &str) -> bool
    ensures { result ≡ is_name entry.now }
{
    !entry.is_empty() && !entry.starts_with("|1|")
}

/// Adds the name, hashed with the salt.
fn push_hashed(out: &mut Joining, salt: &[u8; 20], entry: &str) -> Result<(), NoMemory>
    ensures { OnOk result (out.new ≡ with_piece out.old (hashed_entry salt.now entry.now)) }
{
    let hash = hmac_sha1(salt, entry.as_bytes());
    out.push("|1|")?;
    out.push_base64(salt)?;
    out.push("|")?;
    out.push_base64(&hash)
}

/// The next salt.
#[tactic(auto, using(crate::proofs::SaltLemmas::took_nothing_at_most))]
fn next_salt<S: Salts>(salts: &mut S) -> Result<[u8; 20], AuditError>
    ensures took { IfOk result (λ salt. Took (S.state salts.old) (S.state salts.new) (salt ∷ [])) }
    ensures wants { IsErrOf result SaltFault → Wants (S.state salts.old) 1 }
    ensures refused { OnErr result (TookAtMost (S.state salts.old) (S.state salts.new) 0) }
    ensures cause { HasSaltCause (S.state salts.old).faults (S.state salts.new).faults result }
{
    match salts.salt() {
        Ok(salt) => Ok(salt),
        Err(Failed::Fault) => Err(AuditError::SaltFault),
        Err(Failed::NoMemory) => Err(AuditError::NoMemory),
    }
}

/// Adds the name, hashed with the next salt.
fn add_hashed<S: Salts>(salts: &mut S, out: &mut Joining, entry: &str) -> Result<(), AuditError>
    ensures made { OnOk result (MadeNext (S.state salts.old) (S.state salts.new)
        1 (λ ss. hashed_entry (first_salt ss) entry.now) out.old out.new) }
    ensures wants { IsErrOf result SaltFault → Wants (S.state salts.old) 1 }
    ensures refused { OnErr result (TookAtMost (S.state salts.old) (S.state salts.new) 1) }
    ensures cause { HasSaltCause (S.state salts.old).faults (S.state salts.new).faults result }
{
    let salt = next_salt(salts)?;
    out.start()?;
    push_hashed(out, &salt, entry)?;
    Ok(())
}

/// Adds the entry, hashed if it is a name.
fn add_entry<S: Salts>(salts: &mut S, out: &mut Joining, entry: &str) -> Result<(), AuditError>
    ensures made { OnOk result (MadeNext (S.state salts.old) (S.state salts.new)
        (entry_needs entry.now) (λ ss. hashed_or_same ss entry.now) out.old out.new) }
    ensures wants { IsErrOf result SaltFault → Wants (S.state salts.old) (entry_needs entry.now) }
    ensures refused { OnErr result (TookAtMost (S.state salts.old) (S.state salts.new) (entry_needs entry.now)) }
    ensures cause { HasSaltCause (S.state salts.old).faults (S.state salts.new).faults result }
{
    if is_name(entry) {
        return add_hashed(salts, out, entry);
    }
    out.add(entry)?;
    Ok(())
}

/// The host field with each name hashed.
fn hashed_field<S: Salts>(alloc: Global, salts: &mut S, field: &str) -> Result<Text, AuditError>
    ensures made { IfOk result (λ t. Made (S.state salts.old) (S.state salts.new)
        (total entry_needs (parts_at 44 field.now)) (λ ss. hashed_field ss field.now) t) }
    ensures wants { IsErrOf result SaltFault → Wants (S.state salts.old) (total entry_needs (parts_at 44 field.now)) }
    ensures refused { OnErr result (TookAtMost (S.state salts.old) (S.state salts.new)
        (total entry_needs (parts_at 44 field.now))) }
    ensures cause { HasSaltCause (S.state salts.old).faults (S.state salts.new).faults result }
{
    let mut out = Joining::new(alloc, b',');
    let mut left = field;
    'entries: loop {
        let (entry, rest) = cut(left, b',');
        add_entry(salts, &mut out, entry)?;
        match rest {
            None => return Ok(out.into_text()?),
            Some(others) => left = others,
        }
    }
}

/// Adds the part, with the names of its line hashed.
fn add_part<S: Salts>(
    alloc: Global,
    salts: &mut S,
    out: &mut Joining,
    part: &str,
) -> Result<(), AuditError>
    ensures made { OnOk result (MadeNext (S.state salts.old) (S.state salts.new)
        (part_needs part.now) (λ ss. hashed_part ss part.now) out.old out.new) }
    ensures wants { IsErrOf result SaltFault → Wants (S.state salts.old) (part_needs part.now) }
    ensures refused { OnErr result (TookAtMost (S.state salts.old) (S.state salts.new) (part_needs part.now)) }
    ensures cause { HasSaltCause (S.state salts.old).faults (S.state salts.new).faults result }
{
    match line_of(part) {
        None => Ok(out.add(part)?),
        Some(line) => {
            let field = hashed_field(alloc, salts, line.host)?;
            Ok(add_with_host(out, line, field.as_str())?)
        }
    }
}

/// The known hosts text with each name hashed under the next salt: HMAC-SHA1, as OpenSSH's `HashKnownHosts` writes it.
/// Entries that are empty or already hashed stay. `SaltFault` is returned only if there was no salt for a name; after
/// an error the salts already taken are used up, at most as many as there are names.
pub fn hash_names<S: Salts>(alloc: Global, text: &str, salts: &mut S) -> Result<Text, AuditError>
    ensures hashed { IfOk result (λ t. Hashes text.now (S.state salts.old) (S.state salts.new) t) }
    ensures wants { IsErrOf result SaltFault → Wants (S.state salts.old) (names_of text.now) }
    ensures refused { OnErr result (TookAtMost (S.state salts.old) (S.state salts.new) (names_of text.now)) }
    ensures cause { HasSaltCause (S.state salts.old).faults (S.state salts.new).faults result }
{
    let mut out = Joining::new(alloc, b'\n');
    let mut left = text;
    'parts: loop {
        let (part, rest) = cut(left, b'\n');
        add_part(alloc, salts, &mut out, part)?;
        match rest {
            None => return Ok(out.into_text()?),
            Some(others) => left = others,
        }
    }
}
