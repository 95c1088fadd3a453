//! Whether a host key is one that the matching lines of a known hosts text record, contradict or revoke.

ghost use Rattle.std.specs.Prelude.{◌≡◌, true, option_copied, map, IfErr, OnOk};
ghost use Rattle.sshc_key.specs.View.{view};
ghost use Rattle.sshc_key.specs.KeyEq.{key_eq};
ghost use Rattle.sshc_key.specs.AlgorithmNames.{kind_name};
ghost use Rattle.sshc_key.specs.declared.kind.Kind.TheVariants.{Known};
ghost use Rattle.sshc_key.specs.declared.kind.Known.TheVariants.{Ecdsa};
ghost use Rattle.sshc_hosts.specs.Judgement.{algorithm_name, and_key, and_line, contradicts, first_line, has_key};
ghost use Rattle.sshc_hosts.specs.Judgement.{is_certificate, judged, judged_among, keys_seen, known_keys, marked_keys};
ghost use Rattle.sshc_hosts.specs.Judgement.{read_lines, revoked_keys, same_algorithm, IsRefusal, IsUnreadable};
ghost use Rattle.sshc_hosts.specs.MatchingLines.{line_seen};
ghost use Rattle.sshc_hosts.specs.Acceptance.{IsAcceptedBy};
ghost use Rattle.sshc_key.specs.Gives.{GivesAll};
ghost use Rattle.sshc_key.specs.KeyText.{decoded_key};
ghost use Rattle.sshc_key.specs.Nesting.{Parses};
ghost use Rattle.sshc_hosts.specs.HostText.{host_text};

use crate::host::host_text;
use crate::lines::{KeyField, matching_lines};
use crate::marks::Mark;
use sshc_key::{EcdsaCurve, Error, KeyData, PublicKey, parse_public_key_base64};
use sshc_wire::NoMemory;
use std::alloc::Global;

/// The name of ECDSA's algorithm with a curve.
fn ecdsa_name(curve: EcdsaCurve) -> &'static str
    ensures { result.now ≡ kind_name (Known (Ecdsa curve)) }
{
    match curve {
        EcdsaCurve::NistP256 => "ecdsa-sha2-nistp256",
        EcdsaCurve::NistP384 => "ecdsa-sha2-nistp384",
        EcdsaCurve::NistP521 => "ecdsa-sha2-nistp521",
    }
}

/// The name of a plain key's algorithm.
fn algorithm_name(key: &KeyData) -> Option<&str>
    ensures { option_copied result ≡ algorithm_name (view key.now) }
{
    match key {
        KeyData::Dsa { .. } => Some("ssh-dss"),
        KeyData::Ecdsa { curve, .. } => Some(ecdsa_name(*curve)),
        KeyData::Ed25519 { .. } => Some("ssh-ed25519"),
        KeyData::Rsa { .. } => Some("ssh-rsa"),
        KeyData::SkEcdsaSha2NistP256 { .. } => Some("sk-ecdsa-sha2-nistp256@openssh.com"),
        KeyData::SkEd25519 { .. } => Some("sk-ssh-ed25519@openssh.com"),
        KeyData::Other { name, .. } => Some(name.as_str()),
        KeyData::Certificate(certificate) => {
            let _ = certificate.is_certificate();
            None
        }
    }
}

/// Whether the key is a certificate.
fn is_certificate(key: &PublicKey) -> bool
    ensures { result ≡ is_certificate key.now.0 }
{
    match &key.key {
        KeyData::Certificate(certificate) => certificate.is_certificate(),
        _ => false,
    }
}

/// Whether both are plain keys of one algorithm.
fn same_algorithm(key: &PublicKey, other: &PublicKey) -> bool
    ensures { result ≡ same_algorithm key.now.0 other.now.0 }
{
    match (algorithm_name(&key.key), algorithm_name(&other.key)) {
        (Some(name), Some(other)) => name == other,
        _ => false,
    }
}

/// Whether both have the same key data, whatever their comments are.
fn same_key(key: &PublicKey, other: &PublicKey) -> bool
    ensures { result ≡ key_eq key.now.0 other.now.0 }
{
    key.key == other.key
}

/// The first line that has the key.
fn line_with(key: &PublicKey, known: &[(u64, PublicKey)]) -> Option<u64>
    ensures { result ≡ first_line (has_key key.now.0) known.now }
{
    for line in known {
        if same_key(key, &line.1) {
            return Some(line.0);
        }
    }
    None
}

/// The first line that has another key of the key's algorithm.
fn changed_line(key: &PublicKey, known: &[(u64, PublicKey)]) -> Option<u64>
    ensures { result ≡ first_line (contradicts key.now.0) known.now }
{
    for line in known {
        if same_algorithm(key, &line.1) && !same_key(key, &line.1) {
            return Some(line.0);
        }
    }
    None
}

/// The keys of matching lines with the numbers of their lines, in order, by the marks of the lines.
#[derive(Drop)]
struct MarkedKeys {
    recorded: Vec<(u64, PublicKey)>,
    revoked: Vec<(u64, PublicKey)>,
}

/// Whether the key is one of the recorded keys; otherwise `Revoked` with the first line that revokes it, or
/// `KeyChanged` with the first line that contradicts it.
fn judge_among(key: &PublicKey, keys: &MarkedKeys) -> Result<bool, Error>
    ensures { result ≡ judged_among key.now.0 (keys_seen keys.now) }
{
    if let Some(line) = line_with(key, keys.revoked.as_slice()) {
        return Err(Error::Revoked { line });
    }
    if let Some(line) = changed_line(key, keys.recorded.as_slice()) {
        return Err(Error::KeyChanged { line });
    }
    Ok(line_with(key, keys.recorded.as_slice()).is_some())
}

/// The key of a line's third field.
fn line_key(alloc: Global, field: &str) -> Result<PublicKey, Error>
    ensures { Parses result (decoded_key field.now) }
{
    parse_public_key_base64(alloc, field)
}

/// Adds a key to those of its line's mark.
fn add_key(keys: &mut MarkedKeys, mark: Mark, known: (u64, PublicKey)) -> Result<(), NoMemory>
    ensures { OnOk result (keys_seen keys.new ≡ and_key mark known (keys_seen keys.old)) }
{
    match mark {
        Mark::Recorded => keys.recorded.push(known)?,
        Mark::Revoked => keys.revoked.push(known)?,
    }
    Ok(())
}

/// Adds the key of a line, or returns why it can't be read.
fn add_line(alloc: Global, keys: &mut MarkedKeys, line: &(u64, KeyField<'_>)) -> Result<(), Error>
    ensures { GivesAll (λ _. keys_seen keys.new) result (and_line (line_seen line.now) (keys_seen keys.old)) }
{
    let key = line_key(alloc, line.1.text)?;
    add_key(keys, line.1.mark, (line.0, key))?;
    Ok(())
}

/// The keys of the lines, or why the first unreadable line can't be read.
fn read_lines(alloc: Global, lines: &[(u64, KeyField<'_>)]) -> Result<MarkedKeys, Error>
    ensures { GivesAll keys_seen result (read_lines (map line_seen lines.now)) }
{
    let mut keys = MarkedKeys {
        recorded: Vec::new(alloc),
        revoked: Vec::new(alloc),
    };
    for line in lines {
        add_line(alloc, &mut keys, line)?;
    }
    Ok(keys)
}

/// The keys of the lines that match the host at the port, or why the first unreadable one can't be read.
#[tactic(auto, unfolding(crate::specs::Judgement::marked_keys))]
fn marked_keys(alloc: Global, text: &str, host: &str, port: u16) -> Result<MarkedKeys, Error>
    ensures keys { GivesAll keys_seen result (marked_keys text.now (host_text host.now port)) }
    ensures refusal { IfErr result IsUnreadable }
{
    let host = host_text(alloc, host, port)?;
    let lines = matching_lines(alloc, text, host.as_str())?;
    read_lines(alloc, lines.as_slice())
}

/// The keys that a known hosts text records for the host at the port, with the numbers of their lines, counted from 1.
/// If a matching line can't be read, whatever its mark is, the result is that line's error.
#[tactic(auto, unfolding(crate::specs::Judgement::known_keys))]
pub fn known_host_keys_text(
    alloc: Global,
    text: &str,
    host: &str,
    port: u16,
) -> Result<Vec<(u64, PublicKey)>, Error>
    ensures keys { GivesAll (λ known. known.items) result (known_keys text.now (host_text host.now port)) }
    ensures refusal { IfErr result IsUnreadable }
{
    let keys = marked_keys(alloc, text, host, port)?;
    Ok(keys.recorded)
}

/// The keys that a known hosts text revokes for the host at the port, with the numbers of their lines, counted from 1.
/// If a matching line can't be read, whatever its mark is, the result is that line's error.
#[tactic(auto, unfolding(crate::specs::Judgement::revoked_keys))]
pub fn revoked_keys_text(
    alloc: Global,
    text: &str,
    host: &str,
    port: u16,
) -> Result<Vec<(u64, PublicKey)>, Error>
    ensures keys { GivesAll (λ revoked. revoked.items) result (revoked_keys text.now (host_text host.now port)) }
    ensures refusal { IfErr result IsUnreadable }
{
    let keys = marked_keys(alloc, text, host, port)?;
    Ok(keys.revoked)
}

/// Whether a known hosts text accepts the key for the host at the port. No certificate is accepted. A line that can't
/// be read refuses first, then a line that revokes the key (`Revoked`), then one that has another key of the key's
/// algorithm (`KeyChanged`).
#[tactic(auto, unfolding(crate::specs::Judgement::judged))]
pub fn judge_text(
    alloc: Global,
    text: &str,
    host: &str,
    port: u16,
    key: &PublicKey,
) -> Result<bool, Error>
    ensures verdict { GivesAll (λ accepted. accepted) result (judged text.now (host_text host.now port) key.now.0) }
    // A key is accepted if each matching line can be read, no line revokes or contradicts it, and one line records it.
    ensures accepted { result ≡ Ok true → IsAcceptedBy text.now (host_text host.now port) key.now.0 }
    ensures refusal { IfErr result IsRefusal }
{
    if is_certificate(key) {
        return Ok(false);
    }
    let keys = marked_keys(alloc, text, host, port)?;
    judge_among(key, &keys)
}
