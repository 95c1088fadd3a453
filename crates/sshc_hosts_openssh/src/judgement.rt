//! The status of a host key by a known hosts text.

ghost use Rattle.std.specs.Prelude.{◌≡◌, IfOk, false};
ghost use Rattle.std.specs.Option.{option_and_then};
ghost use Rattle.sshc_key.specs.View.{view};
ghost use Rattle.sshc_hosts_openssh.specs.Cuts.{entry_seen};
ghost use Rattle.sshc_hosts_openssh.specs.HostsField.{name_of};
ghost use Rattle.sshc_hosts_openssh.specs.Acceptance.{AcceptsUnrevoked};
ghost use Rattle.sshc_hosts_openssh.specs.Certificates.{is_signed_by};
ghost use Rattle.sshc_hosts_openssh.specs.HostStatus.{is_revoked_by, only_if, said_by, said_for, said_of, status};
ghost use Rattle.sshc_hosts_openssh.specs.HostStatus.{certified_status, or_without_port, status_at, status_by};
ghost use Rattle.sshc_hosts_openssh.specs.declared.judgement.HostStatus.TheVariants.{Unknown};
ghost use Rattle.sshc_hosts_openssh.specs.Reading.{undecided, with_line};

use crate::certificate::is_good;
use crate::cutting::cut;
use crate::entry::{LineEntry, Mark, read_line};
use crate::hosts_field::{name_of, names_host};
use crate::line_key::{bare, key_on};
use sshc_key::{KeyData, PublicKey, Verifier};
use sshc_wire::NoMemory;
use std::alloc::Global;

/// The port whose hosts are named alone.
const DEFAULT_PORT: u16 = 22;

/// What a known hosts text says of a key for a host. Lines are counted from 1.
#[derive(Clone, Copy, Debug, PartialEq, Eq)]
pub enum HostStatus {
    /// A line records the key for the host, and no line revokes it. This is the first line that records it.
    Known { line: u64 },
    /// The key is a good certificate, and a line marks the key that signed it as an authority for the host, and no line
    /// revokes either. This is the first such line.
    Certified { line: u64 },
    /// The lines that name the host record other keys. This is the last of them.
    Changed { line: u64 },
    /// A line revokes the key for the host. This is the first of them.
    Revoked { line: u64 },
    /// No line says anything of the key.
    Unknown,
}

/// What one line says of a key.
#[derive(Clone, Copy)]
pub enum Finding {
    /// The key is to be refused.
    Revokes,
    /// The key that signed it is an authority for the host.
    Certifies,
    /// The key is the host's.
    Records,
    /// The host has another key.
    Contradicts,
}

/// Whether the key is a certificate that this other key signed.
fn is_signed_by(key: &KeyData, other: &KeyData) -> bool
    ensures { result ≡ is_signed_by (view key.now) (view other.now) }
{
    match key {
        KeyData::Certificate(certificate) => {
            let _ = certificate.is_certificate();
            certificate.signature_key == *other
        }
        _ => false,
    }
}

/// Whether a line that revokes the other key refuses the key: it is the same, certifies the same, or was signed by it.
fn is_revoked_by(key: &KeyData, other: &KeyData) -> bool
    ensures { result ≡ is_revoked_by (view key.now) (view other.now) }
{
    let other = bare(other);
    bare(key) == other || is_signed_by(key, other)
}

/// What a line with this mark and another key says of the key.
fn said_of(key: &KeyData, mark: Mark, other: &KeyData) -> Option<Finding>
    ensures { result ≡ said_of (view key.now) mark (view other.now) }
{
    match mark {
        Mark::Recorded => {
            if bare(key) == other {
                Some(Finding::Records)
            } else {
                Some(Finding::Contradicts)
            }
        }
        Mark::Revoked => {
            if is_revoked_by(key, other) {
                Some(Finding::Revokes)
            } else {
                None
            }
        }
        Mark::Authority => {
            if is_signed_by(key, bare(other)) {
                Some(Finding::Certifies)
            } else {
                None
            }
        }
    }
}

/// What a line with these fields says of the key for the host of this name.
fn said_for(
    alloc: Global,
    name: &[u8],
    key: &KeyData,
    entry: &LineEntry<'_>,
) -> Result<Option<Finding>, NoMemory>
    ensures { IfOk result (λ said. said ≡ said_for name.now (view key.now) (entry_seen entry.now)) }
{
    if !names_host(alloc, name, entry.hosts)? {
        return Ok(None);
    }
    match key_on(alloc, entry.key_type, entry.key)? {
        Some(other) => Ok(said_of(key, entry.mark, &other.key)),
        None => Ok(None),
    }
}

/// What the line says of the key for the host of this name.
fn said_by(
    alloc: Global,
    name: &[u8],
    key: &KeyData,
    line: &[u8],
) -> Result<Option<Finding>, NoMemory>
    ensures { IfOk result (λ said. said ≡ said_by name.now (view key.now) line.now) }
{
    match read_line(line) {
        Some(entry) => said_for(alloc, name, key, &entry),
        None => Ok(None),
    }
}

/// The lines that decide, as far as the text was read.
#[derive(Clone, Copy)]
struct Deciding {
    /// The first line that revokes the key.
    revoking: Option<u64>,
    /// The first line that marks the key that signed it as an authority.
    certifying: Option<u64>,
    /// The first line that records the key.
    recording: Option<u64>,
    /// The last line that has another key.
    contrary: Option<u64>,
}

impl Deciding {
    /// No line was read.
    fn new() -> Deciding
        ensures { result ≡ undecided }
    {
        Deciding {
            revoking: None,
            certifying: None,
            recording: None,
            contrary: None,
        }
    }

    /// The same after one more line, by what that line says.
    fn with_line(self, said: Option<Finding>, line: u64) -> Deciding
        ensures { result ≡ with_line self said line }
    {
        let mut deciding = self;
        match said {
            Some(Finding::Revokes) => deciding.revoking = deciding.revoking.or(Some(line)),
            Some(Finding::Certifies) => deciding.certifying = deciding.certifying.or(Some(line)),
            Some(Finding::Records) => deciding.recording = deciding.recording.or(Some(line)),
            Some(Finding::Contradicts) => deciding.contrary = Some(line),
            None => {}
        }
        deciding
    }

    /// The first line of an authority, if the key is a good certificate.
    fn certifying(self, good: bool) -> Option<u64>
        ensures { result ≡ only_if good self.certifying }
    {
        if good { self.certifying } else { None }
    }

    /// The status of the key, which is a good certificate or not.
    fn status(self, good: bool) -> HostStatus
        ensures { result ≡ status self.revoking (only_if good self.certifying) self.recording self.contrary }
    {
        match (
            self.revoking,
            self.certifying(good),
            self.recording,
            self.contrary,
        ) {
            (Some(line), _, _, _) => HostStatus::Revoked { line },
            (None, Some(line), _, _) => HostStatus::Certified { line },
            (None, None, Some(line), _) => HostStatus::Known { line },
            (None, None, None, Some(line)) => HostStatus::Changed { line },
            (None, None, None, None) => HostStatus::Unknown,
        }
    }
}

/// The status of the key, which is a good certificate or not, for the host of this name.
fn status_by(
    alloc: Global,
    text: &[u8],
    name: &[u8],
    key: &KeyData,
    good: bool,
) -> Result<HostStatus, NoMemory>
    ensures { IfOk result (λ status. status ≡ status_by text.now name.now (view key.now) good) }
{
    let mut deciding = Deciding::new();
    let mut number = 1u64;
    let mut left = text;
    'lines: loop {
        let (line, rest) = cut(left, b'\n');
        let said = said_by(alloc, name, key, line)?;
        deciding = deciding.with_line(said, number);
        number += 1;
        match rest {
            None => return Ok(deciding.status(good)),
            Some(others) => left = others,
        }
    }
}

/// The status of the key for the host, whatever the port is; another key of the host says nothing here.
fn status_without_port(
    alloc: Global,
    text: &[u8],
    host: &str,
    key: &KeyData,
    good: bool,
) -> Result<HostStatus, NoMemory>
    ensures { IfOk result
        (λ status. status ≡ or_without_port Unknown (status_by text.now (name_of host.now 22) (view key.now) good)) }
{
    let name = name_of(alloc, host, DEFAULT_PORT)?;
    match status_by(alloc, text, name.as_slice(), key, good)? {
        HostStatus::Changed { line: _ } => Ok(HostStatus::Unknown),
        status => Ok(status),
    }
}

/// The status of the key, which is a good certificate or not, for the host at the port.
#[tactic(auto, unfolding(crate::specs::HostStatus::status_at))]
fn status_at(
    alloc: Global,
    text: &[u8],
    host: &str,
    port: u16,
    key: &KeyData,
    good: bool,
) -> Result<HostStatus, NoMemory>
    ensures { IfOk result (λ status. status ≡ status_at text.now host.now port (view key.now) good) }
{
    let name = name_of(alloc, host, port)?;
    match status_by(alloc, text, name.as_slice(), key, good)? {
        HostStatus::Known { line } => Ok(HostStatus::Known { line }),
        HostStatus::Certified { line } => Ok(HostStatus::Certified { line }),
        HostStatus::Changed { line } => Ok(HostStatus::Changed { line }),
        HostStatus::Revoked { line } => Ok(HostStatus::Revoked { line }),
        HostStatus::Unknown => {
            if port == DEFAULT_PORT {
                Ok(HostStatus::Unknown)
            } else {
                status_without_port(alloc, text, host, key, good)
            }
        }
    }
}

/// What a known hosts text says of the key for the host at the port, as OpenSSH's `ssh` reads it, but for authorities:
/// a certificate is judged by the key that it certifies, and is refused if that key or the one that signed it is
/// revoked. Where nothing is said for the port, a key that is known or revoked for the host alone is so.
pub fn judge_openssh_text(
    alloc: Global,
    text: &[u8],
    host: &str,
    port: u16,
    key: &PublicKey,
) -> Result<HostStatus, NoMemory>
    ensures status { IfOk result (λ status. status ≡ status_at text.now host.now port key.now.0 false) }
    // A key that a line revokes for the host at the port is never accepted, whatever other lines say.
    ensures unrevoked { IfOk result (AcceptsUnrevoked text.now host.now port key.now.0) }
{
    status_at(alloc, text, host, port, &key.key, false)
}

/// The same with authorities: a host certificate is accepted that is valid for the host at this moment, in seconds
/// since 1970, has no critical option, and whose signature the verifier accepts, if a line marks the key that signed it
/// as an authority for the host. Any other certificate is judged by the key that it certifies.
pub fn judge_openssh_certificate<V: Verifier>(
    alloc: Global,
    verifier: &V,
    now: u64,
    text: &[u8],
    host: &str,
    port: u16,
    key: &PublicKey,
) -> Result<HostStatus, NoMemory>
    ensures status { IfOk result
        (λ status. status ≡ certified_status (V.accepts verifier.now) now text.now host.now port key.now.0) }
    // A key that a line revokes for the host at the port is never accepted, whatever other lines say.
    ensures unrevoked { IfOk result (AcceptsUnrevoked text.now host.now port key.now.0) }
{
    let name = name_of(alloc, host, DEFAULT_PORT)?;
    let good = is_good(alloc, verifier, now, name.as_slice(), &key.key)?;
    status_at(alloc, text, host, port, &key.key, good)
}
