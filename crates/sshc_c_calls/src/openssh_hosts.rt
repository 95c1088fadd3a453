//! Known hosts as OpenSSH reads them: whether a text has a key for a host.

ghost use Rattle.std.specs.Prelude.{◌≡◌, false};
ghost use Rattle.std.specs.Str.{IsUtf8};
ghost use Rattle.sshc_key.specs.Nesting.{whole_blob_key};
ghost use Rattle.sshc_hosts_openssh.specs.Acceptance.{IsUnrevoked};
ghost use Rattle.sshc_hosts_openssh.specs.HostStatus.{status_at};
ghost use Rattle.sshc_hosts_openssh.specs.HostsField.{name_of};
ghost use Rattle.sshc_c_calls.specs.HostAnswers.{IsAnswer, IsUnrevokedBlob, answer_of_status, host_answer, openssh_answer};

use crate::hosts::{HostAnswer, bare, let_go};
use crate::status::{BAD_KEY, KEY_CHANGED, NO_MEMORY, NOT_TEXT, OK, REVOKED, UNKNOWN};
use sshc_hosts_openssh::{HostStatus, judge_openssh_text};
use sshc_key::{Error, PublicKey, parse_whole_public_key};
use std::alloc::Global;

/// The answer for a status.
fn answer_of_status(status: HostStatus) -> HostAnswer
    ensures { result ≡ answer_of_status status }
{
    match status {
        HostStatus::Known { line: _ } | HostStatus::Certified { line: _ } => bare(OK),
        HostStatus::Changed { line } => HostAnswer {
            status: KEY_CHANGED,
            line,
        },
        HostStatus::Revoked { line } => HostAnswer {
            status: REVOKED,
            line,
        },
        HostStatus::Unknown => bare(UNKNOWN),
    }
}

/// The answer for a key that was read.
#[tactic(auto, using(crate::proofs::Judging::accepted_says))]
fn judge_openssh_key(
    alloc: Global,
    host: &str,
    port: u16,
    text: &[u8],
    key: &PublicKey,
) -> HostAnswer
    ensures says { IsAnswer (answer_of_status (status_at text.now host.now port key.now.0 false)) result }
    ensures unrevoked { result.status ≡ 0 → IsUnrevoked text.now (name_of host.now port) key.now.0 }
{
    match judge_openssh_text(alloc, text, host, port, key) {
        Ok(status) => answer_of_status(status),
        Err(_) => bare(NO_MEMORY),
    }
}

/// The answer for a host that is text.
fn check_openssh_host(alloc: Global, host: &str, port: u16, text: &[u8], blob: &[u8]) -> HostAnswer
    ensures says { IsAnswer (openssh_answer text.now host.now port (whole_blob_key blob.now)) result }
    ensures unrevoked { result.status ≡ 0 → IsUnrevokedBlob text.now host.now port blob.now }
{
    match parse_whole_public_key(alloc, blob) {
        Ok(key) => {
            let answer = judge_openssh_key(alloc, host, port, text, &key);
            let_go(key);
            answer
        }
        Err(Error::SshKey) => bare(BAD_KEY),
        // No other error is returned.
        Err(_) => bare(NO_MEMORY),
    }
}

/// Whether the known hosts text, as OpenSSH reads it, has the key of the blob for the host at the port, with the number
/// of the line that refuses it, from 1. The text may be any bytes.
pub fn check_openssh_key(
    alloc: Global,
    host: &[u8],
    port: u16,
    text: &[u8],
    blob: &[u8],
) -> HostAnswer
    ensures says { IsUtf8 host.now →
        IsAnswer (openssh_answer text.now host.now port (whole_blob_key blob.now)) result }
    ensures no_text { (IsUtf8 host.now → ⊥) → result ≡ host_answer 3 0 }
    // No line revokes a key that is known.
    ensures unrevoked { result.status ≡ 0 → IsUnrevokedBlob text.now host.now port blob.now }
{
    let Ok(host) = str::from_utf8(host) else {
        return bare(NOT_TEXT);
    };
    check_openssh_host(alloc, host, port, text, blob)
}
