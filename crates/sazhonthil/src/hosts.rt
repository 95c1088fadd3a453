//! Known hosts, and the number of the interface.

ghost use Rattle.std.specs.Prelude.{◌≡◌, ◌⊎◌};
ghost use Rattle.std.specs.Str.{IsUtf8};
ghost use Rattle.sshc_key.specs.Nesting.{whole_blob_key};
ghost use Rattle.sshc_hosts.specs.HostText.{host_text};
ghost use Rattle.sshc_c_calls.specs.HostAnswers.{IsAnswer, IsKnown, IsUnrevokedBlob, LearnsFor, answer_for};
ghost use Rattle.sshc_c_calls.specs.HostAnswers.{host_answer, openssh_answer};

use sshc_c_calls::{check_key, check_openssh_key, learn_key};
use std::alloc::Global;

/// The number of this interface: it grows with each call that is added, and its high half where a call changes.
#[unsafe(no_mangle)]
pub extern "C" fn sshc_abi() -> u32
    ensures { result ≡ 65537 }
{
    65537
}

/// Whether the known hosts text accepts the key of the blob for the host at the port. `line` is the number of the line
/// that refuses it, from 1, and otherwise 0.
#[unsafe(no_mangle)]
pub extern "C" fn sshc_known_hosts_check(
    alloc: Global,
    host: &[u8],
    port: u16,
    known: &[u8],
    key: &[u8],
    line: &mut u64,
) -> u32
    // For texts, the answer is that of the definitions, or out of memory.
    ensures says { IsUtf8 host.now → IsUtf8 known.now →
        IsAnswer (answer_for known.now (host_text host.now port) (whole_blob_key key.now))
        (host_answer result line.new) }
    ensures no_text { (IsUtf8 host.now → IsUtf8 known.now → ⊥) → (result ≡ 3) × (line.new ≡ 0) }
    // Each line for the host can be read, none contradicts or revokes the key, one records it.
    ensures known { result ≡ 0 → IsKnown known.now (host_text host.now port) key.now }
{
    let answer = check_key(alloc, host, port, known, key);
    *line = answer.line;
    answer.status
}

/// Whether the known hosts text, as OpenSSH reads it, accepts the key of the blob for the host at the port: patterns,
/// names in any case, any blanks, and lines that can't be read are passed over. `line` is the number of the line that
/// refuses it, from 1, and otherwise 0. The text may be any bytes.
#[unsafe(no_mangle)]
pub extern "C" fn sshc_known_hosts_check_openssh(
    alloc: Global,
    host: &[u8],
    port: u16,
    known: &[u8],
    key: &[u8],
    line: &mut u64,
) -> u32
    // For a host that is text, the answer is that of the definitions, or out of memory.
    ensures says { IsUtf8 host.now →
        IsAnswer (openssh_answer known.now host.now port (whole_blob_key key.now)) (host_answer result line.new) }
    ensures no_text { (IsUtf8 host.now → ⊥) → (result ≡ 3) × (line.new ≡ 0) }
    // No line revokes a key that is accepted.
    ensures unrevoked { result ≡ 0 → IsUnrevokedBlob known.now host.now port key.now }
{
    let found = check_openssh_key(alloc, host, port, known, key);
    *line = found.line;
    found.status
}

/// Copies what is to be added to the known hosts text, so that it has the key of the blob for the host at the port, to
/// the front of the caller's memory, if it fits, and tells how many bytes it has.
#[unsafe(no_mangle)]
pub extern "C" fn sshc_known_hosts_learn(
    alloc: Global,
    host: &[u8],
    port: u16,
    known: &[u8],
    key: &[u8],
    to: &mut [u8],
    size: &mut usize,
) -> u32
    ensures learns { IsUtf8 host.now → IsUtf8 known.now → ((result ≡ 20) × (to.new ≡ to.old)) ⊎
        LearnsFor known.now (host_text host.now port) (whole_blob_key key.now) to.old to.new size.new result }
    ensures no_text { (IsUtf8 host.now → IsUtf8 known.now → ⊥) → (result ≡ 3) × (to.new ≡ to.old) }
{
    learn_key(alloc, host, port, known, key, to, size)
}
