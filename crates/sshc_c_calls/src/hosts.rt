//! Known hosts: whether a text has a key for a host, and what is added to it to learn one.

ghost use Rattle.std.specs.Prelude.{◌≡◌, ◌⊎◌};
ghost use Rattle.std.specs.Str.{IsUtf8};
ghost use Rattle.sshc_key.specs.Nesting.{whole_blob_key};
ghost use Rattle.sshc_hosts.specs.HostText.{host_text};
ghost use Rattle.sshc_hosts.specs.Judgement.{judged};
ghost use Rattle.sshc_hosts.specs.Acceptance.{IsAcceptedBy};
ghost use Rattle.sshc_hosts.specs.Learning.{learned};
ghost use Rattle.sshc_c_calls.specs.CopiedOut.{CopiedOut};
ghost use Rattle.sshc_c_calls.specs.HostAnswers.{IsAnswer, IsKnown, LearnsFor, answer_for, answer_of, host_answer};

use crate::copying::copy_out;
use crate::status::{
    BAD_KEY, DECODE, KEY_CHANGED, NO_MEMORY, NOT_TEXT, OK, REVOKED, SSH_KEY, UNKNOWN,
};
use sshc_hosts::{judge_text, learn_text};
use sshc_key::{Error, PublicKey, parse_whole_public_key};
use std::alloc::Global;

/// A status, and the number of the line that refuses, or 0.
#[derive(Drop, Clone, Copy)]
pub struct HostAnswer {
    pub status: u32,
    pub line: u64,
}

/// A status without a line.
pub(crate) fn bare(status: u32) -> HostAnswer
    ensures { result ≡ host_answer status 0 }
{
    HostAnswer { status, line: 0 }
}

/// Lets a value go: its variants needn't be told apart.
pub(crate) fn let_go<T: Drop>(_value: T) {}

/// The answer for a judgement.
fn answer_of(verdict: Result<bool, Error>) -> HostAnswer
    ensures answer { result ≡ answer_of verdict }
{
    match verdict {
        Ok(true) => bare(OK),
        Ok(false) => bare(UNKNOWN),
        Err(Error::KeyChanged { line }) => HostAnswer {
            status: KEY_CHANGED,
            line,
        },
        Err(Error::Revoked { line }) => HostAnswer {
            status: REVOKED,
            line,
        },
        Err(Error::Decode) => bare(DECODE),
        Err(Error::NoMemory) => bare(NO_MEMORY),
        Err(_) => bare(SSH_KEY),
    }
}

/// The answer for a key that was read.
#[tactic(auto, using(crate::proofs::Judging::judged_says))]
fn judge_key(alloc: Global, host: &str, port: u16, text: &str, key: &PublicKey) -> HostAnswer
    ensures says { IsAnswer (answer_of (judged text.now (host_text host.now port) key.now.0)) result }
    ensures known { result.status ≡ 0 → IsAcceptedBy text.now (host_text host.now port) key.now.0 }
{
    answer_of(judge_text(alloc, text, host, port, key))
}

/// The answer for texts.
fn check_texts(alloc: Global, host: &str, port: u16, text: &str, blob: &[u8]) -> HostAnswer
    ensures says { IsAnswer (answer_for text.now (host_text host.now port) (whole_blob_key blob.now)) result }
    ensures known { result.status ≡ 0 → IsKnown text.now (host_text host.now port) blob.now }
{
    match parse_whole_public_key(alloc, blob) {
        Ok(key) => {
            let answer = judge_key(alloc, host, port, text, &key);
            let_go(key);
            answer
        }
        Err(Error::SshKey) => bare(BAD_KEY),
        // No other error is returned.
        Err(_) => bare(NO_MEMORY),
    }
}

/// Whether the known hosts text has the key of the blob for the host at the port, with the number of the line that
/// refuses it, from 1.
pub fn check_key(alloc: Global, host: &[u8], port: u16, text: &[u8], blob: &[u8]) -> HostAnswer
    ensures says { IsUtf8 host.now → IsUtf8 text.now →
        IsAnswer (answer_for text.now (host_text host.now port) (whole_blob_key blob.now)) result }
    ensures no_text { (IsUtf8 host.now → IsUtf8 text.now → ⊥) → result ≡ host_answer 3 0 }
    // A known key is one that the text accepts.
    ensures known { result.status ≡ 0 → IsKnown text.now (host_text host.now port) blob.now }
{
    let Ok(host) = str::from_utf8(host) else {
        return bare(NOT_TEXT);
    };
    let Ok(text) = str::from_utf8(text) else {
        return bare(NOT_TEXT);
    };
    check_texts(alloc, host, port, text, blob)
}

/// Copies out what is to be added to the text to learn a key.
fn learn_parsed(
    alloc: Global,
    host: &str,
    port: u16,
    text: &str,
    key: &PublicKey,
    to: &mut [u8],
    size: &mut usize,
) -> u32
    ensures learns { ((result ≡ 20) × (to.new ≡ to.old)) ⊎
        CopiedOut (learned text.now (host_text host.now port) key.now) to.old to.new size.new result }
{
    match learn_text(alloc, text, host, port, key) {
        Ok(added) => copy_out(added.as_str().as_bytes(), to, size),
        Err(_) => NO_MEMORY,
    }
}

/// Copies out what is to be added to the texts to learn the key of a blob.
fn learn_texts(
    alloc: Global,
    host: &str,
    port: u16,
    text: &str,
    blob: &[u8],
    to: &mut [u8],
    size: &mut usize,
) -> u32
    ensures learns { ((result ≡ 20) × (to.new ≡ to.old)) ⊎
        LearnsFor text.now (host_text host.now port) (whole_blob_key blob.now) to.old to.new size.new result }
{
    match parse_whole_public_key(alloc, blob) {
        Ok(key) => {
            let status = learn_parsed(alloc, host, port, text, &key, to, size);
            let_go(key);
            status
        }
        Err(Error::SshKey) => BAD_KEY,
        // No other error is returned.
        Err(_) => NO_MEMORY,
    }
}

/// Copies out what is to be added to the known hosts text so that it has the key of the blob for the host at the port.
pub fn learn_key(
    alloc: Global,
    host: &[u8],
    port: u16,
    text: &[u8],
    blob: &[u8],
    to: &mut [u8],
    size: &mut usize,
) -> u32
    ensures learns { IsUtf8 host.now → IsUtf8 text.now → ((result ≡ 20) × (to.new ≡ to.old)) ⊎
        LearnsFor text.now (host_text host.now port) (whole_blob_key blob.now) to.old to.new size.new result }
    ensures no_text { (IsUtf8 host.now → IsUtf8 text.now → ⊥) → (result ≡ 3) × (to.new ≡ to.old) }
{
    let Ok(host) = str::from_utf8(host) else {
        return NOT_TEXT;
    };
    let Ok(text) = str::from_utf8(text) else {
        return NOT_TEXT;
    };
    learn_texts(alloc, host, port, text, blob, to, size)
}
