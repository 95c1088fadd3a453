//! A summary of a text of record lines, in a few numbers.

ghost use Rattle.std.specs.Prelude.{◌≡◌, ◌+◌, ◌≤◌, ◌<◌, ◌^◌, ◌∷◌, [], ◌==◌, IfNone, IfSome, IfOk, length, string_bytes};
ghost use Rattle.std.specs.Prelude.{if◌then◌else◌, nat_eq, codes};
ghost use Rattle.std.specs.List.{slice_split, starts_with};
ghost use Rattle.sshc_run.specs.Summary.{counted, summary_lines, summed, whole_lines};

use memchr::memchr;
use sshc_hosts::hmac_sha1;
use sshc_wire::NoMemory;
use std::alloc::Global;
use std::marker::Model;

/// How many records the lines of a text contain, how many of them are payloads, and how many are bytes of the agent.
#[derive(Drop)]
struct Counts {
    records: u64,
    payloads: u64,
    agent: u64,
}

impl Model for Counts {
    ghost use Rattle.sshc_run.specs.Summary.{Counted};

    ghost Value = { Counted };

    ghost view = { λ c. record { records = c.records; payloads = c.payloads; agent = c.agent } };
}

/// The counts of a text of record lines, and its digest.
#[derive(Drop)]
pub(crate) struct Summary {
    counts: Counts,
    digest: [u8; 20],
}

impl Model for Summary {
    ghost use Rattle.sshc_run.specs.Summary.{Summed};

    ghost Value = { Summed };

    ghost view = { λ s. record { counts = s.counts; digest = s.digest } };
}

/// The line of a payload begins with this: its number in hexadecimal digits.
const PAYLOAD: &[u8] = b"01";

/// The line of the agent's bytes begins with this.
const AGENT_BYTES: &[u8] = b"40";

/// The first line of a text without its line feed, and the text after it; `None` if the text has no line feed.
fn first_line(text: &[u8]) -> Option<(&[u8], &[u8])>
    ensures none { IfNone result (whole_lines text.now ≡ []) }
    ensures some { IfSome result (λ cut. whole_lines text.now ≡ cut.0.now ∷ whole_lines cut.1.now) }
    ensures shorter { IfSome result (λ cut. length cut.1.now < length text.now) }
{
    match memchr(b'\n', text) {
        Some(end) => Some((&text[..end], &text[end + 1..])),
        None => None,
    }
}

/// The counts of a text of record lines.
fn counts_of(text: &[u8]) -> Counts
    ensures { result ≡ counted (whole_lines text.now) }
{
    let mut records = 0u64;
    let mut payloads = 0u64;
    let mut agent = 0u64;
    let mut left = text;
    while let Some((line, rest)) = first_line(left) {
        records += 1;
        if line.starts_with(PAYLOAD) {
            payloads += 1;
        }
        if line.starts_with(AGENT_BYTES) {
            agent += 1;
        }
        left = rest;
    }
    Counts {
        records,
        payloads,
        agent,
    }
}

/// The summary of a text of record lines.
pub(crate) fn summary_of(text: &[u8]) -> Summary
    ensures { result ≡ summed text.now }
{
    Summary {
        counts: counts_of(text),
        digest: hmac_sha1(&[], text),
    }
}

/// The lines that report a summary, after the number of the script's events.
pub(crate) fn summary_lines(
    alloc: Global,
    events: u64,
    summary: &Summary,
) -> Result<String, NoMemory>
    ensures { IfOk result (λ text. string_bytes text ≡ summary_lines events summary.now) }
{
    let Counts {
        records,
        payloads,
        agent,
    } = summary.counts;
    let digest = hex::encode(alloc, &summary.digest)?;
    Ok(format!(in alloc;
        "events {events}\nrecords {records}\npayloads {payloads}\nagent {agent}\ndigest {digest}\n"
    )?)
}
