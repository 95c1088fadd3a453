//! Runs the `hosts` command-line arguments: a key is checked, the known keys are listed, a key is learned.

ghost use Rattle.std.specs.Prelude.{◌≡◌, IfOk, None};
ghost use Rattle.sshc_hosts_words.specs.Asked.{Asked, Asks, place, asked_by};
ghost use Rattle.sshc_hosts_words.specs.HostsWords.{outside, IsKeyFound, VerdictGives, LearningGives, CheckGives};
ghost use Rattle.sshc_hosts_words.specs.HostsWords.{KeysGives, LearnGives, AskedGives, HostsGives};

use crate::adding::{NO_MEMORY_STATUS, add_line};
use crate::asked::{HostsWords, KnownAt, hosts_words};
use crate::key_lines::add_key_lines;
use crate::told::{add_learning, add_refusal, add_verdict};
use sshc_hosts::{check_known_hosts_path, known_host_keys_path, learn_known_hosts_path};
use sshc_key::{Error, PublicKey, parse_public_key_base64};
use sshc_wire::{Files, NoMemory, Sink, Text};
use std::alloc::Global;

/// The exit status for an argument KEY that can't be read.
const KEY_STATUS: u8 = 5;

/// The key in an argument, with no comment; `None` if it can't be read.
fn key_of(alloc: Global, word: &str) -> Result<Option<PublicKey>, NoMemory>
    ensures { IfOk result (λ found. IsKeyFound word.now found) }
{
    match parse_public_key_base64(alloc, word) {
        Ok(key) => Ok(Some(key)),
        Err(Error::NoMemory) => Err(NoMemory),
        Err(_) => Ok(None),
    }
}

/// Judges a key by the file, and writes the verdict.
fn judge<F: Files, K: Sink>(
    alloc: Global,
    at: KnownAt<'_>,
    key: &PublicKey,
    files: &mut F,
    sink: &mut K,
) -> u8
    ensures gives { VerdictGives (place at.entry) key.now.0
        (outside (F.contents files.old) (F.read_faults files.old) (F.append_faults files.old) (K.contents sink.old)
        (K.faults sink.old))
        (outside (F.contents files.new) (F.read_faults files.new) (F.append_faults files.new) (K.contents sink.new)
        (K.faults sink.new)) result }
{
    let answer = check_known_hosts_path(alloc, files, at.host, at.port, key, at.path);
    add_verdict(alloc, sink, answer)
}

/// Learns a key in the file, and writes whether it was learned.
fn learn<F: Files, K: Sink>(
    alloc: Global,
    at: KnownAt<'_>,
    key: &PublicKey,
    files: &mut F,
    sink: &mut K,
) -> u8
    ensures gives { LearningGives (place at.entry) key.now
        (outside (F.contents files.old) (F.read_faults files.old) (F.append_faults files.old) (K.contents sink.old)
        (K.faults sink.old))
        (outside (F.contents files.new) (F.read_faults files.new) (F.append_faults files.new) (K.contents sink.new)
        (K.faults sink.new)) result }
{
    let answer = learn_known_hosts_path(alloc, files, at.host, at.port, key, at.path);
    add_learning(alloc, sink, answer)
}

/// Runs the arguments `hosts check HOST PORT KNOWN KEY`. KEY is read before the file.
fn run_check<F: Files, K: Sink>(
    alloc: Global,
    at: KnownAt<'_>,
    word: &str,
    files: &mut F,
    sink: &mut K,
) -> u8
    ensures gives { CheckGives (place at.entry) word.now
        (outside (F.contents files.old) (F.read_faults files.old) (F.append_faults files.old) (K.contents sink.old)
        (K.faults sink.old))
        (outside (F.contents files.new) (F.read_faults files.new) (F.append_faults files.new) (K.contents sink.new)
        (K.faults sink.new)) result }
{
    match key_of(alloc, word) {
        Ok(Some(key)) => judge(alloc, at, &key, files, sink),
        Ok(None) => add_line(sink, "error key\n", KEY_STATUS),
        Err(NoMemory) => add_line(sink, "error no-memory\n", NO_MEMORY_STATUS),
    }
}

/// Runs the arguments `hosts keys HOST PORT KNOWN`.
fn run_keys<F: Files, K: Sink>(alloc: Global, at: KnownAt<'_>, files: &mut F, sink: &mut K) -> u8
    ensures gives { KeysGives (place at.entry)
        (outside (F.contents files.old) (F.read_faults files.old) (F.append_faults files.old) (K.contents sink.old)
        (K.faults sink.old))
        (outside (F.contents files.new) (F.read_faults files.new) (F.append_faults files.new) (K.contents sink.new)
        (K.faults sink.new)) result }
{
    match known_host_keys_path(alloc, files, at.host, at.port, at.path) {
        Ok(keys) => add_key_lines(alloc, sink, keys.as_slice()),
        Err(e) => add_refusal(alloc, sink, e),
    }
}

/// Runs the arguments `hosts learn HOST PORT KNOWN KEY`. KEY is read before the file.
fn run_learn<F: Files, K: Sink>(
    alloc: Global,
    at: KnownAt<'_>,
    word: &str,
    files: &mut F,
    sink: &mut K,
) -> u8
    ensures gives { LearnGives (place at.entry) word.now
        (outside (F.contents files.old) (F.read_faults files.old) (F.append_faults files.old) (K.contents sink.old)
        (K.faults sink.old))
        (outside (F.contents files.new) (F.read_faults files.new) (F.append_faults files.new) (K.contents sink.new)
        (K.faults sink.new)) result }
{
    match key_of(alloc, word) {
        Ok(Some(key)) => learn(alloc, at, &key, files, sink),
        Ok(None) => add_line(sink, "error key\n", KEY_STATUS),
        Err(NoMemory) => add_line(sink, "error no-memory\n", NO_MEMORY_STATUS),
    }
}

/// Runs the request, and returns the exit status.
fn run_asked<F: Files, K: Sink>(
    alloc: Global,
    asked: HostsWords<'_>,
    files: &mut F,
    sink: &mut K,
) -> u8
    ensures gives { AskedGives (asked_by asked.entry)
        (outside (F.contents files.old) (F.read_faults files.old) (F.append_faults files.old) (K.contents sink.old)
        (K.faults sink.old))
        (outside (F.contents files.new) (F.read_faults files.new) (F.append_faults files.new) (K.contents sink.new)
        (K.faults sink.new)) result }
{
    match asked {
        HostsWords::Check { at, key } => run_check(alloc, at, key, files, sink),
        HostsWords::Keys { at } => run_keys(alloc, at, files, sink),
        HostsWords::Learn { at, key } => run_learn(alloc, at, key, files, sink),
    }
}

/// Runs the `hosts` arguments, and returns the exit status: 0, or 1 for an unknown key, 3 for a known hosts file that
/// isn't UTF-8 text or can't be read, 4 for one that can't be added to, 5 for an argument KEY that can't be read, 29 to
/// 31 for another error of known hosts, 20 and 22 for a line that was cut. For other arguments, returns `None` and does
/// nothing.
pub fn run_hosts_words<F: Files, K: Sink>(
    alloc: Global,
    words: &[Text],
    files: &mut F,
    sink: &mut K,
) -> Option<u8>
    ensures hosts { (asked : Asked) → Asks words.now asked → HostsGives asked
        (outside (F.contents files.old) (F.read_faults files.old) (F.append_faults files.old) (K.contents sink.old)
        (K.faults sink.old))
        (outside (F.contents files.new) (F.read_faults files.new) (F.append_faults files.new) (K.contents sink.new)
        (K.faults sink.new)) result }
    ensures other { ((asked : Asked) → Asks words.now asked → ⊥) → (result ≡ None) × (
        outside (F.contents files.new) (F.read_faults files.new) (F.append_faults files.new) (K.contents sink.new)
        (K.faults sink.new)
        ≡ outside (F.contents files.old) (F.read_faults files.old) (F.append_faults files.old) (K.contents sink.old)
        (K.faults sink.old)) }
{
    match hosts_words(words) {
        Some(asked) => Some(run_asked(alloc, asked, files, sink)),
        None => None,
    }
}
