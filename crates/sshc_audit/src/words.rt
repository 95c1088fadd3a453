//! Runs the auditor's command-line arguments, and writes the new text or the reason why there is none.

ghost use Rattle.std.specs.Prelude.{◌≡◌, ◌≤◌, IfOk, Ok, Err, codes};
ghost use Rattle.sshc_hosts_words.specs.Adding.{Adds};
ghost use Rattle.sshc_audit.specs.Hashing.{hashed_text, names_of};
ghost use Rattle.sshc_audit.specs.SaltLines.{salts_in};
ghost use Rattle.sshc_audit.specs.AuditWords.{Asked, hash, drop, remove, Asks, asked_by, IsReading, IsAnswer};
ghost use Rattle.sshc_audit.specs.AuditWords.{HashesWith, written_for, status_for, outside, Audits, RefusesWords};

use crate::asked::{AuditAsked, audit_asked};
use crate::doubled::drop_doubled;
use crate::error::AuditError;
use crate::hashing::hash_names;
use crate::refusal::Refusal;
use crate::removing::remove_host;
use crate::salt_list::SaltList;
use sshc_hosts_words::{KNOWN_FILE_STATUS, NO_MEMORY_STATUS, WORDS_STATUS, add_line};
use sshc_wire::{Failed, Files, Found, Sink, Text};
use std::alloc::Global;

/// The exit status if a name has no salt.
const SALT_FAULT_STATUS: u8 = 45;

/// The text of the file at the path. A file that can't be opened is an empty text.
fn text_at<F: Files>(alloc: Global, files: &mut F, path: &str) -> Result<Text, Refusal>
    ensures reading { IsReading (F.contents files.old) path.now
        (F.read_faults files.old) (F.read_faults files.new) result }
    ensures same { F.contents files.new ≡ F.contents files.old }
    ensures others { F.append_faults files.new ≡ F.append_faults files.old }
    ensures later { F.read_faults files.old ≤ F.read_faults files.new }
{
    match files.read_text(path) {
        Ok(Found::Text(text)) => Ok(text),
        Ok(Found::NotOpened) => Ok(Text::new(alloc)),
        Ok(Found::NotText) => Err(Refusal::KnownFile),
        Err(Failed::Fault) => Err(Refusal::KnownFile),
        Err(Failed::NoMemory) => Err(Refusal::NoMemory),
    }
}

/// The text with its names hashed with the salts in the lines.
fn hashed_with(alloc: Global, text: &str, lines: &str) -> Result<Text, Refusal>
    ensures { HashesWith text.now lines.now result }
{
    let mut salts = SaltList::from_text(alloc, lines)?;
    match hash_names(alloc, text, &mut salts) {
        Ok(text) => Ok(text),
        Err(AuditError::NoMemory) => Err(Refusal::NoMemory),
        Err(AuditError::SaltFault) => Err(Refusal::SaltFault),
    }
}

/// The text of FILE with its names hashed with the salts of SALTS.
fn hashed<F: Files>(alloc: Global, files: &mut F, file: &str, salts: &str) -> Result<Text, Refusal>
    ensures answer { IsAnswer (hash file.now salts.now) (F.contents files.old)
        (F.read_faults files.old) (F.read_faults files.new) result }
    ensures same { F.contents files.new ≡ F.contents files.old }
    ensures others { F.append_faults files.new ≡ F.append_faults files.old }
{
    let text = text_at(alloc, files, file)?;
    let lines = text_at(alloc, files, salts)?;
    hashed_with(alloc, text.as_str(), lines.as_str())
}

/// The text of FILE without its doubled lines.
fn undoubled<F: Files>(alloc: Global, files: &mut F, file: &str) -> Result<Text, Refusal>
    ensures answer { IsAnswer (drop file.now) (F.contents files.old)
        (F.read_faults files.old) (F.read_faults files.new) result }
    ensures same { F.contents files.new ≡ F.contents files.old }
    ensures others { F.append_faults files.new ≡ F.append_faults files.old }
{
    let text = text_at(alloc, files, file)?;
    Ok(drop_doubled(alloc, text.as_str())?)
}

/// The text of FILE without the host at the port.
fn removed<F: Files>(
    alloc: Global,
    files: &mut F,
    host: &str,
    port: u16,
    file: &str,
) -> Result<Text, Refusal>
    ensures answer { IsAnswer (remove host.now port file.now) (F.contents files.old)
        (F.read_faults files.old) (F.read_faults files.new) result }
    ensures same { F.contents files.new ≡ F.contents files.old }
    ensures others { F.append_faults files.new ≡ F.append_faults files.old }
{
    let text = text_at(alloc, files, file)?;
    Ok(remove_host(alloc, text.as_str(), host, port)?)
}

/// The new text for the request, or why there is none.
fn answer_of<F: Files>(alloc: Global, asked: AuditAsked<'_>, files: &mut F) -> Result<Text, Refusal>
    ensures answer { IsAnswer (asked_by asked.entry) (F.contents files.old)
        (F.read_faults files.old) (F.read_faults files.new) result }
    ensures same { F.contents files.new ≡ F.contents files.old }
    ensures others { F.append_faults files.new ≡ F.append_faults files.old }
{
    match asked {
        AuditAsked::Hash { file, salts } => hashed(alloc, files, file, salts),
        AuditAsked::Drop { file } => undoubled(alloc, files, file),
        AuditAsked::Remove { host, port, file } => removed(alloc, files, host, port, file),
    }
}

/// Writes the new text, or the line with the reason why there is none, and returns the status.
fn add_answer<K: Sink>(sink: &mut K, answer: &Result<Text, Refusal>) -> u8
    ensures { Adds (written_for answer.now) (status_for answer.now)
        (K.contents sink.old) (K.contents sink.new) (K.faults sink.old) (K.faults sink.new) result }
{
    match answer {
        Ok(text) => add_line(sink, text.as_str(), 0),
        Err(Refusal::KnownFile) => add_line(sink, "error known-file\n", KNOWN_FILE_STATUS),
        Err(Refusal::SaltFault) => add_line(sink, "error salt-fault\n", SALT_FAULT_STATUS),
        Err(Refusal::NoMemory) => add_line(sink, "error no-memory\n", NO_MEMORY_STATUS),
    }
}

/// Runs the request, and returns the status.
fn run_asked<F: Files, K: Sink>(
    alloc: Global,
    asked: AuditAsked<'_>,
    files: &mut F,
    sink: &mut K,
) -> u8
    ensures audits { Audits (asked_by asked.entry)
        (outside (F.contents files.old) (F.read_faults files.old) (F.append_faults files.old)
        (K.contents sink.old) (K.faults sink.old))
        (outside (F.contents files.new) (F.read_faults files.new) (F.append_faults files.new)
        (K.contents sink.new) (K.faults sink.new)) result }
{
    let answer = answer_of(alloc, asked, files);
    add_answer(sink, &answer)
}

/// Runs the arguments `hash FILE SALTS`, `drop FILE` or `remove HOST PORT FILE`: writes the new text, and returns the
/// status 0. Otherwise it writes a line: `error words` with the status 2 for invalid arguments, `error known-file` with
/// 3 for a file that isn't UTF-8 text or can't be read, `error salt-fault` with 45 if a name has no salt, `error
/// no-memory` with 20. A text that can't be written whole is cut, with the status 22, or 20 if memory ran out.
pub fn audit_words<F: Files, K: Sink>(
    alloc: Global,
    words: &[Text],
    files: &mut F,
    sink: &mut K,
) -> u8
    ensures audits { (asked : Asked) → Asks words.now asked → Audits asked
        (outside (F.contents files.old) (F.read_faults files.old) (F.append_faults files.old)
        (K.contents sink.old) (K.faults sink.old))
        (outside (F.contents files.new) (F.read_faults files.new) (F.append_faults files.new)
        (K.contents sink.new) (K.faults sink.new)) result }
    ensures words { result ≡ 2 → (asked : Asked) → Asks words.now asked → ⊥ }
    ensures other { ((asked : Asked) → Asks words.now asked → ⊥) → RefusesWords
        (outside (F.contents files.old) (F.read_faults files.old) (F.append_faults files.old)
        (K.contents sink.old) (K.faults sink.old))
        (outside (F.contents files.new) (F.read_faults files.new) (F.append_faults files.new)
        (K.contents sink.new) (K.faults sink.new)) result }
{
    match audit_asked(words) {
        Some(asked) => run_asked(alloc, asked, files, sink),
        None => add_line(sink, "error words\n", WORDS_STATUS),
    }
}
