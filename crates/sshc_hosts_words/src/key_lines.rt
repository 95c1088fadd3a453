//! Known keys as lines.

ghost use Rattle.std.specs.Prelude.{◌≡◌, ◌≤◌, [], IfOk, OnOk, OnErr, string_bytes};
ghost use Rattle.sshc_key.specs.Algorithms.{openssh_text};
ghost use Rattle.sshc_key.specs.declared.error.Error.{Error};
ghost use Rattle.sshc_wire.specs.Contents.{append, WroteFront};
ghost use Rattle.sshc_wire.specs.Faults.{HasCause};
ghost use Rattle.sshc_hosts_words.specs.Adding.{Adds};
ghost use Rattle.sshc_hosts_words.specs.Told.{key_line, key_lines};

use crate::adding::{NO_MEMORY_STATUS, WRITE_FAULT_STATUS};
use sshc_key::PublicKey;
use sshc_wire::{Failed, NoMemory, Sink, Text, write_whole};
use std::alloc::Global;

/// The key as OpenSSH writes it, without its comment.
fn bare_text(alloc: Global, key: &PublicKey) -> Result<String, NoMemory>
    ensures { IfOk result (λ text. string_bytes text ≡ openssh_text key.now.0 []) }
{
    let bare = PublicKey {
        key: key.key.copy()?,
        comment: Text::new(alloc),
    };
    bare.to_openssh()
}

/// The line of a known key.
fn key_line(alloc: Global, known: &(u64, PublicKey)) -> Result<String, NoMemory>
    ensures { IfOk result (λ text. string_bytes text ≡ key_line known.now) }
{
    let number = known.0;
    let key = bare_text(alloc, &known.1)?;
    Ok(format!(in alloc; "{number} {key}\n")?)
}

/// Writes the line of a known key, or a prefix of it.
fn write_key_line<K: Sink>(
    alloc: Global,
    sink: &mut K,
    known: &(u64, PublicKey),
) -> Result<(), Failed>
    ensures whole { OnOk result (K.contents sink.new ≡ append (K.contents sink.old) (key_line known.now)) }
    ensures cut { OnErr result (WroteFront (K.contents sink.old) (K.contents sink.new) (key_line known.now)) }
    ensures cause { HasCause (K.faults sink.old) (K.faults sink.new) result }
{
    match key_line(alloc, known) {
        Ok(line) => write_whole(sink, line.as_bytes()),
        Err(NoMemory) => Err(Failed::NoMemory),
    }
}

/// Writes one line per key, or a prefix of these lines.
fn write_key_lines<K: Sink>(
    alloc: Global,
    sink: &mut K,
    keys: &[(u64, PublicKey)],
) -> Result<(), Failed>
    ensures whole { OnOk result (K.contents sink.new ≡ append (K.contents sink.old) (key_lines keys.now)) }
    ensures cut { OnErr result (WroteFront (K.contents sink.old) (K.contents sink.new) (key_lines keys.now)) }
    ensures cause { HasCause (K.faults sink.old) (K.faults sink.new) result }
{
    for known in keys {
        write_key_line(alloc, sink, known)?;
    }
    Ok(())
}

/// Writes one line per key, and returns their status, or that of a failed write.
pub fn add_key_lines<K: Sink>(alloc: Global, sink: &mut K, keys: &[(u64, PublicKey)]) -> u8
    ensures adds { Adds (key_lines keys.now) 0 (K.contents sink.old) (K.contents sink.new) (K.faults sink.old)
        (K.faults sink.new) result }
    ensures later { K.faults sink.old ≤ K.faults sink.new }
{
    match write_key_lines(alloc, sink, keys) {
        Ok(()) => 0,
        Err(Failed::Fault) => WRITE_FAULT_STATUS,
        Err(Failed::NoMemory) => NO_MEMORY_STATUS,
    }
}
