//! Known hosts in files.

ghost use Rattle.std.specs.Prelude.{◌≡◌, IfErr, OnOk, OnErr, IsErrOf, option_map};
ghost use Rattle.sshc_hosts.specs.HostText.{host_text};
ghost use Rattle.sshc_hosts.specs.HostsFile.{text_at, known_keys_at, judged_at, IsReadingRefusal, IsFileRefusal};
ghost use Rattle.sshc_hosts.specs.HostsFile.{LearnedIn, LearnsIn, HoldsNoText, HasWriteCause, IsAddingRefusal};
ghost use Rattle.sshc_hosts.specs.HostsFile.{IsLearningRefusal};
ghost use Rattle.sshc_hosts.specs.Learning.{IsLearnable, IsLearnableKey};
ghost use Rattle.sshc_wire.specs.Contents.{with_text};
ghost use Rattle.sshc_key.specs.KeyFiles.{AnswersBy, HasReadCause};
ghost use Rattle.sshc_key.specs.declared.error.Error.TheVariants.{Utf8};

use crate::judgement::{judge_text, known_host_keys_text};
use crate::learning::learn_text;
use sshc_key::{Error, PublicKey};
use sshc_wire::{Failed, Files, Found, Text};
use std::alloc::Global;

/// The known hosts text at the path. A file that can't be opened counts as an empty text.
fn text_at<F: Files>(alloc: Global, files: &mut F, path: &str) -> Result<Text, Error>
    ensures answer { AnswersBy (λ text. text) result (F.contents files.old) (λ told. text_at told path.now) }
    ensures same { F.contents files.new ≡ F.contents files.old }
    ensures refusal { IfErr result IsReadingRefusal }
    ensures cause { HasReadCause (F.read_faults files.old) (F.read_faults files.new) result }
    ensures others { F.append_faults files.new ≡ F.append_faults files.old }
{
    match files.read_text(path) {
        Ok(Found::Text(text)) => Ok(text),
        Ok(Found::NotOpened) => Ok(Text::new(alloc)),
        Ok(Found::NotText) => Err(Error::Utf8),
        Err(Failed::Fault) => Err(Error::ReadFault),
        Err(Failed::NoMemory) => Err(Error::NoMemory),
    }
}

/// The keys that the known hosts file at the path records for the host at the port, with the numbers of their lines.
pub fn known_host_keys_path<F: Files>(
    alloc: Global,
    files: &mut F,
    host: &str,
    port: u16,
    path: &str,
) -> Result<Vec<(u64, PublicKey)>, Error>
    ensures answer { AnswersBy (λ known. known.items) result (F.contents files.old)
        (known_keys_at path.now (host_text host.now port)) }
    ensures same { F.contents files.new ≡ F.contents files.old }
    ensures refusal { IfErr result IsFileRefusal }
    ensures cause { HasReadCause (F.read_faults files.old) (F.read_faults files.new) result }
    ensures others { F.append_faults files.new ≡ F.append_faults files.old }
{
    let text = text_at(alloc, files, path)?;
    known_host_keys_text(alloc, text.as_str(), host, port)
}

/// Whether the known hosts file at the path accepts the key for the host at the port.
pub fn check_known_hosts_path<F: Files>(
    alloc: Global,
    files: &mut F,
    host: &str,
    port: u16,
    key: &PublicKey,
    path: &str,
) -> Result<bool, Error>
    ensures answer { AnswersBy (λ accepted. accepted) result (F.contents files.old)
        (judged_at path.now (host_text host.now port) key.now.0) }
    ensures same { F.contents files.new ≡ F.contents files.old }
    ensures refusal { IfErr result IsFileRefusal }
    ensures cause { HasReadCause (F.read_faults files.old) (F.read_faults files.new) result }
    ensures others { F.append_faults files.new ≡ F.append_faults files.old }
{
    let text = text_at(alloc, files, path)?;
    judge_text(alloc, text.as_str(), host, port, key)
}

/// Adds the text at the end of the file at the path.
fn add_at<F: Files>(files: &mut F, path: &str, text: &str) -> Result<(), Error>
    ensures added { OnOk result
        (F.contents files.new ≡ option_map (λ told. with_text told path.now text.now) (F.contents files.old)) }
    ensures none { OnErr result (F.contents files.new ≡ F.contents files.old) }
    ensures refusal { IfErr result IsAddingRefusal }
    ensures cause { HasWriteCause (F.append_faults files.old) (F.append_faults files.new) result }
    ensures others { F.read_faults files.new ≡ F.read_faults files.old }
{
    match files.append(path, text) {
        Ok(()) => Ok(()),
        Err(Failed::Fault) => Err(Error::WriteFault),
        Err(Failed::NoMemory) => Err(Error::NoMemory),
    }
}

/// Adds a line with the key for the host at the port to the known hosts file at the path. The file's earlier bytes
/// stay.
pub fn learn_known_hosts_path<F: Files>(
    alloc: Global,
    files: &mut F,
    host: &str,
    port: u16,
    key: &PublicKey,
    path: &str,
) -> Result<(), Error>
    ensures added { OnOk result
        (LearnedIn (F.contents files.old) (F.contents files.new) path.now (host_text host.now port) key.now) }
    ensures law { IsLearnable host.now (host_text host.now port) → IsLearnableKey key.now
        → OnOk result
        (LearnsIn (F.contents files.old) (F.contents files.new) path.now (host_text host.now port) key.now.0) }
    ensures none { OnErr result (F.contents files.new ≡ F.contents files.old) }
    ensures text { IsErrOf result Utf8 → HoldsNoText (F.contents files.old) path.now }
    ensures refusal { IfErr result IsLearningRefusal }
    ensures reading { HasReadCause (F.read_faults files.old) (F.read_faults files.new) result }
    ensures writing { HasWriteCause (F.append_faults files.old) (F.append_faults files.new) result }
{
    let text = text_at(alloc, files, path)?;
    let added = learn_text(alloc, text.as_str(), host, port, key)?;
    add_at(files, path, added.as_str())
}
