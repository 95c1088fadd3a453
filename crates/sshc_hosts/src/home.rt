//! Known hosts in a home directory.

ghost use Rattle.std.specs.Prelude.{◌≡◌, IfErr, IfOk, OnOk, OnErr, IsErrOf, option_copied, string_bytes};
ghost use Rattle.sshc_hosts.specs.HostText.{host_text};
ghost use Rattle.sshc_hosts.specs.HostsFile.{home_path, known_keys_at, judged_at, at_home, IsHomeRefusal, NeedsHome};
ghost use Rattle.sshc_hosts.specs.HostsFile.{HasWriteCause, LearnedAtHome, LearnsAtHome, HomeHoldsNoText};
ghost use Rattle.sshc_hosts.specs.HostsFile.{IsHomeLearningRefusal};
ghost use Rattle.sshc_hosts.specs.Learning.{IsLearnable, IsLearnableKey};
ghost use Rattle.sshc_key.specs.KeyFiles.{AnswersBy, HasReadCause};
ghost use Rattle.sshc_key.specs.declared.error.Error.TheVariants.{Utf8};

use crate::file::{check_known_hosts_path, known_host_keys_path, learn_known_hosts_path};
use sshc_key::{Error, PublicKey};
use sshc_wire::{Files, NoMemory};
use std::alloc::Global;

/// The path of the known hosts file in a home directory.
pub fn path_in(alloc: Global, home: &str) -> Result<String, NoMemory>
    ensures { IfOk result (λ path. string_bytes path ≡ home_path home.now) }
{
    Ok(format!(in alloc; "{home}/.ssh/known_hosts")?)
}

/// The keys that the known hosts file in a home directory records for the host at the port, with the numbers of their
/// lines.
pub fn known_host_keys<F: Files>(
    alloc: Global,
    files: &mut F,
    host: &str,
    port: u16,
    home: Option<&str>,
) -> Result<Vec<(u64, PublicKey)>, Error>
    ensures answer { AnswersBy (λ known. known.items) result (F.contents files.old)
        (at_home (option_copied home.entry) (λ path. known_keys_at path (host_text host.now port))) }
    ensures same { F.contents files.new ≡ F.contents files.old }
    ensures home { NeedsHome (option_copied home.entry) result }
    ensures refusal { IfErr result IsHomeRefusal }
    ensures cause { HasReadCause (F.read_faults files.old) (F.read_faults files.new) result }
    ensures others { F.append_faults files.new ≡ F.append_faults files.old }
{
    match home {
        None => Err(Error::NoHomeDir),
        Some(home) => {
            let path = path_in(alloc, home)?;
            known_host_keys_path(alloc, files, host, port, path.as_str())
        }
    }
}

/// Whether the known hosts file in a home directory accepts the key for the host at the port.
pub fn check_known_hosts<F: Files>(
    alloc: Global,
    files: &mut F,
    host: &str,
    port: u16,
    key: &PublicKey,
    home: Option<&str>,
) -> Result<bool, Error>
    ensures answer { AnswersBy (λ accepted. accepted) result (F.contents files.old)
        (at_home (option_copied home.entry) (λ path. judged_at path (host_text host.now port) key.now.0)) }
    ensures same { F.contents files.new ≡ F.contents files.old }
    ensures home { NeedsHome (option_copied home.entry) result }
    ensures refusal { IfErr result IsHomeRefusal }
    ensures cause { HasReadCause (F.read_faults files.old) (F.read_faults files.new) result }
    ensures others { F.append_faults files.new ≡ F.append_faults files.old }
{
    match home {
        None => Err(Error::NoHomeDir),
        Some(home) => {
            let path = path_in(alloc, home)?;
            check_known_hosts_path(alloc, files, host, port, key, path.as_str())
        }
    }
}

/// Adds a line with the key for the host at the port to the known hosts file in a home directory.
pub fn learn_known_hosts<F: Files>(
    alloc: Global,
    files: &mut F,
    host: &str,
    port: u16,
    key: &PublicKey,
    home: Option<&str>,
) -> Result<(), Error>
    ensures added { OnOk result
        (LearnedAtHome (F.contents files.old) (F.contents files.new) (option_copied home.entry)
        (host_text host.now port) key.now) }
    ensures law { IsLearnable host.now (host_text host.now port) → IsLearnableKey key.now
        → OnOk result
        (LearnsAtHome (F.contents files.old) (F.contents files.new) (option_copied home.entry)
        (host_text host.now port) key.now.0) }
    ensures none { OnErr result (F.contents files.new ≡ F.contents files.old) }
    ensures text { IsErrOf result Utf8 → HomeHoldsNoText (F.contents files.old) (option_copied home.entry) }
    ensures home { NeedsHome (option_copied home.entry) result }
    ensures refusal { IfErr result IsHomeLearningRefusal }
    ensures reading { HasReadCause (F.read_faults files.old) (F.read_faults files.new) result }
    ensures writing { HasWriteCause (F.append_faults files.old) (F.append_faults files.new) result }
{
    match home {
        None => Err(Error::NoHomeDir),
        Some(home) => {
            let path = path_in(alloc, home)?;
            learn_known_hosts_path(alloc, files, host, port, key, path.as_str())
        }
    }
}
