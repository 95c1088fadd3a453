//! The policy of the mode by session: the agent's keys and those of files by their names, and a known hosts file.

use sshc_ask::AgentClient;
use sshc_key::{AgentIdentity, Error, PublicKey, PublicKeyBase64, load_public_key};
use sshc_proxy_policy::{Fault, NamedKey, WrittenError, key_files, read_policy};
use sshc_proxy_session::SessionPolicy;
use sshc_wire::{AgentStream, Failed, Files, Found, NoMemory, Octets, Text};
use std::alloc::Global;

/// Why there is no policy.
#[derive(Drop)]
pub(crate) enum NoPolicy {
    NoMemory,
    /// A file wasn't opened, isn't text, or a read failed.
    Unread,
    /// The agent's keys can't be read.
    NoKeys,
    BadLine { line: u64, fault: Fault },
}

impl From<NoMemory> for NoPolicy {
    fn from(_error: NoMemory) -> NoPolicy {
        NoPolicy::NoMemory
    }
}

fn named(alloc: Global, key: &PublicKey, name: &str) -> Result<NamedKey, NoMemory> {
    let blob = Octets::from_vec(key.public_key_bytes()?)?;
    NamedKey::new(alloc, blob, Octets::from_slice(alloc, name.as_bytes())?)
}

fn add_key(keys: &mut Vec<NamedKey>, key: NamedKey) -> Result<(), NoMemory> {
    Ok(keys.push(key)?)
}

/// Adds the agent's keys under their comments; certificates have no name.
fn add_listed<S: AgentStream>(
    alloc: Global,
    keys: &mut Vec<NamedKey>,
    agent: &mut AgentClient<S>,
) -> Result<(), NoPolicy> {
    let listed = match agent.request_identities() {
        Ok(listed) => listed,
        Err(Error::NoMemory) => return Err(NoPolicy::NoMemory),
        Err(_) => return Err(NoPolicy::NoKeys),
    };
    for identity in listed.as_slice() {
        if let AgentIdentity::PublicKey { key, comment } = identity {
            add_key(keys, named(alloc, key, comment.as_str())?)?;
        }
    }
    Ok(())
}

/// Adds the keys of files under their paths. A file without a key is passed over, so a rule that names it has a fault.
fn add_files<F: Files>(
    alloc: Global,
    keys: &mut Vec<NamedKey>,
    files: &mut F,
    paths: &[Text],
) -> Result<(), NoPolicy> {
    for path in paths {
        match load_public_key(alloc, files, path.as_str()) {
            Ok(key) => add_key(keys, named(alloc, &key, path.as_str())?)?,
            Err(Error::NoMemory) => return Err(NoPolicy::NoMemory),
            Err(_) => {}
        }
    }
    Ok(())
}

fn text_at<F: Files>(files: &mut F, path: &str) -> Result<Text, NoPolicy> {
    match files.read_text(path) {
        Ok(Found::Text(text)) => Ok(text),
        Ok(_) => Err(NoPolicy::Unread),
        Err(Failed::Fault) => Err(NoPolicy::Unread),
        Err(Failed::NoMemory) => Err(NoPolicy::NoMemory),
    }
}

/// The policy in the file POLICY, by the agent's keys, those of the files that it names, and the file KNOWN_HOSTS.
pub(crate) fn policy_at<F: Files, S: AgentStream>(
    alloc: Global,
    files: &mut F,
    agent: &mut AgentClient<S>,
    policy: &str,
    known_hosts: &str,
) -> Result<SessionPolicy, NoPolicy> {
    let text = text_at(files, policy)?;
    let hosts = text_at(files, known_hosts)?;
    let mut keys = Vec::new(alloc);
    add_listed(alloc, &mut keys, agent)?;
    let paths = key_files(alloc, text.as_str())?;
    add_files(alloc, &mut keys, files, paths.as_slice())?;
    match read_policy(alloc, text.as_str(), keys.as_slice(), hosts.as_str()) {
        Ok(policy) => Ok(policy),
        Err(WrittenError::NoMemory) => Err(NoPolicy::NoMemory),
        Err(WrittenError::BadLine { line, fault }) => Err(NoPolicy::BadLine { line, fault }),
    }
}
