//! The readers and the plain reader judge the same blobs, and have to agree.

use super::blobs::key_bytes;
use super::plain::key_length;
use super::random::Random;
use sshc_key::Error;
use sshc_wire::{NoMemory, Octets, Text, put_bytes, put_text};
use std::alloc::Global;

/// Names with which blobs begin, of the grammar and near it.
const NAMES: [&str; 14] = [
    "ssh-dss",
    "ssh-rsa",
    "ssh-ed25519",
    "ecdsa-sha2-nistp256",
    "ecdsa-sha2-nistp384",
    "ecdsa-sha2-nistp521",
    "sk-ssh-ed25519@openssh.com",
    "sk-ecdsa-sha2-nistp256@openssh.com",
    "a@b",
    "ssh-rsa@openssh.com",
    "ssh-ed25519-cert-v01@openssh.com",
    "a-cert-v01@b",
    "a-cert-v01-cert-v01@b",
    "nistp256",
];

/// Lengths of strings, those of the grammar and near them.
const LENGTHS: [usize; 10] = [0, 1, 2, 3, 31, 32, 33, 65, 97, 133];

/// The results for many blobs.
#[derive(Drop)]
struct Tally {
    alike: u32,
    keys: u32,
}

impl Tally {
    fn output(&self, alloc: Global) -> anyhow::Result<String> {
        let some = if self.keys > 0 && self.keys < self.alike {
            "some are keys and some are none"
        } else {
            "WRONG"
        };
        Ok(format!(in alloc; "{} are judged alike, {some}", self.alike)?)
    }

    fn count(&mut self, alloc: Global, blob: &[u8]) -> anyhow::Result<()> {
        let plain = key_length(alloc, blob)?;
        if agrees(alloc, blob, plain) {
            self.alike = self.alike.saturating_add(1);
        }
        if plain.is_some() {
            self.keys = self.keys.saturating_add(1);
        }
        Ok(())
    }
}

/// Whether the reader finds a key of this length at the front, or no key if `length` is `None`.
fn agrees(alloc: Global, blob: &[u8], length: Option<usize>) -> bool {
    match key_bytes(alloc, blob) {
        Ok(bytes) => length == Some(bytes.len()) && blob.starts_with(&bytes),
        Err(error) => error == Error::SshKey && length.is_none(),
    }
}

fn random_string(alloc: Global, random: &mut Random) -> Result<Octets, NoMemory> {
    let mut bytes = Vec::new(alloc);
    let length = LENGTHS.get(random.below(LENGTHS.len())).copied();
    for at in 0..length.unwrap_or(0) {
        let byte = if at == 0 && random.below(2) == 0 {
            4
        } else {
            random.byte()
        };
        bytes.push(byte)?;
    }
    Octets::from_vec(bytes)
}

/// A name, followed by strings.
fn random_blob(alloc: Global, random: &mut Random) -> Result<Vec<u8>, NoMemory> {
    let mut blob = Vec::new(alloc);
    let name = NAMES.get(random.below(NAMES.len())).copied();
    let name = Text::from_str(alloc, name.unwrap_or(""))?;
    put_text(&mut blob, name.as_str())?;
    if random.below(3) == 0 {
        put_text(&mut blob, "nistp256")?;
    }
    for _ in 0..random.below(6) {
        let bytes = random_string(alloc, random)?;
        put_bytes(&mut blob, bytes.as_slice())?;
    }
    Ok(blob)
}

/// How random blobs are judged, of which one in four has no name at the front.
pub fn random_agree(alloc: Global, rounds: u32) -> anyhow::Result<String> {
    let mut random = Random::new(1);
    let mut tally = Tally { alike: 0, keys: 0 };
    for _ in 0..rounds {
        let blob = if random.below(4) == 0 {
            random_string(alloc, &mut random)?.into_vec()
        } else {
            random_blob(alloc, &mut random)?
        };
        tally.count(alloc, &blob)?;
    }
    tally.output(alloc)
}

/// Changes a byte, removes one, or puts one in between.
fn damage(random: &mut Random, blob: &mut Vec<u8>) -> Result<(), NoMemory> {
    let at = random.below(blob.len());
    let byte = random.byte();
    if at >= blob.len() {
        return Ok(());
    }
    match random.below(3) {
        0 => blob[at] = byte,
        1 => {
            let _ = blob.remove(at);
        }
        _ => blob.insert(at, byte)?,
    }
    Ok(())
}

/// How damaged copies of these keys are judged.
pub fn damaged_agree(alloc: Global, keys: &[Vec<u8>], rounds: u32) -> anyhow::Result<String> {
    let mut random = Random::new(2);
    let mut tally = Tally { alike: 0, keys: 0 };
    for _ in 0..rounds {
        let Some(key) = keys.get(random.below(keys.len())) else {
            continue;
        };
        let mut blob = key.clone()?;
        damage(&mut random, &mut blob)?;
        tally.count(alloc, &blob)?;
    }
    tally.output(alloc)
}
