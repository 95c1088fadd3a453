//! Global requests of the peer's (RFC 4254, section 4).

ghost use Rattle.std.specs.Prelude.{◌≡◌, ◌++◌, Err, IfOk, OnErr, OnOk};
ghost use Rattle.sshc_wire.specs.Grammar.{finished};
ghost use Rattle.sshc_wire.specs.Outgoing.{listed};
ghost use Rattle.sshc_client_packets.specs.Parts.{Gives, GivesAll, octets_at};
ghost use Rattle.sshc_client_packets.specs.PeerGlobals.{blobs_of, found_key, host_keys_of, named_global_of};
ghost use Rattle.sshc_client_packets.specs.PeerGlobals.{peer_global_of};
ghost use Rattle.sshc_key.specs.Nesting.{blob_key};

use crate::error::PacketError;
use crate::taking::{flag_of, words_of};
use sshc_key::{Error, PublicKey, PublicKeyBase64, parse_public_key};
use sshc_wire::{Cursor, List, NoMemory, Octets};
use std::alloc::Global;

/// What the peer asks of us as a whole.
#[derive(PartialEq, Eq, Drop)]
pub enum PeerGlobal {
    /// Only a reply is asked for.
    Keepalive { want_reply: bool },
    /// The server's host keys, as far as they can be read (OpenSSH's PROTOCOL, section 2.5). They aren't proved yet.
    HostKeys { keys: List<PublicKey> },
    /// A request of another name.
    Unknown { want_reply: bool },
}

/// The key at the front of the blob, if there is one.
fn found_key(alloc: Global, blob: &[u8]) -> Result<Option<PublicKey>, NoMemory>
    ensures { IfOk result (λ o. listed o ≡ found_key (blob_key blob.now)) }
{
    match parse_public_key(alloc, blob) {
        Ok(key) => Ok(Some(key)),
        Err(error) => {
            if error == Error::NoMemory {
                Err(NoMemory)
            } else {
                Ok(None)
            }
        }
    }
}

/// Adds the key at the front of the blob, if there is one.
fn keep_key(keys: &mut List<PublicKey>, blob: &[u8]) -> Result<(), PacketError>
    ensures ok { OnOk result (keys.new ≡ keys.old ++ found_key (blob_key blob.now)) }
    ensures err { OnErr result (result ≡ Err PacketError.NoMemory) }
{
    match found_key(keys.allocator(), blob)? {
        Some(key) => {
            keys.push(key)?;
            Ok(())
        }
        None => Ok(()),
    }
}

#[tactic(auto, unfolding(crate::specs::Parts::octets_at))]
fn octets_of<'a>(c: &mut Cursor<'a>) -> Result<&'a [u8], PacketError>
    ensures { Gives (λ b. b.now) result c.new (octets_at c.old) }
{
    Ok(c.bytes()?)
}

/// The keys that can be read from the strings up to the end.
#[tactic(auto, unfolding(crate::specs::PeerGlobals::host_keys_of))]
fn host_keys(alloc: Global, bytes: &[u8]) -> Result<List<PublicKey>, PacketError>
    ensures { GivesAll (λ l. l) result (host_keys_of bytes.now) }
{
    let mut keys = List::new(alloc);
    let mut c = Cursor::new(bytes);
    while !c.rest().is_empty() {
        let blob = octets_of(&mut c)?;
        keep_key(&mut keys, blob)?;
    }
    Ok(keys)
}

fn keepalive(want_reply: bool, fields: &[u8]) -> Result<PeerGlobal, PacketError>
    ensures { GivesAll (λ r. r) result
        (finished PacketError.SshEncoding (PeerGlobal.Keepalive want_reply, fields.now)) }
{
    Cursor::new(fields).ensure_end()?;
    Ok(PeerGlobal::Keepalive { want_reply })
}

/// By the name; for an unknown name the bytes after the flag are ignored.
#[tactic(auto, unfolding(crate::specs::PeerGlobals::named_global_of))]
fn named_global(
    alloc: Global,
    name: &str,
    want_reply: bool,
    fields: &[u8],
) -> Result<PeerGlobal, PacketError>
    ensures { GivesAll (λ r. r) result (named_global_of name.now want_reply fields.now) }
{
    if name.starts_with("keepalive") {
        return keepalive(want_reply, fields);
    }
    if name == "hostkeys-00@openssh.com" {
        let keys = host_keys(alloc, fields)?;
        return Ok(PeerGlobal::HostKeys { keys });
    }
    Ok(PeerGlobal::Unknown { want_reply })
}

/// GLOBAL_REQUEST (RFC 4254, section 4).
#[tactic(auto, unfolding(crate::specs::PeerGlobals::peer_global_of))]
pub fn read_global_request(alloc: Global, body: &[u8]) -> Result<PeerGlobal, PacketError>
    ensures { GivesAll (λ r. r) result (peer_global_of body.now) }
{
    let mut c = Cursor::new(body);
    let name = words_of(&mut c)?;
    let want_reply = flag_of(&mut c)?;
    named_global(alloc, name, want_reply, c.rest())
}

/// Adds the blobs of the keys.
fn add_blobs(blobs: &mut List<Octets>, keys: &[PublicKey]) -> Result<(), NoMemory>
    ensures { OnOk result (blobs.new ≡ blobs.old ++ blobs_of keys.now) }
{
    for key in keys {
        blobs.push(Octets::from_vec(key.public_key_bytes()?)?)?;
    }
    Ok(())
}

/// The blobs of the keys.
pub fn key_blobs(alloc: Global, keys: &[PublicKey]) -> Result<List<Octets>, NoMemory>
    ensures { IfOk result (λ l. l ≡ blobs_of keys.now) }
{
    let mut blobs = List::new(alloc);
    add_blobs(&mut blobs, keys)?;
    Ok(blobs)
}
