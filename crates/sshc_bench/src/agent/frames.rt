//! Frames of a client (draft-miller-ssh-agent, section 3): Ed25519 pairs by number, listings and sign requests.

use sshc_key::agent_msg;
use sshc_wire::{NoMemory, Octets, put_bytes, put_text, put_u32};
use std::alloc::Global;

/// The public key of a number: the number in four bytes, and 28 bytes of 8.
fn public_key(alloc: Global, number: u32) -> Result<Octets, NoMemory> {
    let mut public = Vec::new(alloc);
    put_u32(&mut public, number)?;
    public.extend_from_slice(&[8u8; 28])?;
    Octets::from_vec(public)
}

/// A frame that adds the pair of a number.
pub fn adds(alloc: Global, number: u32) -> Result<Octets, NoMemory> {
    let public = public_key(alloc, number)?;
    let mut private = Vec::new(alloc);
    private.extend_from_slice(&[7u8; 32])?;
    private.extend_from_slice(public.as_slice())?;
    let private = Octets::from_vec(private)?;
    let mut frame = Vec::new(alloc);
    frame.push(agent_msg::ADD_IDENTITY)?;
    put_text(&mut frame, "ssh-ed25519")?;
    put_bytes(&mut frame, public.as_slice())?;
    put_bytes(&mut frame, private.as_slice())?;
    put_text(&mut frame, "key")?;
    Octets::from_vec(frame)
}

/// A frame that asks for the list of keys.
pub fn lists(alloc: Global) -> Result<Octets, NoMemory> {
    Octets::from_slice(alloc, &[agent_msg::REQUEST_IDENTITIES])
}

/// A frame that asks for a signature over three bytes by the key of a number.
pub fn asks_to_sign(alloc: Global, number: u32) -> Result<Octets, NoMemory> {
    let mut blob = Vec::new(alloc);
    put_text(&mut blob, "ssh-ed25519")?;
    put_bytes(&mut blob, public_key(alloc, number)?.as_slice())?;
    let blob = Octets::from_vec(blob)?;
    let mut frame = Vec::new(alloc);
    frame.push(agent_msg::SIGN_REQUEST)?;
    put_bytes(&mut frame, blob.as_slice())?;
    put_text(&mut frame, "abc")?;
    put_u32(&mut frame, 0)?;
    Octets::from_vec(frame)
}
