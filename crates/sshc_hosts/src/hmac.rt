//! HMAC with SHA-1 (RFC 2104).

ghost use Rattle.std.specs.Prelude.{◌≡◌, ◌≤◌, ◌-◌, ◌++◌, length, replicate};
ghost use Rattle.sha1.specs.Sha1.{sha1};
ghost use Rattle.sshc_hosts.specs.Hmac.{block_length, block_key, padded_by, hmac_sha1};

use sha1::Sha1;

const BLOCK_LENGTH: usize = 64;

/// The bytes, which fit in a block, followed by zeros up to a block's length.
fn filled(bytes: &[u8]) -> [u8; BLOCK_LENGTH]
    requires { length bytes.now ≤ block_length }
    ensures { result ≡ bytes.now ++ replicate (block_length - length bytes.now) 0 }
{
    let mut block = [0u8; BLOCK_LENGTH];
    block[..bytes.len()].copy_from_slice(bytes);
    block
}

/// The key with zeros up to a block's length. A longer key is replaced by its digest first.
fn filled_key(key: &[u8]) -> [u8; BLOCK_LENGTH]
    ensures { result ≡ block_key key.now }
{
    if key.len() > BLOCK_LENGTH {
        filled(&Sha1::digest(key))
    } else {
        filled(key)
    }
}

/// The exclusive or of each byte of the block with `pad`.
fn padded(block: &[u8; BLOCK_LENGTH], pad: u8) -> [u8; BLOCK_LENGTH]
    ensures { result ≡ padded_by pad block.now }
{
    let mut padded = *block;
    for k in padded.iter_mut() {
        *k ^= pad;
    }
    padded
}

/// The digest of a block and what follows it.
fn digest_after(block: &[u8; BLOCK_LENGTH], rest: &[u8]) -> [u8; 20]
    ensures { result ≡ sha1 (block.now ++ rest.now) }
{
    let mut hasher = Sha1::new();
    hasher.update(block);
    hasher.update(rest);
    hasher.finalize()
}

/// The HMAC of a message under a key, with SHA-1.
#[tactic(auto, unfolding(crate::specs::Hmac::hmac_sha1))]
pub fn hmac_sha1(key: &[u8], message: &[u8]) -> [u8; 20]
    ensures { result ≡ hmac_sha1 key.now message.now }
{
    let block = filled_key(key);
    let inner = digest_after(&padded(&block, 0x36), message);
    digest_after(&padded(&block, 0x5c), &inner)
}
