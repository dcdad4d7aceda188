// The digest that a store notes of a content.
ghost use Rattle.std.specs.Prelude.{◌≡◌};
ghost use Rattle.far_host.specs.ContentDigest.{content_digest};

use crate::lanes::{digest_in, hash_values};
use sha2::{Digest, Sha256};

#[cfg(test)]
mod tests;

// A shorter content is hashed directly: the last hash, over four digests, takes most of what four lanes save.
const LONG: usize = 1024;

/// Returns the digest of a content. From 1,024 bytes on, it is made from four parts that are hashed side by
/// side.
pub(crate) fn digest_of(content: &[u8]) -> [u8; 32]
    ensures { result ≡ content_digest content.now }
{
    if content.len() < LONG {
        return Sha256::digest(content);
    }
    let blocks = content.len() / 256;
    let part_len = blocks * 64;
    let state = hash_values(
        &content[..part_len],
        &content[part_len..2 * part_len],
        &content[2 * part_len..3 * part_len],
        &content[3 * part_len..4 * part_len],
        blocks,
    );
    let mut hasher = Sha256::new();
    hasher.update(&digest_in(&state, 0));
    hasher.update(&digest_in(&state, 1));
    hasher.update(&digest_in(&state, 2));
    hasher.update(&digest_in(&state, 3));
    hasher.update(&content[4 * part_len..]);
    hasher.finalize()
}
