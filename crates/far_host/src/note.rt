// The store's note of a content.
ghost use Rattle.std.specs.Prelude.{◌≡◌, ◌↔◌, length, IsTrue};
ghost use Rattle.far_host.specs.ContentDigest.{content_digest};
ghost use Rattle.far_host.specs.HostTickets.{HasDigestOf};

use crate::digest::digest_of;
use boxcar::tag::{Names, Tag};

/// The length and the digest of a content. Clauses also see the content itself, which is not kept.
#[derive(Drop)]
pub(crate) struct Note {
    len: usize,
    digest: [u8; 32],
    pub(crate) content: Tag,
    ghost lengths: { len ≡ length content.numbers },
    ghost digests: { digest ≡ content_digest content.numbers },
}

struct Bytes;

impl Names<&[u8]> for Bytes {
    ghost numbers = { λ bytes. bytes.now };
}

impl Note {
    pub(crate) fn of(bytes: &[u8]) -> Note
        ensures { result.content.numbers ≡ bytes.now }
    {
        Note {
            len: bytes.len(),
            digest: digest_of(bytes),
            content: Tag::of::<&[u8], Bytes>(&bytes),
        }
    }

    /// Returns whether the bytes have the length and the digest that were noted.
    pub(crate) fn fits(&self, bytes: &[u8]) -> bool
        ensures { IsTrue result ↔ HasDigestOf self.now.content.numbers bytes.now }
    {
        bytes.len() == self.len && digest_of(bytes) == self.digest
    }
}
