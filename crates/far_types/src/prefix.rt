// The first bytes of a text as a number. If the numbers of two texts differ, one comparison of the numbers orders the texts.
ghost use Rattle.std.specs.Prelude.{◌≡◌, ◌+◌, ◌<◌, ◌≤◌, ◌∷◌, [], length, slice_index};
ghost use Rattle.std.specs.Int.{w32, from_be_bytes};
ghost use Rattle.far_types.specs.Prefixes.{prefix_of, AreBytes};

/// Returns the byte at index `place`, or 0 if there is none.
#[inline(always)]
fn byte_at(bytes: &[u8], place: usize) -> u8
    ensures { result ≡ slice_index bytes.now place }
{
    if place < bytes.len() {
        return bytes[place];
    }
    0
}

/// Returns the four bytes from index `place` on as a big-endian number.
#[inline(always)]
fn four_from(bytes: &[u8], place: usize) -> u32
    requires { place + 4 ≤ length bytes.now }
    ensures { result
        ≡ from_be_bytes w32 (slice_index bytes.now place
        ∷ slice_index bytes.now (place + 1)
        ∷ slice_index bytes.now (place + 2)
        ∷ slice_index bytes.now (place + 3)
        ∷ []) }
{
    u32::from_be_bytes([
        bytes[place],
        bytes[place + 1],
        bytes[place + 2],
        bytes[place + 3],
    ])
}

/// Returns the first eight bytes as a big-endian number. A missing byte is 0.
///
/// It reads four bytes at once, twice. With 4 to 7 bytes, the last four overlap the first four: the shift and the remainder drop the
/// bytes that were read twice.
#[inline(always)]
pub fn prefix_of(bytes: &[u8]) -> u64
    ensures value { result ≡ prefix_of bytes.now }
    ensures bytes { AreBytes bytes.now }
{
    let len = bytes.len();
    if len < 4 {
        let first = u64::from(byte_at(bytes, 0)) << 56;
        let second = u64::from(byte_at(bytes, 1)) << 48;
        return first + second + (u64::from(byte_at(bytes, 2)) << 40);
    }
    let first = u64::from(four_from(bytes, 0)) << 32;
    if len < 8 {
        let last = u64::from(four_from(bytes, len - 4)) << (64 - len * 8);
        return first + last % (1 << 32);
    }
    first + u64::from(four_from(bytes, 4))
}
