// Tests of what no clause says: digests that another program computed, and that each lane agrees
// with `sha2`.
ghost use Rattle.std.specs.Prelude.{◌≤◌};

use super::digest_of;
use crate::lanes::{digest_in, hash_values};
use sha2::{Digest, Sha256};

// Returns bytes of which byte i is i modulo 251.
fn counted() -> [u8; 5000] {
    let mut bytes = [0; 5000];
    for i in 0..5000 {
        bytes[i] = (i % 251) as u8;
    }
    bytes
}

#[test]
fn a_short_content_has_its_sha256(rt: HostRuntime) {
    let bytes = counted();
    for len in 0..301 {
        let content = &bytes[..len];
        assert_eq!(rt;
            digest_of(content),
            Sha256::digest(content),
            "of {len} bytes"
        );
    }
}

#[test]
fn each_lane_has_the_sha256_of_its_message(rt: HostRuntime) {
    let bytes = counted();
    for blocks in 0..6 {
        let len = blocks * 64;
        let first = &bytes[..len];
        let second = &bytes[1000..1000 + len];
        let third = &bytes[2000..2000 + len];
        let fourth = &bytes[3000..3000 + len];
        let state = hash_values(first, second, third, fourth, blocks);
        assert_eq!(rt;
            digest_in(&state, 0),
            Sha256::digest(first),
            "of {blocks} blocks"
        );
        assert_eq!(rt;
            digest_in(&state, 1),
            Sha256::digest(second),
            "of {blocks} blocks"
        );
        assert_eq!(rt;
            digest_in(&state, 2),
            Sha256::digest(third),
            "of {blocks} blocks"
        );
        assert_eq!(rt;
            digest_in(&state, 3),
            Sha256::digest(fourth),
            "of {blocks} blocks"
        );
    }
}

fn digest_of_first(len: usize) -> [u8; 32]
    requires { len ≤ 5000 }
{
    digest_of(&counted()[..len])
}

// Python's hashlib computed the expected digests.
#[test]
fn digests_are_those_that_another_program_computed(rt: HostRuntime) {
    let expected = [
        0x1c, 0x5e, 0x88, 0xa5, 0x85, 0xb6, 0x17, 0x54, 0xdf, 0x61, 0x37, 0xd6, 0x66, 0x32, 0xa7,
        0x34, 0x85, 0x57, 0xa8, 0x83, 0x58, 0xaf, 0xc4, 0x01, 0xb0, 0xa0, 0xa4, 0xfc, 0x42, 0x71,
        0x04, 0xa9,
    ];
    assert_eq!(rt; digest_of_first(1023), expected, "of 1023 bytes");
    let expected = [
        0xb0, 0xa2, 0xf7, 0x31, 0x43, 0x22, 0xbd, 0xb4, 0xe1, 0x83, 0x4a, 0x37, 0x45, 0x33, 0x07,
        0x2a, 0x3e, 0x9f, 0x57, 0x0c, 0xac, 0xa4, 0x2f, 0xe0, 0x48, 0xd8, 0x48, 0x6a, 0x6a, 0x09,
        0x24, 0xf6,
    ];
    assert_eq!(rt; digest_of_first(1024), expected, "of 1024 bytes");
    let expected = [
        0x51, 0xe5, 0x70, 0x6d, 0xe3, 0x71, 0x3c, 0x30, 0xad, 0xf2, 0xe5, 0x3a, 0x6a, 0xf8, 0x4f,
        0x5e, 0x9c, 0x54, 0x10, 0x9e, 0x13, 0x82, 0x08, 0x11, 0xa3, 0x84, 0xce, 0xe3, 0x9b, 0x2f,
        0xe5, 0x9e,
    ];
    assert_eq!(rt; digest_of_first(1279), expected, "of 1279 bytes");
    let expected = [
        0xe4, 0xa7, 0x38, 0xee, 0x64, 0xd3, 0x09, 0x3b, 0x17, 0x10, 0x6b, 0x9a, 0xdc, 0x0c, 0x7b,
        0xb7, 0x98, 0x0a, 0x04, 0x1d, 0xdc, 0xb4, 0x0c, 0x09, 0x6f, 0xa8, 0x7b, 0x95, 0x97, 0xd2,
        0xbb, 0xd6,
    ];
    assert_eq!(rt; digest_of_first(1280), expected, "of 1280 bytes");
    let expected = [
        0x98, 0xbc, 0x1c, 0x29, 0x69, 0x42, 0x56, 0x15, 0x6a, 0x5b, 0x9d, 0x6b, 0x7e, 0xd9, 0xac,
        0x7d, 0x74, 0x77, 0xb1, 0x7b, 0x3a, 0x8a, 0xe0, 0x02, 0xe6, 0xfe, 0xa2, 0x1d, 0x90, 0xa0,
        0x62, 0x98,
    ];
    assert_eq!(rt; digest_of_first(5000), expected, "of 5000 bytes");
}
