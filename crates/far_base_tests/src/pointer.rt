// Tests of far_pointer: words against the table of the layout.
use far_pointer::{At, Pointer, Word};

// Each word of the table, with its bits.
static WORDS: [(Pointer, u64); 4] = [
    (
        Pointer::Local {
            at: At {
                segment: 2,
                offset: 5,
            },
            dirty: true,
            hot: true,
            far: false,
        },
        0xe000_0002_0000_0005,
    ),
    (
        Pointer::Local {
            at: At {
                segment: 0,
                offset: 0,
            },
            dirty: false,
            hot: false,
            far: true,
        },
        0x9000_0000_0000_0000,
    ),
    (
        Pointer::Local {
            at: At {
                segment: 65535,
                offset: 4294967295,
            },
            dirty: true,
            hot: false,
            far: true,
        },
        0xd000_ffff_ffff_ffff,
    ),
    (Pointer::Remote, 0x1000_0000_0000_0000),
];

fn word_of(pointer: Pointer) -> Option<Word> {
    match pointer {
        Pointer::Local {
            at,
            dirty,
            hot,
            far,
        } => Word::local(at, dirty, hot, far),
        Pointer::Remote => Some(Word::remote()),
    }
}

/// Returns whether a word has these bits, and they are read as this word.
fn is_laid_out(pointer: Pointer, bits: u64) -> bool {
    let Some(word) = word_of(pointer) else {
        return false;
    };
    Word::from_bits(bits) == Some(word) && word.bits() == bits && word.read() == pointer
}

fn are_laid_out() -> bool {
    for (pointer, bits) in &WORDS {
        if !is_laid_out(*pointer, *bits) {
            return false;
        }
    }
    true
}

#[test]
fn a_word_has_the_bits_of_the_layout_and_is_read_back(rt: HostRuntime) {
    assert!(rt; are_laid_out());
}

static OTHER_BITS: [u64; 4] = [
    // No bit is set.
    0,
    // Neither dirty nor far.
    0x8000_0000_0000_0000,
    // A spare bit.
    0x9001_0000_0000_0000,
    // Remote, with an offset.
    0x1000_0000_0000_0001,
];

fn are_no_words() -> bool {
    for bits in &OTHER_BITS {
        if Word::from_bits(*bits).is_some() {
            return false;
        }
    }
    true
}

#[test]
fn no_word_has_other_bits(rt: HostRuntime) {
    assert!(rt; are_no_words());
}

const AT_1: At = At {
    segment: 1,
    offset: 1,
};

#[test]
fn a_local_word_that_is_neither_dirty_nor_far_is_not_made(rt: HostRuntime) {
    assert!(rt; Word::local(AT_1, false, true, false).is_none());
}

/// Returns whether a local word of a clean object is moved, becomes hot, becomes dirty and becomes cold again.
fn changes_part_by_part() -> bool {
    let Some(word) = Word::from_bits(0x9000_0000_0000_0000) else {
        return false;
    };
    let moved = word.with_at(At {
        segment: 3,
        offset: 9,
    });
    let hot = moved.with_hot(true);
    let dirty = hot.with_dirty();
    moved.bits() == 0x9000_0003_0000_0009
        && hot.bits() == 0xb000_0003_0000_0009
        && dirty.bits() == 0xf000_0003_0000_0009
        && dirty.dirty()
        && dirty.hot()
        && dirty.with_hot(false).bits() == 0xd000_0003_0000_0009
}

#[test]
fn each_change_keeps_the_other_parts(rt: HostRuntime) {
    assert!(rt; changes_part_by_part());
}
