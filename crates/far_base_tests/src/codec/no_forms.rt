// Bytes that are not a form.
use crate::cases::{Case, all, is_nothing, must_be};
use crate::codec::case::all_hold;
use crate::codec::forms::{THREE_TEXTS, spells_none};
use far_codec::{decode, kind_of, text_at};
use far_types::Refusal;
use std::alloc::Global;

/// Returns whether every call refuses to read the bytes.
pub fn is_no_form(alloc: Global, bytes: &[u8]) -> Result<bool, Refusal> {
    all(&[
        is_nothing(decode(alloc, bytes)),
        spells_none::<i64>(alloc, bytes),
        spells_none::<Option<i64>>(alloc, bytes),
        spells_none::<u8>(alloc, bytes),
        Ok(kind_of(bytes).is_none() && text_at(bytes, 0).is_none()),
    ])
}

/// Bytes that are not a form, and why.
struct NoForm {
    flaw: &'static str,
    bytes: &'static [u8],
}

impl Case for NoForm {
    fn is_right(&self, alloc: Global) -> Result<bool, Refusal> {
        is_no_form(alloc, self.bytes)
    }
}

static NO_FORMS: [NoForm; 11] = [
    NoForm {
        flaw: "ends decrease",
        bytes: &[1, 1, 2, 0, 0, 0, 3, 0, 0, 0, 2, 0, 0, 0, 97, 98, 99],
    },
    NoForm {
        flaw: "a spare byte",
        bytes: &[1, 1, 1, 0, 0, 0, 1, 0, 0, 0, 97, 98],
    },
    NoForm {
        flaw: "an end inside a character",
        bytes: &[1, 1, 2, 0, 0, 0, 1, 0, 0, 0, 2, 0, 0, 0, 195, 169],
    },
    NoForm {
        flaw: "cut off",
        bytes: &[1, 0, 1, 0, 0, 0, 1],
    },
    NoForm {
        flaw: "no such kind",
        bytes: &[1, 2, 0, 0, 0, 0],
    },
    NoForm {
        flaw: "a mask without values",
        bytes: &[2, 0, 0, 0, 0, 0],
    },
    NoForm {
        flaw: "no bytes",
        bytes: &[],
    },
    NoForm {
        flaw: "a mask without a bit",
        bytes: &[2, 0, 1, 0, 0, 0, 0, 1, 0, 0, 0, 0, 0, 0, 0],
    },
    NoForm {
        flaw: "a bit past the count",
        bytes: &[2, 0, 1, 0, 0, 0, 3, 0, 0, 0, 0, 0, 0, 0, 0],
    },
    NoForm {
        flaw: "a missing number that is not 0",
        bytes: &[2, 0, 1, 0, 0, 0, 1, 1, 0, 0, 0, 0, 0, 0, 0],
    },
    NoForm {
        flaw: "a missing text with bytes",
        bytes: &[2, 1, 1, 0, 0, 0, 1, 1, 0, 0, 0, 97],
    },
];

#[test]
fn other_bytes_are_no_form(rt: HostRuntime) {
    all_hold(&rt, rt.alloc(), &NO_FORMS);
}

/// Returns whether no proper prefix of a form is a form.
fn is_whole_alone(alloc: Global) -> Result<bool, Refusal> {
    for length in 0..21 {
        let (prefix, _) = THREE_TEXTS.split_at(length);
        let answer = is_no_form(alloc, prefix);
        if answer != Ok(true) {
            return answer;
        }
    }
    Ok(true)
}

#[test]
fn no_proper_prefix_of_a_form_is_one(rt: HostRuntime) {
    must_be(&rt, is_whole_alone(rt.alloc()), Ok(true));
}
