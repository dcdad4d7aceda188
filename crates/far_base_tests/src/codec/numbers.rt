// Forms of numbers.
use crate::cases::{Case, all};
use crate::codec::case::all_hold;
use crate::codec::forms::{
    ONE_AND_MINUS_ONE, ONE_AND_MISSING, are_elements, are_rewritten, spells_none,
};
use far_codec::{Elem, Values, decode, ints_length, kind_of};
use far_types::{Kind, Refusal};
use std::alloc::Global;

/// Returns whether the bytes are read as these numbers.
fn are_values(alloc: Global, bytes: &[u8], numbers: &[Option<i64>]) -> Result<bool, Refusal> {
    let Some(Values::Ints(list)) = decode(alloc, bytes)? else {
        return Ok(false);
    };
    Ok(list.as_slice() == numbers && ints_length(list.as_slice()) == bytes.len())
}

/// Returns whether every call that reads or writes numbers agrees that the bytes are their form.
fn are_numbers(alloc: Global, bytes: &[u8], numbers: &[Option<i64>]) -> Result<bool, Refusal> {
    all(&[
        Ok(kind_of(bytes) == Some(Kind::Int)),
        are_rewritten(alloc, bytes, Kind::Int),
        are_elements(alloc, bytes, numbers),
        are_values(alloc, bytes, numbers),
    ])
}

/// A form made by hand, and its numbers.
struct Numbers {
    form: &'static [u8],
    numbers: &'static [Option<i64>],
    /// The numbers, if none is missing.
    plain: Option<&'static [i64]>,
}

impl Case for Numbers {
    fn is_right(&self, alloc: Global) -> Result<bool, Refusal> {
        let are_plain = match self.plain {
            Some(plain) => are_elements(alloc, self.form, plain),
            None => spells_none::<i64>(alloc, self.form),
        };
        all(&[are_plain, are_numbers(alloc, self.form, self.numbers)])
    }
}

static NUMBERS: [Numbers; 3] = [
    Numbers {
        form: ONE_AND_MINUS_ONE,
        numbers: &[Some(1), Some(-1)],
        plain: Some(&[1, -1]),
    },
    Numbers {
        form: &[1, 0, 0, 0, 0, 0],
        numbers: &[],
        plain: Some(&[]),
    },
    Numbers {
        form: ONE_AND_MISSING,
        numbers: &[Some(1), None],
        plain: None,
    },
];

#[test]
fn numbers_are_written_and_read(rt: HostRuntime) {
    all_hold(&rt, rt.alloc(), &NUMBERS);
}
