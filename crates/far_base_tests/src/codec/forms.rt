// Forms made by hand from the description of the format, and forms that are read and written again.
use crate::cases::{all, is_list, is_nothing};
use far_codec::{Elem, Values, decode, encode_ints, encode_texts};
use far_types::{Kind, Refusal};
use std::alloc::Global;

pub const ONE_AND_MINUS_ONE: &[u8] = &[
    1, 0, 2, 0, 0, 0, 1, 0, 0, 0, 0, 0, 0, 0, 255, 255, 255, 255, 255, 255, 255, 255,
];

pub const ONE_AND_MISSING: &[u8] = &[
    2, 0, 2, 0, 0, 0, 2, 1, 0, 0, 0, 0, 0, 0, 0, 0, 0, 0, 0, 0, 0, 0, 0,
];

pub const THREE_TEXTS: &[u8] = &[
    1, 1, 3, 0, 0, 0, 1, 0, 0, 0, 1, 0, 0, 0, 3, 0, 0, 0, 97, 98, 99,
];

pub const E_ACUTE: &[u8] = &[1, 1, 1, 0, 0, 0, 2, 0, 0, 0, 195, 169];

pub const MISSING_AND_A: &[u8] = &[2, 1, 2, 0, 0, 0, 1, 0, 0, 0, 0, 1, 0, 0, 0, 97];

/// Returns whether the bytes are read as values of a kind, and written as the same bytes.
pub fn are_rewritten(alloc: Global, bytes: &[u8], kind: Kind) -> Result<bool, Refusal> {
    let (read, form) = match decode(alloc, bytes)? {
        Some(Values::Ints(list)) => (Kind::Int, encode_ints(alloc, list.as_slice())),
        Some(Values::Texts(list)) => (Kind::Text, encode_texts(alloc, list.as_slice())),
        None => return Ok(false),
    };
    all(&[Ok(read == kind), is_list(form, bytes)])
}

/// Returns whether the bytes are read as these elements, and written as the same bytes.
pub fn are_elements<T: Elem + PartialEq>(
    alloc: Global,
    bytes: &[u8],
    list: &[T],
) -> Result<bool, Refusal> {
    let Some(read) = T::unspell(alloc, bytes)? else {
        return Ok(false);
    };
    let is_same = read.as_slice() == list && T::spells(bytes, list);
    all(&[
        Ok(is_same),
        is_list(T::spell(alloc, read.as_slice()), bytes),
    ])
}

/// Returns whether the bytes are read as no list of elements.
pub fn spells_none<T: Elem>(alloc: Global, bytes: &[u8]) -> Result<bool, Refusal> {
    is_nothing(T::unspell(alloc, bytes))
}
