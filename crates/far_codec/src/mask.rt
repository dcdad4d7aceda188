// The head and the mask of values: writing and comparing them.
ghost use Rattle.std.specs.Prelude.{◌≡◌, true, ◌++◌, ◌+◌, ◌*◌, ◌/◌, ◌<◌, ◌≤◌, ◌^◌, ℕ, List, length, map, take, drop, cond, is_none, OnOk, IfSome, IsSomeAnd};
ghost use Rattle.std.specs.List.{list_any};
ghost use Rattle.far_types.specs.FormLengths.{mask_length};
ghost use Rattle.far_codec.specs.FarForm.{mask_byte, mask_bytes, head, some_missing};

use crate::flags::Flags;
use crate::head::has_bit;
use std::alloc::AllocError;

/// Returns the length of the mask of values in bytes; 0 if none is missing.
pub(crate) fn mask_length<T>(values: &[Option<T>]) -> usize
    ensures { result ≡ mask_length values.now }
{
    if (&values).any_missing() {
        values.len().div_ceil(8)
    } else {
        0
    }
}

/// Returns the first byte of a form, which says whether the form has a mask.
fn version(masked: bool) -> u8
    ensures { result ≡ cond masked 2 1 }
{
    if masked { 2 } else { 1 }
}

/// Returns the mask byte of the eight values from `8 * k` on.
fn byte_at<F: Flags>(flags: &F, k: usize) -> u8
    requires { 8 * k ≤ length (F.flags flags.now) }
    ensures { result ≡ mask_byte (take 8 (drop (8 * k) (F.flags flags.now))) }
{
    let mut byte = 0;
    let mut i = (flags.count() - 8 * k).min(8);
    while i > 0 {
        i -= 1;
        byte = 2 * byte + u8::from(flags.is_missing(8 * k + i));
    }
    byte
}

/// Appends the mask of values, some of them missing.
fn push_mask<F: Flags>(form: &mut Vec<u8>, flags: &F) -> Result<(), AllocError>
    ensures { OnOk result (form.new.items ≡ form.old.items ++ mask_bytes (F.flags flags.now)) }
{
    for k in 0..flags.count().div_ceil(8) {
        form.push(byte_at(flags, k))?;
    }
    Ok(())
}

/// Appends the head and the mask of values.
pub(crate) fn push_head<F: Flags>(form: &mut Vec<u8>, kind: u8, flags: &F) -> Result<(), AllocError>
    ensures { OnOk result (form.new.items ≡ form.old.items ++ head kind (F.flags flags.now)) }
{
    let count = flags.count().to_le_bytes();
    let masked = flags.any_missing();
    form.extend_from_slice(&[
        version(masked),
        kind,
        count[0],
        count[1],
        count[2],
        count[3],
    ])?;
    if masked {
        push_mask(form, flags)?;
    }
    Ok(())
}

/// Returns the bytes after the mask of `values`, if the bytes begin with that mask and a value is missing. Stops at the first difference.
fn strip_mask<'a, T>(bytes: &'a [u8], values: &[Option<T>]) -> Option<&'a [u8]>
    ensures found { IfSome result (λ rest. (bytes.now
        ≡ mask_bytes (map is_none values.now) ++ rest.now)
        × (list_any is_none values.now ≡ true)) }
    ensures only { (rest : List ℕ) → bytes.now ≡ mask_bytes (map is_none values.now) ++ rest
        → list_any is_none values.now ≡ true → IsSomeAnd result (λ r. r.now ≡ rest) }
{
    let length = values.len().div_ceil(8);
    if bytes.len() < length {
        return None;
    }
    let (mask, rest) = bytes.split_at(length);
    for k in 0..length {
        if mask[k] != byte_at(&values, k) {
            return None;
        }
    }
    if !has_bit(mask) {
        return None;
    }
    Some(rest)
}

/// Returns the bytes after the head and the mask of `values`, if the bytes begin with these and a value is missing. Stops at the first
/// difference.
pub(crate) fn strip_head<'a, T>(bytes: &'a [u8], kind: u8, values: &[Option<T>]) -> Option<&'a [u8]>
    ensures found { IfSome result (λ rest. (bytes.now
        ≡ head kind (map is_none values.now) ++ rest.now)
        × (list_any is_none values.now ≡ true)) }
    ensures only { (rest : List ℕ) → bytes.now ≡ head kind (map is_none values.now) ++ rest
        → list_any is_none values.now ≡ true → IsSomeAnd result (λ r. r.now ≡ rest) }
{
    if bytes.len() < 6 {
        return None;
    }
    let (front, rest) = bytes.split_at(6);
    let count = values.len().to_le_bytes();
    if front != [2, kind, count[0], count[1], count[2], count[3]].as_slice() {
        return None;
    }
    strip_mask(rest, values)
}
