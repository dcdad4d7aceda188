// The head of a far form, and its mask, which marks the missing values.
ghost use Rattle.std.specs.Prelude.{◌≡◌, ◌==◌, ◌↔◌, ◌++◌, ◌+◌, ◌/◌, ◌<◌, ◌^◌, true, not, Bool, List, ℕ, length, IfSome, IsSomeAnd, IsTrue};
ghost use Rattle.std.specs.List.{list_any};
ghost use Rattle.far_codec.specs.FarForm.{head, mask_of, some_missing, FitsCount};
ghost use Rattle.far_codec.specs.Reading.{is_missing, flags_of};

/// The parts of a far form: the count of its values, its mask, and the bytes after the mask.
#[derive(Clone, Copy)]
pub(crate) struct Masked<'a> {
    pub count: usize,
    pub mask: &'a [u8],
    pub fields: &'a [u8],
}

/// Returns whether the mask marks value `i` as missing.
pub(crate) fn is_set(mask: &[u8], i: usize) -> bool
    ensures { result ≡ is_missing mask.now i }
{
    match mask.get(i / 8) {
        Some(byte) => byte >> (i % 8) & 1 == 1,
        None => false,
    }
}

/// Returns whether at least one byte is not 0.
pub(crate) fn has_bit(mask: &[u8]) -> bool
    ensures { result ≡ list_any (λ byte. not (byte == 0)) mask.now }
{
    mask.iter().any(|byte| *byte != 0)
}

/// Returns whether the bytes are a valid mask of `count` values, with at least one bit set.
fn is_mask(mask: &[u8], count: usize) -> bool
    requires { length mask.now ≡ (count + 7) / 8 }
    ensures { IsTrue result
        ↔ ((mask.now ≡ mask_of (flags_of mask.now count))
        × (some_missing (flags_of mask.now count) ≡ true)) }
{
    let spare = count % 8;
    if spare != 0 && mask[count / 8] >> spare != 0 {
        return false;
    }
    has_bit(mask)
}

/// Splits off the mask of `count` values. Returns `None` if the bytes do not begin with such a mask.
fn split_mask(count: usize, rest: &[u8]) -> Option<Masked<'_>>
    requires { count < 2 ^ 32 }
    ensures found { IfSome result (λ m. (m.count ≡ count)
        × (rest.now ≡ mask_of (flags_of m.mask.now count) ++ m.fields.now)
        × (some_missing (flags_of m.mask.now count) ≡ true)) }
    ensures only { (flags : List Bool) (fields : List ℕ) → length flags ≡ count
        → some_missing flags ≡ true → rest.now ≡ mask_of flags ++ fields
        → IsSomeAnd result
        (λ m. (m.count ≡ count) × (m.mask.now ≡ mask_of flags) × (m.fields.now ≡ fields)) }
{
    let length = (count + 7) / 8;
    if rest.len() < length {
        return None;
    }
    let (mask, fields) = rest.split_at(length);
    if !is_mask(mask, count) {
        return None;
    }
    Some(Masked {
        count,
        mask,
        fields,
    })
}

/// Splits off the head and the mask of a form of this kind. Returns `None` if the bytes do not begin with these.
pub(crate) fn split_head(bytes: &[u8], kind: u8) -> Option<Masked<'_>>
    ensures found { IfSome result (λ m. (m.count < 2 ^ 32)
        × (bytes.now ≡ head kind (flags_of m.mask.now m.count) ++ m.fields.now)) }
    ensures only { (flags : List Bool) (rest : List ℕ) → FitsCount flags
        → bytes.now ≡ head kind flags ++ rest
        → IsSomeAnd result
        (λ m. (m.count ≡ length flags) × (m.mask.now ≡ mask_of flags)
        × (m.fields.now ≡ rest)) }
{
    if bytes.len() < 6 {
        return None;
    }
    if bytes[1] != kind {
        return None;
    }
    let count = u32::from_le_bytes([bytes[2], bytes[3], bytes[4], bytes[5]]) as usize;
    let (_, rest) = bytes.split_at(6);
    if bytes[0] == 1 {
        return Some(Masked {
            count,
            mask: &[],
            fields: rest,
        });
    }
    if bytes[0] == 2 {
        return split_mask(count, rest);
    }
    None
}
