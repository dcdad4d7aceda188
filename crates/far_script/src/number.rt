// Reads numbers.
ghost use Rattle.std.specs.Prelude.{◌≡◌, ◌==◌, ◌<◌, ◌≤◌, ◌^◌, ℕ, true, false, length, slice_index, take, Some, IfSome};
ghost use Rattle.std.specs.Char.{is_ascii_digit};
ghost use Rattle.std.specs.List.{before_first, position_or_len};
ghost use Rattle.far_script.specs.OneRecord.{is_comma};
ghost use Rattle.far_script.specs.Numbers.{below, digits_from, digits_of, number_of, long_number_of, signed_number_of};

/// From this number on, one more digit could make it too large.
const MANY: u64 = 100_000_000_000_000_000;

/// Returns the number of a text of decimal digits, if it is below 2^64.
fn digits(text: &[u8]) -> Option<u64>
    ensures { result ≡ below (2 ^ 64) (digits_of text.now) }
{
    if text.is_empty() {
        return None;
    }
    let mut number = 0u64;
    for byte in text {
        if !byte.is_ascii_digit() {
            return None;
        }
        number = number
            .checked_mul(10)?
            .checked_add(u64::from(*byte - b'0'))?;
    }
    Some(number)
}

/// Reads a word as a number: decimal digits without a sign, below 2^64.
pub fn long_number(word: &str) -> Option<u64>
    ensures { result ≡ long_number_of word.now }
{
    digits(word.as_bytes())
}

/// Reads a word as a number: decimal digits without a sign, below 2^32.
pub fn number(word: &str) -> Option<u32>
    ensures { result ≡ number_of word.now }
{
    let number = digits(word.as_bytes())?;
    u32::try_from(number).ok()
}

/// Reads a cell's number: an optional `+` or `-` and one or more decimal digits, in the range of `i64`.
pub fn signed_number(field: &str) -> Option<i64>
    ensures { result ≡ signed_number_of field.now }
{
    match field.as_bytes() {
        [] => None,
        [b'-', rest @ ..] => {
            let size = digits(rest)?;
            0i64.checked_sub_unsigned(size)
        }
        [b'+', rest @ ..] => i64::try_from(digits(rest)?).ok(),
        all => i64::try_from(digits(all)?).ok(),
    }
}

/// Reads the digits at the start of a text: returns their number and how many they are. It stops after about 18 digits, so
/// that the number cannot overflow.
#[inline(always)]
fn first_digits(text: &[u8]) -> (u64, usize)
    ensures within { result.1 ≤ length text.now }
    ensures small { result.0 < 10 ^ 18 }
    ensures number { digits_from 0 (take result.1 text.now) ≡ Some result.0 }
    ensures digits { (k : ℕ) → k < result.1 → is_ascii_digit (slice_index text.now k) ≡ true }
{
    let mut number = 0u64;
    for at in 0..text.len() {
        let byte = text[at];
        if !byte.is_ascii_digit() || number >= MANY {
            return (number, at);
        }
        number = number * 10 + u64::from(byte - b'0');
    }
    (number, text.len())
}

/// Reads the text before the first `end` byte, or all of it, as a number, and returns also that text's length. Searching
/// and reading are one pass. Returns `None` too for a number of many digits, which is then read the slower way.
#[inline(always)]
pub(crate) fn first_number(text: &[u8], end: u8) -> Option<(u64, usize)>
    requires { is_ascii_digit end ≡ false }
    ensures { IfSome result
        (λ x. (x.0 < 10 ^ 18)
        × (x.1 ≡ position_or_len (λ b. b == end) text.now)
        × (x.1 ≤ length text.now)
        × (digits_of (before_first (λ b. b == end) text.now) ≡ Some x.0)) }
{
    let (number, len) = first_digits(text);
    if len == 0 {
        return None;
    }
    if len < text.len() && text[len] != end {
        return None;
    }
    Some((number, len))
}

/// Reads the first field of a text as a number, with its length, as `first_number` does. A minus is allowed; a plus returns
/// `None`.
#[inline(always)]
pub(crate) fn first_signed(text: &[u8]) -> Option<(i64, usize)>
    ensures { IfSome result
        (λ x. (x.1 ≡ position_or_len is_comma text.now)
        × (signed_number_of (before_first is_comma text.now) ≡ Some x.0)) }
{
    match text {
        [b'-', rest @ ..] => {
            let (size, len) = first_number(rest, b',')?;
            let number = 0i64.checked_sub_unsigned(size)?;
            Some((number, len + 1))
        }
        all => {
            let (size, len) = first_number(all, b',')?;
            Some((size as i64, len))
        }
    }
}
