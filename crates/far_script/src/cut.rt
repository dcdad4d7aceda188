// Cuts a text at a byte.
ghost use Rattle.std.specs.Prelude.{◌≡◌, ◌==◌, ◌<◌, length, MatchOption};
ghost use Rattle.std.specs.List.{position_or_len, before_first, after_first};

/// Returns the texts before and after the first `wanted` byte, an ASCII byte, or `None` if there is none. It looks at one
/// byte after the other: `split_once` is made for long texts and is slower on words and fields.
pub fn cut(text: &str, wanted: u8) -> Option<(&str, &str)>
    requires { wanted < 128 }
    ensures { MatchOption result (position_or_len (λ b. b == wanted) text.now ≡ length text.now)
        (λ x. (position_or_len (λ b. b == wanted) text.now < length text.now)
        × (x.0.now ≡ before_first (λ b. b == wanted) text.now)
        × (x.1.now ≡ after_first (λ b. b == wanted) text.now)) }
{
    match text.as_bytes().iter().position(|byte| *byte == wanted) {
        Some(at) => Some((&text[..at], &text[at + 1..])),
        None => None,
    }
}

/// Returns the text before the ASCII byte at `at`, or all of it if there is no such byte.
#[inline(always)]
pub(crate) fn before(text: &str, at: usize, wanted: u8) -> &str
    requires ascii { wanted < 128 }
    requires first { at ≡ position_or_len (λ b. b == wanted) text.now }
    ensures { result.now ≡ before_first (λ b. b == wanted) text.now }
{
    if at < text.len() { &text[..at] } else { text }
}

/// Returns the text after the ASCII byte at `at`, or an empty text if there is no such byte.
#[inline(always)]
pub(crate) fn behind(text: &str, at: usize, wanted: u8) -> &str
    requires ascii { wanted < 128 }
    requires first { at ≡ position_or_len (λ b. b == wanted) text.now }
    ensures { result.now ≡ after_first (λ b. b == wanted) text.now }
{
    if at < text.len() { &text[at + 1..] } else { "" }
}
