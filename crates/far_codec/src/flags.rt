// Flags that say which values are missing.
ghost use Rattle.std.specs.Prelude.{◌≡◌, ◌<◌, length, slice_index_or, slice_set, is_none, false};
ghost use Rattle.std.specs.List.{list_any};
ghost use Rattle.far_codec.specs.FarForm.{some_missing};
ghost use Rattle.far_codec.specs.Reading.{flags_of};

use crate::head::is_set;

/// A list of flags that says which values are missing.
pub(crate) trait Flags {
    ghost use Rattle.std.specs.Prelude.{Bool, List};

    /// For each value, whether it is missing.
    ghost flags: { Self → List Bool };

    /// Returns how many values there are.
    fn count(&self) -> usize
        ensures { result ≡ length (flags self.now) };

    /// Returns whether value `i` is missing.
    fn is_missing(&self, i: usize) -> bool
        requires { i < length (flags self.now) }
        ensures { result ≡ slice_index_or (flags self.now) i false };

    /// Returns whether at least one value is missing.
    fn any_missing(&self) -> bool
        ensures { result ≡ some_missing (flags self.now) };
}

/// Returns whether a value other than value `i` is missing. Reads no flag if there is no mask, and else stops at the first such value.
pub(crate) fn other_missing(mask: &[u8], count: usize, i: usize) -> bool
    ensures { result ≡ some_missing (slice_set (flags_of mask.now count) i false) }
{
    if mask.is_empty() {
        return false;
    }
    for j in 0..count {
        let missing = (j != i) & is_set(mask, j);
        if missing {
            return true;
        }
    }
    false
}

/// Returns whether at least one value is missing.
fn any_none<T>(values: &[Option<T>]) -> bool
    ensures { result ≡ list_any is_none values.now }
{
    values.iter().any(|value| value.is_none())
}

impl<T> Flags for &[Option<T>] {
    ghost use Rattle.std.specs.Prelude.{map, is_none};

    ghost flags = { λ values. map is_none values.now };

    fn count(&self) -> usize {
        self.len()
    }

    fn is_missing(&self, i: usize) -> bool {
        self[i].is_none()
    }

    fn any_missing(&self) -> bool {
        any_none(self)
    }
}

/// The flags of a mask of `count` values, with the flag of value `i` replaced by `missing`.
#[derive(Clone, Copy)]
pub(crate) struct ChangedFlags<'a> {
    pub mask: &'a [u8],
    pub count: usize,
    pub i: usize,
    pub missing: bool,
}

impl<'a> Flags for ChangedFlags<'a> {
    ghost use Rattle.std.specs.Prelude.{slice_set};
    ghost use Rattle.far_codec.specs.Reading.{flags_of};

    ghost flags = { λ c. slice_set (flags_of c.mask.now c.count) c.i c.missing };

    fn count(&self) -> usize {
        self.count
    }

    fn is_missing(&self, i: usize) -> bool {
        if i == self.i {
            self.missing
        } else {
            is_set(self.mask, i)
        }
    }

    fn any_missing(&self) -> bool {
        if self.missing && self.i < self.count {
            return true;
        }
        other_missing(self.mask, self.count, self.i)
    }
}
