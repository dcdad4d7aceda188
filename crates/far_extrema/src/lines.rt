// The lines of an answer.
ghost use Rattle.std.specs.Prelude.{◌≡◌, ◌++◌, ◌∷◌, [], OnOk};

use super::min_max::MinMax;
use far_types::Key;
use std::alloc::AllocError;

/// The lines of an answer: each has a key, the least value and the greatest value.
pub type Lines = Vec<(Option<Key>, i64, i64)>;

/// Adds the line of a key.
pub fn add_line(lines: &mut Lines, key: Option<Key>, top: MinMax) -> Result<(), AllocError>
    ensures ok { OnOk result (lines.new.items ≡ lines.old.items ++ (key, top.0, top.1) ∷ []) }
{
    lines.push((key, top.min, top.max))?;
    Ok(())
}
