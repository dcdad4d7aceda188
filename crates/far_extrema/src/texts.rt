// The row groups by text, in a tree map of texts.
ghost use Rattle.std.specs.Prelude.{◌≡◌, Some, None, OnOk, OnErr};
ghost use Rattle.std.specs.BTreeMap.{IsOrdered};
ghost use Rattle.std.specs.List.{AllByRecursion};
ghost use Rattle.std.specs.Ordering.{nat_cmp};
ghost use Rattle.std.specs.Cmp.Lexicographic.{slice_cmp};
ghost use Rattle.far_extrema.specs.Holders.{IsTopped};
ghost use Rattle.far_extrema.specs.Entries.{texted, Adds, AreEntriesCleared, IsTextAt};

use super::holder::{Holder, clear};
use super::lines::{Lines, add_line};
use far_types::{Key, Text};
use std::alloc::AllocError;
use std::collections::BTreeMap;

/// The row groups by text.
pub type Texts = BTreeMap<Text, Holder>;

/// Adds or replaces the holder of a text. Clones the text. If memory runs out, nothing is changed.
pub fn put(texts: &mut Texts, text: &Text, holder: Holder) -> Result<(), AllocError>
    ensures ok { OnOk result (IsTextAt texts.old.entries text.now (Some holder) texts.new.entries) }
    ensures err { OnErr result (texts.new.entries ≡ texts.old.entries) }
{
    texts.insert(text.clone()?, holder)?;
    Ok(())
}

/// Removes the holder of a text, if there is one. Allocates nothing.
pub fn remove(texts: &mut Texts, text: &Text)
    ensures { IsTextAt texts.old.entries text.now None texts.new.entries }
{
    texts.remove(text);
}

/// Removes a row group from all texts. Also removes a text without any row group left, unless it is reserved. Allocates nothing.
pub fn clear_all(texts: &mut Texts, group: u32)
    ensures { AreEntriesCleared group (texted texts.old.entries) (texted texts.new.entries) }
{
    texts.retain(|_, holder| clear(holder, group));
}

/// Adds the lines of the texts, ascending. A text that is only reserved has none.
pub fn add_lines(lines: &mut Lines, texts: &Texts) -> Result<(), AllocError>
    ensures ok { OnOk result (Adds lines.old.items (texted texts.now.entries) lines.new.items) }
    ensures ordered { IsOrdered (slice_cmp nat_cmp) texts.now }
    ensures topped { OnOk result (AllByRecursion IsTopped (texted texts.now.entries)) }
{
    for (text, holder) in texts {
        if let Some(top) = holder.top() {
            add_line(lines, Some(Key::Text(text.clone()?)), top)?;
        }
    }
    Ok(())
}
