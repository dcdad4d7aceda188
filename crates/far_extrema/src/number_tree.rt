// The row groups by number, in a tree map of bare numbers. A look-up compares only machine words.
ghost use Rattle.std.specs.Prelude.{◌≡◌, Some, None, OnOk, OnErr};
ghost use Rattle.std.specs.BTreeMap.{IsOrdered};
ghost use Rattle.std.specs.List.{AllByRecursion};
ghost use Rattle.std.specs.Ordering.{int_cmp};
ghost use Rattle.far_extrema.specs.Holders.{IsTopped};
ghost use Rattle.far_extrema.specs.Entries.{numbered, Adds};
ghost use Rattle.far_extrema.specs.Numbers.{IsSetAt, KeepsOtherNumbers, AreNumbersCleared, HasNoNewNumber};

use super::holder::{Holder, clear};
use super::lines::{Lines, add_line};
use far_types::Key;
use std::alloc::AllocError;
use std::collections::BTreeMap;

/// The row groups by number.
pub type NumberTree = BTreeMap<i64, Holder>;

/// Adds or replaces the holder of a number. If memory runs out, nothing is changed.
pub fn put(tree: &mut NumberTree, number: &i64, holder: Holder) -> Result<(), AllocError>
    ensures ok { OnOk result (IsSetAt tree.old.entries number.now (Some holder) tree.new.entries) }
    ensures err { OnErr result (tree.new.entries ≡ tree.old.entries) }
    ensures others { KeepsOtherNumbers tree.old.entries number.now tree.new.entries }
{
    tree.insert(*number, holder)?;
    Ok(())
}

/// Removes the holder of a number, if there is one. Allocates nothing.
pub fn remove(tree: &mut NumberTree, number: &i64)
    ensures { IsSetAt tree.old.entries number.now None tree.new.entries }
{
    tree.remove(number);
}

/// Removes a row group from all numbers. Also removes a number without any row group left, unless it is reserved. Allocates nothing.
pub fn clear_all(tree: &mut NumberTree, group: u32)
    ensures cleared { AreNumbersCleared group tree.old.entries tree.new.entries }
    ensures gone { HasNoNewNumber tree.old.entries tree.new.entries }
{
    tree.retain(|_, holder| clear(holder, group));
}

/// Adds the lines of the numbers, ascending. A number that is only reserved has none.
pub fn add_lines(lines: &mut Lines, tree: &NumberTree) -> Result<(), AllocError>
    ensures ok { OnOk result (Adds lines.old.items (numbered tree.now.entries) lines.new.items) }
    ensures ordered { IsOrdered int_cmp tree.now }
    ensures topped { OnOk result (AllByRecursion IsTopped (numbered tree.now.entries)) }
{
    for (number, holder) in tree {
        if let Some(top) = holder.top() {
            add_line(lines, Some(Key::Int(*number)), top)?;
        }
    }
    Ok(())
}
