// The row groups that are pending: not yet scanned into an aggregate.
ghost use Rattle.std.specs.Prelude.{◌≡◌, ◌<◌, ◌^◌, ℕ, length, IfOk, IfSome, IfNone, replicate, true, false, slice_set, slice_index_or};
ghost use Rattle.std.specs.List.{position};
ghost use Rattle.far_types.specs.Table.{left};

use std::alloc::{AllocError, Global};
use std::marker::Model;

/// A flag for each row group that held a place when the aggregate was registered: set while the row group is pending.
/// Contracts see the list of the flags.
#[derive(Drop)]
pub struct PendingGroups {
    flags: Vec<bool>,
}

impl Model for PendingGroups {
    ghost use Rattle.std.specs.Prelude.{List, Bool, length, ◌<◌, ◌^◌};

    ghost Value = { List Bool };

    ghost view = { λ pending. pending.flags.items };

    ghost invariant = { λ pending. length pending.flags.items < 2 ^ 32 };
}

impl PendingGroups {
    ghost use Rattle.far_types.specs.Table.{is_pending, left};

    /// Makes flags that say that the first `groups` row groups are pending.
    pub fn all(alloc: Global, groups: usize) -> Result<PendingGroups, AllocError>
        requires { groups < 2 ^ 32 }
        ensures { IfOk result (λ pending. pending ≡ replicate groups true) }
    {
        Ok(PendingGroups {
            flags: vec![in alloc; true; groups]?,
        })
    }

    /// Returns whether a row group is pending.
    pub fn has(&self, group: usize) -> bool
        ensures { result ≡ is_pending self.now group }
    {
        match self.flags.get(group) {
            Some(flag) => *flag,
            None => false,
        }
    }

    /// Returns the first row group that is pending, if there is one.
    pub fn first(&self) -> Option<u32>
        ensures some { IfSome result (λ g. is_pending self.now g ≡ true) }
        ensures none { IfNone result ((g : ℕ) → is_pending self.now g ≡ false) }
        ensures exact { result ≡ position (λ flag. flag) self.now }
    {
        first_set(self.flags.as_slice())
    }

    /// Returns how many row groups are pending.
    pub fn count(&self) -> u32
        ensures { result ≡ left self.now }
    {
        count_set(self.flags.as_slice())
    }

    /// Marks a row group as scanned. Allocates nothing.
    pub fn clear(&mut self, group: usize)
        ensures { self.new ≡ slice_set self.old group false }
    {
        if group < self.flags.len() {
            self.flags[group] = false;
        }
    }
}

/// Returns the index of the first flag that is set.
fn first_set(flags: &[bool]) -> Option<u32>
    requires { length flags.now < 2 ^ 32 }
    ensures some { IfSome result (λ i. slice_index_or flags.now i false ≡ true) }
    ensures none { IfNone result ((i : ℕ) → slice_index_or flags.now i false ≡ false) }
    ensures exact { result ≡ position (λ flag. flag) flags.now }
{
    for i in 0..flags.len() {
        if flags[i] {
            return Some(i as u32);
        }
    }
    None
}

/// Returns how many flags are set.
fn count_set(flags: &[bool]) -> u32
    requires { length flags.now < 2 ^ 32 }
    ensures { result ≡ left flags.now }
{
    let mut count = 0;
    for flag in flags {
        if *flag {
            count += 1;
        }
    }
    count
}
