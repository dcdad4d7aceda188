// Which places of a table are alive.
ghost use Rattle.std.specs.Prelude.{◌≡◌, ◌++◌, ◌∷◌, ◌<◌, ◌≤◌, ◌-◌, [], length, take, slice_get, slice_range, slice_set, true, false, OnOk, OnErr, IfErr};

use far_types::Refusal;
use std::alloc::Global;
use std::marker::Model;

/// The alive flags of a table's places, by place number. Contracts see them as a list.
#[derive(Drop)]
pub struct Alive {
    flags: Vec<bool>,
}

impl Model for Alive {
    ghost use Rattle.std.specs.Prelude.{Bool, List};

    ghost Value = { List Bool };

    ghost view = { λ alive. alive.flags.items };
}

impl Alive {
    /// Makes the flags of a table without places. Allocates nothing.
    pub fn new(alloc: Global) -> Alive
        ensures { result ≡ [] }
    {
        Alive {
            flags: Vec::new(alloc),
        }
    }

    /// Returns how many places there are. Allocates nothing.
    pub fn len(&self) -> usize
        ensures { result ≡ length self.now }
    {
        self.flags.len()
    }

    /// Returns whether a place is alive, or `None` if there is no such place. Allocates nothing.
    pub fn get(&self, place: usize) -> Option<bool>
        ensures { result ≡ slice_get self.now place }
    {
        self.flags.get(place).copied()
    }

    /// Appends a place that is alive. Refused only with `NoMemory` (1). A refused call changes nothing.
    pub fn push(&mut self) -> Result<(), Refusal>
        ensures ok { OnOk result (self.new ≡ self.old ++ true ∷ []) }
        ensures memory { IfErr result (λ e. e ≡ Refusal.NoMemory) }
        ensures err { OnErr result (self.new ≡ self.old) }
    {
        self.flags.push(true)?;
        Ok(())
    }

    /// Undoes the last push: removes the last place. Allocates nothing.
    pub fn unpush(&mut self)
        requires { 0 < length self.old }
        ensures { self.new ≡ take (length self.old - 1) self.old }
    {
        self.flags.pop();
    }

    /// Clears the flag of a place, which is then no longer alive. Allocates nothing.
    pub fn clear(&mut self, place: usize)
        requires { place < length self.old }
        ensures { self.new ≡ slice_set self.old place false }
    {
        self.flags[place] = false;
    }

    /// Borrows the flags of all places.
    pub fn all(&self) -> &[bool]
        ensures { result.now ≡ self.now }
    {
        &self.flags
    }

    /// Borrows the flags of the places `from` up to `to`.
    pub fn flags(&self, from: usize, to: usize) -> &[bool]
        requires ordered { from ≤ to }
        requires within { to ≤ length self.now }
        ensures { result.now ≡ slice_range self.now from to }
    {
        &self.flags[from..to]
    }
}
