// The handle that C holds of a table: a pointer to it, or null.
ghost use Rattle.std.specs.Prelude.{◌≡◌, ◌↔◌, Option, Some, None, IsSome, IsTrue};
ghost use Rattle.std.specs.Option.{MatchOption};
ghost use Rattle.std.specs.Borrow.{sem};
ghost use Rattle.far_c.specs.TableState.{TableState};
ghost use Rattle.far_c.specs.Held.{held, table_coded};

use crate::loose::Loose;
use crate::table::Table;
use std::alloc::Global;
use std::marker::Model;
use std::mem;
use std::ptr::null_mut;

#[repr(C)]
#[derive(Drop)]
pub struct Handle {
    at: *mut u8,
    alloc: Global,
    pub ghost table: { Option TableState } by { table_coded },
}

impl Model for Handle {
    ghost also_owns = { λ h. held h.alloc h.at h.table };
}

// The table goes along: no other handle and no thread knows its address.
unsafe impl Send for Handle {}

impl Handle {
    ghost use Rattle.far_c.specs.Lending.{LendsTable};

    /// Lends the table, if the handle is open.
    ///
    /// An export that lends to its caller then has a function `lend_..` that takes the table by `&`, and so leaves it unchanged. No
    /// clause of the export says this: only a proof by hand of each export could name the handle during the loan.
    pub fn table(&mut self) -> Option<&mut Table>
        ensures* writes_back { sem 𝓛 (LendsTable self.entry result) }
        ensures value { MatchOption result (self.old.table ≡ None)
            (λ table. self.old.table ≡ Some table.now) }
    {
        if self.at.is_null() {
            return None;
        }
        unsafe { Some(&mut *self.at.cast::<Table>()) }
    }

    /// Returns whether there is a table.
    pub fn is_open(&mut self) -> bool
        ensures open { IsTrue result ↔ IsSome self.old.table }
        ensures same { self.new.table ≡ self.old.table }
    {
        match self.table() {
            Some(_) => true,
            None => false,
        }
    }

    /// Returns a closed handle.
    fn closed(alloc: Global) -> Handle
        ensures { result.table ≡ None }
    {
        Handle {
            at: null_mut(),
            alloc,
        }
    }

    fn of_loose(loose: Loose<Table, Global>) -> Handle
        ensures { result.table ≡ Some loose.value }
    {
        let Loose { at, alloc } = loose;
        Handle {
            at: at.cast::<u8>(),
            alloc,
        }
    }

    fn into_loose(self) -> Loose<Table, Global>
        requires { IsSome self.table }
        ensures { self.table ≡ Some result.value }
    {
        let Handle { at, alloc } = self;
        Loose {
            at: at.cast::<Table>(),
            alloc,
        }
    }

    /// Returns a handle on this table.
    pub fn of(table: Box<Table>) -> Handle
        ensures { result.table ≡ Some table.value }
    {
        Handle::of_loose(Loose::of(table))
    }

    /// Takes the table out, and leaves the handle closed.
    pub fn take(&mut self, alloc: Global) -> Box<Table>
        requires { IsSome self.old.table }
        ensures table { self.old.table ≡ Some result.value }
        ensures closed { self.new.table ≡ None }
    {
        mem::replace(self, Handle::closed(alloc))
            .into_loose()
            .into_box()
    }
}
