#![tactic(auto)]
//! A pass of a ruled cell, wrapped so that many threads may read the lock that contains it.
//!
//! A pass is a value without bytes: it represents what a thread knows of a cell. It may be sent to another thread, but
//! nothing says that sharing a reference to it is safe. Sharing a reference to a [`Kept`] is: it gives no access to the
//! pass.

ghost use Rattle.std.specs.Prelude.{◌≡◌};

use atomic_table::Seat;
use std::marker::Model;

/// A stored pass. It takes no bytes.
///
/// Only its owner can take the pass out again. `&Kept` gives no access to the pass, so it is `Sync`.
pub struct Kept<S, V> {
    pass: Seat<S, V>,
}

impl<S, V> Model for Kept<S, V> {
    ghost use base.Fml.{ftrue};

    ghost also_owns = { λ _. ftrue };
}

// No method of a `Kept` takes `&self`, and its field is private.
unsafe impl<S: Send, V> Send for Kept<S, V> {}

unsafe impl<S: Send, V> Sync for Kept<S, V> {}

impl<S, V> Kept<S, V> {
    /// Stores a pass.
    pub fn new(pass: Seat<S, V>) -> Kept<S, V>
        ensures { result.pass ≡ pass }
    {
        Kept { pass }
    }

    /// Returns the stored pass.
    pub fn into_pass(self) -> Seat<S, V>
        ensures { result ≡ self.pass }
    {
        let Kept { pass } = self;
        pass
    }
}

impl<S, V> Drop for Kept<S, V> {
    fn drop(self) {
        let _pass = self.into_pass();
    }
}
