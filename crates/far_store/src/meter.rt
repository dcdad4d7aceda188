// A caller's count of faults.
ghost use Rattle.std.specs.Prelude.{◌≡◌, ◌+◌, ◌<◌, ◌^◌};

use std::marker::Model;

/// Counts the faults that a caller has met. Contracts see the number.
///
/// Threads share a far store, so the caller keeps the count. Each call that may fault takes the caller's meter, and adds one to it exactly
/// if it returns `FarFault` (21). Only stores call [`Meter::rise`], and they may be in other crates.
#[derive(Drop, Debug)]
pub struct Meter {
    faults: u64,
}

impl Model for Meter {
    ghost use Rattle.std.specs.Prelude.{ℕ};

    ghost Value = { ℕ };

    ghost view = { λ m. m.faults };
}

impl Meter {
    /// Makes a meter that has counted no fault yet. Allocates nothing.
    pub fn new() -> Meter
        ensures { result ≡ 0 }
    {
        Meter { faults: 0 }
    }

    /// Returns how many faults were counted. Allocates nothing.
    pub fn faults(&self) -> u64
        ensures { result ≡ self.now }
    {
        self.faults
    }

    /// Adds the faults that another meter has counted, such as the meter of a thread that has ended. Allocates nothing.
    pub fn join(&mut self, other: Meter)
        requires { self.old + other < 2 ^ 64 }
        ensures { self.new ≡ self.old + other }
    {
        self.faults += other.faults;
    }

    /// Counts one more fault. Only a store that is about to return `FarFault` (21) calls this. Allocates nothing.
    pub fn rise(&mut self)
        requires { self.old < 2 ^ 63 }
        ensures { self.new ≡ self.old + 1 }
    {
        self.faults += 1;
    }
}
