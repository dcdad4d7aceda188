// Engines: storage drivers that keep bytes for a far store.
ghost use Rattle.std.specs.Prelude.{◌≡◌, ℕ, List, [], IfOk, OnOk};

use std::alloc::{AllocError, AllocFailed, Global};
use std::error::Error;
use std::fmt;

/// Why an engine's call failed.
#[derive(Drop, Debug)]
pub enum Failure<E> {
    /// A local allocation failed: out of memory.
    NoMemory,
    /// The engine failed for a reason of its own.
    Engine(E),
}

/// Prints the failure as a sentence, without a full stop.
impl<E: fmt::Display> fmt::Display for Failure<E> {
    ghost use Rattle.far_store.specs.Failures.{failure_text};

    ghost output = { λ failure. failure_text E.output failure };

    fn fmt<W: fmt::Write>(&self, f: &mut fmt::Formatter<W>) -> fmt::Result {
        match self {
            Failure::NoMemory => f.write_str("memory ran out"),
            Failure::Engine(error) => write!(f, "the engine failed: {error}"),
        }
    }
}

impl<E: fmt::Debug + fmt::Display + Drop> Error for Failure<E> {}

impl<E> From<AllocError> for Failure<E> {
    fn from(_: AllocError) -> Failure<E> {
        Failure::NoMemory
    }
}

impl<T: Drop, E> From<AllocFailed<T>> for Failure<E> {
    fn from(_: AllocFailed<T>) -> Failure<E> {
        Failure::NoMemory
    }
}

/// A storage driver: a file, a server, memory of another machine. [`EngineStore`](crate::EngineStore) makes a far store of it.
///
/// An engine can be written in any repository. Both calls may wait: put the bound that waiting needs on the `impl`. An engine knows
/// no tickets, meters or refusals. If it reaches beyond this process, the clause of [`read`](Engine::read) is the only one that is
/// assumed, not proved.
///
/// Separating a table from the device that moves its bytes is AIFM's idea (OSDI 2020).
pub trait Engine: Sync + Drop {
    /// The key under which the engine finds bytes again. It borrows nothing, and can be sent between threads.
    type Key: Send + Sync + Drop;

    /// Why the engine fails.
    type Error: Drop;

    /// The bytes that were written under a key. The key of an engine beyond this process has them as a ghost field.
    ghost written: { Self.Key → List ℕ };

    /// The engine's id: numbers that no other engine has. They never change.
    ghost engine_id: { Self → List ℕ };

    /// The key is of the engine with this id.
    ghost is_of: { Self.Key → List ℕ → Type 0 };

    /// Writes these bytes permanently, and returns the key under which they are stored.
    fn write(&self, alloc: Global, bytes: &[u8]) -> Result<Self::Key, Failure<Self::Error>>
        ensures here { IfOk result (λ key. is_of key (engine_id self.now)) }
        ensures written { IfOk result (λ key. written key ≡ bytes.now) };

    /// Reads the bytes that were written under a key into an empty buffer. After a failure, the caller discards the buffer's content.
    fn read(
        &self,
        alloc: Global,
        key: &Self::Key,
        buffer: &mut Vec<u8>,
    ) -> Result<(), Failure<Self::Error>>
        requires here { is_of key.now (engine_id self.now) }
        requires empty { buffer.old.items ≡ [] }
        ensures { OnOk result (buffer.new.items ≡ written key.now) };
}
