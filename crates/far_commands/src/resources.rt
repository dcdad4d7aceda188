// What a script needs from its environment.
ghost use Rattle.std.specs.Prelude.{◌≡◌, IfOk};

use far_store::{AgentStore, FarTickets};
use std::alloc::{AllocError, Global};
use std::thread::Threads;

/// What a script needs from its environment: an allocator, a runtime that makes threads, and empty stores.
pub trait Resources<S: FarTickets> {
    /// The type of the runtime.
    type Runtime: Threads + Sync;

    /// Returns the allocator.
    fn alloc(&self) -> Global;

    /// Borrows the runtime. It, and not a method of this trait, makes the threads of a recount, since only its type is
    /// known to be `Sync`.
    fn runtime(&self) -> &Self::Runtime;

    /// Returns an empty store for `capacity` contents.
    fn store(&self, capacity: u64) -> Result<S, AllocError>
        ensures capacity { IfOk result (λ store. S.capacity_of store ≡ capacity) };
}

/// Resources in this process: stores that keep contents in memory and whose puts wait by `rt`, and threads of `rt`.
#[derive(Drop)]
pub struct Agents<R> {
    rt: R,
    alloc: Global,
}

impl<R> Agents<R> {
    /// Returns resources of this runtime and this allocator.
    pub fn new(rt: R, alloc: Global) -> Agents<R>
        ensures runtime { result.rt ≡ rt }
        ensures memory { result.alloc ≡ alloc }
    {
        Agents { rt, alloc }
    }
}

impl<R: Copy + Threads + Sync + Drop> Resources<AgentStore<R>> for Agents<R> {
    type Runtime = R;

    fn alloc(&self) -> Global {
        self.alloc
    }

    fn runtime(&self) -> &R {
        &self.rt
    }

    fn store(&self, capacity: u64) -> Result<AgentStore<R>, AllocError> {
        match AgentStore::new(self.rt, self.alloc, capacity) {
            Ok(store) => Ok(store),
            Err(_) => Err(AllocError),
        }
    }
}
