// A store that is made for a case, and the script for it.
use crate::store::planned_engine::{PlannedEngine, Turn};
use crate::store::script::{Line, plays};
use far_store::{AgentStore, ByteLog, EngineStore, FarStore, FaultyStore};
use far_types::Refusal;
use std::alloc::Global;
use std::process::Abort;
use std::sync::Wait;
use std::thread::Threads;

// Where a store keeps its contents.
#[derive(Clone, Copy)]
pub enum Base {
    // In memory, by the agent store.
    Agent,
    // In a log of this many bytes, whose calls turn out as planned.
    Log(usize, &'static [Turn]),
}

// A case: a store and a script. Each store is wrapped in a `FaultyStore`.
#[derive(Clone, Copy)]
pub struct Case {
    pub name: &'static str,
    pub base: Base,
    pub capacity: u64,
    // The number of the put that fails, not counting those that run out of memory; 0 for none.
    pub failing_put: u64,
    // The number of the get that fails, counted in the same way.
    pub failing_get: u64,
    pub lines: &'static [Line],
}

// An agent that does not fail.
pub const AGENT: Case = Case {
    name: "an agent",
    base: Base::Agent,
    capacity: 8,
    failing_put: 0,
    failing_get: 0,
    lines: &[],
};

// A log that does not fail.
pub const LOG: Case = Case {
    name: "a log",
    base: Base::Log(64, &[]),
    ..AGENT
};

// Returns a store for this many contents, over a log of this many bytes whose calls turn out as planned.
pub fn logged<R: Drop>(
    rt: R,
    alloc: Global,
    size: usize,
    plan: &[Turn],
    capacity: u64,
) -> Result<EngineStore<PlannedEngine<ByteLog>, R>, Refusal> {
    let plan = Vec::from_slice(alloc, plan)?;
    let engine = PlannedEngine::new(ByteLog::new(alloc, size)?, plan);
    EngineStore::new(rt, alloc, engine, capacity)
}

impl Case {
    // Returns whether the store returns the expected replies. It is made again if memory runs out.
    pub fn holds<R: Threads + Wait + Sync + Drop>(&self, rt: &R, alloc: Global) -> bool {
        match self.tried(rt, alloc) {
            Err(Refusal::NoMemory) => self.tried(rt, alloc) == Ok(true),
            answer => answer == Ok(true),
        }
    }

    // Returns whether a store made for the case, wrapped in a `FaultyStore`, returns the expected replies.
    fn is_played<R: Threads + Sync, S: FarStore>(
        &self,
        rt: &R,
        alloc: Global,
        store: Result<S, Refusal>,
    ) -> Result<bool, Refusal> {
        match store {
            Ok(store) => {
                let store = FaultyStore::new(store, self.failing_put, self.failing_get);
                Ok(plays(rt, &store, alloc, self.lines))
            }
            Err(refusal) => Err(refusal),
        }
    }

    fn tried<R: Threads + Wait + Sync + Drop>(
        &self,
        rt: &R,
        alloc: Global,
    ) -> Result<bool, Refusal> {
        let capacity = self.capacity;
        match self.base {
            Base::Agent => self.is_played(rt, alloc, AgentStore::new(rt, alloc, capacity)),
            Base::Log(size, plan) => {
                self.is_played(rt, alloc, logged(rt, alloc, size, plan, capacity))
            }
        }
    }
}

// Ends the test at the first case whose store returns another reply.
pub fn all_hold<R: Abort + Threads + Wait + Sync + Drop>(rt: &R, alloc: Global, cases: &[Case]) {
    for case in cases {
        let name = case.name;
        assert!(rt; case.holds(rt, alloc), "{name}");
    }
}
