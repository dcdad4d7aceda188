// An engine that fails in planned calls.
use far_store::{Engine, Failure};
use std::alloc::Global;
use std::sync::atomic::{AtomicUsize, Ordering};

// The outcome of a call.
#[derive(Clone, Copy)]
pub enum Turn {
    Serve,
    NoMemory,
    Fail,
}

// The engine failed as planned, or the engine inside it failed.
#[derive(Drop)]
pub struct Failed;

// An engine that wraps another one. Calls after the end of the plan are served.
#[derive(Drop)]
pub struct PlannedEngine<E> {
    engine: E,
    plan: Vec<Turn>,
    calls: AtomicUsize,
}

impl<E> PlannedEngine<E> {
    pub fn new(engine: E, plan: Vec<Turn>) -> PlannedEngine<E> {
        PlannedEngine {
            engine,
            plan,
            calls: AtomicUsize::new(0),
        }
    }

    fn turn(&self) -> Result<(), Failure<Failed>> {
        let call = self.calls.fetch_add(1, Ordering::SeqCst);
        match self.plan.get(call) {
            Some(Turn::NoMemory) => Err(Failure::NoMemory),
            Some(Turn::Fail) => Err(Failure::Engine(Failed)),
            Some(Turn::Serve) | None => Ok(()),
        }
    }
}

// Returns the failure of the engine inside.
fn passed_on<F: Drop>(failure: Failure<F>) -> Failure<Failed> {
    match failure {
        Failure::NoMemory => Failure::NoMemory,
        Failure::Engine(_) => Failure::Engine(Failed),
    }
}

impl<E: Engine> Engine for PlannedEngine<E> {
    type Key = E::Key;

    type Error = Failed;

    ghost written = { E.written };

    ghost engine_id = { λ planned. E.engine_id planned.engine };

    ghost is_of = { E.is_of };

    fn write(&self, alloc: Global, bytes: &[u8]) -> Result<E::Key, Failure<Failed>> {
        self.turn()?;
        match self.engine.write(alloc, bytes) {
            Ok(key) => Ok(key),
            Err(failure) => Err(passed_on(failure)),
        }
    }

    // A planned failure comes after a wrong byte was read.
    fn read(
        &self,
        alloc: Global,
        key: &E::Key,
        buffer: &mut Vec<u8>,
    ) -> Result<(), Failure<Failed>> {
        if let Err(failure) = self.turn() {
            buffer.push(0xee)?;
            return Err(failure);
        }
        match self.engine.read(alloc, key, buffer) {
            Ok(()) => Ok(()),
            Err(failure) => Err(passed_on(failure)),
        }
    }
}
