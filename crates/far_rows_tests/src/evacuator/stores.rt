// The stores for cases.
use far_store::{ByteLog, EngineStore};
use far_types::Refusal;
use std::alloc::Global;

/// A store over a log of bytes, and when it fails.
#[derive(Clone, Copy)]
pub struct Plan {
    /// The capacity of its log, in bytes.
    pub bytes: usize,
    /// How many contents it can hold.
    pub capacity: u64,
    /// The number of the put, and of the get, that fails, counted from 1; 0 for none.
    pub failing_put: u64,
    pub failing_get: u64,
}

/// Returns a store over a log of this many bytes, which fails only if the log is full. Refused only with `NoMemory` (1).
pub fn sound<R: Drop>(
    rt: R,
    alloc: Global,
    plan: Plan,
) -> Result<EngineStore<ByteLog, R>, Refusal> {
    match ByteLog::new(alloc, plan.bytes) {
        Ok(log) => EngineStore::new(rt, alloc, log, plan.capacity),
        Err(_) => Err(Refusal::NoMemory),
    }
}
