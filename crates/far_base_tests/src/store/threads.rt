// Threads that share a store.
use crate::store::generic::{gets_all, puts_all};
use far_store::FarStore;
use far_types::Refusal;
use std::alloc::{AllocError, Global};
use std::thread::{self, Threads};

// Puts this many contents from one thread, and returns how many it reads back unchanged.
fn own_contents<S: FarStore>(
    store: &S,
    alloc: Global,
    thread: u64,
    puts: u64,
) -> Result<u64, Refusal> {
    let tickets = puts_all(store, alloc, thread, puts)?;
    gets_all(store, alloc, thread, &tickets)
}

// Lets four threads put this many contents each. Returns how many read back all of their own, and how many meet a fault.
pub fn read_back_by_four<R: Threads + Sync, S: FarStore>(
    rt: &R,
    store: &S,
    alloc: Global,
    puts: u64,
) -> Result<(usize, usize), AllocError> {
    let read = thread::map_indices(
        rt,
        alloc,
        4,
        &|i| own_contents(store, alloc, i as u64, puts),
    )?;
    Ok((had(&read, &Ok(puts)), had(&read, &Err(Refusal::FarFault))))
}

// Returns how many of the results are this one.
pub fn had<T: PartialEq>(answers: &[T], wanted: &T) -> usize {
    let mut count = 0usize;
    for answer in answers {
        if *answer == *wanted {
            count = count.saturating_add(1);
        }
    }
    count
}
