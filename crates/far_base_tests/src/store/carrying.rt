// Moves contents between a store and a shelf.
use crate::store::generic::{Why, carry_over, put, reads_alike, round_trip};
use crate::store::shelf_store::ShelfStore;
use far_store::{FarRead, FarStore, FarTickets, Meter};
use far_types::Refusal;
use std::alloc::Global;

// Returns whether a ticket and its copy both read these bytes.
fn is_read_alike<S: FarRead>(
    store: &S,
    alloc: Global,
    ticket: &S::Ticket,
    bytes: &[u8],
) -> Result<bool, Refusal>
    requires { S.is_of ticket.now (S.store_id store.now) }
{
    let again = store.again(ticket);
    match reads_alike(store, alloc, &mut Meter::new(), ticket, &again)? {
        Some(read) => Ok(read.as_slice() == bytes),
        None => Ok(false),
    }
}

// Returns whether a content of one store can be carried to another and read there.
fn is_carried<S: FarStore, N: FarStore>(
    from: &S,
    to: &N,
    alloc: Global,
    bytes: &[u8],
) -> Result<bool, Refusal> {
    let mut meter = Meter::new();
    let ticket = from.put(alloc, &mut meter, bytes)?;
    let copy = carry_over(from, to, alloc, &mut meter, &ticket)?;
    is_read_alike(to, alloc, &copy, bytes)
}

// Returns whether a get returns what was put.
fn is_served<S: FarStore>(store: &S, alloc: Global, bytes: &[u8]) -> bool {
    match round_trip(store, alloc, bytes) {
        Ok(read) => read.as_slice() == bytes,
        Err(_) => false,
    }
}

// Returns whether generic callers are served by two stores. They put two contents into each.
fn serve_callers<S: FarStore, N: FarStore>(from: &S, to: &N, alloc: Global) -> bool {
    is_served(from, alloc, &[1, 2])
        && is_served(to, alloc, &[3])
        && is_carried(from, to, alloc, &[4, 5]) == Ok(true)
}

// Carries contents from a store to a shelf with space for two. Returns whether both are read there, and the shelf is then
// full.
pub fn is_carried_to_shelf<S: FarStore>(store: &S, alloc: Global) -> bool {
    match ShelfStore::new(alloc, 2) {
        Ok(shelf) => {
            serve_callers(store, &shelf, alloc) && put(&shelf, alloc, &[1]).err() == Some(Why::Full)
        }
        Err(_) => false,
    }
}

// Carries contents from a shelf to a store. Returns whether they are read there.
pub fn is_carried_from_shelf<S: FarStore>(store: &S, alloc: Global) -> bool {
    match ShelfStore::new(alloc, 8) {
        Ok(shelf) => serve_callers(&shelf, store, alloc),
        Err(_) => false,
    }
}
