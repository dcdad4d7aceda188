// Callers that know only the traits of a store. Their clauses are proved, and they run over each store.
ghost use Rattle.std.specs.Prelude.{◌≡◌, ◌+◌, ◌<◌, ◌^◌, [], ◌∷◌, All, IfOk, IfSome};
ghost use Rattle.far_store.specs.Faults.{faults_in, RefusedBy};

use far_store::{FarRead, FarStore, FarTickets, Meter};
use far_types::Refusal;
use std::alloc::Global;

// The three reasons for which a call is refused.
#[derive(Clone, Copy, PartialEq, Eq)]
pub enum Why {
    Fault,
    Full,
    NoMemory,
}

// Puts bytes. A match on the three reasons is complete.
pub fn put<S: FarStore>(store: &S, alloc: Global, bytes: &[u8]) -> Result<S::Ticket, Why>
    ensures { IfOk result (λ t. S.is_of t (S.store_id store.now)) }
{
    match store.put(alloc, &mut Meter::new(), bytes) {
        Ok(ticket) => Ok(ticket),
        Err(Refusal::FarFault) => Err(Why::Fault),
        Err(Refusal::FarFull) => Err(Why::Full),
        Err(Refusal::NoMemory) => Err(Why::NoMemory),
        Err(_) => unreachable!(),
    }
}

// Gets a content. Never refused because the store is full.
pub fn get<S: FarRead>(
    store: &S,
    alloc: Global,
    ticket: &S::Ticket,
    buffer: &mut Vec<u8>,
) -> Result<(), Why>
    requires { S.is_of ticket.now (S.store_id store.now) }
{
    match store.get(alloc, &mut Meter::new(), ticket, buffer) {
        Ok(()) => Ok(()),
        Err(Refusal::FarFault) => Err(Why::Fault),
        Err(Refusal::NoMemory) => Err(Why::NoMemory),
        Err(_) => unreachable!(),
    }
}

// Puts bytes, and gets the same bytes.
pub fn round_trip<S: FarStore>(store: &S, alloc: Global, bytes: &[u8]) -> Result<Vec<u8>, Refusal>
    ensures whole { IfOk result (λ got. got.items ≡ bytes.now) }
    ensures refused { RefusedBy (21 ∷ 22 ∷ 1 ∷ []) result }
{
    let mut meter = Meter::new();
    let ticket = store.put(alloc, &mut meter, bytes)?;
    let mut buffer = Vec::new(alloc);
    store.get(alloc, &mut meter, &store.again(&ticket), &mut buffer)?;
    Ok(buffer)
}

// Carries a content from one store to another.
pub fn carry_over<S: FarRead, N: FarStore>(
    from: &S,
    to: &N,
    alloc: Global,
    meter: &mut Meter,
    ticket: &S::Ticket,
) -> Result<N::Ticket, Refusal>
    requires few { meter.old < 2 ^ 62 }
    requires here { S.is_of ticket.now (S.store_id from.now) }
    ensures there { IfOk result (λ t. N.is_of t (N.store_id to.now)) }
    ensures content { IfOk result (λ t. N.content t ≡ S.content ticket.now) }
    ensures faults { meter.new ≡ meter.old + faults_in result }
    ensures refused { RefusedBy (21 ∷ 22 ∷ 1 ∷ []) result }
{
    let mut buffer = Vec::new(alloc);
    from.get(alloc, meter, ticket, &mut buffer)?;
    to.put(alloc, meter, &buffer)
}

// Returns a content by one of two tickets with the same number: both have the same content.
pub fn reads_alike<S: FarRead>(
    store: &S,
    alloc: Global,
    meter: &mut Meter,
    ticket: &S::Ticket,
    other: &S::Ticket,
) -> Result<Option<Vec<u8>>, Refusal>
    requires few { meter.old < 2 ^ 63 }
    requires ticket_here { S.is_of ticket.now (S.store_id store.now) }
    requires other_here { S.is_of other.now (S.store_id store.now) }
    ensures { IfOk result (λ read. IfSome read (λ bytes. bytes.items ≡ S.content other.now)) }
{
    if !store.same(ticket, other) {
        return Ok(None);
    }
    let mut buffer = Vec::new(alloc);
    store.get(alloc, meter, ticket, &mut buffer)?;
    Ok(Some(buffer))
}

// Returns the bytes that one of four threads puts as its n-th content.
fn nth_content(thread: u64, n: u64) -> [u8; 8] {
    n.wrapping_mul(4).wrapping_add(thread).to_le_bytes()
}

// Puts this many contents of a thread.
pub fn puts_all<S: FarStore>(
    store: &S,
    alloc: Global,
    thread: u64,
    count: u64,
) -> Result<Vec<S::Ticket>, Refusal>
    ensures { IfOk result (λ tickets. All (λ t. S.is_of t (S.store_id store.now)) tickets.items) }
{
    let mut tickets = Vec::new(alloc);
    for n in 0..count {
        let mut meter = Meter::new();
        tickets.push(store.put(alloc, &mut meter, &nth_content(thread, n))?)?;
    }
    Ok(tickets)
}

// Returns how many of these tickets read what the thread put.
pub fn gets_all<S: FarRead>(
    store: &S,
    alloc: Global,
    thread: u64,
    tickets: &[S::Ticket],
) -> Result<u64, Refusal>
    requires { All (λ t. S.is_of t (S.store_id store.now)) tickets.now }
{
    let mut right = 0;
    let mut n = 0;
    let mut buffer = Vec::new(alloc);
    for ticket in tickets {
        store.get(alloc, &mut Meter::new(), ticket, &mut buffer)?;
        if buffer.as_slice() == nth_content(thread, n).as_slice() {
            right += 1;
        }
        n += 1;
    }
    Ok(right)
}
