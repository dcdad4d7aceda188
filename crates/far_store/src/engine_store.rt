// A far store over an engine.
ghost use Rattle.std.specs.Prelude.{◌≡◌, ◌==◌, ◌+◌, ◌<◌, ◌^◌, ◌∷◌, [], ⊤, IfOk, IfErr, IsTrue};
ghost use Rattle.std.specs.List.{list_any};
ghost use Rattle.far_types.specs.Refusals.{number_of};
ghost use Rattle.far_store.specs.Faults.{faults_of, faults_in, RefusedBy};
ghost use Rattle.far_store.specs.StoreState.{IsTicketOf, full_id};

use crate::Meter;
use crate::drawn::below;
use crate::engine::{Engine, Failure};
use crate::store::{FarRead, FarStore, FarTickets};
use boxcar::tag::{Names, Tag};
use boxcar::{Keeps, Pushed};
use far_types::Refusal;
use std::alloc::Global;
use std::marker::{Model, PhantomData};
use std::sync::Wait;

/// A far store that keeps its contents in an engine: a server, a file, memory of another machine. Contracts see its id and its
/// capacity.
///
/// The store keeps the engine's keys, one for each number. If the engine fails for a reason of its own, the store returns `FarFault` (21)
/// and counts the fault. A `get` waits only if the engine does. A `put` may also wait for other threads, as in an `AgentStore`.
#[derive(Drop)]
pub struct EngineStore<E: Engine, R> {
    rt: R,
    engine: E,
    keys: boxcar::Vec<E::Key, Global, OfEngine<E>>,
    capacity: u64,
}

/// A ticket of an `EngineStore`: the index of its key.
pub type EngineTicket<E> = Pushed<<E as Engine>::Key, Global, OfEngine<E>>;

/// The rule of a store's keys: each key is of the store's engine.
pub struct OfEngine<E> {
    engine: PhantomData<E>,
}

impl<E: Engine> Keeps<E::Key> for OfEngine<E> {
    ghost holds = { λ id _ key. E.is_of key id };
}

impl<E: Engine> Names<E> for OfEngine<E> {
    ghost numbers = { E.engine_id };
}

impl<E: Engine, R> Model for EngineStore<E, R> {
    ghost use Rattle.std.specs.Prelude.{◌≡◌};
    ghost use Rattle.far_store.specs.StoreState.{StoreState, store_coded, bucket_ids};

    ghost Value = { StoreState };

    ghost coded = { store_coded };

    ghost view = { λ s. record { id = bucket_ids s.keys; capacity = s.capacity } };

    ghost invariant = { λ s. s.keys.tag ≡ E.engine_id s.engine };
}

impl<E: Engine, R: Drop> EngineStore<E, R> {
    /// Makes a store over this engine that gives out the numbers below `capacity`. It keeps the runtime `rt`, with which a put may wait.
    /// Refused only with `NoMemory` (1).
    pub fn new(rt: R, alloc: Global, engine: E, capacity: u64) -> Result<EngineStore<E, R>, Refusal>
        ensures capacity { IfOk result (λ s. s.capacity ≡ capacity) }
        ensures memory { IfErr result (λ e. e ≡ Refusal.NoMemory) }
    {
        let keys = boxcar::Vec::with_rule(alloc, Tag::of::<E, OfEngine<E>>(&engine))?;
        Ok(EngineStore {
            rt,
            engine,
            keys,
            capacity,
        })
    }

    /// Borrows the engine, to read its own figures. Allocates nothing. Contracts see the id and the capacity of a store, not its engine.
    pub fn engine(&self) -> &E {
        &self.engine
    }
}

impl<E: Engine, R: Sync + Drop> FarTickets for EngineStore<E, R> {
    type Ticket = EngineTicket<E>;

    ghost content = { λ t. E.written t.value };

    ghost number_of = { λ t. t.index };

    ghost store_id = { full_id };

    ghost is_of = { IsTicketOf };

    ghost capacity_of = { λ s. s.capacity };

    ghost may_fail = { ⊤ };

    fn again(&self, ticket: &EngineTicket<E>) -> EngineTicket<E> {
        ticket.again()
    }

    fn number(&self, ticket: &EngineTicket<E>) -> u64 {
        ticket.index() as u64
    }

    fn same(&self, a: &EngineTicket<E>, b: &EngineTicket<E>) -> bool {
        if a.index() != b.index() {
            return false;
        }
        // For the proof: shows that one number has one key. At run time nothing happens here.
        self.keys.agrees(a, b);
        true
    }
}

impl<E: Engine, R: Sync + Drop> FarRead for EngineStore<E, R> {
    fn get(
        &self,
        alloc: Global,
        meter: &mut Meter,
        ticket: &EngineTicket<E>,
        buffer: &mut Vec<u8>,
    ) -> Result<(), Refusal> {
        buffer.clear();
        let Some(key) = self.keys.get_seen(ticket.index(), ticket) else {
            unreachable!()
        };
        match self.engine.read(alloc, key, buffer) {
            Ok(()) => Ok(()),
            Err(failure) => {
                buffer.clear();
                Err(counted(meter, failure))
            }
        }
    }
}

impl<E: Engine, R: Sync + Drop + Wait> FarStore for EngineStore<E, R> {
    fn put(
        &self,
        alloc: Global,
        meter: &mut Meter,
        bytes: &[u8],
    ) -> Result<EngineTicket<E>, Refusal>
        requires few { meter.old < 2 ^ 63 }
        ensures here { IfOk result (λ ticket. IsTicketOf ticket (full_id self.now)) }
        ensures content { IfOk result (λ ticket. E.written ticket.value ≡ bytes.now) }
        ensures number { IfOk result (λ ticket. ticket.index < self.now.capacity) }
        ensures faults { meter.new ≡ meter.old + faults_in result }
        ensures refused { RefusedBy (21 ∷ 22 ∷ 1 ∷ []) result }
    {
        // A full store does not call its engine.
        if self.keys.count() as u64 >= self.capacity {
            return Err(Refusal::FarFull);
        }
        // Space for the key is reserved before the write, so that a put without memory for its key writes nothing. Only a put of another
        // thread can take this space in between.
        self.keys.reserve(1)?;
        let key = match self.engine.write(alloc, bytes) {
            Ok(key) => key,
            Err(failure) => return Err(counted(meter, failure)),
        };
        let Ok(ticket) = self.keys.push_shown(&self.rt, key) else {
            return Err(Refusal::NoMemory);
        };
        below(self.capacity, ticket)
    }
}

// Returns the refusal for an engine's failure. Every failure except a failed local allocation is a fault, and is counted.
fn counted<F: Drop>(meter: &mut Meter, failure: Failure<F>) -> Refusal
    requires { meter.old < 2 ^ 63 }
    ensures faults { meter.new ≡ meter.old + faults_of result }
    ensures refused { IsTrue (list_any (λ number. number == number_of result) (21 ∷ 1 ∷ [])) }
{
    match failure {
        Failure::NoMemory => Refusal::NoMemory,
        Failure::Engine(_) => {
            meter.rise();
            Refusal::FarFault
        }
    }
}
