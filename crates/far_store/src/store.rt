// The three traits of a far store.
ghost use Rattle.std.specs.Prelude.{◌≡◌, ℕ, ◌+◌, ◌<◌, ◌^◌, ◌↔◌, List, [], ◌∷◌, IfOk, OnOk, OnErr, IsTrue};
ghost use Rattle.far_store.specs.Faults.{faults_in, FailsOnlyIf, RefusedBy};

use crate::Meter;
use far_types::Refusal;
use std::alloc::Global;

/// The part of a far store that a table can use without waiting: it compares and copies tickets.
///
/// [`FarRead`] and [`FarStore`] are separate traits because their calls may wait: a store over a network waits in every read. Code under a
/// lock requires only `FarTickets`, and so is known to return.
///
/// A far store with a small interface follows AIFM's remote device (OSDI 2020). Tickets that permanently name one content are this
/// project's own.
pub trait FarTickets: Sync + Drop {
    /// A handle of one content that was put. It is kept by value, outlives every borrow of the store, and can be sent between threads.
    type Ticket: Send + Sync + Drop;

    /// The bytes that were put for a ticket.
    ghost content: { Self.Ticket → List ℕ };

    /// A ticket's number.
    ghost number_of: { Self.Ticket → ℕ };

    /// A store's id, which ties its tickets to it. It never changes.
    ghost store_id: { Self → List ℕ };

    /// The ticket is of the store with this id.
    ghost is_of: { Self.Ticket → List ℕ → Type 0 };

    /// How many numbers a store may give out.
    ghost capacity_of: { Self → ℕ };

    /// Whether calls of a store of this type may fail with `FarFault` (21).
    ghost may_fail: { Type 0 };

    /// Copies a ticket: the copy has the same number, content and store. Allocates nothing.
    fn again(&self, ticket: &Self::Ticket) -> Self::Ticket
        requires { is_of ticket.now (store_id self.now) }
        ensures { result ≡ ticket.now };

    /// Returns the ticket's number. Allocates nothing.
    fn number(&self, ticket: &Self::Ticket) -> u64
        requires { is_of ticket.now (store_id self.now) }
        ensures { result ≡ number_of ticket.now };

    /// Returns whether two tickets have the same number. Tickets with the same number have the same content. Allocates nothing.
    fn same(&self, a: &Self::Ticket, b: &Self::Ticket) -> bool
        requires a_here { is_of a.now (store_id self.now) }
        requires b_here { is_of b.now (store_id self.now) }
        ensures number { IsTrue result ↔ (number_of a.now ≡ number_of b.now) }
        ensures content { IsTrue result → content a.now ≡ content b.now };
}

/// A far store whose contents can be read.
pub trait FarRead: FarTickets {
    /// Replaces the bytes of the buffer with the ticket's content. After a refused call the buffer is empty. Refused with:
    /// - `FarFault` (21) if the store fails in this call, which only a store that `may_fail` does;
    /// - `NoMemory` (1).
    fn get(
        &self,
        alloc: Global,
        meter: &mut Meter,
        ticket: &Self::Ticket,
        buffer: &mut Vec<u8>,
    ) -> Result<(), Refusal>
        requires few { meter.old < 2 ^ 63 }
        requires here { Self.is_of ticket.now (Self.store_id self.now) }
        ensures content { OnOk result (buffer.new.items ≡ Self.content ticket.now) }
        ensures empty { OnErr result (buffer.new.items ≡ []) }
        ensures faults { meter.new ≡ meter.old + faults_in result }
        ensures cause { FailsOnlyIf Self.may_fail result }
        ensures refused { RefusedBy (21 ∷ 1 ∷ []) result };
}

/// A far store that takes contents, and returns a ticket for each, with which the content is read.
///
/// Puts the far form of a list, with a second call if the first runs out of memory:
///
/// ```
/// pub fn put<T: Elem, S: FarStore>(alloc: Global, store: &S, list: &[T]) -> Result<S::Ticket, Refusal>
///     requires { T.has_spelling list.now }
///     ensures here { IfOk result (λ ticket. S.is_of ticket (S.store_id store.now)) }
///     ensures spelled { IfOk result (λ ticket. IsSpelled T.in_range T.has_spelling T.spelling list.now (S.content ticket)) }
/// {
///     let bytes = match T::spell(alloc, list) {
///         Err(Refusal::NoMemory) => T::spell(alloc, list),
///         reply => reply,
///     }?;
///     match store.put(alloc, &mut Meter::new(), &bytes) {
///         Err(Refusal::NoMemory) => store.put(alloc, &mut Meter::new(), &bytes),
///         reply => reply,
///     }
/// }
/// ```
pub trait FarStore: FarRead {
    /// Puts these bytes, and returns a ticket for them. A refused put may have used up a number. Refused with:
    /// - `FarFault` (21) if the store fails in this call, which only a store that `may_fail` does;
    /// - `FarFull` (22) if the number drawn is not below the capacity;
    /// - `NoMemory` (1).
    fn put(&self, alloc: Global, meter: &mut Meter, bytes: &[u8]) -> Result<Self::Ticket, Refusal>
        requires { meter.old < 2 ^ 63 }
        ensures here { IfOk result (λ ticket. Self.is_of ticket (Self.store_id self.now)) }
        ensures content { IfOk result (λ ticket. Self.content ticket ≡ bytes.now) }
        ensures number { IfOk result
            (λ ticket. Self.number_of ticket < Self.capacity_of self.now) }
        ensures faults { meter.new ≡ meter.old + faults_in result }
        ensures cause { FailsOnlyIf Self.may_fail result }
        ensures refused { RefusedBy (21 ∷ 22 ∷ 1 ∷ []) result };
}
