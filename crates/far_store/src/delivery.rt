// Far stores whose contents the calling program keeps.
ghost use Rattle.std.specs.Prelude.{◌≡◌, ℕ, ◌+◌, ◌<◌, ◌^◌, ◌↔◌, List, [], ◌∷◌, IsErrOf, OnOk};
ghost use Rattle.far_store.specs.Faults.{faults_in, RefusedBy};

use crate::Meter;
use crate::store::FarStore;
use far_types::Refusal;
use std::alloc::Global;

/// A far store whose contents the calling program keeps, and delivers before they are read.
///
/// A `get` reads the bytes that were delivered for its ticket, and returns `FarFault` (21) if none were. The store compares each delivery
/// with what it noted when the content was put.
pub trait FarDelivery: FarStore {
    /// The bytes match what the store noted of the ticket's content, such as its length and its digest.
    ghost matches: { Self.Ticket → List ℕ → Type 0 };

    /// Stores the bytes of a ticket's content for later gets, in place of an earlier delivery. A refused delivery changes nothing. It is
    /// assumed that bytes which match are the bytes that were put (`no_collision`). Refused with:
    /// - `FarFault` (21) if the bytes do not match what the store noted of the ticket's content;
    /// - `NoMemory` (1).
    fn deliver(
        &mut self,
        alloc: Global,
        meter: &mut Meter,
        ticket: &Self::Ticket,
        bytes: &[u8],
    ) -> Result<(), Refusal>
        requires few { meter.old < 2 ^ 63 }
        requires here { Self.is_of ticket.now (Self.store_id self.old) }
        requires no_collision { Self.matches ticket.now bytes.now
            → bytes.now ≡ Self.content ticket.now }
        ensures same { Self.store_id self.new ≡ Self.store_id self.old }
        ensures capacity { Self.capacity_of self.new ≡ Self.capacity_of self.old }
        ensures content { OnOk result (bytes.now ≡ Self.content ticket.now) }
        ensures other { IsErrOf result Refusal.FarFault
            ↔ (Self.matches ticket.now bytes.now → ⊥) }
        ensures faults { meter.new ≡ meter.old + faults_in result }
        ensures refused { RefusedBy (21 ∷ 1 ∷ []) result };

    /// Drops the bytes that were delivered for a ticket, if any. Allocates nothing.
    fn forget(&mut self, ticket: &Self::Ticket)
        requires { Self.is_of ticket.now (Self.store_id self.old) }
        ensures same { Self.store_id self.new ≡ Self.store_id self.old }
        ensures capacity { Self.capacity_of self.new ≡ Self.capacity_of self.old };

    /// Drops all bytes that were delivered. Allocates nothing.
    fn forget_all(&mut self)
        ensures same { Self.store_id self.new ≡ Self.store_id self.old }
        ensures capacity { Self.capacity_of self.new ≡ Self.capacity_of self.old };
}
