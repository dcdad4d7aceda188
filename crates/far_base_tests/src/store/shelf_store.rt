// A store without an engine, as docs/FAR_STORE.md describes it: a fixed number of places in memory.
ghost use Rattle.std.specs.Prelude.{ℕ, List, ◌≡◌, ◌<◌, ⊤, map, length, slice_index, vec_len, IfOk};

use boxcar::slot::{OnceSlot, SlotRule, Written};
use boxcar::tag::Tag;
use far_store::{FarRead, FarStore, FarTickets, Meter};
use far_types::Refusal;
use std::alloc::Global;
use std::marker::Model;
use std::sync::atomic::{AtomicUsize, Ordering};

/// A store with a fixed number of places, each for one content.
#[derive(Drop)]
pub struct ShelfStore {
    places: Vec<OnceSlot<Vec<u8>, AnyContent>>,
    drawn: AtomicUsize,
}

/// A ticket of a `ShelfStore`: the place, and the evidence that it was written.
#[derive(Drop)]
pub struct Shelved {
    place: usize,
    written: Written<Vec<u8>>,
}

impl Model for Shelved {
    ghost Value = { ℕ × ℕ × List ℕ };

    ghost view = { λ t. (t.place, t.written.of, t.written.value.items) };
}

// The rule of a place: any bytes may be written.
pub struct AnyContent;

impl SlotRule<Vec<u8>> for AnyContent {
    ghost holds = { λ _ _. ⊤ };
}

impl ShelfStore {
    /// Makes a store of `capacity` places. Refused only with `NoMemory` (1).
    pub fn new(alloc: Global, capacity: usize) -> Result<ShelfStore, Refusal>
        ensures { IfOk result (λ s. ⟦<ShelfStore as FarTickets>⟧.capacity_of s ≡ capacity) }
    {
        let mut places = Vec::new(alloc);
        places.resize_with(capacity, || OnceSlot::new(&Tag::empty()))?;
        Ok(ShelfStore {
            places,
            drawn: AtomicUsize::new(0),
        })
    }
}

impl FarTickets for ShelfStore {
    type Ticket = Shelved;

    ghost content = { λ t. t.2 };

    ghost number_of = { λ t. t.0 };

    ghost store_id = { λ s. map (λ place. place.id) s.places.items };

    ghost is_of = { λ t id. (t.0 < length id) × (t.1 ≡ slice_index id t.0) };

    ghost capacity_of = { λ s. vec_len s.places };

    ghost may_fail = { ⊥ };

    fn again(&self, ticket: &Shelved) -> Shelved {
        Shelved {
            place: ticket.place,
            written: ticket.written.again(),
        }
    }

    fn number(&self, ticket: &Shelved) -> u64 {
        ticket.place as u64
    }

    fn same(&self, a: &Shelved, b: &Shelved) -> bool {
        if a.place != b.place {
            return false;
        }
        a.written.agrees(&b.written);
        true
    }
}

impl FarRead for ShelfStore {
    fn get(
        &self,
        _alloc: Global,
        _meter: &mut Meter,
        ticket: &Shelved,
        buffer: &mut Vec<u8>,
    ) -> Result<(), Refusal> {
        buffer.clear();
        buffer.extend_from_slice(self.places[ticket.place].value(&ticket.written))?;
        Ok(())
    }
}

impl FarStore for ShelfStore {
    fn put(&self, alloc: Global, _meter: &mut Meter, bytes: &[u8]) -> Result<Shelved, Refusal> {
        let place = self.drawn.fetch_add(1, Ordering::SeqCst);
        if place >= self.places.len() {
            return Err(Refusal::FarFull);
        }
        let copy = Vec::from_slice(alloc, bytes)?;
        match self.places[place].set_written(copy) {
            Ok(written) => Ok(Shelved { place, written }),
            // Unreachable: no place is drawn twice.
            Err(_) => Err(Refusal::FarFull),
        }
    }
}
