// The notes of a store, by number.
ghost use Rattle.std.specs.Prelude.{◌≡◌, IfSome};
ghost use Rattle.far_host.specs.HostTickets.{IsNoted};

use crate::note::Note;
use crate::spot::{CHUNK, GROUPS, Spot};
use crate::ticket::HostTicket;
use boxcar::slot::{OnceSlot, SlotRule, Written};
use boxcar::tag::Tag;
use std::alloc::{AllocError, Global};
use std::marker::Model;

/// The rule of slots that accept any value.
pub(crate) struct Anything;

impl<T> SlotRule<T> for Anything {
    ghost use Rattle.std.specs.Prelude.{⊤};

    ghost holds = { λ _ _. ⊤ };
}

/// Slots that are each written once.
type Row<T> = Vec<OnceSlot<T, Anything>>;

pub(crate) type Chunk = Row<Note>;

pub(crate) type Group = Row<Chunk>;

// The cost of a number, in bytes.
const _: () = prove!(size_of::<OnceSlot<Note, Anything>>() == 56);

/// The notes of a store. A note is written once and never changes. Contracts see the ids of the groups' slots, which no other store has.
///
/// Chunks are made as their numbers are drawn, and each group has twice the chunks of the one before it. So an unused store costs
/// almost nothing, whatever its capacity. Later at most one chunk is not full, and the groups take less than a byte a number.
#[derive(Drop)]
pub(crate) struct Notes {
    groups: Row<Group>,
}

impl Model for Notes {
    ghost use Rattle.std.specs.Prelude.{ℕ, List};
    ghost use Rattle.far_host.specs.Spots.{ids};

    ghost Value = { List ℕ };

    ghost view = { λ n. ids n.groups.items };
}

impl Notes {
    pub(crate) fn new(alloc: Global) -> Result<Notes, AllocError> {
        Ok(Notes {
            groups: row_of(alloc, GROUPS)?,
        })
    }

    /// Makes the chunk of a number, unless it exists. Returns `None` if there is no memory for it, or another thread is making it.
    pub(crate) fn reserve(&self, alloc: Global, number: u64) -> Option<()> {
        let spot = Spot::of(number);
        let slot = self.groups.get(spot.group)?;
        let group = made(alloc, slot, spot.chunks)?;
        made(alloc, slot.value(&group).get(spot.chunk)?, CHUNK)?;
        Some(())
    }

    /// Writes the note of a number. Returns `None` if there is no memory for its chunk, or another thread is making the chunk.
    pub(crate) fn write(&self, alloc: Global, number: u64, note: Note) -> Option<HostTicket>
        ensures noted { IfSome result (λ ticket. IsNoted ticket self.now) }
        ensures number { IfSome result (λ ticket. ticket.number ≡ number) }
        ensures content { IfSome result (λ ticket. ticket.content ≡ note.content.numbers) }
    {
        let spot = Spot::of(number);
        let slot = self.groups.get(spot.group)?;
        let group = made(alloc, slot, spot.chunks)?;
        let slot = slot.value(&group).get(spot.chunk)?;
        let chunk = made(alloc, slot, CHUNK)?;
        let slot = slot.value(&chunk).get(spot.place)?;
        let note = slot.set_written(note).ok()?;
        Some(HostTicket {
            number,
            group,
            chunk,
            note,
        })
    }

    /// Returns the note of a ticket's content.
    pub(crate) fn note(&self, ticket: &HostTicket) -> &Note
        requires { IsNoted ticket.now self.now }
        ensures { result.now.content.numbers ≡ ticket.now.content }
    {
        let spot = Spot::of(ticket.number);
        let chunks = self.groups[spot.group].value(&ticket.group);
        let notes = chunks[spot.chunk].value(&ticket.chunk);
        notes[spot.place].value(&ticket.note)
    }
}

// Makes `length` slots in this slot, unless they exist. If two threads make them at once, one discards its own and uses the slots
// of the other. Returns `None` if the other thread is still writing them, since no call here waits.
fn made<T: Drop>(
    alloc: Global,
    slot: &OnceSlot<Row<T>, Anything>,
    length: usize,
) -> Option<Written<Row<T>>>
    ensures { IfSome result (λ written. written.of ≡ slot.now.id) }
{
    if let Some(written) = slot.witness() {
        return Some(written);
    }
    match slot.set_written(row_of(alloc, length).ok()?) {
        Ok(written) => Some(written),
        Err(_) => slot.witness(),
    }
}

// Returns `length` empty slots.
fn row_of<T: Drop>(alloc: Global, length: usize) -> Result<Row<T>, AllocError> {
    let mut slots = Vec::with_capacity(alloc, length)?;
    slots.resize_with(length, || OnceSlot::new(&Tag::empty()))?;
    Ok(slots)
}
