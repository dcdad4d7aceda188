// Tickets of a host store.
ghost use Rattle.std.specs.Prelude.{◌≡◌};

use crate::note::Note;
use crate::notes::{Chunk, Group};
use boxcar::slot::Written;
use std::marker::Model;

/// A ticket of a [`HostStore`](crate::HostStore): 8 bytes, its number. The token of its content's note exists only in clauses.
#[derive(Drop)]
pub struct HostTicket {
    pub(crate) number: u64,
    pub(crate) group: Written<Group>,
    pub(crate) chunk: Written<Chunk>,
    pub(crate) note: Written<Note>,
}

const _: () = prove!(size_of::<HostTicket>() == 8);

impl Model for HostTicket {
    ghost use Rattle.far_host.specs.HostTickets.{TicketState};
    ghost use Rattle.far_host.specs.Spots.{chunk_of, place_of, ids, LiesAt};

    ghost Value = { TicketState };

    ghost view = { λ t. record {
      number = t.number;
      content = t.note.value.content.numbers;
      group = t.group.of;
    } };

    // The note is in the chunk and the chunk in the group that the number says.
    ghost invariant = { λ t.
        LiesAt (ids t.group.value.items) (chunk_of t.number) t.chunk.of
        × LiesAt (ids t.chunk.value.items) (place_of t.number) t.note.of };
}

impl HostTicket {
    pub(crate) fn copy(&self) -> HostTicket
        ensures { result ≡ self.now }
    {
        HostTicket {
            number: self.number,
            group: self.group.again(),
            chunk: self.chunk.again(),
            note: self.note.again(),
        }
    }

    // For the proof: shows that one number has one content. At run time nothing happens here.
    pub(crate) fn agrees(&self, other: &HostTicket)
        requires group { self.now.group ≡ other.now.group }
        requires number { self.now.number ≡ other.now.number }
        ensures { self.now.content ≡ other.now.content }
    {
        self.group.agrees(&other.group);
        self.chunk.agrees(&other.chunk);
        self.note.agrees(&other.note);
    }
}
