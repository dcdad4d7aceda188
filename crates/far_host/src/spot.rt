// The location of a number's note.
ghost use Rattle.std.specs.Prelude.{◌≡◌};
ghost use Rattle.far_host.specs.Spots.{group_of, chunk_of, place_of};

/// The number of notes in a chunk.
pub(crate) const CHUNK: usize = 256;

/// The number of groups: enough for every number of 64 bits.
pub(crate) const GROUPS: usize = 57;

/// The location of a number's note: its group, its chunk in the group, and its index in the chunk. Group `g` has `2 ^ g` chunks, which
/// are `chunks` here.
#[derive(Drop)]
pub(crate) struct Spot {
    pub(crate) group: usize,
    pub(crate) chunks: usize,
    pub(crate) chunk: usize,
    pub(crate) place: usize,
}

impl Spot {
    pub(crate) fn of(number: u64) -> Spot
        ensures group { result.group ≡ group_of number }
        ensures chunk { result.chunk ≡ chunk_of number }
        ensures place { result.place ≡ place_of number }
    {
        let count = number as usize / CHUNK + 1;
        let group = count.ilog2() as usize;
        let chunks = 1 << group;
        Spot {
            group,
            chunks,
            chunk: count - chunks,
            place: number as usize % CHUNK,
        }
    }
}
