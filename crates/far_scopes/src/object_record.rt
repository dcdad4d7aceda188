// Object records: the data of an object besides its pointer word and its list.
ghost use Rattle.std.specs.Prelude.{◌≡◌};
ghost use Rattle.far_scopes.specs.Renewal.{renewed_record};

use far_types::Name;

/// The record of an object. It is always in local memory, wherever the object's list is. The largest fields come first, so that no
/// memory is lost between them.
#[derive(Drop)]
pub struct ObjectRecord<K> {
    /// The name of the object: its column and its row group.
    pub(crate) name: Name,
    /// How often it was written.
    pub(crate) version: u64,
    /// How often it was evicted.
    pub(crate) leavings: u64,
    /// The ticket of its newest far copy. If the object was written since, this copy is out of date.
    pub(crate) ticket: Option<K>,
    /// How many elements its list has. A segment has at most 2^32 - 1.
    pub(crate) len: u32,
    /// How often it is pinned.
    pub(crate) pins: u16,
}

// With a ticket of 8 bytes, as that of far_host's store.
const _: () = prove!(size_of::<ObjectRecord<u64>>() == 48);

impl<K: Drop> ObjectRecord<K> {
    // Returns the record with this ticket of another store, or without a ticket.
    pub(crate) fn renewed<L>(self, ticket: Option<L>) -> ObjectRecord<L>
        ensures { result ≡ renewed_record self ticket }
    {
        ObjectRecord {
            name: self.name,
            version: self.version,
            leavings: self.leavings,
            ticket,
            len: self.len,
            pins: self.pins,
        }
    }
}
