// The far copies that objects get in another store.
use super::object_record::ObjectRecord;
use far_store::FarTickets;
use std::marker::Model;

/// The far copies that `Objects::renewal` put into another store. In contracts it is a list indexed by object number: the ticket of an
/// object that was away, and `None` for a local object.
///
/// It also has the memory for the objects' records, so `Objects::renew` allocates nothing.
#[derive(Drop)]
pub struct Renewal<N: FarTickets> {
    pub(crate) tickets: Vec<Option<N::Ticket>>,
    /// No record yet, but capacity for one record for each ticket.
    pub(crate) records: Vec<ObjectRecord<N::Ticket>>,
}

impl<N: FarTickets> Model for Renewal<N> {
    ghost use Rattle.std.specs.Prelude.{List, Option};

    ghost Value = { List (Option N.Ticket) };

    ghost use Rattle.std.specs.Prelude.{◌≡◌, ◌≤◌, [], length};
    ghost use Rattle.std.specs.Vec.{vec_capacity};

    ghost view = { λ r. r.tickets.items };

    ghost invariant = { λ r. (r.records.items ≡ [])
        × (length r.tickets.items ≤ vec_capacity r.records) };
}
