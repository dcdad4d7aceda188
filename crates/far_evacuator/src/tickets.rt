// The tickets of objects.
ghost use Rattle.std.specs.Prelude.{◌≡◌, ◌<◌, ◌↔◌, length, true, false, Some, IsTrue, IfSome, option_map};
ghost use Rattle.std.specs.Option.{option_map_or};
ghost use Rattle.far_scopes.specs.Movement.{has_copy, word_of, ticket_of};
ghost use Rattle.far_evacuator.specs.Acceptance.{IsUnder};

use far_codec::Elem;
use far_scopes::Objects;
use far_store::FarTickets;

/// Returns whether the ticket of an object's newest far copy has the same number as this ticket. Allocates nothing.
pub(crate) fn is_under<T: Elem, S: FarTickets>(
    objects: &Objects<T, S>,
    store: &S,
    o: u32,
    ticket: &S::Ticket,
) -> bool
    requires within { o < length objects.now.records }
    requires here { IfSome (ticket_of objects.now o) (λ own. S.is_of own (S.store_id store.now)) }
    requires ticket_here { S.is_of ticket.now (S.store_id store.now) }
    ensures number { IsTrue result ↔ IsUnder S.number_of objects.now o ticket.now }
    ensures content { IsTrue result
        → option_map S.content (ticket_of objects.now o) ≡ Some (S.content ticket.now) }
{
    match objects.ticket(o) {
        Some(own) => store.same(own, ticket),
        None => false,
    }
}

/// Copies the ticket of an object that has a far copy. Allocates nothing.
pub(crate) fn again_of<T: Elem, S: FarTickets>(
    objects: &Objects<T, S>,
    store: &S,
    o: u32,
) -> S::Ticket
    requires within { o < length objects.now.records }
    requires copy { option_map_or has_copy (word_of objects.now o) false ≡ true }
    requires here { IfSome (ticket_of objects.now o) (λ own. S.is_of own (S.store_id store.now)) }
    ensures ticket { ticket_of objects.now o ≡ Some result }
    ensures here { S.is_of result (S.store_id store.now) }
{
    let Some(ticket) = objects.ticket(o) else {
        unreachable!()
    };
    store.again(ticket)
}
