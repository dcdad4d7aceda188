// Laws about all objects.
ghost use Rattle.std.specs.Prelude.{◌≡◌, ℕ, List, false, Some, IsSomeAnd};
ghost use Rattle.far_codec.specs.Spelling.{IsSpelled};
ghost use Rattle.far_scopes.specs.Memory.{list_in};
ghost use Rattle.far_scopes.specs.Movement.{Movement, AreTracked, AreClean, dirty, ticket_of};

use far_codec::Elem;
use far_store::FarTickets;

/// A law: each clean local object has a ticket, and the ticket's content is the far form of the object's list.
///
/// `Objects::number` shows the premise `AreTracked`. Every call that changes objects keeps the premise `AreClean` (`clean`): a clean
/// object's list is the list that its ticket's content encodes.
pub fn clean_objects_have_copies<T: Elem, S: FarTickets>()
    ensures { (m : Movement T S.Ticket) → (o : ℕ) → (list : List T)
        → AreTracked T.meaning S.content (IsSpelled T.in_range T.has_spelling T.spelling) m
        → AreClean T.meaning S.content m → dirty m o ≡ false
        → list_in m.memory o ≡ Some list
        → IsSomeAnd (ticket_of m o)
        (λ ticket. IsSpelled T.in_range T.has_spelling T.spelling list (S.content ticket)) }
{}
