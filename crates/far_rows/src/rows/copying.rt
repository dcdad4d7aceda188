// The far copies of the rows.
ghost use Rattle.std.specs.Prelude.{◌≡◌, ◌<◌, ℕ, List, Some, true, false, length, option_map, IfOk, IfSome, IsSome};
ghost use Rattle.far_codec.specs.Spelling.{IsSpelled};
ghost use Rattle.far_scopes.specs.Movement.{is_local, ticket_of};
ghost use Rattle.far_scopes.specs.Refusing.{refusal_in};
ghost use Rattle.far_evacuator.specs.Beginning.{fetch_refusal as fetch_refusal_in};
ghost use Rattle.far_rows.specs.Refusing.{absent_in};
ghost use Rattle.far_rows.specs.Jobs.{AreAt, fetch_refusal};
ghost use Rattle.far_rows.specs.Copies.{clean_ticket, copy_of, IsCopyOf};

use super::Rows;
use crate::object::Object;
use far_codec::Elem;
use far_scopes::Objects;
use far_store::FarTickets;
use far_types::Refusal;

impl<S: FarTickets> Rows<S> {
    /// Returns the number that was passed to `new`. Jobs identify these rows by it. Allocates nothing.
    pub fn number(&self) -> u32
        ensures { result ≡ self.now.number_objects.number }
    {
        self.number_objects.number()
    }

    /// Returns the ticket of the far copy of a row group of a column. Returns `None` if its object is dirty, or there is no
    /// such object. Allocates nothing.
    ///
    /// The content of the ticket is the current far form of the row group, whether it is local or away.
    pub fn copy(&self, column: usize, group: u32) -> Option<&S::Ticket>
        ensures ticket { option_map (λ ticket. ticket.now) result
            ≡ copy_of self.now column group }
        ensures form { IfSome result
            (λ ticket. IsCopyOf S.content self.now ticket.now column group) }
        ensures here { (id : List ℕ) → AreAt S.is_of id self.now
            → IfSome result (λ ticket. S.is_of ticket.now id) }
        ensures away { (absent_in self.now column group).0 ≡ true → IsSome result }
    {
        // For the proof: shows `AreRows`.
        let _len = self.len();
        match self.object(column, group) {
            Ok(Object::Number(o)) => clean_ticket(self.number_objects(), o),
            Ok(Object::Text(o)) => clean_ticket(self.text_objects(), o),
            Err(_) => None,
        }
    }

    /// Returns the ticket of the far copy of a row group of a column whose object is away. Allocates nothing.
    ///
    /// Refused with the first of these that applies:
    ///
    /// - `NoColumn` (4): there is no such column.
    /// - `OutOfRange` (14): no place of the row group is used.
    /// - `StaleJob` (20): the object is local.
    pub fn away_copy(&self, column: usize, group: u32) -> Result<&S::Ticket, Refusal>
        ensures ticket { IfOk result
            (λ ticket. copy_of self.now column group ≡ Some ticket.now) }
        ensures here { (id : List ℕ) → AreAt S.is_of id self.now
            → IfOk result (λ ticket. S.is_of ticket.now id) }
        ensures refused { refusal_in result ≡ fetch_refusal self.now column group }
    {
        match self.object(column, group)? {
            Object::Number(o) => away_ticket(self.number_objects(), o),
            Object::Text(o) => away_ticket(self.text_objects(), o),
        }
    }
}

// Returns the ticket of an object if the object is clean. The ticket's content is a far form.
fn clean_ticket<T: Elem, S: FarTickets>(objects: &Objects<T, S>, o: u32) -> Option<&S::Ticket>
    requires { o < length objects.now.records }
    ensures ticket { option_map (λ ticket. ticket.now) result ≡ clean_ticket objects.now o }
    ensures form { IfSome result
        (λ ticket. IsSpelled T.in_range T.has_spelling T.spelling
        (T.meaning (S.content ticket.now)) (S.content ticket.now)) }
    ensures away { is_local objects.now o ≡ false → IsSome result }
{
    // For the proof: shows that a clean object has a far copy.
    let _number = objects.number();
    if objects.word(o).dirty() {
        return None;
    }
    objects.ticket(o)
}

// Returns the ticket of an object that is away. Refused with `StaleJob` (20) exactly if the object is local.
fn away_ticket<T: Elem, S: FarTickets>(
    objects: &Objects<T, S>,
    o: u32,
) -> Result<&S::Ticket, Refusal>
    requires { o < length objects.now.records }
    ensures ticket { IfOk result (λ ticket. clean_ticket objects.now o ≡ Some ticket.now) }
    ensures own { IfOk result (λ ticket. ticket_of objects.now o ≡ Some ticket.now) }
    ensures refused { refusal_in result ≡ fetch_refusal_in objects.now o }
{
    if objects.is_local(o) {
        return Err(Refusal::StaleJob);
    }
    match clean_ticket(objects, o) {
        Some(ticket) => Ok(ticket),
        None => unreachable!(),
    }
}
