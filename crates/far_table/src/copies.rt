// The far store's copies of a row group's columns.
ghost use Rattle.std.specs.Prelude.{◌≡◌, ◌<◌, ◌*◌, ◌↔◌, ◌++◌, ◌&&◌, [], is_none, ℕ, List, None, true, false, cond, length, option_map, IsTrue, IfOk, IfErr, IfSome, IsSome, OnOk, IsSomeAnd};
ghost use Rattle.std.specs.List.{cons_option};
ghost use Rattle.far_codec.specs.Lent.{IsForm};
ghost use Rattle.far_types.specs.Bounds.{needs};
ghost use Rattle.far_types.specs.FirstOf.{first_of};
ghost use Rattle.far_scopes.specs.Refusing.{refusal_in};
ghost use Rattle.far_offload.specs.Jobs.{AreForms};
ghost use Rattle.far_rows.specs.Rows.{AreRows};
ghost use Rattle.far_rows.specs.Refusing.{absent_in};
ghost use Rattle.far_rows.specs.Jobs.{AreAt};
ghost use Rattle.far_rows.specs.Copies.{copy_of};
ghost use Rattle.far_table.specs.Offloading.{ticket_for, AreTicketsOf, HaveOneNumber, dirty_from};
ghost use Rattle.far_table.specs.FarGroups.{IsCopy, AllNeeded};
ghost use Rattle.far_table.specs.Groups.{has_column};

use far_rows::Rows;
use far_store::FarTickets;
use far_types::{Refusal, Spec};
use std::alloc::Global;

/// Returns the ticket under which the far store has the current content of a row group of a column. `None` if the object is dirty
/// or does not exist. Allocates nothing.
pub(crate) fn copy_of<S: FarTickets>(rows: &Rows<S>, column: u32, group: u32) -> Option<&S::Ticket>
    ensures ticket { option_map (λ ticket. ticket.now) result ≡ copy_of rows.now column group }
    ensures copy { IfSome result (λ ticket. IsCopy S.content rows.now group column ticket.now) }
    ensures here { (id : List ℕ) → AreAt S.is_of id rows.now
        → IfSome result (λ ticket. S.is_of ticket.now id) }
    ensures away { (absent_in rows.now column group).0 ≡ true → IsSome result }
{
    // For the proof: shows `AreRows`.
    let _len = rows.len();
    rows.copy(column as usize, group)
}

/// Returns the ticket of a column of a row group, if an aggregate needs the column and its object is away. Allocates nothing.
pub(crate) fn away_copy<'a, S: FarTickets>(
    rows: &'a Rows<S>,
    spec: &Spec,
    column: u32,
    group: u32,
) -> Option<&'a S::Ticket>
    requires inside { column < length rows.now.column_indexes }
    requires begun { group * rows.now.size < length rows.now.alive }
    ensures copy { IfSome result (λ ticket. IsCopy S.content rows.now group column ticket.now) }
    ensures here { (id : List ℕ) → AreAt S.is_of id rows.now
        → IfSome result (λ ticket. S.is_of ticket.now id) }
    ensures all { needs spec.now column ≡ true
        → has_column record { rows = rows.now; group = group } column ≡ false
        → IsSome result }
{
    // For the proof: shows `AreRows`.
    let _len = rows.len();
    if !spec.needs(column) || rows.group_column(column as usize, group).is_ok() {
        return None;
    }
    copy_of(rows, column, group)
}

/// Checks that the far store has the current content of each column of a row group that an aggregate needs. Allocates nothing.
///
/// Refused with `StaleJob` (20) exactly if it lacks one.
pub fn are_copied<S: FarTickets>(rows: &Rows<S>, spec: &Spec, group: u32) -> Result<(), Refusal>
    ensures { refusal_in result
        ≡ first_of (dirty_from rows.now spec.now group 0 rows.now.column_indexes) }
{
    // For the proof: shows `AreRows`.
    let _len = rows.len();
    for column in 0..rows.column_indexes().len() {
        if lacks(rows, spec, column as u32, group) {
            return Err(Refusal::StaleJob);
        }
    }
    Ok(())
}

// Returns whether the far store lacks a column that the aggregate needs.
fn lacks<S: FarTickets>(rows: &Rows<S>, spec: &Spec, column: u32, group: u32) -> bool
    ensures { result ≡ (needs spec.now column && is_none (copy_of rows.now column group)) }
{
    spec.needs(column) && copy_of(rows, column, group).is_none()
}

/// Returns the tickets of the columns that an aggregate needs, each with the index of its column. The far store has the current content
/// of a column under its ticket.
///
/// Refused only with `NoMemory` (1).
pub fn copies_of<S: FarTickets>(
    alloc: Global,
    rows: &Rows<S>,
    store: &S,
    spec: &Spec,
    group: u32,
) -> Result<Vec<(u32, S::Ticket)>, Refusal>
    requires here { AreAt S.is_of (S.store_id store.now) rows.now }
    ensures tickets { IfOk result
        (λ tickets. (column : ℕ)
        → ticket_for tickets.items column
        ≡ cond (needs spec.now column) (copy_of rows.now column group) None) }
    ensures forms { IfOk result (λ tickets. AreForms S.content tickets.items) }
    ensures here { IfOk result
        (λ tickets. AreTicketsOf S.is_of (S.store_id store.now) tickets.items) }
    ensures memory { IfErr result (λ e. e ≡ Refusal.NoMemory) }
{
    // For the proof: shows `AreRows`.
    let _len = rows.len();
    let mut tickets = Vec::new(alloc);
    for column in 0..rows.column_indexes().len() {
        let copy = needed_copy(rows, spec, column as u32, group);
        add(&mut tickets, store, column as u32, copy)?;
    }
    Ok(tickets)
}

// Returns the ticket of a column, if an aggregate needs it.
fn needed_copy<'a, S: FarTickets>(
    rows: &'a Rows<S>,
    spec: &Spec,
    column: u32,
    group: u32,
) -> Option<&'a S::Ticket>
    ensures ticket { option_map (λ ticket. ticket.now) result
        ≡ cond (needs spec.now column) (copy_of rows.now column group) None }
    ensures form { IfSome result (λ ticket. IsForm (S.content ticket.now)) }
    ensures here { (id : List ℕ) → AreAt S.is_of id rows.now
        → IfSome result (λ ticket. S.is_of ticket.now id) }
{
    if !spec.needs(column) {
        return None;
    }
    copy_of(rows, column, group)
}

// Adds the ticket of a column, if there is one. Refused only with `NoMemory` (1).
fn add<S: FarTickets>(
    tickets: &mut Vec<(u32, S::Ticket)>,
    store: &S,
    column: u32,
    copy: Option<&S::Ticket>,
) -> Result<(), Refusal>
    requires here { IfSome copy (λ ticket. S.is_of ticket.now (S.store_id store.now)) }
    ensures added { OnOk result
        (tickets.new.items
        ≡ tickets.old.items
        ++ cons_option (option_map (λ ticket. (column, ticket.now)) copy.entry) []) }
    ensures memory { IfErr result (λ e. e ≡ Refusal.NoMemory) }
{
    if let Some(ticket) = copy {
        tickets.push((column, store.again(ticket)))?;
    }
    Ok(())
}

// Returns the ticket of a column, among these.
fn ticket_for<S: FarTickets>(tickets: &[(u32, S::Ticket)], column: u32) -> Option<&S::Ticket>
    ensures { option_map (λ ticket. ticket.now) result ≡ ticket_for tickets.now column }
{
    let ticket = tickets.iter().find(|ticket| ticket.0 == column)?;
    Some(&ticket.1)
}

// Returns whether the column's ticket, among these, has the number under which the far store has the row group's current content.
fn is_still<S: FarTickets>(
    rows: &Rows<S>,
    store: &S,
    tickets: &[(u32, S::Ticket)],
    column: u32,
    group: u32,
) -> bool
    requires here { AreAt S.is_of (S.store_id store.now) rows.now }
    requires tickets_here { AreTicketsOf S.is_of (S.store_id store.now) tickets.now }
    ensures exact { IsTrue result
        ↔ HaveOneNumber S.number_of (copy_of rows.now column group)
        (ticket_for tickets.now column) }
    ensures copy { IsTrue result
        → IsSomeAnd (ticket_for tickets.now column) (IsCopy S.content rows.now group column) }
{
    let Some(own) = copy_of(rows, column, group) else {
        return false;
    };
    let Some(ticket) = ticket_for::<S>(tickets, column) else {
        return false;
    };
    store.same(own, ticket)
}

/// Returns whether each column that an aggregate needs has a ticket, among these, with the number under which the far store has the
/// row group's current content. Allocates nothing.
pub fn are_still<S: FarTickets>(
    rows: &Rows<S>,
    store: &S,
    tickets: &[(u32, S::Ticket)],
    spec: &Spec,
    group: u32,
) -> bool
    requires here { AreAt S.is_of (S.store_id store.now) rows.now }
    requires tickets_here { AreTicketsOf S.is_of (S.store_id store.now) tickets.now }
    ensures exact { IsTrue result
        ↔ AllNeeded (length rows.now.column_indexes) spec.now
        (λ column. HaveOneNumber S.number_of (copy_of rows.now column group)
        (ticket_for tickets.now column)) }
    ensures copies { IsTrue result
        → AllNeeded (length rows.now.column_indexes) spec.now
        (λ column. IsSomeAnd (ticket_for tickets.now column)
        (IsCopy S.content rows.now group column)) }
{
    // For the proof: shows `AreRows`.
    let _len = rows.len();
    for column in 0..rows.column_indexes().len() {
        if spec.needs(column as u32) && !is_still(rows, store, tickets, column as u32, group) {
            return false;
        }
    }
    true
}
