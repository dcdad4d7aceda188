// Contents that were read from the far store, for an offloaded build or a recount.
ghost use Rattle.std.specs.Prelude.{◌≡◌, ◌==◌, ◌+◌, ◌*◌, ◌<◌, ◌^◌, [], ◌∷◌, length, IfOk, option_map};
ghost use Rattle.std.specs.List.{find};
ghost use Rattle.far_store.specs.Faults.{faults_in, FailsOnlyIf, RefusedBy};
ghost use Rattle.far_rows.specs.Jobs.{AreAt};
ghost use Rattle.far_table.specs.Offloading.{AreTicketsOf};
ghost use Rattle.far_table.specs.FarGroups.{contents_under};
ghost use Rattle.far_table.specs.MixedGroups.{AreRead, MayFold};

use crate::copies::away_copy;
use far_rows::Rows;
use far_store::{FarRead, Meter};
use far_types::{Refusal, Spec};
use std::alloc::Global;
use std::marker::Model;

/// A content of the far store: the index of its column, and its bytes. Contracts see both.
#[derive(Drop)]
pub(crate) struct Content {
    column: u32,
    form: Vec<u8>,
}

impl Model for Content {
    ghost use Rattle.std.specs.Prelude.{ℕ, List};

    ghost Value = { ℕ × List ℕ };

    ghost view = { λ content. (content.column, content.form.items) };
}

/// Returns the content of a column, among these. Allocates nothing.
pub(crate) fn content_for(contents: &[Content], column: u32) -> Option<&[u8]>
    ensures { option_map (λ form. form.now) result
        ≡ option_map (λ content. content.1) (find (λ content. content.0 == column) contents.now) }
{
    match contents.iter().find(|content| content.column == column) {
        Some(content) => Some(&content.form),
        None => None,
    }
}

// Reads the content under the ticket of a column.
fn content_of<S: FarRead>(
    alloc: Global,
    store: &S,
    meter: &mut Meter,
    column: u32,
    ticket: &S::Ticket,
) -> Result<Content, Refusal>
    requires few { meter.old < 2 ^ 63 }
    requires here { S.is_of ticket.now (S.store_id store.now) }
    ensures content { IfOk result (λ content. content ≡ (column, S.content ticket.now)) }
    ensures faults { meter.new ≡ meter.old + faults_in result }
    ensures cause { FailsOnlyIf S.may_fail result }
    ensures refused { RefusedBy (21 ∷ 1 ∷ []) result }
{
    let mut form = Vec::new(alloc);
    store.get(alloc, meter, ticket, &mut form)?;
    Ok(Content { column, form })
}

/// Reads the contents of these tickets, each into a buffer of its own.
///
/// Refused with one of these:
///
/// - `FarFault` (21): the store fails in this call, exactly if the meter rises, by one.
/// - `NoMemory` (1): an allocation fails.
pub(crate) fn contents_of<S: FarRead>(
    alloc: Global,
    store: &S,
    meter: &mut Meter,
    tickets: &[(u32, S::Ticket)],
) -> Result<Vec<Content>, Refusal>
    requires few { meter.old < 2 ^ 63 }
    requires here { AreTicketsOf S.is_of (S.store_id store.now) tickets.now }
    ensures contents { IfOk result
        (λ contents. contents.items ≡ contents_under S.content tickets.now) }
    ensures faults { meter.new ≡ meter.old + faults_in result }
    ensures cause { FailsOnlyIf S.may_fail result }
    ensures refused { RefusedBy (21 ∷ 1 ∷ []) result }
{
    let mut contents = Vec::new(alloc);
    for (column, ticket) in tickets {
        contents.push(content_of(alloc, store, meter, *column, ticket)?)?;
    }
    Ok(contents)
}

/// Reads the contents of the columns of a row group that an aggregate needs and that are away, each into a buffer of its own.
///
/// Refused with one of these:
///
/// - `FarFault` (21): the store fails in this call, exactly if the meter rises, by one.
/// - `NoMemory` (1): an allocation fails.
pub(crate) fn contents_away<S: FarRead>(
    alloc: Global,
    rows: &Rows<S>,
    store: &S,
    meter: &mut Meter,
    spec: &Spec,
    group: u32,
) -> Result<Vec<Content>, Refusal>
    requires few { meter.old < 2 ^ 63 }
    requires here { AreAt S.is_of (S.store_id store.now) rows.now }
    requires begun { group * rows.now.size < length rows.now.alive }
    requires may_fold { MayFold rows.now spec.now }
    ensures contents { IfOk result
        (λ contents. AreRead S.content record { rows = rows.now; group = group } spec.now
        contents.items) }
    ensures faults { meter.new ≡ meter.old + faults_in result }
    ensures cause { FailsOnlyIf S.may_fail result }
    ensures refused { RefusedBy (21 ∷ 1 ∷ []) result }
{
    // For the proof: shows `AreRows`.
    let _len = rows.len();
    let mut contents = Vec::new(alloc);
    for column in 0..rows.column_indexes().len() {
        if let Some(ticket) = away_copy(rows, spec, column as u32, group) {
            contents.push(content_of(alloc, store, meter, column as u32, ticket)?)?;
        }
    }
    Ok(contents)
}
