// Contents that were read from the store.
ghost use Rattle.std.specs.Prelude.{◌≡◌, ◌+◌, ◌<◌, ◌^◌, [], ◌∷◌, IfOk, IfErr, All};
ghost use Rattle.far_codec.specs.Lent.{IsForm};
ghost use Rattle.far_store.specs.Faults.{faults_in, FailsOnlyIf, RefusedBy};
ghost use Rattle.far_offload.specs.Columns.{cells_meant};
ghost use Rattle.far_offload.specs.Jobs.{columns_under, AreForms};

use crate::column::Column;
use far_store::{FarRead, Meter};
use far_types::Refusal;
use std::alloc::{AllocError, Global};
use std::marker::Model;

/// A column's content: its number and the bytes of its far form. Contracts see the number and the cells.
#[derive(Drop)]
pub(crate) struct Content {
    number: u32,
    form: Vec<u8>,
}

impl Model for Content {
    ghost use Rattle.std.specs.Prelude.{ℕ, List};
    ghost use Rattle.far_types.specs.declared.cell.Cell.{Cell};
    ghost use Rattle.far_codec.specs.Lent.{IsForm};
    ghost use Rattle.far_offload.specs.Columns.{cells_meant};

    ghost Value = { ℕ × List Cell };

    ghost view = { λ content. (content.number, cells_meant content.form.items) };

    ghost invariant = { λ content. IsForm content.form.items };
}

impl Content {
    /// Makes a column that reads this content in place.
    fn lend(&self) -> Column<'_>
        ensures { result ≡ self.now }
    {
        Column::of_content(self.number, &self.form)
    }
}

/// Reads the content of a column's ticket.
fn content_under<S: FarRead>(
    alloc: Global,
    store: &S,
    meter: &mut Meter,
    number: u32,
    ticket: &S::Ticket,
) -> Result<Content, Refusal>
    requires few { meter.old < 2 ^ 63 }
    requires here { S.is_of ticket.now (S.store_id store.now) }
    requires form { IsForm (S.content ticket.now) }
    ensures content { IfOk result
        (λ content. content ≡ (number, cells_meant (S.content ticket.now))) }
    ensures faults { meter.new ≡ meter.old + faults_in result }
    ensures cause { FailsOnlyIf S.may_fail result }
    ensures refused { RefusedBy (21 ∷ 1 ∷ []) result }
{
    let mut form = Vec::new(alloc);
    store.get(alloc, meter, ticket, &mut form)?;
    Ok(Content { number, form })
}

/// Reads the content of each ticket into a buffer of its own.
pub(crate) fn contents_under<S: FarRead>(
    alloc: Global,
    store: &S,
    meter: &mut Meter,
    tickets: &[(u32, S::Ticket)],
) -> Result<Vec<Content>, Refusal>
    requires few { meter.old < 2 ^ 63 }
    requires here { All (λ ticket. S.is_of ticket.1 (S.store_id store.now)) tickets.now }
    requires forms { AreForms S.content tickets.now }
    ensures contents { IfOk result
        (λ contents. contents.items ≡ columns_under S.content tickets.now) }
    ensures faults { meter.new ≡ meter.old + faults_in result }
    ensures cause { FailsOnlyIf S.may_fail result }
    ensures refused { RefusedBy (21 ∷ 1 ∷ []) result }
{
    let mut contents = Vec::new(alloc);
    for (number, ticket) in tickets {
        contents.push(content_under(alloc, store, meter, *number, ticket)?)?;
    }
    Ok(contents)
}

/// Makes a column for each content, which reads the content in place.
pub(crate) fn lend_all(alloc: Global, contents: &[Content]) -> Result<Vec<Column<'_>>, AllocError>
    ensures { IfOk result (λ columns. columns.items ≡ contents.now) }
{
    let mut columns = Vec::with_capacity(alloc, contents.len())?;
    for content in contents {
        columns.push(content.lend())?;
    }
    Ok(columns)
}
