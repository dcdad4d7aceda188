// The empty columns of a new table.
ghost use Rattle.std.specs.Prelude.{◌≡◌, ◌++◌, ◌∷◌, [], length, IfOk, IfErr, OnOk};
ghost use Rattle.far_types.specs.Bounds.{AreLimits, IsSchema};
ghost use Rattle.far_rows.specs.ColumnIndexes.{column_indexes_from};
ghost use Rattle.far_rows.specs.Opening.{numbers_from, texts_from, number_limits, text_limits};

use crate::column_index::ColumnIndex;
use far_columns::IntColumn;
use far_scopes::ObjectLimits;
use far_texts::TextColumn;
use far_types::{Kind, Limits, Refusal, Schema};
use std::alloc::Global;

// The columns of a table, and the index of each column.
#[derive(Drop)]
pub(super) struct Columns {
    pub(super) column_indexes: Vec<ColumnIndex>,
    pub(super) numbers: Vec<IntColumn>,
    pub(super) texts: Vec<TextColumn>,
}

// Returns the limits of the objects of numbers.
pub(super) fn number_limits(limits: &Limits) -> ObjectLimits
    ensures { result ≡ number_limits limits.now }
{
    ObjectLimits {
        segments: limits.int_segments,
        size: limits.int_size,
        max_writes: limits.edits,
        leavings: limits.edits,
    }
}

// Returns the limits of the objects of texts.
pub(super) fn text_limits(limits: &Limits) -> ObjectLimits
    ensures { result ≡ text_limits limits.now }
{
    ObjectLimits {
        segments: limits.text_segments,
        size: limits.text_size,
        max_writes: limits.edits,
        leavings: limits.edits,
    }
}

// Makes the columns of a schema, each empty.
pub(super) fn columns_of(
    alloc: Global,
    schema: &Schema,
    limits: &Limits,
) -> Result<Columns, Refusal>
    requires { AreLimits limits.now }
    ensures column_indexes { IfOk result
        (λ columns. columns.column_indexes.items ≡ column_indexes_from 0 0 schema.now) }
    ensures numbers { IfOk result
        (λ columns. columns.numbers.items ≡ numbers_from limits.now.group 0 schema.now) }
    ensures texts { IfOk result
        (λ columns. columns.texts.items
        ≡ texts_from limits.now.group limits.now.text_size 0 schema.now) }
    ensures schema { IsSchema schema.now }
    ensures memory { IfErr result (λ e. e ≡ Refusal.NoMemory) }
{
    let mut columns = Columns {
        column_indexes: Vec::with_capacity(alloc, schema.len())?,
        numbers: Vec::new(alloc),
        texts: Vec::new(alloc),
    };
    let mut column = 0;
    for kind in schema.as_slice() {
        columns.push(alloc, column, *kind, limits)?;
        column += 1;
    }
    Ok(columns)
}

impl Columns {
    // Adds an empty column with this number and this kind.
    fn push(
        &mut self,
        alloc: Global,
        column: u32,
        kind: Kind,
        limits: &Limits,
    ) -> Result<(), Refusal>
        requires { AreLimits limits.now }
        ensures column_indexes { OnOk result
            (self.new.column_indexes.items
            ≡ self.old.column_indexes.items
            ++ column_indexes_from (length self.old.numbers.items) (length self.old.texts.items)
            (kind ∷ [])) }
        ensures numbers { OnOk result
            (self.new.numbers.items
            ≡ self.old.numbers.items ++ numbers_from limits.now.group column (kind ∷ [])) }
        ensures texts { OnOk result
            (self.new.texts.items
            ≡ self.old.texts.items
            ++ texts_from limits.now.group limits.now.text_size column (kind ∷ [])) }
        ensures memory { IfErr result (λ e. e ≡ Refusal.NoMemory) }
    {
        match kind {
            Kind::Int => {
                self.column_indexes
                    .push(ColumnIndex::Number(self.numbers.len()))?;
                let numbers = IntColumn::new(alloc, column, limits.group, Some(0))?;
                self.numbers.push(numbers)?;
            }
            Kind::Text => {
                self.column_indexes
                    .push(ColumnIndex::Text(self.texts.len()))?;
                let limit = limits.text_size as usize;
                let texts = TextColumn::new(alloc, column, limits.group, limit)?;
                self.texts.push(texts)?;
            }
        }
        Ok(())
    }
}
