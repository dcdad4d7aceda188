// The kinds of a table's columns.
ghost use Rattle.std.specs.Prelude.{◌≡◌, IfOk, IfErr, length, slice_get};
ghost use Rattle.std.specs.Slice.Iter.{iter_rest};
ghost use Rattle.far_types.specs.Bounds.{IsSchema};

use super::cell::Kind;
use super::refusal::Refusal;
use std::marker::Model;
use std::slice;

/// The kinds of a table's 1 to 16 columns. Contracts see the list of kinds.
///
/// ```
/// fn breads(alloc: Global) -> Result<Schema, Refusal> {
///     let kinds = Vec::from_array(alloc, [Kind::Text, Kind::Int])?;
///     Schema::new(kinds)
/// }
/// ```
#[derive(Drop, Debug)]
pub struct Schema {
    kinds: Vec<Kind>,
}

impl Model for Schema {
    ghost use Rattle.std.specs.Prelude.{List};
    ghost use Rattle.far_types.specs.declared.cell.Kind.{Kind};
    ghost use Rattle.far_types.specs.Bounds.{IsSchema};

    ghost Value = { List Kind };

    ghost view = { λ schema. schema.kinds.items };

    ghost invariant = { λ schema. IsSchema schema.kinds.items };
}

impl Schema {
    /// Makes a schema of these columns. Refused with `BadSchema` (2) exactly if there are none or more than 16. Allocates nothing.
    pub fn new(kinds: Vec<Kind>) -> Result<Schema, Refusal>
        ensures ok { IfOk result (λ schema. (schema ≡ kinds.items) × IsSchema kinds.items) }
        ensures bad { IfErr result (λ e. (e ≡ Refusal.BadSchema) × ¬ (IsSchema kinds.items)) }
    {
        if kinds.len() < 1 || kinds.len() > 16 {
            return Err(Refusal::BadSchema);
        }
        Ok(Schema { kinds })
    }

    /// Returns how many columns there are.
    pub fn len(&self) -> usize
        ensures len { result ≡ length self.now }
        ensures within { IsSchema self.now }
    {
        self.kinds.len()
    }

    /// Returns the kind of a column, or `None` if there is no such column.
    pub fn get(&self, column: usize) -> Option<Kind>
        ensures { result ≡ slice_get self.now column }
    {
        self.kinds.get(column).copied()
    }

    /// Borrows the kinds in place.
    pub fn as_slice(&self) -> &[Kind]
        ensures { result.now ≡ self.now }
    {
        self.kinds.as_slice()
    }

    /// Borrows the kinds in the order of the columns, in place. Allocates nothing.
    pub fn iter(&self) -> slice::Iter<'_, Kind>
        ensures { iter_rest result ≡ self.now }
    {
        self.kinds.iter()
    }

    /// Returns an equal schema. Refused with `NoMemory` (1) alone.
    pub fn clone(&self) -> Result<Schema, Refusal>
        ensures equal { IfOk result (λ schema. schema ≡ self.now) }
        ensures memory { IfErr result (λ e. e ≡ Refusal.NoMemory) }
    {
        Ok(Schema {
            kinds: self.kinds.clone()?,
        })
    }
}

impl<'a> IntoIterator for &'a Schema {
    ghost use Rattle.std.specs.Prelude.{◌≡◌};
    ghost use Rattle.std.specs.Slice.Iter.{iter_rest};

    type Item = &'a Kind;

    type IntoIter = slice::Iter<'a, Kind>;

    ghost into_iter_gives = { λ schema it. iter_rest it ≡ schema.now };

    fn into_iter(self) -> Self::IntoIter {
        self.iter()
    }
}
