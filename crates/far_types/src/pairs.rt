// The pair that a row contributes to an aggregate.
ghost use Rattle.std.specs.Prelude.{◌≡◌, IfOk, IfSome, IsSome, OnErr, FitsSigned};
ghost use Rattle.std.specs.Int.{w64};
ghost use Rattle.far_types.specs.Cells.{number_in};
ghost use Rattle.far_types.specs.Lent.{lent_pair};
ghost use Rattle.far_types.specs.Pairs.{pair_of, text_under};

use super::cell_ref::CellRef;
use super::key::Key;
use super::lend_cells::LendCells;
use super::pair_ref::PairRef;
use super::spec::Spec;
use std::alloc::{AllocError, Global};

impl Spec {
    /// Returns the row's number in the value column, or `None` if there is none. Allocates nothing.
    #[inline(always)]
    fn value_in<R: LendCells>(&self, row: &R) -> Option<i64>
        ensures number { result ≡ number_in (R.cells row.now self.now.value) }
        ensures fits { IfSome result (FitsSigned w64) }
    {
        match row.cell(self.value) {
            Some(cell) => cell.number(),
            None => None,
        }
    }

    /// Returns the pair that a row contributes, if it is kept and folded. Borrows a text key in place. Allocates nothing.
    ///
    /// It calls only the row, so an edit has the pair of each aggregate in registers.
    #[inline(always)]
    pub fn lend_pair<'a, R: LendCells>(&self, row: &'a R) -> PairRef<'a>
        ensures pair { lent_pair result ≡ pair_of self.now (R.cells row.now) }
        ensures fits { IfSome (lent_pair result) (λ pair. FitsSigned w64 pair.1) }
    {
        if !self.filter.keeps_cells(row) {
            return PairRef::Nothing;
        }
        let Some(value) = self.value_in(row) else {
            return PairRef::Nothing;
        };
        let Some(column) = self.key else {
            return PairRef::Under {
                number: None,
                value,
            };
        };
        match row.cell(column) {
            Some(CellRef::Int(number)) => PairRef::Under {
                number: Some(number),
                value,
            },
            Some(CellRef::Text(text)) => PairRef::UnderText { text, value },
            _ => PairRef::Nothing,
        }
    }

    /// Returns the pair of a row, its key and its value, if the row is kept and folded. Clones only the key, and allocates only if that is a
    /// text.
    pub fn pair_of<R: LendCells>(
        &self,
        alloc: Global,
        row: &R,
    ) -> Result<Option<(Option<Key>, i64)>, AllocError>
        ensures pair { IfOk result (λ pair. pair ≡ pair_of self.now (R.cells row.now)) }
        ensures fits { IfOk result (λ pair. IfSome pair (λ p. FitsSigned w64 p.1)) }
        ensures text { OnErr result (IsSome (text_under (pair_of self.now (R.cells row.now)))) }
    {
        let lent = self.lend_pair(row);
        Ok(lent.pair(alloc, None)?)
    }
}
