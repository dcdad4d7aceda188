// Cells and their kinds.
ghost use Rattle.std.specs.Prelude.{◌≡◌, IfOk, IfErr};

use super::refusal::Refusal;
use super::text::Text;
use std::alloc::{AllocError, Global};

/// The kind of a column: what its cells hold, if they have a value.
#[derive(Clone, Copy, Debug, PartialEq, Eq)]
pub enum Kind {
    /// Signed whole numbers of 64 bits.
    Int,
    /// Texts of at most 4,096 bytes.
    Text,
}

/// One cell of a row: a number, a text, or no value. A cell without a value fits a column of either kind.
///
/// ```
/// fn cells(alloc: Global) -> Result<Vec<Cell>, Refusal> {
///     let bread = Cell::of_text(alloc, "bread")?;
///     let sold = Cell::from(5i64);
///     let unknown = Cell::from(None::<i64>);
///     Ok(Vec::from_array(alloc, [bread, sold, unknown])?)
/// }
/// ```
#[derive(Drop, Debug)]
pub enum Cell {
    Int(i64),
    Text(Text),
    Missing,
}

impl Cell {
    /// Copies these characters into a cell.
    pub fn of_text(alloc: Global, text: &str) -> Result<Cell, AllocError>
        ensures text { IfOk result (λ cell. cell ≡ Cell.Text text.now) }
    {
        Ok(Cell::Text(Text::from_str(alloc, text)?))
    }

    /// Returns an equal cell. Refused with `NoMemory` (1) alone.
    pub fn clone(&self) -> Result<Cell, Refusal>
        ensures equal { IfOk result (λ cell. cell ≡ self.now) }
        ensures memory { IfErr result (λ e. e ≡ Refusal.NoMemory) }
    {
        match self {
            Cell::Int(number) => Ok(Cell::Int(*number)),
            Cell::Text(text) => Ok(Cell::Text(text.clone()?)),
            Cell::Missing => Ok(Cell::Missing),
        }
    }
}

impl From<i64> for Cell {
    ghost use Rattle.std.specs.Prelude.{◌≡◌};
    ghost use Rattle.far_types.specs.declared.cell.Cell.TheVariants.{Int};

    ghost from_gives = { λ number cell. cell ≡ Int number };

    fn from(number: i64) -> Cell {
        Cell::Int(number)
    }
}

/// Makes a cell of the number, or a cell without a value if there is no number.
impl From<Option<i64>> for Cell {
    ghost use Rattle.std.specs.Prelude.{◌≡◌};
    ghost use Rattle.far_types.specs.Lent.{int_cell};

    ghost from_gives = { λ number cell. cell ≡ int_cell number };

    fn from(number: Option<i64>) -> Cell {
        match number {
            Some(number) => Cell::Int(number),
            None => Cell::Missing,
        }
    }
}

impl From<Text> for Cell {
    ghost use Rattle.std.specs.Prelude.{◌≡◌};
    ghost use Rattle.far_types.specs.declared.cell.Cell.TheVariants.{Text};

    ghost from_gives = { λ text cell. cell ≡ Text text };

    fn from(text: Text) -> Cell {
        Cell::Text(text)
    }
}
