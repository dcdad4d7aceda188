#![tactic(auto)]
//! The rows of a table, in columns whose objects may be away.

mod column_index;
mod lent_column;
mod new_cell;
mod new_row;
mod new_row_ref;
mod object;
mod place_row;
mod renewal;
mod row_ref;
mod rows;

pub use column_index::ColumnIndex;
pub use lent_column::LentColumn;
pub use new_cell::NewCell;
pub use new_row::NewRow;
pub use new_row_ref::NewRowRef;
pub use object::Object;
pub use place_row::PlaceRow;
pub use renewal::RowsRenewal;
pub use row_ref::RowRef;
pub use rows::Rows;
