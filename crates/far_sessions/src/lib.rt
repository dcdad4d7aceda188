#![tactic(auto)]
//! Four histories of edits that threads share, and their sessions: what each session knows of each history, what owns a history under
//! the lock of its table, and gauges that are read without a lock.
//!
//! A history exists only in proofs. At run time threads share one cell of four words: the number of edits, and the count and the sum of
//! the table's gauge. `law` has the rule that ties the cell to what each session knows, and `steps` the steps that preserve the rule.
//!
//! The crate knows no table. Whoever puts a table under a lock puts the [`Keeper`] of its history beside it.

pub mod cells;
pub mod closing;
pub mod keeper;
pub mod kept;
pub mod law;
pub mod opening;
pub mod reading;
pub mod session;
pub mod steps;
pub mod stripe_cell;
pub mod view;

pub use cells::Cells;
pub use closing::{are_whole, settle};
pub use keeper::{Keeper, Keepers};
pub use kept::Kept;
pub use law::{EditTag, HistoryCell, Pass, PlanTag};
pub use opening::{NewCells, Opened};
pub use reading::Reading;
pub use session::{Session, SessionAt};
pub use stripe_cell::{CellsTag, StripeCell};
pub use view::{Entry, PassView};
