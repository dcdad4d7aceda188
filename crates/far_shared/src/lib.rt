#![tactic(auto)]
//! Tables that threads share: four of them, each under a lock with the owner of its history, and a cell for each. Besides edits
//! and questions, they serve work in the background under their locks.

pub mod asking;
pub mod background;
pub mod closing;
mod editing;
pub mod four;
mod locked;
mod merging;
pub mod opening;
pub mod plan;
pub mod shared;
mod shared_work;
pub mod stripe;
pub mod watching;
pub mod work;
mod working;

pub use asking::StripeGuard;
pub use background::Background;
pub use closing::close;
pub use far_sessions::{Cells, Reading, Session};
pub use four::answer_four;
pub use opening::{Four, Made};
pub use plan::Plan;
pub use shared::Shared;
pub use stripe::{Applied, Stripe, TableTag};
pub use work::{Building, Report, Work};
