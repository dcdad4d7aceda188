#![tactic(auto)]
//! Eviction and fetching in three phases: a job is begun, carried, and then accepted or found stale. Only carrying takes long. It reads no
//! object, so other calls can use the objects meanwhile.

mod beginning;
mod committing;
mod evacuation;
mod far_form;
mod fetching;
mod installing;
mod tickets;

pub use beginning::{Want, begin_evac, begin_fetch};
pub use committing::commit;
pub use evacuation::{Carried, EvacForm, EvacJob};
pub use far_form::FarForm;
pub use fetching::{FetchJob, Fetched};
pub use installing::install;
