#![tactic(auto)]
//! Objects that move between local memory and a far store.

pub mod laws;
mod limits;
mod memory;
mod object_record;
mod objects;
mod recency;
mod renewal;
mod replacement;
mod scope;

pub use limits::ObjectLimits;
pub use object_record::ObjectRecord;
pub use objects::Objects;
pub use renewal::Renewal;
pub use replacement::Replacement;
pub use scope::Scope;
