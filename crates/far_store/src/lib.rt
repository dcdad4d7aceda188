#![tactic(auto)]
//! The far store: keeps the contents of objects that are not in local memory.
//!
//! A content is a list of bytes. [`FarStore::put`] returns a ticket for it. [`FarRead::get`] reads the ticket's content, any number of
//! times. [`FarTickets`] compares tickets without waiting.
//!
//! A table uses a store only through these three traits, so it runs over any store:
//! - [`AgentStore`] in this process;
//! - [`EngineStore`] over an [`Engine`] of your own (docs/FAR_STORE.md); [`ByteLog`] is an example of one;
//! - [`FaultyStore`] and [`GateStore`], for testing calls that fail or take long.
//!
//! [`FarDelivery`] is for a store without storage of its own: the calling program keeps the contents, and delivers each before it is read.
//!
//! Threads share stores, and no content is ever removed.

mod agent;
mod byte_log;
mod delivery;
mod drawn;
mod engine;
mod engine_store;
mod faulty;
mod gate;
mod meter;
mod store;

pub use agent::AgentStore;
pub use byte_log::{ByteLog, LogFull, LogKey};
pub use delivery::FarDelivery;
pub use engine::{Engine, Failure};
pub use engine_store::{EngineStore, EngineTicket};
pub use faulty::FaultyStore;
pub use gate::GateStore;
pub use meter::Meter;
pub use store::{FarRead, FarStore, FarTickets};
