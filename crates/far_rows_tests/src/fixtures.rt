// Shared by the tests of objects and of the crates above them:
// - stores and objects to start from;
// - eviction and fetching of objects;
// - a digest of the state of objects.
mod beginning;
mod digest;
mod element;
mod moving;

pub use beginning::{agent, no_objects};
pub use digest::digest_of;
pub use element::Element;
pub use moving::{bring_back, send_away};
