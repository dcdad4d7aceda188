#![tactic(auto)]
//! A far store whose contents the calling program keeps: in files, on a server, in an object store.
//!
//! [`HostStore`] keeps no content. At a put it notes the length and a digest of the bytes, under a number. The program keeps the bytes
//! under that number, wherever it likes. To read a content again, the program delivers the bytes that it kept, and the store compares
//! them with its note. Bytes that differ are refused, whoever changed them: whether they are cut or damaged, an older content, or the
//! content of another number.
//!
//! The digest is the SHA-256 or, for 1,024 bytes and more, the SHA-256 of the digests of four parts, which are hashed side by side:
//! `content_digest` of `specs/ContentDigest`. That file also says why two contents with one digest show two messages with one SHA-256.
//!
//! One premise remains: no two contents that meet here have the same digest. `HasNoCollision` of `specs/HostTickets` states it for the
//! bytes that are delivered, and each call that delivers requires it. No other call requires anything of the program's storage.
//!
//! The store needs no lock, no thread and no runtime, and none of its calls waits.

mod contents;
mod digest;
mod lanes;
mod note;
mod notes;
mod spot;
mod store;
#[cfg(test)]
mod tests;
mod ticket;

pub use store::HostStore;
pub use ticket::HostTicket;
