// Delivered contents.
ghost use Rattle.std.specs.Prelude.{◌≡◌};

use crate::ticket::HostTicket;

/// The delivered content of a ticket.
#[derive(Drop)]
pub(crate) struct Contents {
    pub(crate) ticket: HostTicket,
    pub(crate) bytes: Vec<u8>,
    pub(crate) ghost same: { bytes.items ≡ ticket.content },
}
