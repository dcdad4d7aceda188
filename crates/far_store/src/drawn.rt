// The check of a drawn number against the capacity.
ghost use Rattle.std.specs.Prelude.{◌≡◌, ◌<◌, ◌≤◌, ◌↔◌, IfOk, IfErr, IsErr};

use boxcar::{Keeps, Pushed};
use far_types::Refusal;
use std::alloc::Global;

/// Returns the ticket if its number is below the capacity, else `FarFull` (22). Another thread may have drawn a number since the count was
/// read, so only the drawn number decides.
pub(crate) fn below<T: Drop, P: Keeps<T>>(
    capacity: u64,
    ticket: Pushed<T, Global, P>,
) -> Result<Pushed<T, Global, P>, Refusal>
    ensures kept { IfOk result (λ kept. kept ≡ ticket) }
    ensures number { IfOk result (λ kept. kept.index < capacity) }
    ensures full { IsErr result ↔ (capacity ≤ ticket.index) }
    ensures refused { IfErr result (λ e. e ≡ Refusal.FarFull) }
{
    if ticket.index() as u64 >= capacity {
        return Err(Refusal::FarFull);
    }
    Ok(ticket)
}
