// Far copies of a table's objects in another store.
use far_scopes::Renewal;
use far_store::FarTickets;
use std::marker::Model;

/// The far copies that `Rows::renewal` put into another store. Contracts see two lists by object number, one for numbers and
/// one for texts: the ticket of each object that was away, and `None` for each that was local.
#[derive(Drop)]
pub struct RowsRenewal<N: FarTickets> {
    pub(crate) numbers: Renewal<N>,
    pub(crate) texts: Renewal<N>,
}

impl<N: FarTickets> Model for RowsRenewal<N> {
    ghost use Rattle.far_rows.specs.Renewal.{RowsTickets};

    ghost Value = { RowsTickets N.Ticket };

    ghost view = { λ r. record { numbers = r.numbers; texts = r.texts } };
}
