// Rows of a table whose far copies move to another store.
ghost use Rattle.std.specs.Prelude.{◌≡◌, ◌<◌, ℕ, List};
ghost use Rattle.far_rows.specs.Jobs.{AreAt};
ghost use Rattle.far_rows.specs.Renewal.{RenewsRows, AreTicketsAt};
ghost use Rattle.far_table.specs.Renewing.{renewed_table_rows};

use super::TableRows;
use far_rows::RowsRenewal;
use far_store::FarTickets;

impl<S: FarTickets> TableRows<S> {
    /// Returns the same rows, with the far copies of the renewal. Every place is unchanged, and so is which objects are local, hot or
    /// pinned. The local objects are dirty, since they have no copy in the new store. Allocates nothing.
    pub fn renew<N: FarTickets>(self, renewal: RowsRenewal<N>) -> TableRows<N>
        requires { RenewsRows S.content N.content self.held renewal }
        ensures renewed { result ≡ renewed_table_rows self renewal }
        ensures there { (id : List ℕ) → AreTicketsAt N.is_of id renewal
            → AreAt N.is_of id result.held }
    {
        TableRows {
            schema: self.schema,
            limits: self.limits,
            rows: self.rows.renew(renewal),
            new_row: self.new_row,
            edits: self.edits,
        }
    }
}
