// A row group whose columns are local or were read from the far store, lent to aggregates.
ghost use Rattle.std.specs.Prelude.{◌≡◌};
ghost use Rattle.far_table.specs.MixedGroups.{AreRead};

use crate::contents::{Content, content_for};
use crate::row_group::RowGroup;
use far_aggregates::LendGroup;
use far_offload::Column;
use far_rows::Rows;
use far_store::FarTickets;
use far_types::Spec;
use std::marker::Model;

/// A row group as an aggregate needs it: local columns are read in place, and others from their contents. Contracts see the rows,
/// the number of the row group and the aggregate.
#[derive(Drop)]
pub(crate) struct MixedGroup<'a, S: FarTickets> {
    local: RowGroup<'a, S>,
    spec: &'a Spec,
    contents: &'a [Content],
}

impl<'a, S: FarTickets> Model for MixedGroup<'a, S> {
    ghost use Rattle.far_table.specs.MixedGroups.{MixedRows, AreRead};

    ghost Value = { MixedRows S.Ticket };

    ghost view = { λ g. record { group = g.local; spec = g.spec.now } };

    ghost invariant = { λ g. AreRead S.content g.local g.spec.now g.contents.now };
}

impl<'a, S: FarTickets> MixedGroup<'a, S> {
    /// Returns the row group with this number, with the contents of the columns that the aggregate needs and that are away.
    /// Allocates nothing.
    pub(crate) fn new(
        rows: &'a Rows<S>,
        group: u32,
        spec: &'a Spec,
        contents: &'a [Content],
    ) -> MixedGroup<'a, S>
        requires { AreRead S.content record { rows = rows.now; group = group } spec.now
            contents.now }
        ensures { result
            ≡ record { group = record { rows = rows.now; group = group }; spec = spec.now } }
    {
        MixedGroup {
            local: RowGroup::new(rows, group),
            spec,
            contents,
        }
    }
}

impl<'a, S: FarTickets> LendGroup for MixedGroup<'a, S> {
    ghost use Rattle.far_table.specs.MixedGroups.{places_mixed, has_needed};

    ghost places = { places_mixed S.content };

    ghost has = { has_needed };

    fn column(&self, number: u32) -> Option<Column<'_>> {
        if let Some(column) = self.local.column(number) {
            return Some(column);
        }
        match content_for(self.contents, number) {
            Some(bytes) => Some(Column::of_content(number, bytes)),
            None => None,
        }
    }

    fn alive(&self) -> &[bool] {
        self.local.alive()
    }
}
