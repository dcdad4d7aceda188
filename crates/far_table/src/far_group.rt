// A row group whose columns were read from the far store, lent to aggregates.
ghost use Rattle.std.specs.Prelude.{◌≡◌};

use crate::contents::{Content, content_for};
use crate::offload_build::{OffloadBuild, OffloadCarried};
use far_aggregates::LendGroup;
use far_offload::Column;
use far_rows::Rows;
use far_store::FarTickets;
use far_types::Spec;
use std::marker::Model;

/// The row group of a carried build, whose contents are the current ones. Contracts see the rows and the build.
#[derive(Drop)]
pub struct FarGroup<'a, S: FarTickets> {
    // For the proof: only contracts read the rows and the build. The columns were looked up when the row group was made.
    rows: &'a Rows<S>,
    build: &'a OffloadBuild<S>,
    spec: &'a Spec,
    alive: &'a [bool],
    contents: &'a [Content],
}

impl<'a, S: FarTickets> Model for FarGroup<'a, S> {
    ghost use Rattle.far_table.specs.FarGroups.{FarRows, AreLentFrom};

    ghost Value = { FarRows S.Ticket };

    ghost view = { λ g. record { rows = g.rows.now; build = g.build.now } };

    ghost invariant = { λ g. AreLentFrom S.content record { rows = g.rows.now; build = g.build.now }
        g.spec.now g.alive.now g.contents.now };
}

impl<'a, S: FarTickets> FarGroup<'a, S> {
    ghost use Rattle.far_table.specs.FarGroups.{AreCopies};

    /// Returns the row group of a build that is still valid. Allocates nothing.
    pub fn new(rows: &'a Rows<S>, carried: &'a OffloadCarried<S>) -> FarGroup<'a, S>
        requires { AreCopies S.content record { rows = rows.now; build = carried.now } }
        ensures { result ≡ record { rows = rows.now; build = carried.now } }
    {
        let build = &carried.build;
        FarGroup {
            rows,
            build,
            spec: build.job.spec(),
            alive: build.job.alive(),
            contents: carried.contents(),
        }
    }
}

impl<'a, S: FarTickets> LendGroup for FarGroup<'a, S> {
    ghost use Rattle.far_table.specs.FarGroups.{places_there, needs_column};

    ghost places = { places_there S.content };

    ghost has = { needs_column };

    fn column(&self, number: u32) -> Option<Column<'_>> {
        if !self.spec.needs(number) {
            return None;
        }
        match content_for(self.contents, number) {
            Some(bytes) => Some(Column::of_content(number, bytes)),
            None => None,
        }
    }

    fn alive(&self) -> &[bool] {
        self.alive
    }
}
