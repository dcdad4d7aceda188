// The trait that lends the columns of a row group.
ghost use Rattle.std.specs.Prelude.{◌≡◌, ℕ, Bool, List, true, map, IsSome, IfSome};
ghost use Rattle.far_types.specs.Table.{Place};
ghost use Rattle.far_aggregates.specs.Lending.{IsOfPlaces};

use far_offload::Column;

/// A row group whose columns can be read, from memory or from a far copy.
pub trait LendGroup {
    /// The places of the row group, in order.
    ghost places: { Self → List Place };

    /// Whether the column with a number is available.
    ghost has: { Self → ℕ → Bool };

    /// Returns the column with this number, read in place, or `None` if it is not available. The column begins with the cells of
    /// the places, and may have more cells after them. Allocates nothing.
    fn column(&self, number: u32) -> Option<Column<'_>>
        ensures there { has self.now number ≡ true → IsSome result }
        ensures number { IfSome result (λ column. column.0 ≡ number) }
        ensures cells { IfSome result (IsOfPlaces (places self.now)) };

    /// Returns the alive flag of each place. Allocates nothing.
    fn alive(&self) -> &[bool]
        ensures { result.now ≡ map (λ place. place.alive) (places self.now) };
}
