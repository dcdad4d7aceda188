// A law of the fold, stated over the definitions alone.
ghost use Rattle.std.specs.Prelude.{◌≡◌, ℕ, List, map};
ghost use Rattle.std.specs.List.{filter_map};
ghost use Rattle.far_types.specs.declared.spec.Spec.{Spec};
ghost use Rattle.far_types.specs.Table.{Place, place_pair, in_group};
ghost use Rattle.far_offload.specs.AtHand.{AreAtHand};
ghost use Rattle.far_offload.specs.Columns.{Columns};
ghost use Rattle.far_offload.specs.Partials.{pairs_over};

/// A law: available columns contribute to an aggregate the pairs of the places of a row group of the plain table, in order. Each
/// column that the aggregate needs must begin with the cells of those places. The flags must be the alive flags of the places.
pub fn columns_at_hand_give_the_pairs_of_their_places()
    ensures { (spec : Spec) → (columns : Columns) → (size g : ℕ) → (places : List Place)
        → AreAtHand spec columns (in_group size g places)
        → pairs_over spec columns (map (λ place. place.alive) (in_group size g places))
        ≡ filter_map (place_pair spec) (in_group size g places) }
{}
