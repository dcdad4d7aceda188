// A law of what an aggregate needs, over the definitions alone.
ghost use Rattle.std.specs.Prelude.{◌≡◌, ◌<◌, ℕ, Bool, List, None, true, length};
ghost use Rattle.far_types.specs.declared.cell.Kind.{Kind};
ghost use Rattle.far_types.specs.declared.spec.Spec.{Spec};
ghost use Rattle.far_types.specs.Bounds.{spec_refusal};
ghost use Rattle.far_aggregates.specs.Lending.{IsServed};

/// A law: an aggregate that is not refused over a schema is served if all columns of the schema are available.
pub fn an_aggregate_is_served_by_the_columns_of_its_schema()
    ensures { (schema : List Kind) → (spec : Spec) → (has : ℕ → Bool)
        → spec_refusal schema spec ≡ None
        → ((c : ℕ) → c < length schema → has c ≡ true)
        → IsServed has spec }
{}
