// What a call on one vector does to the others in the same objects.
ghost use Rattle.std.specs.Prelude.{◌≡◌, ◌≢◌, ◌<◌, ◌++◌, ℕ, List, [], ◌∷◌, length, Option, Some, slice_get, slice_set, slice_index_or};
ghost use Rattle.far_columns.specs.Vector.{Vector, IsShaped, IsVector, elements, group_list};
ghost use Rattle.far_columns.specs.Vectors.{AreVectors, ChangesVector};

use far_codec::Elem;

/// A law: several vectors share `Objects`, and no two have an object in common. Each clause says when this remains true:
///
/// - `none`, `more`: the vectors are added one after another, each without an object.
/// - `after`, `others`: a call changes one of them, as its clauses `is` and `disjoint` say. The others keep their elements.
/// - `moved`, `kept`: every object keeps its list, wherever it is. All keep their elements.
pub fn vectors_stay_together<T: Elem>()
    ensures none { (lists : ℕ → Option (List T)) → AreVectors lists [] }
    ensures more { (lists : ℕ → Option (List T)) → (vectors : List (Vector T))
        → (v : Vector T) → AreVectors lists vectors → IsVector lists v → v.objects ≡ []
        → AreVectors lists (vectors ++ v ∷ []) }
    ensures after { (old : ℕ → Option (List T)) → (new : ℕ → Option (List T))
        → (vectors : List (Vector T)) → (k : ℕ) → (v : Vector T) → (changed : Vector T)
        → AreVectors old vectors → slice_get vectors k ≡ Some v
        → ChangesVector old new v changed
        → AreVectors new (slice_set vectors k changed) }
    ensures others { (old : ℕ → Option (List T)) → (new : ℕ → Option (List T))
        → (vectors : List (Vector T)) → (k : ℕ) → (v : Vector T) → (changed : Vector T)
        → AreVectors old vectors → slice_get vectors k ≡ Some v
        → ChangesVector old new v changed
        → (j : ℕ) → (d : Vector T) → j ≢ k → j < length vectors
        → elements new (slice_index_or (slice_set vectors k changed) j d)
        ≡ elements old (slice_index_or vectors j d) }
    ensures moved { (old : ℕ → Option (List T)) → (new : ℕ → Option (List T))
        → (vectors : List (Vector T)) → AreVectors old vectors
        → ((o : ℕ) → new o ≡ old o) → AreVectors new vectors }
    ensures kept { (old : ℕ → Option (List T)) → (new : ℕ → Option (List T))
        → (w : Vector T) → ((o : ℕ) → new o ≡ old o)
        → elements new w ≡ elements old w }
{}

/// A law: the object of a row group has the elements of the row group's places, in order. The rest of the object, up to the
/// size of a row group, has the default value.
pub fn objects_hold_row_groups<T: Elem>()
    ensures { (lists : ℕ → Option (List T)) → (v : Vector T) → (g : ℕ) → (o : ℕ)
        → IsShaped v → IsVector lists v → slice_get v.objects g ≡ Some o
        → lists o ≡ Some (group_list v (elements lists v) g) }
{}
