// What a call on one column of texts does to the others in the same objects.
ghost use Rattle.std.specs.Prelude.{◌≡◌, ◌≢◌, ◌<◌, ◌++◌, ℕ, List, [], ◌∷◌, ◌/◌, length, Option, Some, slice_get, slice_set, slice_index_or};
ghost use Rattle.far_types.specs.Table.{in_group};
ghost use Rattle.far_texts.specs.Texts.{Texts, Lists, HasGroups, IsTextColumn, texts_at, texts_in};
ghost use Rattle.far_texts.specs.Effects.{group_with, group_with_next};
ghost use Rattle.far_texts.specs.Columns.{AreTextColumns, ChangesColumn};

/// A law: several columns of texts share `Objects`, and no two have an object in common. Each clause says when this remains
/// true:
///
/// - `none`, `more`: the columns are added one after another, each without an object.
/// - `after`, `others`: a call changes one of them, as its clause `changes` says. The others keep their texts.
/// - `moved`, `kept`: every object keeps its list, wherever it is. All keep their texts.
///
/// `far_columns::laws::vectors_stay_together` is this law for columns of numbers.
pub fn columns_stay_together()
    ensures none { (lists : Lists) → AreTextColumns lists [] }
    ensures more { (lists : Lists) → (columns : List Texts) → (c : Texts)
        → AreTextColumns lists columns → IsTextColumn lists c → c.objects ≡ []
        → AreTextColumns lists (columns ++ c ∷ []) }
    ensures after { (old : Lists) → (new : Lists)
        → (columns : List Texts) → (k : ℕ) → (c : Texts) → (changed : Texts)
        → AreTextColumns old columns → slice_get columns k ≡ Some c
        → ChangesColumn old new c changed
        → AreTextColumns new (slice_set columns k changed) }
    ensures others { (old : Lists) → (new : Lists)
        → (columns : List Texts) → (k : ℕ) → (c : Texts) → (changed : Texts)
        → AreTextColumns old columns → slice_get columns k ≡ Some c
        → ChangesColumn old new c changed
        → (j : ℕ) → (d : Texts) → j ≢ k → j < length columns
        → texts_in new (slice_index_or (slice_set columns k changed) j d)
        ≡ texts_in old (slice_index_or columns j d) }
    ensures moved { (old : Lists) → (new : Lists) → (columns : List Texts)
        → AreTextColumns old columns → ((o : ℕ) → new o ≡ old o)
        → AreTextColumns new columns }
    ensures kept { (old : Lists) → (new : Lists) → (c : Texts)
        → ((o : ℕ) → new o ≡ old o) → texts_in new c ≡ texts_in old c }
{}

/// A law: the form in a row group's object encodes the texts of the row group's places, in order (`group`).
///
/// The form that a set or a push makes encodes the texts that the row group has afterwards (`with_text`, `next`). So whether a
/// call is refused with `ChunkFull` depends only on the texts of the row group's places, all of them.
pub fn forms_hold_row_groups()
    ensures group { (lists : Lists) → (c : Texts) → (g : ℕ) → (o : ℕ)
        → HasGroups c → IsTextColumn lists c → slice_get c.objects g ≡ Some o
        → texts_at lists o ≡ in_group c.size g (texts_in lists c) }
    ensures with_text { (lists : Lists) → (c : Texts) → (place : ℕ)
        → (text : Option (List ℕ)) → HasGroups c → IsTextColumn lists c → place < c.len
        → group_with lists c place text
        ≡ in_group c.size (place / c.size) (slice_set (texts_in lists c) place text) }
    ensures next { (lists : Lists) → (c : Texts) → (text : Option (List ℕ))
        → HasGroups c → IsTextColumn lists c
        → group_with_next lists c text
        ≡ in_group c.size (c.len / c.size) (texts_in lists c ++ text ∷ []) }
{}
