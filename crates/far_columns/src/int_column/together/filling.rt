// Appending numbers to several columns, in row groups that have been begun.
ghost use Rattle.std.specs.Prelude.{◌≡◌, ℕ, length, map, false, None, All};
ghost use Rattle.far_columns.specs.Vector.{IsShaped};
ghost use Rattle.far_columns.specs.Vectors.{AreVectors};
ghost use Rattle.far_columns.specs.Effects.{is_full};
ghost use Rattle.far_columns.specs.Refusing.{push_refusal};
ghost use Rattle.far_columns.specs.Numbers.{number_lists, numbers_in};
ghost use Rattle.far_columns.specs.NumbersTogether.{after_push_all, all_numbers_with, objects_after_push_all};
ghost use Rattle.far_columns.specs.NumbersChanges.{ChangesNumbers};

use crate::int_column::IntColumn;
use far_scopes::Objects;
use far_store::FarTickets;

// Appends a number to each column. Each column's last row group must have an unused place and be one that may be written.
pub(super) fn fill_places<S: FarTickets>(
    objects: &mut Objects<Option<i64>, S>,
    columns: &mut [IntColumn],
    numbers: &[Option<i64>],
)
    requires begun { All (λ c. is_full c ≡ false) columns.old }
    requires all_disjoint { AreVectors (number_lists S.content objects.old) columns.old }
    requires same_length { length numbers.now ≡ length columns.old }
    requires free { All (λ c. push_refusal objects.old c ≡ None) columns.old }
    requires shaped { All IsShaped columns.old }
    ensures pushed { (n : ℕ) → columns.new ≡ after_push_all n columns.old }
    ensures moved { objects.new ≡ objects_after_push_all objects.old columns.old numbers.now }
    ensures numbers { map (numbers_in S.content objects.new) columns.new
        ≡ all_numbers_with (number_lists S.content objects.old) columns.old numbers.now }
    ensures count { length objects.new.records ≡ length objects.old.records }
    ensures all_disjoint { AreVectors (number_lists S.content objects.new) columns.new }
    ensures keeps { ChangesNumbers S.content objects.old objects.new columns.old columns.new
        S.is_of }
{
    let Some((column, columns)) = columns.split_first_mut() else {
        return;
    };
    let Some((number, numbers)) = numbers.split_first() else {
        unreachable!()
    };
    let Ok(()) = column.push(objects, *number) else {
        unreachable!()
    };
    fill_places(objects, columns, numbers);
}
