// The columns of a row group that an aggregate needs.
ghost use Rattle.std.specs.Prelude.{◌≡◌, [], true, IfSome, IsTrue, option_map, slice_get};
ghost use Rattle.far_offload.specs.AtHand.{AreAtHand};
ghost use Rattle.far_types.specs.Bounds.{column_of};
ghost use Rattle.far_aggregates.specs.Lending.{IsLent, IsServed};

use super::lend_group::LendGroup;
use far_offload::Column;
use far_types::Spec;

/// Returns the column of the `test`-th test of an aggregate, if it has that many tests.
fn test_column(spec: &Spec, test: usize) -> Option<u32>
    ensures { result ≡ option_map column_of (slice_get spec.now.filter test) }
{
    match spec.filter.as_slice().get(test) {
        Some(test) => Some(test.column()),
        None => None,
    }
}

/// Returns the column with this number, which the row group has. Without a number, returns an empty column with the number
/// `other`.
fn lent<'a, G: LendGroup>(group: &'a G, number: Option<u32>, other: u32) -> Column<'a>
    requires { IfSome number (λ n. G.has group.now n ≡ true) }
    ensures { IsLent (G.places group.now) other number result }
{
    match number {
        Some(number) => match group.column(number) {
            Some(column) => column,
            None => unreachable!(),
        },
        None => Column::of_numbers(other, &[]),
    }
}

/// Returns the columns that an aggregate needs: of its value, of its key and of its tests, of which there are at most 4. The
/// columns are in an array, so that extrema shrink without an allocation. Each unused entry is an empty column with the number
/// of the value column. The value column is first, so no look-up finds an unused entry. Allocates nothing.
pub fn needed_columns<'a, G: LendGroup>(spec: &Spec, group: &'a G) -> [Column<'a>; 6]
    requires { IsServed (G.has group.now) spec.now }
    ensures { AreAtHand spec.now result (G.places group.now) }
{
    let value = spec.value;
    [
        lent(group, Some(value), value),
        lent(group, spec.key, value),
        lent(group, test_column(spec, 0), value),
        lent(group, test_column(spec, 1), value),
        lent(group, test_column(spec, 2), value),
        lent(group, test_column(spec, 3), value),
    ]
}

/// Returns whether an aggregate has no test.
#[inline(always)]
pub fn has_no_test(spec: &Spec) -> bool
    ensures { IsTrue result → spec.now.filter ≡ [] }
{
    spec.filter.as_slice().is_empty()
}

/// Returns the columns that an aggregate without tests needs: of its value and of its key. Without a key, the second entry is
/// unused, as in `needed_columns`. Allocates nothing.
#[inline(always)]
pub fn untested_columns<'a, G: LendGroup>(spec: &Spec, group: &'a G) -> [Column<'a>; 2]
    requires served { IsServed (G.has group.now) spec.now }
    requires untested { spec.now.filter ≡ [] }
    ensures { AreAtHand spec.now result (G.places group.now) }
{
    let value = lent(group, Some(spec.value), spec.value);
    let key = lent(group, spec.key, spec.value);
    [value, key]
}
