// Columns of numbers.
ghost use Rattle.std.specs.Prelude.{◌≡◌, length, map, All, IfOk, slice_range};
ghost use Rattle.std.specs.List.{flat_map};
ghost use Rattle.far_scopes.specs.Refusing.{refusal_in};
ghost use Rattle.far_columns.specs.Vector.{IsVector};
ghost use Rattle.far_columns.specs.Pieces.{pieces_of};
ghost use Rattle.far_columns.specs.Refusing.{pieces_refusal};
ghost use Rattle.far_columns.specs.Numbers.{number_lists, numbers_in, with_flags};

mod together;

use crate::FarVector;
use crate::alive::Alive;
use crate::lent::Lents;
use far_scopes::Objects;
use far_store::FarTickets;
use far_types::Refusal;
pub use together::{fill_numbers, may_push_numbers, push_numbers, unpush_numbers};

/// A column of numbers that may be missing. The numbers of a row group are the list of one object of the `Objects<Option<i64>,
/// S>` that each call takes.
pub type IntColumn = FarVector<Option<i64>>;

/// Borrows the numbers of the places `from` up to `to` of a column, with their alive flags. Returns one piece for each row
/// group that has some of these places. Allocates nothing.
///
/// Refused with the first of these that applies:
///
/// - `OutOfRange` (14): `from` is above `to`, or `to` is past the end.
/// - `Absent` (16): the object of a row group with some of these places is away. The refusal names the first such object.
pub fn lend_numbers<'a, S: FarTickets>(
    column: &'a IntColumn,
    objects: &'a Objects<Option<i64>, S>,
    alive: &'a Alive,
    from: usize,
    to: usize,
) -> Result<Lents<'a, S>, Refusal>
    requires is { IsVector (number_lists S.content objects.now) column.now }
    requires flags { length alive.now ≡ column.now.len }
    ensures lent { IfOk result (λ lents. lents
        ≡ with_flags
        (pieces_of (numbers_in S.content objects.now column.now) column.now.size from to)
        (slice_range alive.now from to)) }
    ensures values { IfOk result (λ lents. map (λ lent. lent.0) lents
        ≡ pieces_of (numbers_in S.content objects.now column.now) column.now.size from to) }
    ensures joined { IfOk result (λ lents. flat_map (λ lent. lent.0) lents
        ≡ slice_range (numbers_in S.content objects.now column.now) from to) }
    ensures alive { IfOk result
        (λ lents. flat_map (λ lent. lent.1) lents ≡ slice_range alive.now from to) }
    ensures same_length { IfOk result
        (λ lents. All (λ lent. length lent.1 ≡ length lent.0) lents) }
    ensures refused { refusal_in result ≡ pieces_refusal objects.now column.now from to }
{
    // For the proof: shows how many numbers there are.
    let _len = column.len();
    let pieces = column.pieces(objects, from, to)?;
    Ok(Lents::new(pieces, alive.flags(from, to)))
}
