// Callers that know about the objects of rows only what one call on the rows says.
ghost use Rattle.std.specs.Prelude.{◌≡◌, ◌*◌, ◌<◌, IfOk, IsOk, Some, length, option_map};
ghost use Rattle.far_scopes.specs.Memory.{list_in};

use crate::rows::fixture::LIMITS;
use far_codec::kind_of;
use far_rows::{Object, Rows};
use far_store::FarTickets;
use far_types::{Kind, Refusal};

// Returns the kind of the column that owns an object. `kind` is the kind of the object.
fn owner<S: FarTickets>(rows: &Rows<S>, kind: Kind, o: u32) -> Option<Kind>
    requires number { kind ≡ Kind.Int → o < length rows.now.number_objects.records }
    requires text { kind ≡ Kind.Text → o < length rows.now.text_objects.records }
    ensures { result ≡ Some kind }
{
    // For the proof: shows which column owns each object.
    let _len = rows.len();
    let name = match kind {
        Kind::Int => rows.number_objects().name(o),
        Kind::Text => rows.text_objects().name(o),
    };
    rows.kind(name.column as usize)
}

// Returns the object of a column's row group. The row group must have been begun, so there is one.
fn object_begun<S: FarTickets>(rows: &Rows<S>, column: usize, group: u32) -> Result<Object, Refusal>
    requires column { column < length rows.now.column_indexes }
    requires used { group * rows.now.size < length rows.now.alive }
    ensures { IsOk result }
{
    // For the proof: shows that each column has an object for each row group that was begun.
    let _len = rows.len();
    rows.object(column, group)
}

// Returns how many numbers an object has. Refused with `Absent` if it is away. The count fits into 32 bits.
fn number_len<S: FarTickets>(rows: &Rows<S>, o: u32) -> Result<u32, Refusal>
    requires { o < length rows.now.number_objects.records }
    ensures { IfOk result (λ len. option_map length (list_in rows.now.number_objects.memory o) ≡ Some len) }
{
    let list = rows.number_objects().lend(o)?;
    Ok(list.len() as u32)
}

// Returns the kind of the values in the far form of an object of texts. Refused with `Absent` if it is away.
fn text_kind<S: FarTickets>(rows: &Rows<S>, o: u32) -> Result<Option<Kind>, Refusal>
    requires { o < length rows.now.text_objects.records }
    ensures { IfOk result (λ kind. kind ≡ Some Kind.Text) }
{
    let form = rows.text_objects().lend(o)?;
    Ok(kind_of(form))
}

/// Returns whether the first two columns of a table, one of texts and one of numbers, have their first objects, and both
/// are local.
pub fn have_their_objects<S: FarTickets>(rows: &Rows<S>) -> bool {
    rows.len() > 0
        && rows.column_indexes().len() >= 2
        && rows.number_objects().count() > 0
        && rows.text_objects().count() > 0
        && object_begun(rows, 1, 0).is_ok()
        && owner(rows, Kind::Int, 0) == Some(Kind::Int)
        && number_len(rows, 0) == Ok(LIMITS.group)
        && owner(rows, Kind::Text, 0) == Some(Kind::Text)
        && text_kind(rows, 0) == Ok(Some(Kind::Text))
}
