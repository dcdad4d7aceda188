// Calls on a vector.
ghost use Rattle.std.specs.Prelude.{◌≡◌, ◌<◌, None};
ghost use Rattle.far_codec.specs.PlainNumbers.{plain_meaning};
ghost use Rattle.far_scopes.specs.Movement.{list_of};
ghost use Rattle.far_columns.specs.Vector.{IsVector};
ghost use Rattle.far_columns.specs.Refusing.{write_part_refusal};

use crate::vector::script::{Call, WRONG, finds, found};
use far_codec::Elem;
use far_columns::FarVector;
use far_scopes::Objects;
use far_store::{FarStore, FarTickets};
use far_types::Refusal;

/// Makes a call and returns its reply.
pub fn reply<S: FarStore>(
    vector: &mut FarVector<i64>,
    objects: &mut Objects<i64, S>,
    call: &Call,
) -> Result<(), Refusal>
    requires { IsVector (list_of plain_meaning S.content objects.old) vector.old }
    ensures { IsVector (list_of plain_meaning S.content objects.new) vector.new }
{
    match call {
        Call::Push(x) => push(vector, objects, *x),
        Call::Set(i, x) => vector.set(objects, *i, *x),
        Call::Overwrite(from, to, x) => overwrite(vector, objects, *from, *to, *x),
        call => find(vector, objects, call),
    }
}

/// Pushes an element, again if memory runs out. Returns `WRONG` if there are 8 objects.
fn push<S: FarTickets>(
    vector: &mut FarVector<i64>,
    objects: &mut Objects<i64, S>,
    x: i64,
) -> Result<(), Refusal>
    requires { IsVector (list_of plain_meaning S.content objects.old) vector.old }
    ensures { IsVector (list_of plain_meaning S.content objects.new) vector.new }
{
    if objects.count() >= 8 {
        return Err(WRONG);
    }
    match vector.push(objects, x) {
        Err(Refusal::NoMemory) => vector.push(objects, x),
        reply => reply,
    }
}

/// Overwrites the first element of a part in place. Returns `WRONG` if the part is empty. Otherwise refused as
/// `may_write_part` is.
fn overwrite<S: FarTickets>(
    vector: &FarVector<i64>,
    objects: &mut Objects<i64, S>,
    from: usize,
    to: usize,
    x: i64,
) -> Result<(), Refusal>
    requires { IsVector (list_of plain_meaning S.content objects.old) vector.now }
    ensures { IsVector (list_of plain_meaning S.content objects.new) vector.now }
{
    if from >= to {
        return Err(WRONG);
    }
    vector.may_write_part(objects, from, to)?;
    write_first(vector, objects, from, to, x);
    Ok(())
}

/// Overwrites the first element of a part that may be written.
fn write_first<T: Elem, S: FarTickets>(
    vector: &FarVector<T>,
    objects: &mut Objects<T, S>,
    from: usize,
    to: usize,
    x: T,
)
    requires is { IsVector (list_of T.meaning S.content objects.old) vector.now }
    requires some { from < to }
    requires free { write_part_refusal objects.old vector.now from to ≡ None }
    ensures { IsVector (list_of T.meaning S.content objects.new) vector.now }
{
    // For the proof: shows `IsShaped` of the vector.
    let _ = vector.len();
    let part = FarVector::part_mut(objects, vector, from, to);
    part[0] = x;
}

/// Returns `Ok` if a vector has what a check expects, and `WRONG` otherwise.
fn find<S: FarTickets>(
    vector: &FarVector<i64>,
    objects: &Objects<i64, S>,
    call: &Call,
) -> Result<(), Refusal>
    requires { IsVector (list_of plain_meaning S.content objects.now) vector.now }
{
    match call {
        Call::Get(i, x) => finds(vector.get(objects, *i), *x),
        Call::Part(from, to, part) => finds(vector.part(objects, *from, *to), part),
        Call::Pieces(from, to, lens) => find_pieces(vector, objects, *from, *to, lens),
        _ => Err(WRONG),
    }
}

/// Returns `Ok` if the pieces of a part have these lengths, and `WRONG` otherwise.
fn find_pieces<S: FarTickets>(
    vector: &FarVector<i64>,
    objects: &Objects<i64, S>,
    from: usize,
    to: usize,
    lens: &[usize],
) -> Result<(), Refusal>
    requires { IsVector (list_of plain_meaning S.content objects.now) vector.now }
{
    let mut pieces = vector.pieces(objects, from, to)?;
    let mut right = pieces.len() == lens.len();
    for len in lens {
        right &= match pieces.next() {
            Some(piece) => piece.len() == *len,
            None => false,
        };
    }
    found(right)
}
