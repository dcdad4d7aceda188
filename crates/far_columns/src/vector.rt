// Vectors over far objects, with one object for each row group.
ghost use Rattle.std.specs.Prelude.{◌≡◌, ℕ, ◌-◌, ◌*◌, ◌/◌, ◌%◌, ◌<◌, List, [], length, replicate, Option, false, IfOk, IfErr, IsSomeAnd, slice_get};
ghost use Rattle.far_scopes.specs.Movement.{list_of};
ghost use Rattle.far_columns.specs.Vector.{IsShaped, IsVector, object_at};
ghost use Rattle.far_columns.specs.Effects.{is_full};

mod pushing;
mod reading;
mod writing;

use far_codec::Elem;
use far_scopes::Objects;
use far_store::FarTickets;
use far_types::{Reciprocal, Refusal};
use std::alloc::Global;
use std::marker::Model;

// A place of a vector: its row group's object, and its index in that object's list.
#[derive(Clone, Copy, Debug)]
struct Position {
    place: usize,
    object: u32,
    index: usize,
}

/// A list of elements that is stored in objects, one object for each row group. Many vectors share the objects, which each
/// call takes as an argument.
///
/// Each object has as many elements as a row group has places. Unused places have the default value. The name of an object is
/// the vector's column and the row group.
#[derive(Drop)]
pub struct FarVector<T: Elem> {
    column: u32,
    size: usize,
    reciprocal: Reciprocal,
    objects: Vec<u32>,
    len: usize,
    default_value: T,
    // The list from which the next row group is made. All but its first element have the default value.
    next: Vec<T>,
}

impl<T: Elem> Model for FarVector<T> {
    ghost use Rattle.far_columns.specs.Vector.{Vector};

    ghost Value = { Vector T };

    ghost use Rattle.far_columns.specs.Vector.{IsLayout};

    ghost view = { λ a. record {
      column = a.column;
      size = a.size;
      objects = a.objects.items;
      len = a.len;
      default_value = a.default_value;
    } };

    ghost invariant = { λ a. IsLayout record {
      column = a.column;
      size = a.size;
      objects = a.objects.items;
      len = a.len;
      default_value = a.default_value;
    } a.next.items };
}

impl<T: Elem> FarVector<T> {
    /// Makes the empty vector of a column. A row group has `size` places; the unused ones have `default_value`.
    ///
    /// Allocates a list of `size` elements. Later calls allocate elements only in the objects. Refused only with `NoMemory` (1).
    pub fn new(
        alloc: Global,
        column: u32,
        size: u32,
        default_value: T,
    ) -> Result<FarVector<T>, Refusal>
        requires { 0 < size }
        ensures empty { IfOk result (λ v. v ≡ record {
          column = column;
          size = size;
          objects = [];
          len = 0;
          default_value = default_value;
        }) }
        ensures is { IfOk result (λ v. (lists : ℕ → Option (List T)) → IsVector lists v) }
        ensures memory { IfErr result (λ e. e ≡ Refusal.NoMemory) }
    {
        let size = size as usize;
        let reciprocal = Reciprocal::new(size);
        Ok(FarVector {
            column,
            size,
            reciprocal,
            objects: Vec::new(alloc),
            len: 0,
            default_value,
            next: default_values(alloc, size, default_value)?,
        })
    }

    /// Returns how many elements there are. Allocates nothing.
    pub fn len(&self) -> usize
        ensures len { result ≡ self.now.len }
        ensures shaped { IsShaped self.now }
    {
        self.len
    }

    /// Returns how many places a row group has. Allocates nothing.
    pub fn size(&self) -> usize
        ensures { result ≡ self.now.size }
    {
        self.size
    }

    /// Returns the number of a row group's object, or `None` exactly if there is no such row group. Allocates nothing.
    pub fn object(&self, group: u32) -> Option<u32>
        ensures { result ≡ slice_get self.now.objects group }
    {
        self.objects.get(group as usize).copied()
    }

    // Returns the row group of place `i`.
    #[inline(always)]
    fn group_of(&self, i: usize) -> usize
        ensures { result ≡ i / self.now.size }
    {
        self.reciprocal.quotient(i, self.size)
    }

    // Returns the position of a place in a row group that has been begun.
    #[inline(always)]
    fn position<S: FarTickets>(&self, objects: &Objects<T, S>, i: usize) -> Position
        requires is { IsVector (list_of T.meaning S.content objects.now) self.now }
        requires within { i < length self.now.objects * self.now.size }
        ensures place { result.place ≡ i }
        ensures object { result.object ≡ object_at self.now i }
        ensures index { result.index ≡ i % self.now.size }
        ensures below { result.index < self.now.size }
        ensures made { result.object < length objects.now.records }
        ensures list { IsSomeAnd (list_of T.meaning S.content objects.now result.object)
            (λ list. length list ≡ self.now.size) }
        ensures shaped { IsShaped self.now }
    {
        let group = self.reciprocal.quotient(i, self.size);
        self.position_in(objects, group, i)
    }

    // Returns the position of the next element. The last row group must have an unused place for it.
    #[inline(always)]
    fn next_position<S: FarTickets>(&self, objects: &Objects<T, S>) -> Position
        requires is { IsVector (list_of T.meaning S.content objects.now) self.now }
        requires begun { is_full self.now ≡ false }
        ensures place { result.place ≡ self.now.len }
        ensures object { result.object ≡ object_at self.now self.now.len }
        ensures index { result.index ≡ self.now.len % self.now.size }
        ensures within { self.now.len < length self.now.objects * self.now.size }
        ensures made { result.object < length objects.now.records }
        ensures list { IsSomeAnd (list_of T.meaning S.content objects.now result.object)
            (λ list. length list ≡ self.now.size) }
    {
        self.position_in(objects, self.objects.len() - 1, self.len)
    }

    // Returns the position of a place in a row group that has been begun. The caller passes the row group.
    #[inline(always)]
    fn position_in<S: FarTickets>(
        &self,
        objects: &Objects<T, S>,
        group: usize,
        i: usize,
    ) -> Position
        requires is { IsVector (list_of T.meaning S.content objects.now) self.now }
        requires within { i < length self.now.objects * self.now.size }
        requires group { group ≡ i / self.now.size }
        ensures place { result.place ≡ i }
        ensures object { result.object ≡ object_at self.now i }
        ensures index { result.index ≡ i % self.now.size }
        ensures below { result.index < self.now.size }
        ensures made { result.object < length objects.now.records }
        ensures list { IsSomeAnd (list_of T.meaning S.content objects.now result.object)
            (λ list. length list ≡ self.now.size) }
        ensures shaped { IsShaped self.now }
    {
        // For the proof: the contract of `number` shows that an object with a list is in use.
        let _ = objects.number();
        Position {
            place: i,
            object: self.objects[group],
            index: i - group * self.size,
        }
    }
}

// Returns a list of `count` default values.
fn default_values<T: Elem>(alloc: Global, count: usize, default_value: T) -> Result<Vec<T>, Refusal>
    ensures default_value { IfOk result (λ list. list.items ≡ replicate count default_value) }
    ensures memory { IfErr result (λ e. e ≡ Refusal.NoMemory) }
{
    let mut list = Vec::with_capacity(alloc, count)?;
    for _ in 0..count {
        list.push_reserved(default_value);
    }
    Ok(list)
}
