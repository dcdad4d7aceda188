// A column of texts in objects, one for each row group.
ghost use Rattle.std.specs.Prelude.{◌≡◌, ◌<◌, ◌≤◌, ◌^◌, ◌/◌, ◌%◌, ℕ, [], length, IfOk, IsOk, slice_get, slice_index};
ghost use Rattle.far_texts.specs.Texts.{Lists, HasGroups, IsTextColumn};

mod cells;
mod cursor;
mod lengths;
mod pushing;
mod reading;
mod setting;
mod together;

pub use cells::{TextCell, TextCells};
use far_types::{Reciprocal, Refusal};
use std::alloc::Global;
use std::marker::Model;
pub use together::{fill_texts, may_push_texts, push_texts};

/// A column of texts that may be missing. The texts of a row group are encoded as one far form, which is the list of one
/// object of the `Objects<u8, S>` that each call takes.
///
/// Contracts see the column as the record of its fields, and its texts in the lists of its objects.
#[derive(Drop)]
pub struct TextColumn {
    // The column's number, which names its objects.
    column: u32,
    // How many places a row group has.
    size: usize,
    // Speeds up divisions by `size`.
    reciprocal: Reciprocal,
    // How many bytes the form of a row group may have at most.
    limit: usize,
    // The object of each row group.
    objects: Vec<u32>,
    // How many texts there are.
    len: usize,
}

impl Model for TextColumn {
    ghost use Rattle.far_texts.specs.Texts.{Texts, HasGroups};

    ghost Value = { Texts };

    ghost view = { λ c. record {
      column = c.column;
      size = c.size;
      limit = c.limit;
      objects = c.objects.items;
      len = c.len;
    } };

    ghost invariant = { λ c. HasGroups record {
      column = c.column;
      size = c.size;
      limit = c.limit;
      objects = c.objects.items;
      len = c.len;
    } };
}

impl TextColumn {
    /// Makes a column without texts. `column` is its number, `size` how many places a row group has (1 to 65,536). `limit` is
    /// how many bytes the far form of a row group may have: at most 16,777,216, the size of a segment of local memory.
    ///
    /// Returns a `Result` as `IntColumn::new` does. Allocates nothing, so it is never refused.
    pub fn new(alloc: Global, column: u32, size: u32, limit: usize) -> Result<TextColumn, Refusal>
        requires some { 0 < size }
        requires small { size ≤ 2 ^ 16 }
        requires short { limit ≤ 2 ^ 24 }
        ensures empty { IfOk result (λ c. c
            ≡ record { column = column; size = size; limit = limit; objects = []; len = 0 }) }
        ensures is { IfOk result (λ c. (lists : Lists) → IsTextColumn lists c) }
        ensures ok { IsOk result }
    {
        let size = size as usize;
        let reciprocal = Reciprocal::new(size);
        Ok(TextColumn {
            column,
            size,
            reciprocal,
            limit,
            objects: Vec::new(alloc),
            len: 0,
        })
    }

    /// Returns how many texts there are. Allocates nothing.
    pub fn len(&self) -> usize
        ensures len { result ≡ self.now.len }
        ensures groups { HasGroups self.now }
    {
        self.len
    }

    /// Returns the number of a row group's object, or `None` exactly if no place of the row group is used. Allocates nothing.
    pub fn object(&self, group: u32) -> Option<u32>
        ensures { result ≡ slice_get self.now.objects group }
    {
        self.objects.get(group as usize).copied()
    }

    // Returns the row group of a place.
    #[inline(always)]
    fn group_of(&self, place: usize) -> usize
        ensures { result ≡ place / self.now.size }
    {
        self.reciprocal.quotient(place, self.size)
    }

    // Returns the index of a place in its row group.
    #[inline(always)]
    fn index_in(&self, group: usize, place: usize) -> usize
        requires { group ≡ place / self.now.size }
        ensures { result ≡ place % self.now.size }
    {
        place - group * self.size
    }
}
