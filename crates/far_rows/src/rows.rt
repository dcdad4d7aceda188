// The rows of a table, in columns whose objects may be away.
ghost use Rattle.std.specs.Prelude.{◌≡◌, ℕ, ◌<◌, ◌≤◌, [], List, length, map, option_map, slice_get, slice_set, false, true, IfOk, IfErr};
ghost use Rattle.far_types.specs.Bounds.{AreLimits};
ghost use Rattle.far_scopes.specs.Movement.{AreHere};
ghost use Rattle.far_rows.specs.ColumnIndexes.{column_indexes_from, kind_of};
ghost use Rattle.far_rows.specs.Rows.{AreRows};
ghost use Rattle.far_types.specs.Edits.{change_at, after_remove};
ghost use Rattle.far_rows.specs.Places.{places_in};
ghost use Rattle.far_rows.specs.Opening.{empty_rows};

mod asking;
mod beginning;
mod coldest;
mod compacting;
mod copying;
mod grouping;
mod jobs;
mod lending;
mod moving;
mod opening;
mod pushing;
mod reading;
mod renewing;
mod setting;

use super::column_index::ColumnIndex;
use far_columns::{Alive, IntColumn};
use far_scopes::Objects;
use far_store::FarTickets;
use far_texts::TextColumn;
use far_types::{Kind, Limits, Reciprocal, Refusal, Schema};
use opening::{columns_of, number_limits, text_limits};
use std::alloc::Global;
use std::marker::Model;

/// The cells of a table by column, in objects that are local or away, and the alive flag of each place.
///
/// Contracts see the columns and their indexes, the objects and the flags. `specs/Rows.antt` defines their cells (`all_cells`).
#[derive(Drop)]
pub struct Rows<S: FarTickets> {
    column_indexes: Vec<ColumnIndex>,
    // How many places a row group has.
    size: u32,
    // A hint for divisions by `size`.
    reciprocal: Reciprocal,
    numbers: Vec<IntColumn>,
    texts: Vec<TextColumn>,
    number_objects: Objects<Option<i64>, S>,
    text_objects: Objects<u8, S>,
    alive: Alive,
    // A form of texts that is no longer needed. The next form is made in its memory.
    spare: Vec<u8>,
}

impl<S: FarTickets> Model for Rows<S> {
    ghost use Rattle.far_rows.specs.Rows.{Rows, AreRows};

    ghost Value = { Rows S.Ticket };

    ghost view = { λ r.
        record {
          column_indexes = r.column_indexes.items;
          size = r.size;
          numbers = r.numbers.items;
          texts = r.texts.items;
          number_objects = r.number_objects;
          text_objects = r.text_objects;
          alive = r.alive;
        } };

    ghost invariant = { λ r. AreRows S.content
        record {
          column_indexes = r.column_indexes.items;
          size = r.size;
          numbers = r.numbers.items;
          texts = r.texts.items;
          number_objects = r.number_objects;
          text_objects = r.text_objects;
          alive = r.alive;
        } };
}

impl<S: FarTickets> Rows<S> {
    /// Makes an empty table with this schema. `number` distinguishes its jobs from the jobs of other tables. Allocates
    /// all memory for elements.
    ///
    /// Refused only with `NoMemory` (1).
    pub fn new(
        alloc: Global,
        schema: &Schema,
        limits: &Limits,
        number: u32,
    ) -> Result<Rows<S>, Refusal>
        requires { AreLimits limits.now }
        ensures empty { IfOk result (λ rows. rows ≡ empty_rows schema.now limits.now number) }
        ensures memory { IfErr result (λ e. e ≡ Refusal.NoMemory) }
    {
        let reciprocal = Reciprocal::new(limits.group as usize);
        let columns = columns_of(alloc, schema, limits)?;
        let number_objects = Objects::new(alloc, number, number_limits(limits))?;
        let text_objects = Objects::new(alloc, number, text_limits(limits))?;
        Ok(Rows {
            column_indexes: columns.column_indexes,
            size: limits.group,
            reciprocal,
            numbers: columns.numbers,
            texts: columns.texts,
            number_objects,
            text_objects,
            alive: Alive::new(alloc),
            spare: Vec::new(alloc),
        })
    }

    /// Returns how many places there are, including dead ones. Allocates nothing.
    pub fn len(&self) -> usize
        ensures len { result ≡ length self.now.alive }
        ensures rows { AreRows S.content self.now }
    {
        self.alive.len()
    }

    /// For the proof: shows that each object has a word and a record. It does nothing.
    #[inline(always)]
    pub fn each_object_has_a_word(&self)
        ensures numbers { length self.now.number_objects.records
            ≡ length self.now.number_objects.memory.words }
        ensures texts { length self.now.text_objects.records
            ≡ length self.now.text_objects.memory.words }
    {
        let _numbers = self.number_objects.number();
        let _texts = self.text_objects.number();
    }

    /// Returns whether a place is alive, or `None` if there is no such place. Allocates nothing.
    pub fn is_alive(&self, place: usize) -> Option<bool>
        ensures { result ≡ slice_get self.now.alive place }
    {
        self.alive.get(place)
    }

    /// Clears the alive flag of a place; its cells stay. Allocates nothing.
    pub fn clear(&mut self, place: usize)
        requires { place < length self.old.alive }
        ensures cleared { self.new
            ≡ record self.old { alive = slice_set self.old.alive place false } }
        ensures places { places_in S.content self.new
            ≡ change_at after_remove place (places_in S.content self.old) }
    {
        self.alive.clear(place);
    }

    /// Returns the kind of a column, or `None` if there is no such column. Allocates nothing.
    pub fn kind(&self, column: usize) -> Option<Kind>
        ensures { result ≡ option_map kind_of (slice_get self.now.column_indexes column) }
    {
        match self.column_indexes.get(column)? {
            ColumnIndex::Number(_) => Some(Kind::Int),
            ColumnIndex::Text(_) => Some(Kind::Text),
        }
    }

    /// Returns the index of each column, by column number. Allocates nothing.
    pub fn column_indexes(&self) -> &[ColumnIndex]
        ensures { result.now ≡ self.now.column_indexes }
    {
        self.column_indexes.as_slice()
    }
}
