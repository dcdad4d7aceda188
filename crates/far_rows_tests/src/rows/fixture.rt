// A table of two columns of texts and two of numbers, alternating, with its store, and calls on it.
ghost use Rattle.std.specs.Prelude.{◌≡◌, [], ◌∷◌, ℕ, List, length, IfOk};
ghost use Rattle.far_types.specs.declared.cell.Kind.TheVariants.{Int, Text};
ghost use Rattle.far_scopes.specs.Movement.{AreHere};

mod moving;
mod writing;

use crate::cell::Cell;
use crate::rows::script::Call;
use far_rows::Rows;
use far_store::{FarStore, Meter};
use far_types::{Kind, Limits, Refusal, Schema};
use std::alloc::Global;
use std::marker::Model;

/// The values of a row, in the order of the columns.
pub type Values = (Cell, Cell, Cell, Cell);

/// Row groups of two places, and space for the objects of two row groups and one more object of numbers.
pub const LIMITS: Limits = Limits {
    group: 2,
    places: 100,
    edits: 9,
    int_segments: 5,
    int_size: 2,
    text_segments: 8,
    text_size: 64,
};

/// A table with its store, and another store to which it may move.
#[derive(Drop)]
pub struct Fixture<'a, S: FarStore> {
    store: &'a S,
    other: &'a S,
    rows: Rows<S>,
}

impl<'a, S: FarStore> Model for Fixture<'a, S> {
    ghost use Rattle.std.specs.Prelude.{◌≡◌, length};
    ghost use Rattle.far_scopes.specs.Movement.{AreHere};
    ghost use Rattle.far_rows.specs.Rows.{Rows};

    ghost Value = { Rows S.Ticket };

    ghost view = { λ fixture. fixture.rows };

    ghost invariant = { λ fixture. (length fixture.rows.numbers ≡ 2) × (length fixture.rows.texts ≡ 2) × AreHere S.is_of (S.store_id fixture.store.now) fixture.rows.number_objects × AreHere S.is_of (S.store_id fixture.store.now) fixture.rows.text_objects };
}

impl<'a, S: FarStore> Fixture<'a, S> {
    /// Returns a fixture with a table without rows. Refused as `Rows::new` is.
    pub fn new(
        alloc: Global,
        store: &'a S,
        other: &'a S,
        limits: &Limits,
    ) -> Result<Fixture<'a, S>, Refusal> {
        match no_rows(alloc, limits) {
            Ok(rows) => Ok(Fixture { store, other, rows }),
            Err(refusal) => Err(refusal),
        }
    }

    /// Returns the rows.
    pub fn rows(&self) -> &Rows<S> {
        &self.rows
    }

    /// Moves the table's far copies to the other store. Refused as `Rows::renewal` is. The call is not repeated if memory
    /// runs out.
    pub fn moved(self, alloc: Global) -> Result<Fixture<'a, S>, Refusal> {
        let rows = self.rows;
        match rows.renewal(alloc, self.store, self.other, &mut Meter::new()) {
            Ok(renewal) => Ok(Fixture {
                store: self.other,
                other: self.store,
                rows: rows.renew(renewal),
            }),
            Err(refusal) => {
                drop(rows);
                Err(refusal)
            }
        }
    }

    /// Makes a call, again if it runs out of memory, and returns its reply.
    pub fn answer(&mut self, alloc: Global, call: &Call) -> Result<(), Refusal> {
        match self.reply(alloc, call) {
            Err(Refusal::NoMemory) => self.reply(alloc, call),
            reply => reply,
        }
    }

    fn reply(&mut self, alloc: Global, call: &Call) -> Result<(), Refusal> {
        match call {
            Call::Push(values) => self.push(alloc, values),
            Call::Set(column, place, value) => self.set(alloc, *column, *place, *value),
            Call::Evacuate(column, group) => self.evacuate(alloc, *column, *group),
            Call::FetchBack(column, group) => self.fetch_back(alloc, *column, *group),
            Call::CompactNumbers(segment) => self.rows.compact_numbers(alloc, *segment),
            Call::CompactTexts(segment) => self.rows.compact_texts(alloc, *segment),
        }
    }
}

fn four_columns(alloc: Global) -> Result<Schema, Refusal>
    ensures { IfOk result (λ kinds. kinds ≡ Text ∷ Int ∷ Text ∷ Int ∷ []) }
{
    let kinds = [Kind::Text, Kind::Int, Kind::Text, Kind::Int];
    Schema::new(Vec::from_array(alloc, kinds)?)
}

// Returns a table without rows.
fn no_rows<S: FarStore>(alloc: Global, limits: &Limits) -> Result<Rows<S>, Refusal>
    ensures numbers { IfOk result (λ rows. length rows.numbers ≡ 2) }
    ensures texts { IfOk result (λ rows. length rows.texts ≡ 2) }
    ensures number_store { IfOk result (λ rows. (id : List ℕ) → AreHere S.is_of id rows.number_objects) }
    ensures text_store { IfOk result (λ rows. (id : List ℕ) → AreHere S.is_of id rows.text_objects) }
{
    limits.check()?;
    match four_columns(alloc) {
        Ok(schema) => Rows::new(alloc, &schema, limits, 7),
        Err(refusal) => Err(refusal),
    }
}
