// Borrows ranges of columns, with the alive flags of their places.
ghost use Rattle.std.specs.Prelude.{◌≡◌, ◌∷◌, ◌<◌, length, slice_get, map, option_map, slice_range, Some, All, IfOk};
ghost use Rattle.std.specs.List.{flat_map, zip};
ghost use Rattle.far_types.specs.FirstOf.{first_of};
ghost use Rattle.far_scopes.specs.Refusing.{refusal_in};
ghost use Rattle.far_columns.specs.Pieces.{pieces_of, overlapped_groups};
ghost use Rattle.far_columns.specs.Numbers.{with_flags};
ghost use Rattle.far_types.specs.Lent.{int_cell, text_cell};
ghost use Rattle.far_rows.specs.Rows.{all_cells};
ghost use Rattle.far_rows.specs.Refusing.{no_range, away_at, ints_refusal, texts_refusal};
ghost use Rattle.far_rows.specs.Lending.{lent_ints, lent_texts, numbers_of, texts_of};

use super::Rows;
use crate::column_index::ColumnIndex;
use far_columns::{Lents, lend_numbers};
use far_store::FarTickets;
use far_texts::TextCells;
use far_types::Refusal;

impl<S: FarTickets> Rows<S> {
    /// Borrows the numbers of the places from `from` up to before `to`, with their alive flags. The result has a piece for each
    /// row group that overlaps this range. Allocates nothing.
    ///
    /// Refused with the first of these that applies:
    ///
    /// - `NoColumn` (4): there is no such column.
    /// - `WrongKind` (5): it is a text column.
    /// - `OutOfRange` (14): `from` is above `to`, or `to` is above the number of places.
    /// - `Absent` (16): the object of a row group that overlaps the range is away. The refusal names the first such object.
    pub fn ints(&self, column: usize, from: usize, to: usize) -> Result<Lents<'_, S>, Refusal>
        ensures lent { IfOk result
            (λ lents. lents ≡ lent_ints S.content self.now column from to) }
        ensures cells { IfOk result
            (λ lents. option_map (λ cells. slice_range cells from to)
            (slice_get (all_cells S.content self.now) column)
            ≡ Some (map int_cell (flat_map (λ lent. lent.0) lents))) }
        ensures alive { IfOk result
            (λ lents. flat_map (λ lent. lent.1) lents ≡ slice_range self.now.alive from to) }
        ensures same_length { IfOk result
            (λ lents. All (λ lent. length lent.1 ≡ length lent.0) lents) }
        ensures refused { refusal_in result ≡ ints_refusal self.now column from to }
    {
        let Some(column_index) = self.column_indexes.get(column) else {
            return Err(Refusal::NoColumn);
        };
        let ColumnIndex::Number(number) = *column_index else {
            return Err(Refusal::WrongKind);
        };
        self.ints_at(number, from, to)
    }

    // Borrows a range of a number column.
    fn ints_at(&self, number: usize, from: usize, to: usize) -> Result<Lents<'_, S>, Refusal>
        requires { number < length self.now.numbers }
        ensures lent { IfOk result
            (λ lents. lents
            ≡ with_flags (pieces_of (numbers_of S.content self.now (ColumnIndex.Number number))
            self.now.size from to) (slice_range self.now.alive from to)) }
        ensures joined { IfOk result
            (λ lents. flat_map (λ lent. lent.0) lents
            ≡ slice_range (numbers_of S.content self.now (ColumnIndex.Number number)) from to) }
        ensures alive { IfOk result
            (λ lents. flat_map (λ lent. lent.1) lents ≡ slice_range self.now.alive from to) }
        ensures same_length { IfOk result
            (λ lents. All (λ lent. length lent.1 ≡ length lent.0) lents) }
        ensures refused { refusal_in result
            ≡ first_of (no_range self.now from to
            ∷ map (λ g. away_at self.now g (ColumnIndex.Number number))
            (overlapped_groups self.now.size from to)) }
    {
        let column = &self.numbers[number];
        // For the proof: shows how many numbers there are.
        let _len = column.len();
        lend_numbers(column, &self.number_objects, &self.alive, from, to)
    }

    /// Returns an iterator that borrows the texts of the places from `from` up to before `to`, each with its alive flag.
    /// Allocates nothing.
    ///
    /// Refused with the first of these that applies:
    ///
    /// - `NoColumn` (4): there is no such column.
    /// - `WrongKind` (5): it is a number column.
    /// - `OutOfRange` (14): `from` is above `to`, or `to` is above the number of places.
    /// - `Absent` (16): the object of a row group that overlaps the range is away. The refusal names the first such object.
    pub fn texts(&self, column: usize, from: usize, to: usize) -> Result<TextCells<'_, S>, Refusal>
        ensures lent { IfOk result
            (λ lent. lent ≡ lent_texts S.content self.now column from to) }
        ensures cells { IfOk result
            (λ lent. option_map (λ cells. slice_range cells from to)
            (slice_get (all_cells S.content self.now) column)
            ≡ Some (map (λ t. text_cell t.0) lent)) }
        ensures alive { IfOk result
            (λ lent. map (λ t. t.1) lent ≡ slice_range self.now.alive from to) }
        ensures refused { refusal_in result ≡ texts_refusal self.now column from to }
    {
        let Some(column_index) = self.column_indexes.get(column) else {
            return Err(Refusal::NoColumn);
        };
        let ColumnIndex::Text(text) = *column_index else {
            return Err(Refusal::WrongKind);
        };
        self.texts_at(text, from, to)
    }

    // Borrows a range of a text column.
    fn texts_at(&self, text: usize, from: usize, to: usize) -> Result<TextCells<'_, S>, Refusal>
        requires { text < length self.now.texts }
        ensures lent { IfOk result
            (λ lent. lent
            ≡ zip (slice_range (texts_of S.content self.now (ColumnIndex.Text text)) from to)
            (slice_range self.now.alive from to)) }
        ensures texts { IfOk result
            (λ lent. map (λ t. t.0) lent
            ≡ slice_range (texts_of S.content self.now (ColumnIndex.Text text)) from to) }
        ensures alive { IfOk result
            (λ lent. map (λ t. t.1) lent ≡ slice_range self.now.alive from to) }
        ensures refused { refusal_in result
            ≡ first_of (no_range self.now from to
            ∷ map (λ g. away_at self.now g (ColumnIndex.Text text))
            (overlapped_groups self.now.size from to)) }
    {
        let column = &self.texts[text];
        // For the proof: shows that the row group of each place has been begun.
        let _len = column.len();
        column.texts(&self.text_objects, self.alive.all(), from, to)
    }
}
