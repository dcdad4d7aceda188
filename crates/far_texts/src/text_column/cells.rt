// Borrowing the texts of a column, with the alive flags of their places.
ghost use Rattle.std.specs.Prelude.{◌≡◌, ◌∷◌, ◌≤◌, [], drop, length, IfOk, IfSome, IfNone, slice_range};
ghost use Rattle.std.specs.List.{zip};
ghost use Rattle.std.specs.Option.{option_copied};
ghost use Rattle.far_scopes.specs.Refusing.{refusal_in, first_absent};
ghost use Rattle.far_texts.specs.Texts.{lists_of, texts_in, IsTextColumn};
ghost use Rattle.far_texts.specs.Lending.{texts_refusal, AreLent};

use super::TextColumn;
use super::cursor::Cursor;
use far_codec::text_of;
use far_scopes::Objects;
use far_store::FarTickets;
use far_types::Refusal;
use std::marker::Model;

/// A borrowed text of a column, and the alive flag of its place.
#[derive(Clone, Copy)]
pub struct TextCell<'a> {
    /// The text, or `None` if it is missing.
    pub text: Option<&'a str>,
    /// Whether the place is alive.
    pub alive: bool,
}

/// An iterator over the texts of a part of a column, each with the alive flag of its place. Contracts see it as the list of the
/// remaining ones.
///
/// It borrows each text from its object. For a text it reads the head of one form, one bit of its mask and two ends. It looks
/// up an object once for each row group.
#[derive(Drop)]
pub struct TextCells<'a, S: FarTickets> {
    column: &'a TextColumn,
    objects: &'a Objects<u8, S>,
    flags: &'a [bool],
    cursor: Cursor<'a>,
}

impl<'a, S: FarTickets> Model for TextCells<'a, S> {
    ghost use Rattle.std.specs.Prelude.{ℕ, Bool, List, Option, drop, length};
    ghost use Rattle.std.specs.List.{zip};
    ghost use Rattle.far_texts.specs.Texts.{lists_of, texts_in};
    ghost use Rattle.far_texts.specs.Lending.{AreRead};

    ghost Value = { List (Option (List ℕ) × Bool) };

    ghost view = { λ t.
        zip (drop t.cursor.place (texts_in (lists_of S.content t.objects.now) t.column.now))
        t.flags.now };

    ghost invariant = { λ t.
        AreRead S.content t.objects.now t.column.now t.cursor.place (length t.flags.now)
        t.cursor.group t.cursor.index t.cursor.form.now };
}

impl<'a, S: FarTickets> TextCells<'a, S> {
    // Makes the iterator over the texts from a place on, one for each flag.
    fn new(
        column: &'a TextColumn,
        objects: &'a Objects<u8, S>,
        flags: &'a [bool],
        place: usize,
    ) -> TextCells<'a, S>
        requires { AreLent S.content objects.now column.now place (length flags.now) }
        ensures { result
            ≡ zip (drop place (texts_in (lists_of S.content objects.now) column.now)) flags.now }
    {
        let cursor = if flags.is_empty() {
            Cursor::none(place)
        } else {
            Cursor::new(column, objects, place)
        };
        TextCells {
            column,
            objects,
            flags,
            cursor,
        }
    }

    /// Returns the next text with its flag, or `None` at the end. Allocates nothing.
    ///
    /// `TextCells` does not implement `Iterator`: the prover cannot prove a method of that trait if it calls a function that
    /// requires objects that threads may share.
    pub fn next(&mut self) -> Option<TextCell<'a>>
        ensures first { IfSome result (λ cell.
            self.old ≡ (option_copied cell.text, cell.alive) ∷ self.new) }
        ensures none { IfNone result ((self.old ≡ []) × (self.new ≡ [])) }
    {
        let (alive, flags) = self.flags.split_first()?;
        let cursor = self.cursor.entered(self.column, self.objects);
        let text = text_of(cursor.form, cursor.index);
        self.flags = flags;
        self.cursor = Cursor {
            place: cursor.place + 1,
            index: cursor.index + 1,
            ..cursor
        };
        Some(TextCell {
            text,
            alive: *alive,
        })
    }
}

impl TextColumn {
    // Checks that the objects of the row groups `first` up to `end` are local; the refusal names the first that is away.
    fn all_here<S: FarTickets>(
        &self,
        objects: &Objects<u8, S>,
        first: usize,
        end: usize,
    ) -> Result<(), Refusal>
        requires is { IsTextColumn (lists_of S.content objects.now) self.now }
        requires ordered { first ≤ end }
        requires begun { end ≤ length self.now.objects }
        ensures { refusal_in result
            ≡ first_absent objects.now (slice_range self.now.objects first end) }
    {
        for group in first..end {
            let _form = self.form(objects, group)?;
        }
        Ok(())
    }

    /// Returns an iterator over the texts of the places `from` up to `to`, each borrowed, with the alive flag of its place. The
    /// caller passes the flags of all places. Allocates nothing.
    ///
    /// Refused with the first of these that applies:
    ///
    /// - `OutOfRange` (14): `from` is above `to`, or `to` is past the end.
    /// - `Absent` (16): the object of a row group with some of these places is away. The refusal names the first such object.
    pub fn texts<'a, S: FarTickets>(
        &'a self,
        objects: &'a Objects<u8, S>,
        alive: &'a [bool],
        from: usize,
        to: usize,
    ) -> Result<TextCells<'a, S>, Refusal>
        requires is { IsTextColumn (lists_of S.content objects.now) self.now }
        requires same_length { length alive.now ≡ self.now.len }
        ensures lent { IfOk result (λ lent. lent
            ≡ zip (slice_range (texts_in (lists_of S.content objects.now) self.now) from to)
            (slice_range alive.now from to)) }
        ensures refused { refusal_in result ≡ texts_refusal objects.now self.now from to }
    {
        if to > self.len || from > to {
            return Err(Refusal::OutOfRange);
        }
        if from < to {
            self.all_here(objects, from / self.size, (to - 1) / self.size + 1)?;
        }
        Ok(TextCells::new(self, objects, &alive[from..to], from))
    }
}
