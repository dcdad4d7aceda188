// Borrowed parts of a column of numbers, with their alive flags.
ghost use Rattle.std.specs.Prelude.{◌≡◌, [], ◌∷◌, length, IfSome, IfNone};
ghost use Rattle.std.specs.List.{flat_map};
ghost use Rattle.far_columns.specs.Numbers.{with_flags};

use crate::Pieces;
use far_store::FarTickets;
use std::marker::Model;

/// The borrowed numbers of adjacent places of one row group, and the alive flag of each place. A number may be missing.
#[derive(Drop)]
pub struct Lent<'a> {
    pub values: &'a [Option<i64>],
    pub alive: &'a [bool],
}

/// An iterator over a part of a column. It returns one piece for each row group that has places of the part, with their alive
/// flags. No piece is empty.
#[derive(Drop)]
pub struct Lents<'a, S: FarTickets> {
    pieces: Pieces<'a, Option<i64>, S>,
    // The flags of the remaining places.
    alive: &'a [bool],
}

impl<'a, S: FarTickets> Model for Lents<'a, S> {
    ghost use Rattle.std.specs.Prelude.{List, Bool, Option, ℤ, ◌≡◌, length};
    ghost use Rattle.std.specs.List.{flat_map};
    ghost use Rattle.far_columns.specs.Numbers.{Numbers, with_flags};

    ghost Value = { List (Numbers × List Bool) };

    ghost view = { λ l. with_flags l.pieces l.alive.now };

    ghost invariant = { λ l. length l.alive.now ≡ length (flat_map (λ piece. piece) l.pieces) };
}

impl<'a, S: FarTickets> Lents<'a, S> {
    /// Makes the iterator over these pieces, each with the flags of its places.
    pub(crate) fn new(pieces: Pieces<'a, Option<i64>, S>, alive: &'a [bool]) -> Lents<'a, S>
        requires { length alive.now ≡ length (flat_map (λ piece. piece) pieces) }
        ensures { result ≡ with_flags pieces.entry alive.now }
    {
        Lents { pieces, alive }
    }

    /// Returns the next piece with its flags, or `None` at the end. Allocates nothing.
    pub fn next(&mut self) -> Option<Lent<'a>>
        ensures first { IfSome result
            (λ lent. self.old ≡ (lent.values.now, lent.alive.now) ∷ self.new) }
        ensures none { IfNone result ((self.old ≡ []) × (self.new ≡ [])) }
    {
        let values = self.pieces.next()?;
        let (alive, rest) = self.alive.split_at(values.len());
        self.alive = rest;
        Some(Lent { values, alive })
    }

    /// Returns how many pieces remain. Allocates nothing.
    pub fn len(&self) -> usize
        ensures { result ≡ length self.now }
    {
        self.pieces.len()
    }
}
