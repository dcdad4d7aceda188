// Parts of vectors, each borrowed from several objects.
ghost use Rattle.std.specs.Prelude.{◌≡◌, [], ◌∷◌, length, None, IfSome, IfNone};
ghost use Rattle.far_scopes.specs.Movement.{list_of};
ghost use Rattle.far_columns.specs.Vector.{IsVector, elements};
ghost use Rattle.far_columns.specs.Pieces.{pieces_of};
ghost use Rattle.far_columns.specs.Refusing.{pieces_refusal};

use crate::vector::FarVector;
use far_codec::Elem;
use far_scopes::Objects;
use far_store::FarTickets;
use std::marker::Model;

/// An iterator over a part of a vector. It returns one slice for each row group that has places of the part, borrowed from
/// the row group's object. No slice is empty.
#[derive(Drop)]
pub struct Pieces<'a, T: Elem, S: FarTickets> {
    vector: &'a FarVector<T>,
    objects: &'a Objects<T, S>,
    from: usize,
    to: usize,
}

impl<'a, T: Elem, S: FarTickets> Model for Pieces<'a, T, S> {
    ghost use Rattle.std.specs.Prelude.{List};
    ghost use Rattle.std.specs.Coded.{coded_list};

    ghost Value = { List (List T) };

    ghost coded = { coded_list (coded_list T.code) };

    ghost use Rattle.far_scopes.specs.Movement.{list_of};
    ghost use Rattle.far_columns.specs.Vector.{elements};
    ghost use Rattle.far_columns.specs.Pieces.{pieces_of};
    ghost use Rattle.far_columns.specs.Refusing.{IsLendable};

    ghost view = { λ p.
        pieces_of (elements (list_of T.meaning S.content p.objects.now) p.vector.now)
        p.vector.now.size p.from p.to };

    ghost invariant = { λ p.
        IsLendable T.meaning S.content p.objects.now p.vector.now p.from p.to };
}

impl<'a, T: Elem, S: FarTickets> Pieces<'a, T, S> {
    // Makes the iterator over a part that may be lent.
    pub(crate) fn new(
        vector: &'a FarVector<T>,
        objects: &'a Objects<T, S>,
        from: usize,
        to: usize,
    ) -> Pieces<'a, T, S>
        requires is { IsVector (list_of T.meaning S.content objects.now) vector.now }
        requires free { pieces_refusal objects.now vector.now from to ≡ None }
        ensures { result
            ≡ pieces_of (elements (list_of T.meaning S.content objects.now) vector.now)
            vector.now.size from to }
    {
        Pieces {
            vector,
            objects,
            from,
            to,
        }
    }

    /// Returns the next piece, or `None` at the end. Allocates nothing.
    ///
    /// `Pieces` does not implement `Iterator`: the prover cannot prove a method of that trait if it calls a function that
    /// requires elements that threads may share.
    pub fn next(&mut self) -> Option<&'a [T]>
        ensures first { IfSome result (λ piece. self.old ≡ piece.now ∷ self.new) }
        ensures none { IfNone result ((self.old ≡ []) × (self.new ≡ [])) }
    {
        if self.from == self.to {
            return None;
        }
        let vector = self.vector;
        let end = self.to.min(vector.group_end(self.from));
        let Ok(piece) = vector.part(self.objects, self.from, end) else {
            unreachable!()
        };
        self.from = end;
        Some(piece)
    }

    /// Returns how many pieces remain. Allocates nothing.
    pub fn len(&self) -> usize
        ensures { result ≡ length self.now }
    {
        if self.from == self.to {
            return 0;
        }
        self.vector.groups_between(self.from, self.to)
    }
}
