// Replaces the lists of several objects, all or none.
ghost use Rattle.std.specs.Prelude.{◌≡◌, ◌≢◌, ◌⊎◌, ◌<◌, ◌-◌, ℕ, [], ◌∷◌, true, length, All, Some, None, IsSome, OnOk, OnErr, IfErr};
ghost use Rattle.std.specs.Option.{option_or};
ghost use Rattle.far_types.specs.FirstOf.{first_of};
ghost use Rattle.far_scopes.specs.Memory.{place_of, list_in};
ghost use Rattle.far_scopes.specs.Refusing.{refusal_in};
ghost use Rattle.far_scopes.specs.Replacing.{AreListedOnce, no_space_for_all, first_fits, after_take_over, ReplacesLists};

use super::{LocalMemory, at_of, cool_of};
use crate::replacement::Replacement;
use far_codec::Elem;
use far_types::Refusal;

impl<T: Elem> LocalMemory<T> {
    /// Replaces the lists of the listed objects, which are local. It places all new lists, in order, before it drops an old one. If
    /// all new lists are placed, the result is `checked`. A refused call changes nothing.
    ///
    /// Until the old lists are dropped, each new list is the list of an extra object at the end.
    pub fn replace_all(
        &mut self,
        lists: &[Replacement<T>],
        checked: Result<(), Refusal>,
    ) -> Result<(), Refusal>
        requires some { All (λ r. 0 < length r.list.items) lists.now }
        requires local { All (λ r. IsSome (place_of self.old.words r.object)) lists.now }
        requires once { AreListedOnce lists.now }
        ensures replaced { OnOk result (ReplacesLists self.old self.new lists.now) }
        ensures free { OnOk result (option_or
            (first_of (no_space_for_all self.old.state lists.now ∷ [])) (refusal_in checked)
            ≡ None) }
        ensures refused { IfErr result (λ e. (option_or
            (first_of (no_space_for_all self.old.state lists.now ∷ [])) (refusal_in checked)
            ≡ Some e)
            ⊎ (e ≡ Refusal.NoMemory)) }
        ensures memory { IfErr result
            (λ e. e ≡ Refusal.NoMemory → first_fits self.old.state lists.now ≡ true) }
        ensures err { OnErr result (self.new ≡ self.old) }
    {
        let Some((first, rest)) = lists.split_first() else {
            return checked;
        };
        self.add(&first.list)?;
        if let Err(refusal) = self.replace_all(rest, checked) {
            self.remove_last();
            return Err(refusal);
        }
        self.take_over(first.object as usize);
        Ok(())
    }

    // Transfers the part of the last object to object `o`, which is local. Drops the old part of `o`, and removes the last object.
    fn take_over(&mut self, o: usize)
        requires other { o < length self.old.words - 1 }
        requires local { IsSome (place_of self.old.words o) }
        requires last { IsSome (place_of self.old.words (length self.old.words - 1)) }
        ensures effect { self.new ≡ after_take_over self.old o }
        ensures here { list_in self.new o ≡ list_in self.old (length self.old.words - 1) }
        ensures others { (p : ℕ) → p ≢ o → p ≢ length self.old.words - 1
            → list_in self.new p ≡ list_in self.old p }
    {
        let Some(last) = self.words.pop() else {
            unreachable!()
        };
        self.cool -= cool_of(last);
        let word = self.words[o];
        self.words[o] = word.with_at(at_of(last));
        self.region.drop_at(at_of(word));
    }
}
