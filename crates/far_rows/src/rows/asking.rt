// Checks whether a row may be appended.
ghost use Rattle.std.specs.Prelude.{◌≡◌, ◌≤◌, length};
ghost use Rattle.far_scopes.specs.Refusing.{refusal_in};
ghost use Rattle.far_types.specs.declared.limits.Limits.{Limits};
ghost use Rattle.far_texts.specs.Texts.{lists_of};
ghost use Rattle.far_texts.specs.Together.{AreColumns};
ghost use Rattle.far_texts.specs.RefusingTogether.{push_texts_refusal};
ghost use Rattle.far_rows.specs.Refusing.{push_refusal};
ghost use Rattle.far_rows.specs.ByKind.{kinds_refusal};
ghost use Rattle.far_rows.specs.Places.{AreOf};
ghost use Rattle.far_rows.specs.Plain.{insert_refusal};

use super::Rows;
use crate::new_row::NewRow;
use far_columns::may_push_numbers;
use far_scopes::Objects;
use far_store::FarTickets;
use far_texts::{TextColumn, may_push_texts};
use far_types::{Refusal, Text};

// Checks that a text may be appended to each of at most 16 text columns. Checks nothing if there are no text columns.
#[inline(always)]
fn may_push_all_texts<S: FarTickets>(
    objects: &Objects<u8, S>,
    columns: &[TextColumn],
    texts: &[Option<Text>],
) -> Result<(), Refusal>
    requires are { AreColumns (lists_of S.content objects.now) columns.now }
    requires same_length { length texts.now ≡ length columns.now }
    requires few { length columns.now ≤ 16 }
    ensures { refusal_in result ≡ push_texts_refusal S.content objects.now columns.now texts.now }
{
    if columns.is_empty() {
        return Ok(());
    }
    may_push_texts(objects, columns, texts)
}

impl<S: FarTickets> Rows<S> {
    /// Checks that a row may be appended. Allocates nothing. After `Ok`, `push` can be refused only with `NoMemory` (1).
    ///
    /// Refused with the first of these that applies:
    ///
    /// - `Absent` (16): the row group of the next place has been begun, and some object of it is away. The refusal names
    ///   the first in the order of the columns.
    /// - `ChunkFull` (11): the form of some column's texts would be longer than its limit.
    /// - `RegionFull` (17): new forms, or new objects of numbers, do not fit into the free space.
    /// - `EditsUsedUp` (24): the row group has been begun, and some object of it was written as often as the limits
    ///   allow.
    pub fn may_push(&self, row: &NewRow) -> Result<(), Refusal>
        requires numbers { length row.now.numbers ≡ length self.now.numbers }
        requires texts { length row.now.texts ≡ length self.now.texts }
        ensures refused { refusal_in result ≡ push_refusal S.content self.now row.now }
        ensures plain { (limits : Limits) → AreOf limits self.now
            → refusal_in result ≡ insert_refusal S.content limits self.now row.now }
    {
        // For the proof: shows `AreRows`, and that no text is too long.
        let _len = self.len();
        let _texts = row.texts();
        self.may_push_values(row)
    }

    // Checks that a row may be appended: first that its objects are local, then the text columns, then the number columns.
    fn may_push_values(&self, row: &NewRow) -> Result<(), Refusal>
        requires numbers { length row.now.numbers ≡ length self.now.numbers }
        requires texts { length row.now.texts ≡ length self.now.texts }
        ensures { refusal_in result ≡ kinds_refusal S.content self.now row.now }
    {
        // For the proof: shows that a table has at most 16 columns.
        let len = self.len();
        let group = self.reciprocal.quotient(len, self.size as usize);
        self.here(group as u32)?;
        may_push_all_texts(&self.text_objects, &self.texts, row.texts())?;
        may_push_numbers(&self.number_objects, &self.numbers)
    }
}
