// A cursor over the texts of a column.
ghost use Rattle.std.specs.Prelude.{◌≡◌, ◌<◌, None, Some, length, slice_index};
ghost use Rattle.far_scopes.specs.Refusing.{lend_refusal};
ghost use Rattle.far_texts.specs.Texts.{lists_of, IsTextColumn, IsGroupForm, HasGroups};
ghost use Rattle.far_texts.specs.Refusing.{text_refusal};
ghost use Rattle.far_texts.specs.Lending.{IsCursor};

use super::TextColumn;
use far_scopes::Objects;
use far_store::FarTickets;

/// The current place of a walk over a column's places in order, and the far form of its row group. A walk looks up an object
/// once for each row group, and divides only to find its first place.
#[derive(Clone, Copy)]
pub(super) struct Cursor<'a> {
    /// The place.
    pub place: usize,
    /// The row group of the place, or one that ends before it.
    pub group: usize,
    /// The index of the place in that row group.
    pub index: usize,
    /// The far form of the row group.
    pub form: &'a [u8],
}

impl<'a> Cursor<'a> {
    // Returns the cursor of a walk over no places.
    pub(super) fn none(place: usize) -> Cursor<'a>
        ensures { result.place ≡ place }
    {
        Cursor {
            place,
            group: 0,
            index: 0,
            form: &[],
        }
    }

    // Returns the cursor at a place.
    pub(super) fn new<S: FarTickets>(
        column: &TextColumn,
        objects: &'a Objects<u8, S>,
        place: usize,
    ) -> Cursor<'a>
        requires is { IsTextColumn (lists_of S.content objects.now) column.now }
        requires here { text_refusal S.content objects.now column.now place ≡ None }
        ensures place { result.place ≡ place }
        ensures cursor { IsCursor (lists_of S.content objects.now) column.now
            place result.group result.index result.form.now }
    {
        // For the proof: shows `HasGroups`.
        let _size = column.size();
        let group = column.group_of(place);
        let form = column.form_here(objects, group);
        Cursor {
            place,
            group,
            index: column.index_in(group, place),
            form,
        }
    }

    // Returns the cursor at its place, in the row group that contains the place.
    #[inline(always)]
    pub(super) fn entered<S: FarTickets>(
        self,
        column: &TextColumn,
        objects: &'a Objects<u8, S>,
    ) -> Cursor<'a>
        requires is { IsTextColumn (lists_of S.content objects.now) column.now }
        requires cursor { IsCursor (lists_of S.content objects.now) column.now
            self.place self.group self.index self.form.now }
        requires here { text_refusal S.content objects.now column.now self.place ≡ None }
        ensures place { result.place ≡ self.entry.place }
        ensures cursor { IsCursor (lists_of S.content objects.now) column.now
            result.place result.group result.index result.form.now }
        ensures inside { result.index < column.now.size }
    {
        if self.index < column.size() {
            return self;
        }
        let group = self.group + 1;
        let form = column.form_here(objects, group);
        Cursor {
            place: self.place,
            group,
            index: 0,
            form,
        }
    }
}

impl TextColumn {
    // Returns how many places a row group has.
    #[inline(always)]
    fn size(&self) -> usize
        ensures size { result ≡ self.now.size }
        ensures groups { HasGroups self.now }
    {
        self.size
    }

    // Borrows the far form of a row group whose object is local.
    fn form_here<'a, S: FarTickets>(&self, objects: &'a Objects<u8, S>, group: usize) -> &'a [u8]
        requires begun { group < length self.now.objects }
        requires is { IsTextColumn (lists_of S.content objects.now) self.now }
        requires here { lend_refusal objects.now (slice_index self.now.objects group) ≡ None }
        ensures lent { lists_of S.content objects.now (slice_index self.now.objects group)
            ≡ Some result.now }
        ensures form { IsGroupForm self.now group result.now }
    {
        let Ok(form) = self.form(objects, group) else {
            unreachable!()
        };
        form
    }
}
