// Records accesses to a table, and proposes what to fetch next.
ghost use Rattle.std.specs.Prelude.{◌≡◌, ℕ, List, true, None, [], ◌∷◌, slice_get, IfOk, IfErr, OnOk, OnErr};
ghost use Rattle.far_types.specs.MayRefuse.{MayRefuse};
ghost use Rattle.far_scopes.specs.Refusing.{refusal_in};
ghost use Rattle.far_columns.specs.Pieces.{overlapped_groups};
ghost use Rattle.far_rows.specs.Jobs.{AreAt};
ghost use Rattle.far_rows.specs.Moving.{object_refusal};
ghost use Rattle.far_frame.specs.declared.step.Reply.{Reply};
ghost use Rattle.far_frame.specs.declared.step.Step.TheVariants as step;
ghost use Rattle.far_frame.specs.Effects.{Accepts};
ghost use Rattle.far_frame.specs.Lending.{AreObserved, IsReplyOf, lend_refusal, lent_part, next_groups, prefetch_refusal};

use super::Frame;
use far_store::FarTickets;
use far_types::{Kind, Refusal};

impl<S: FarTickets> Frame<S> {
    /// Records an access to a row group of a column, and marks its object as recently used (AIFM's hot bit) if it is local.
    /// Allocates nothing.
    ///
    /// Refused with the first of these that applies:
    ///
    /// - `NoColumn` (4): there is no such column.
    /// - `OutOfRange` (14): the row group has no place.
    ///
    /// A refused call changes nothing.
    pub fn saw(&mut self, column: u32, group: u32) -> Result<(), Refusal>
        ensures accesses { OnOk result (AreObserved column (group ∷ []) self.old self.new) }
        ensures here { (id : List ℕ) → AreAt S.is_of id self.old.rows
            → AreAt S.is_of id self.new.rows }
        ensures refused { refusal_in result ≡ object_refusal self.old.rows column group }
        ensures err { OnErr result (self.new ≡ self.old) }
    {
        self.rows.touch(column, group)?;
        self.prefetcher.saw(column, group);
        Ok(())
    }

    /// Records an access to a row group of a column, even if there is no such row group. Allocates nothing.
    fn record_access(&mut self, column: u32, group: u32)
        ensures accesses { AreObserved column (group ∷ []) self.old self.new }
        ensures here { (id : List ℕ) → AreAt S.is_of id self.old.rows
            → AreAt S.is_of id self.new.rows }
    {
        // If there is no such object, nothing is marked.
        let _used = self.rows.touch(column, group);
        self.prefetcher.saw(column, group);
    }

    /// Records an access to each row group that has one of the places `from` to `to`, not including `to`, in order.
    /// Allocates nothing.
    pub(crate) fn record_accesses(&mut self, column: u32, from: u32, to: u32)
        ensures accesses { AreObserved column (overlapped_groups self.old.rows.size from to)
            self.old self.new }
        ensures here { (id : List ℕ) → AreAt S.is_of id self.old.rows
            → AreAt S.is_of id self.new.rows }
    {
        let size = self.scope().size();
        let mut place = from as usize;
        while place < to as usize {
            let group = place / size;
            self.record_access(column, group as u32);
            place = (group + 1) * size;
        }
    }

    /// Checks that a part of a column can be lent. Allocates nothing.
    fn may_lend(&self, column: u32, from: u32, to: u32) -> Result<(), Refusal>
        ensures given { OnOk result
            ((given : Reply)
            × IsReplyOf (slice_get self.now.table.schema column)
            (lent_part self.now.table column from to) given) }
        ensures refused { refusal_in result ≡ lend_refusal self.now.rows column from to }
    {
        let view = self.scope();
        // For the proof: shows that row groups are not empty.
        let _size = view.size();
        match view.kind(column) {
            Some(Kind::Int) => {
                let _lents = view.ints(column, from, to)?;
                Ok(())
            }
            Some(Kind::Text) => {
                let _texts = view.texts(column, from, to)?;
                Ok(())
            }
            None => Err(Refusal::NoColumn),
        }
    }

    /// Records that a part of a column was lent, as the step `Lend` does: accesses each of its row groups in order, and
    /// marks the objects as recently used. Call it after reading the part through a view, which copies no value. Allocates
    /// nothing.
    ///
    /// Refused with the first of these that applies:
    ///
    /// - `NoColumn` (4): there is no such column.
    /// - `OutOfRange` (14): `from` is above `to`, or `to` is past the places.
    /// - `Absent` (16): the object of one of the row groups is away. The refusal names the first.
    ///
    /// A refused call changes nothing.
    pub fn record_lending(&mut self, column: u32, from: u32, to: u32) -> Result<(), Refusal>
        ensures ok { OnOk result
            ((given : Reply)
            × IsReplyOf (slice_get self.old.table.schema column)
            (lent_part self.old.table column from to) given
            × Accepts S.content self.old (step.Lend column from to) given self.new) }
        ensures refused { refusal_in result ≡ lend_refusal self.old.rows column from to }
        ensures err { OnErr result (self.new ≡ self.old) }
        ensures here { (id : List ℕ) → AreAt S.is_of id self.old.rows
            → AreAt S.is_of id self.new.rows }
    {
        self.may_lend(column, from, to)?;
        self.record_accesses(column, from, to);
        Ok(())
    }

    /// Returns the row groups of a column to fetch next. If the last four accesses have three equal differences other than
    /// 0, these are a stride. Returns the next two row groups of the stride, without those that do not exist, and none if
    /// there is no stride.
    ///
    /// Refused with the first of these that applies:
    ///
    /// - `NoColumn` (4): there is no such column.
    /// - `NoMemory` (1): an allocation fails.
    pub fn proposals(&self, column: u32) -> Result<Vec<u32>, Refusal>
        ensures found { IfOk result
            (λ found. found.items ≡ next_groups self.now.table self.now.accesses column) }
        ensures column { OnOk result (prefetch_refusal self.now.table column ≡ None) }
        ensures refused { IfErr result (MayRefuse (prefetch_refusal self.now.table column) true) }
    {
        if column as usize >= self.rows.schema().len() {
            return Err(Refusal::NoColumn);
        }
        // For the proof: shows that a table has at most 16,777,216 places.
        let _limits = self.rows.limits();
        let _len = self.rows.len();
        self.prefetcher
            .proposals(self.alloc, column, self.rows.groups() as u32)
    }
}
