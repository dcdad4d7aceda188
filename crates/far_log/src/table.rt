// The table of a segment's parts.
ghost use Rattle.std.specs.Prelude.{◌≡◌, ◌+◌, ◌<◌, ◌≤◌, ◌^◌, [], ◌∷◌, ◌++◌, true, length, sum_by, OnOk, OnErr, IfOk, IfErr};
ghost use Rattle.far_log.specs.Storage.{AreLinked, EndsLive, extents_of, links_of};

use super::chunked_vec::ChunkedVec;
use super::extents::Extent;
use super::links::push_linked;
use super::part_entry::PartEntry;
use far_types::Refusal;
use std::alloc::Global;

/// Returns the total length of all parts in some tables.
pub fn used_by(tables: &[Table]) -> u64
    requires { length tables.now ≤ 65536 }
    ensures { result ≡ sum_by (λ t. t.used) tables.now }
{
    tables.iter().map(|table| table.used as u64).sum()
}

/// The table of a segment's parts: where each is, and their total length.
#[derive(Drop)]
pub struct Table {
    pub entries: ChunkedVec<PartEntry>,
    pub used: u32,
}

impl Table {
    /// Makes a table without parts. Allocates nothing.
    pub fn new(alloc: Global) -> Table
        ensures { result ≡ record { entries = []; used = 0 } }
    {
        Table {
            entries: ChunkedVec::new(alloc),
            used: 0,
        }
    }

    /// Adds a part of `len` elements at `offset`, after the last part. Returns where it begins. Refused only with `NoMemory` (1), if the
    /// table cannot grow. Then the table is as before.
    #[inline(always)]
    pub fn push(&mut self, offset: usize, len: usize) -> Result<u32, Refusal>
        requires linked { AreLinked 0 0 0 (extents_of self.old.entries)
            (links_of self.old.entries) }
        requires ends { EndsLive (extents_of self.old.entries) }
        requires few { length self.old.entries < 2 ^ 32 }
        requires small { offset < 2 ^ 32 }
        requires sum { self.old.used + len < 2 ^ 32 }
        ensures extents { OnOk result (extents_of self.new.entries
            ≡ extents_of self.old.entries
            ++ record { offset = offset; len = len; live = true }
            ∷ []) }
        ensures linked { OnOk result
            (AreLinked 0 0 0 (extents_of self.new.entries) (links_of self.new.entries)) }
        ensures used { OnOk result (self.new.used ≡ self.old.used + len) }
        ensures offset { IfOk result (λ begin. begin ≡ offset) }
        ensures memory { IfErr result (λ e. e ≡ Refusal.NoMemory) }
        ensures err { OnErr result (self.new ≡ self.old) }
    {
        let extent = Extent {
            offset: offset as u32,
            len: len as u32,
            live: true,
        };
        push_linked(&mut self.entries, extent)?;
        self.used += extent.len;
        Ok(extent.offset)
    }

    /// Removes all parts.
    pub fn clear(&mut self)
        ensures { self.new ≡ record { entries = []; used = 0 } }
    {
        self.entries.truncate(0);
        self.used = 0;
    }
}
