// Links between the live extents of a table. When the last part is dropped, they lead to the part before it in one step.
ghost use Rattle.std.specs.Prelude.{◌≡◌, ◌+◌, ◌<◌, ◌≤◌, ◌^◌, ◌++◌, [], ◌∷◌, true, List, length, take, filter, slice_get, IsSomeAnd, OnOk, OnErr, IfErr};
ghost use Rattle.far_log.specs.Storage.{AreLinked, EndsLive, emptied_at, with_behind, with_before, extents_of, links_of};

use super::chunked_vec::ChunkedVec;
use super::extents::Extent;
use super::part_entry::PartEntry;
use far_types::Refusal;

/// The nearest live extents before and after a live extent. The link of a dead extent has no meaning.
#[derive(Clone, Copy)]
pub struct Link {
    /// The number of the live extent before it, plus 1; 0 if there is none.
    pub before: u32,
    /// The number of the live extent after it, if there is one.
    pub behind: u32,
}

// Sets the number of the live extent after an extent.
fn set_behind(table: &mut ChunkedVec<PartEntry>, number: usize, behind: u32)
    requires { number < length table.old }
    ensures extents { extents_of table.new ≡ extents_of table.old }
    ensures links { links_of table.new ≡ with_behind (links_of table.old) number behind }
{
    let entry = table.get(number);
    let link = Link {
        behind,
        ..entry.link
    };
    table.set(number, PartEntry { link, ..entry });
}

// Sets the number, plus 1, of the live extent before an extent; 0 if there is none.
fn set_before(table: &mut ChunkedVec<PartEntry>, number: usize, before: u32)
    requires { number < length table.old }
    ensures extents { extents_of table.new ≡ extents_of table.old }
    ensures links { links_of table.new ≡ with_before (links_of table.old) number before }
{
    let entry = table.get(number);
    let link = Link {
        before,
        ..entry.link
    };
    table.set(number, PartEntry { link, ..entry });
}

/// Appends a live extent and links it with the last one, which is live if there is one. Refused only with `NoMemory` (1). Then the table
/// is as before.
#[inline(always)]
pub fn push_linked(table: &mut ChunkedVec<PartEntry>, extent: Extent) -> Result<(), Refusal>
    requires linked { AreLinked 0 0 0 (extents_of table.old) (links_of table.old) }
    requires ends { EndsLive (extents_of table.old) }
    requires few { length table.old < 2 ^ 32 }
    requires live { extent.live ≡ true }
    ensures extents { OnOk result (extents_of table.new ≡ extents_of table.old ++ extent ∷ []) }
    ensures linked { OnOk result (AreLinked 0 0 0 (extents_of table.new) (links_of table.new)) }
    ensures memory { IfErr result (λ e. e ≡ Refusal.NoMemory) }
    ensures err { OnErr result (table.new ≡ table.old) }
{
    let number = table.len();
    let link = Link {
        before: number as u32,
        behind: 0,
    };
    table.push(PartEntry { extent, link })?;
    if number > 0 {
        set_behind(table, number - 1, number as u32);
    }
    Ok(())
}

/// Removes a live extent from the links. Returns how many extents remain when those after the last part are cut off. Reads only the
/// extent's neighbours.
pub fn unlink(table: &mut ChunkedVec<PartEntry>, number: usize) -> usize
    requires linked { AreLinked 0 0 0 (extents_of table.old) (links_of table.old) }
    requires ends { EndsLive (extents_of table.old) }
    requires few { length table.old < 2 ^ 32 }
    requires there { IsSomeAnd (slice_get (extents_of table.old) number) (λ s. s.live ≡ true) }
    ensures extents { extents_of table.new ≡ extents_of table.old }
    ensures within { result ≤ length table.old }
    ensures kept { filter (λ s. s.live) (take result (emptied_at (extents_of table.old) number))
        ≡ filter (λ s. s.live) (emptied_at (extents_of table.old) number) }
    ensures last { EndsLive (take result (emptied_at (extents_of table.old) number)) }
    ensures linked { AreLinked 0 0 0 (take result (emptied_at (extents_of table.old) number))
        (take result (links_of table.new)) }
{
    let count = table.len();
    let Link { before, behind } = table.get(number).link;
    if number + 1 == count {
        return before as usize;
    }
    if before > 0 {
        set_behind(table, before as usize - 1, behind);
    }
    set_before(table, behind as usize, before);
    count
}
