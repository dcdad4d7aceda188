// The access histories of all columns.
ghost use Rattle.std.specs.Prelude.{◌≡◌, [], replicate, slice_set, IfOk, IfErr};
ghost use Rattle.far_prefetcher.specs.Strides.{history_of, proposed, with_access};

use super::history::History;
use far_types::Refusal;
use std::alloc::Global;
use std::marker::Model;

/// Records the recent accesses to each column, and proposes which row groups to fetch next. Contracts see one list for each
/// column: the numbers of the last 8 row groups that were accessed, oldest first.
///
/// Records accesses to row groups of the first of three columns:
///
/// ```
/// fn after(alloc: Global, accessed: &[u32]) -> Result<Prefetcher, Refusal>
///     ensures columns { IfOk result (λ prefetcher. length prefetcher ≡ 3) }
/// {
///     let mut prefetcher = Prefetcher::new(alloc, 3)?;
///     for group in accessed {
///         prefetcher.saw(0, *group);
///     }
///     Ok(prefetcher)
/// }
/// ```
///
/// Modelled on the prefetcher of AIFM (Ruan et al., OSDI 2020), which also proposes from a window of recent accesses.
#[derive(Drop)]
pub struct Prefetcher {
    histories: Vec<History>,
}

impl Model for Prefetcher {
    ghost use Rattle.std.specs.Prelude.{ℕ, List};

    ghost Value = { List (List ℕ) };

    ghost view = { λ p. p.histories.items };
}

impl Prefetcher {
    /// Makes a prefetcher for `columns` columns without accesses, and allocates all its memory. Refused only with
    /// `NoMemory` (1).
    pub fn new(alloc: Global, columns: u32) -> Result<Prefetcher, Refusal>
        ensures empty { IfOk result (λ prefetcher. prefetcher ≡ replicate columns []) }
        ensures memory { IfErr result (λ e. e ≡ Refusal.NoMemory) }
    {
        let mut histories = Vec::with_capacity(alloc, columns as usize)?;
        for _ in 0..columns {
            histories.push(History::new(alloc)?)?;
        }
        Ok(Prefetcher { histories })
    }

    /// Records that a row group of a column was read, and forgets the column's oldest access if there are 8. Does nothing
    /// if there is no such column. Allocates nothing.
    pub fn saw(&mut self, column: u32, group: u32)
        ensures { self.new
            ≡ slice_set self.old column (with_access (history_of self.old column) group) }
    {
        if let Some(history) = self.histories.get_mut(column as usize) {
            history.saw(group);
        }
    }

    /// Returns the row groups of a column to fetch next, all below `groups`. Refused only with `NoMemory` (1).
    ///
    /// If the last four accesses have three equal differences other than 0, this difference is their stride. Returns the
    /// next two groups of the stride, without those that do not exist. Returns none if there is no stride.
    pub fn proposals(&self, alloc: Global, column: u32, groups: u32) -> Result<Vec<u32>, Refusal>
        ensures found { IfOk result
            (λ proposals. proposals.items ≡ proposed groups (history_of self.now column)) }
        ensures memory { IfErr result (λ e. e ≡ Refusal.NoMemory) }
    {
        match self.histories.get(column as usize) {
            Some(history) => history.proposals(alloc, groups),
            None => Ok(Vec::new(alloc)),
        }
    }
}
