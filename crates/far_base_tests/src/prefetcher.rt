// Tests of far_prefetcher: row groups that are proposed after accesses.
ghost use Rattle.std.specs.Prelude.{◌≡◌, length, IfOk};

use crate::cases::{Case, all, all_are_right, is_list, must_be};
use far_prefetcher::Prefetcher;
use far_types::Refusal;
use std::alloc::Global;

// Returns a prefetcher of three columns, after accesses to these row groups of column 0.
fn after(alloc: Global, accessed: &[u32]) -> Result<Prefetcher, Refusal>
    ensures columns { IfOk result (λ prefetcher. length prefetcher ≡ 3) }
{
    let mut prefetcher = Prefetcher::new(alloc, 3)?;
    for group in accessed {
        prefetcher.saw(0, *group);
    }
    Ok(prefetcher)
}

// A case: the row groups of a column that were accessed, how many row groups the column has, and the proposals.
struct Accessed(&'static [u32], u32, &'static [u32]);

impl Case for Accessed {
    fn is_right(&self, alloc: Global) -> Result<bool, Refusal> {
        let prefetcher = after(alloc, self.0)?;
        is_list(prefetcher.proposals(alloc, 0, self.1), self.2)
    }
}

static CASES: [Accessed; 4] = [
    Accessed(&[7, 5, 3, 1], 8, &[]),
    Accessed(&[0, 0, 0, 0], 8, &[]),
    Accessed(&[0, 1, 2, 3], 5, &[4]),
    Accessed(&[8, 7, 6, 5], 10, &[4, 3]),
];

#[test]
fn the_next_two_groups_of_a_stride_are_proposed_if_they_exist(rt: HostRuntime) {
    all_are_right(&rt, rt.alloc(), &CASES);
}

// Returns whether accesses to all three columns lead to proposals for the first and to none for the second.
fn are_proposed_distinct(alloc: Global, prefetcher: &mut Prefetcher) -> Result<bool, Refusal> {
    prefetcher.saw(1, 9);
    prefetcher.saw(2, 0);
    all(&[
        is_list(prefetcher.proposals(alloc, 0, 6), &[4, 5]),
        is_list(prefetcher.proposals(alloc, 1, 6), &[]),
    ])
}

fn has_histories_distinct(alloc: Global) -> Result<bool, Refusal> {
    are_proposed_distinct(alloc, &mut after(alloc, &[0, 1, 2, 3])?)
}

#[test]
fn each_column_has_a_history_of_its_own(rt: HostRuntime) {
    must_be(&rt, has_histories_distinct(rt.alloc()), Ok(true));
}
