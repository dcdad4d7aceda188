// The access history of one column.
ghost use Rattle.std.specs.Prelude.{◌≡◌, ◌≤◌, ◌<◌, [], ◌++◌, length, IfOk, IfErr, IfNone, IfSome, OnOk};
ghost use Rattle.std.specs.Option.{option_to_list};
ghost use Rattle.circular_buffer.specs.Buffer.{keep_last};
ghost use Rattle.far_prefetcher.specs.Strides.{difference, existing, is_stride, next_two, proposed, with_access};

use circular_buffer::HeapCircularBuffer;
use far_types::Refusal;
use std::alloc::Global;
use std::marker::Model;

// The number of groups in a full history.
const REMEMBERED: usize = 8;

/// The access history of one column: the last 8 row groups that were accessed. Contracts see the list of their numbers,
/// oldest first.
#[derive(Drop)]
pub struct History {
    groups: HeapCircularBuffer<u32>,
}

impl Model for History {
    ghost use Rattle.std.specs.Prelude.{◌≡◌, ℕ, List};

    ghost Value = { List ℕ };

    ghost view = { λ h. h.groups.items };

    ghost invariant = { λ h. h.groups.capacity ≡ 8 };
}

impl History {
    /// Makes an empty history, and allocates all its memory. Refused only with `NoMemory` (1).
    pub fn new(alloc: Global) -> Result<History, Refusal>
        ensures empty { IfOk result (λ history. history ≡ []) }
        ensures memory { IfErr result (λ e. e ≡ Refusal.NoMemory) }
    {
        let groups = HeapCircularBuffer::with_capacity(alloc, REMEMBERED)?;
        Ok(History { groups })
    }

    /// Records an access to a group, and forgets the oldest access if there are 8. Allocates nothing.
    pub fn saw(&mut self, group: u32)
        ensures { self.new ≡ with_access self.old group }
    {
        self.groups.push_back(group);
    }

    /// Returns the next two row groups in the stride of the last four accesses, without those that are not below `groups`.
    /// Returns none if there is no stride. Refused only with `NoMemory` (1).
    #[tactic(auto, using(crate::proofs::StridesLaws::proposed_by_four))]
    pub fn proposals(&self, alloc: Global, groups: u32) -> Result<Vec<u32>, Refusal>
        ensures found { IfOk result (λ proposals. proposals.items ≡ proposed groups self.now) }
        ensures memory { IfErr result (λ e. e ≡ Refusal.NoMemory) }
    {
        let Some(last_four) = self.last_four() else {
            return Ok(Vec::new(alloc));
        };
        let [a, b, c, d] = last_four;
        if is_stride(difference(a, b), difference(b, c), difference(c, d)) {
            next_two(alloc, groups, c, d)
        } else {
            Ok(Vec::new(alloc))
        }
    }

    // Returns the last four groups, or `None` if fewer were accessed.
    fn last_four(&self) -> Option<[u32; 4]>
        ensures fewer { IfNone result (length self.now < 4) }
        ensures four { IfSome result
            (λ last. (4 ≤ length self.now) × (keep_last 4 self.now ≡ last)) }
    {
        let groups = &self.groups;
        let a = groups.nth_back(3)?;
        let b = groups.nth_back(2)?;
        let c = groups.nth_back(1)?;
        let d = groups.nth_back(0)?;
        Some([*a, *b, *c, *d])
    }
}

// Returns the signed distance from one group to another.
fn difference(from: u32, to: u32) -> i64
    ensures { result ≡ difference from to }
{
    i64::from(to) - i64::from(from)
}

// Returns whether three differences form a stride: they are equal and not 0.
fn is_stride(first: i64, second: i64, third: i64) -> bool
    ensures { result ≡ is_stride first second third }
{
    first == second && second == third && third != 0
}

// Returns the next two groups of the stride, without those that do not exist. The step is the distance from `before` to
// `last`.
#[tactic(auto, using(crate::proofs::StridesLaws::two_options))]
fn next_two(alloc: Global, groups: u32, before: u32, last: u32) -> Result<Vec<u32>, Refusal>
    ensures found { IfOk result (λ found. found.items ≡ next_two groups before last) }
    ensures memory { IfErr result (λ e. e ≡ Refusal.NoMemory) }
{
    let stride = difference(before, last);
    let next = i64::from(last) + stride;
    let mut found = Vec::new(alloc);
    push_existing(&mut found, groups, next)?;
    push_existing(&mut found, groups, next + stride)?;
    Ok(found)
}

// Appends the group of this number, if it exists.
fn push_existing(found: &mut Vec<u32>, groups: u32, number: i64) -> Result<(), Refusal>
    ensures ok { OnOk result
        (found.new.items ≡ found.old.items ++ option_to_list (existing groups number)) }
    ensures memory { IfErr result (λ e. e ≡ Refusal.NoMemory) }
{
    match u32::try_from(number) {
        Ok(group) if group < groups => found.push(group)?,
        _ => {}
    }
    Ok(())
}
