// Stacks that share one block.
ghost use Rattle.std.specs.Prelude.{◌≡◌, ℕ, ◌+◌, ◌-◌, ◌*◌, ◌<◌, ◌≤◌, ◌^◌, List, [], ◌++◌, length, take, drop, replicate, sum_by, vec_len, vec_capacity, slice_range, IfOk, IfErr};
ghost use Rattle.std.specs.Borrow.{sem};
ghost use Rattle.far_log.specs.Stacking.{stack_of, with_stack};

use super::block::Block;
use far_types::Refusal;
use std::alloc::Global;
use std::marker::Model;

/// Stacks of at most `size` elements each, in one block of memory that is reserved once.
///
/// Stack number k begins at `k * size`. The elements after its last one are old, and have no meaning.
#[derive(Drop)]
pub struct Stacks<T> {
    block: Block<T>,
    lens: Vec<u32>,
    size: u32,
}

impl<T> Model for Stacks<T> {
    ghost use Rattle.std.specs.Prelude.{length, vec_capacity};
    ghost use Rattle.far_log.specs.Stacking.{Stacked, stacks_from, IsStacked};

    ghost Value = { Stacked T };

    ghost view = { λ s. record
        { stacks = stacks_from s.size s.block.items.items 0 s.lens.items; size = s.size } };

    ghost invariant = { λ s. IsStacked (length s.block.items.items) (vec_capacity s.block.items)
        s.size s.lens.items };
}

// Returns where a stack begins in the block.
fn begin_of(number: usize, size: u32) -> usize
    requires { number ≤ 65536 }
    ensures begin { result ≡ number * size }
    ensures small { result < 2 ^ 49 }
{
    number * size as usize
}

impl<T: Copy + Drop> Stacks<T> {
    /// Makes empty stacks. Reserves all memory for their elements, and does not write it. Refused only with `NoMemory` (1).
    pub fn new(alloc: Global, count: u32, size: u32) -> Result<Stacks<T>, Refusal>
        requires { count ≤ 65536 }
        ensures empty { IfOk result
            (λ s. s ≡ record { stacks = replicate count []; size = size }) }
        ensures memory { IfErr result (λ e. e ≡ Refusal.NoMemory) }
    {
        let items = Vec::with_capacity(alloc, begin_of(count as usize, size))?;
        let lens = vec![in alloc; 0; count as usize]?;
        Ok(Stacks {
            block: Block { items },
            lens,
            size,
        })
    }

    /// Returns how many elements each stack may have.
    pub fn size(&self) -> u32
        ensures { result ≡ self.now.size }
    {
        self.size
    }

    /// Returns how many elements a stack has.
    pub fn len(&self, number: usize) -> usize
        requires { number < length self.now.stacks }
        ensures len { result ≡ length (stack_of self.now number) }
        ensures within { result ≤ self.now.size }
    {
        self.lens[number] as usize
    }

    /// Returns the total number of elements in the stacks.
    pub fn filled(&self) -> usize
        ensures { result ≡ sum_by (λ xs. length xs) self.now.stacks }
    {
        self.lens.iter().map(|len| *len as usize).sum()
    }

    /// Borrows a range of a stack's elements in place.
    pub fn slice(&self, number: usize, from: usize, len: usize) -> &[T]
        requires there { number < length self.now.stacks }
        requires some { 0 < length (stack_of self.now number) }
        requires within { from + len ≤ length (stack_of self.now number) }
        ensures { result.now ≡ take len (drop from (stack_of self.now number)) }
    {
        let begin = begin_of(number, self.size) + from;
        self.block.slice(begin, begin + len)
    }

    /// Pushes a list onto a stack. Allocates nothing.
    #[inline(always)]
    pub fn push_slice(&mut self, number: usize, list: &[T])
        requires there { number < length self.old.stacks }
        requires some { 0 < length list.now }
        requires enough { length (stack_of self.old number) + length list.now ≤ self.old.size }
        ensures { self.new ≡ with_stack self.old number (stack_of self.old number ++ list.now) }
    {
        let len = self.lens[number];
        let at = begin_of(number, self.size) + len as usize;
        self.block.write_at(at, list);
        self.lens[number] = len + list.len() as u32;
    }

    /// Pushes a range of stack `source` onto stack `number`, which may be the same one. Allocates nothing, and copies each element once.
    pub fn push_from(&mut self, source: usize, from: usize, len: usize, number: usize)
        requires source { source < length self.old.stacks }
        requires there { number < length self.old.stacks }
        requires some { 0 < len }
        requires within { from + len ≤ length (stack_of self.old source) }
        requires enough { length (stack_of self.old number) + len ≤ self.old.size }
        ensures { self.new
            ≡ with_stack self.old number
            (stack_of self.old number ++ take len (drop from (stack_of self.old source))) }
    {
        let begin = begin_of(source, self.size) + from;
        let old = self.lens[number];
        let at = begin_of(number, self.size) + old as usize;
        self.block.copy_to(begin, len, at);
        self.lens[number] = old + len as u32;
    }

    /// Cuts a stack to its first `len` elements.
    pub fn truncate(&mut self, number: usize, len: usize)
        requires there { number < length self.old.stacks }
        requires shorter { len ≤ length (stack_of self.old number) }
        ensures { self.new ≡ with_stack self.old number (take len (stack_of self.old number)) }
    {
        let lens = &mut self.lens;
        lens[number] = len as u32;
    }
}

impl<T> Stacks<T> {
    ghost use Rattle.far_log.specs.Lending.{lends_stack};

    /// Mutably borrows a range of a stack's elements.
    pub fn slice_mut(&mut self, number: usize, from: usize, len: usize) -> &mut [T]
        requires there { number < length self.old.stacks }
        requires some { 0 < length (stack_of self.old number) }
        requires within { from + len ≤ length (stack_of self.old number) }
        ensures* writes_back { sem 𝓛 (lends_stack T.row self.entry number from result) }
        ensures value { result.now ≡ take len (drop from (stack_of self.old number)) }
    {
        let begin = begin_of(number, self.size) + from;
        let most = self.size as usize - from;
        self.block.lend(begin, begin + len, most)
    }
}
