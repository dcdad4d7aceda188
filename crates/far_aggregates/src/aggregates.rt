// The aggregates of a table.
ghost use Rattle.std.specs.Prelude.{◌≡◌, ◌<◌, ◌≤◌, ◌/◌, ◌^◌, ℕ, List, None, Some, false, true, IsTrue, length};
ghost use Rattle.std.specs.Prelude.{replicate, option_map, slice_set, IsSome, IfOk, IfErr, IfSome, IfNone, OnOk, OnErr};
ghost use Rattle.std.specs.Option.{option_copied};
ghost use Rattle.far_types.specs.MayRefuse.{MayRefuse};
ghost use Rattle.far_types.specs.Table.{Place, groups, in_group};

mod editing;
mod replacing;

use super::aggregate::Aggregate;
use super::answers::answer;
use super::lend_group::LendGroup;
use super::line::Line;
use super::readings::{first_pending, line, plain};
use super::registrations::{aggregate_at, forget, free_number, register};
use super::scans::scan_at;
use super::spare_keys::SpareKeys;
use super::spare_lists::SpareLists;
use far_types::{Answer, Key, Reciprocal, Refusal, Spec};
use std::alloc::{AllocError, Global};
use std::marker::Model;

/// The aggregates of a table by number, at most 32. An edit of the rows has three parts:
///
/// 1. The deltas of the new row are applied, which may be refused.
/// 2. The rows are changed, which may be refused too. If it is, the deltas are undone.
/// 3. The pairs of the old row are retracted, which cannot fail.
///
/// Contracts see the registry entry of each number that was ever used.
#[derive(Drop)]
pub struct Aggregates {
    registry: Vec<Option<Aggregate>>,
    spare_lists: SpareLists,
    spare_keys: SpareKeys,
    /// A hint that speeds up divisions by the number of places of a row group.
    reciprocal: Reciprocal,
}

impl Model for Aggregates {
    ghost use Rattle.std.specs.Prelude.{List, Option, length, ◌≤◌};
    ghost use Rattle.std.specs.Coded.{codes};
    ghost use Rattle.far_groups.specs.Live.{coded_totals_state as coded_totals_live};
    ghost use Rattle.far_extrema.specs.Live.{coded_extrema_state as coded_extrema_live};
    ghost use Rattle.far_aggregates.specs.Accumulators.{RegistryEntry};

    ghost Value = { List RegistryEntry };

    ghost coded = { Prim.hlevel (codes, coded_totals_live, coded_extrema_live) };

    ghost view = { λ aggregates. aggregates.registry.items };

    ghost invariant = { λ aggregates. length aggregates.registry.items ≤ 32 };
}

impl Aggregates {
    ghost use Rattle.far_aggregates.specs.Aggregates.{free_from, aggregate_in, is_pending_in, ask_refusal, Answers, after_scan};
    ghost use Rattle.far_aggregates.specs.Accumulators.{Keeps, registered_of};
    ghost use Rattle.far_aggregates.specs.Lending.{EntryIsServed};
    ghost use Rattle.far_aggregates.specs.Lines.{AnswersKey};
    ghost use Rattle.far_aggregates.specs.PendingCounts.{pending_of};
    ghost use Rattle.far_aggregates.specs.Readings.{plain_in};
    ghost use Rattle.far_aggregates.specs.Pending.{AreUpToDate, KeepsAsBefore};

    /// Makes a registry without an aggregate. Allocates nothing.
    pub fn new(alloc: Global) -> Aggregates
        ensures registered { registered_of result ≡ replicate 32 None }
        ensures kept { (size : ℕ) → (places : List Place) → Keeps size places result }
    {
        Aggregates {
            registry: Vec::new(alloc),
            spare_lists: SpareLists::new(alloc),
            spare_keys: SpareKeys::new(alloc),
            reciprocal: Reciprocal::new(1),
        }
    }

    // Returns the row group of a place.
    #[inline(always)]
    fn group_of(&self, place: usize, size: u32) -> u32
        requires size { 0 < size }
        requires few { place ≤ 2 ^ 24 }
        ensures { result ≡ place / size }
    {
        self.reciprocal.quotient(place, size as usize) as u32
    }

    /// Returns whether no aggregate was ever registered, so that an edit has nothing to update. Allocates nothing.
    pub fn is_empty(&self) -> bool
        ensures { IsTrue result
            → (size : ℕ) → (places : List Place) → Keeps size places self.now }
    {
        self.registry.is_empty()
    }

    /// Returns the lowest number under which no aggregate is registered, or `None` if 32 are. Allocates nothing.
    pub fn free_number(&self) -> Option<u32>
        ensures number { result ≡ free_from 0 (registered_of self.now) }
        ensures within { IfSome result (λ a. a < 32) }
    {
        free_number(self.registry.as_slice())
    }

    /// Registers an aggregate under the lowest free number, over `places` places. All row groups that hold one of these places
    /// are pending. If memory runs out, nothing is changed.
    pub fn register(
        &mut self,
        alloc: Global,
        a: u32,
        spec: Spec,
        registration: u64,
        size: u32,
        places: usize,
    ) -> Result<(), AllocError>
        requires size { 0 < size }
        requires few { places ≤ 2 ^ 24 }
        requires free { free_from 0 (registered_of self.old) ≡ Some a }
        ensures registered { OnOk result
            (registered_of self.new
            ≡ slice_set (registered_of self.old) a
            (Some
            (record {
              spec = spec;
              registration = registration;
              pending = replicate (groups size places) true;
            }))) }
        ensures kept { (all : List Place) → length all ≡ places
            → Keeps size all self.old
            → Keeps size all self.new }
        ensures unchanged { OnErr result (self.new ≡ self.old) }
    {
        self.reciprocal = Reciprocal::new(size as usize);
        register(
            alloc,
            &mut self.registry,
            a,
            spec,
            registration,
            size,
            places,
        )
    }

    /// Forgets the aggregate with this number, which must exist. Allocates nothing.
    pub fn forget(&mut self, a: u32)
        requires { IsSome (aggregate_in self.old a) }
        ensures registered { registered_of self.new ≡ slice_set (registered_of self.old) a None }
        ensures kept { KeepsAsBefore self.old self.new }
    {
        forget(&mut self.registry, a);
    }

    /// Returns the specification of the aggregate with this number, or `None` if there is none. Allocates nothing.
    pub fn spec(&self, a: u32) -> Option<&Spec>
        ensures { option_copied result
            ≡ option_map (λ aggregate. aggregate.spec) (aggregate_in self.now a) }
    {
        let aggregate = aggregate_at(self.registry.as_slice(), a)?;
        Some(&aggregate.spec)
    }

    /// Returns how many registrations were made before the aggregate with this number, or `None` if there is none. Allocates
    /// nothing.
    pub fn registration(&self, a: u32) -> Option<u64>
        ensures { result
            ≡ option_map (λ aggregate. aggregate.registration) (aggregate_in self.now a) }
    {
        let aggregate = aggregate_at(self.registry.as_slice(), a)?;
        Some(aggregate.registration)
    }

    /// Returns whether a row group is pending in the aggregate with this number, or false if there is none. Allocates nothing.
    pub fn is_pending_in(&self, a: u32, group: u32) -> bool
        ensures { result ≡ is_pending_in (aggregate_in self.now a) group }
    {
        match aggregate_at(self.registry.as_slice(), a) {
            Some(aggregate) => aggregate.pending.has(group as usize),
            None => false,
        }
    }

    /// Returns how many row groups are pending in the aggregate with this number, and the first of them, if there is one.
    /// Returns `None` if there is no such aggregate. Allocates nothing.
    pub fn pending(&self, a: u32) -> Option<(u32, Option<u32>)>
        ensures { result ≡ option_map pending_of (aggregate_in self.now a) }
    {
        let aggregate = aggregate_at(self.registry.as_slice(), a)?;
        Some((aggregate.pending.count(), aggregate.pending.first()))
    }

    /// Returns the number of an aggregate and a row group that is pending in it, or `None` if none is. Allocates nothing.
    pub fn first_pending(&self) -> Option<(u32, u32)>
        ensures some { IfSome result
            (λ at. is_pending_in (aggregate_in self.now at.0) at.1 ≡ true) }
        ensures none { IfNone result
            ((a : ℕ) → (g : ℕ) → is_pending_in (aggregate_in self.now a) g ≡ false) }
    {
        first_pending(self.registry.as_slice())
    }

    /// Returns the answer of the aggregate with this number, over the rows for which all aggregates are up to date.
    ///
    /// Refused with the first of these that applies:
    ///
    /// - `NoAggregate` (12): there is no such aggregate.
    /// - `Building` (15): row groups are pending. The refusal says how many.
    /// - `NoMemory` (1): an allocation fails.
    pub fn answer(&self, alloc: Global, a: u32) -> Result<Answer, Refusal>
        ensures ok { IfOk result
            (λ answer. (size : ℕ) → (places : List Place) → 0 < size
            → Keeps size places self.now
            → Answers places (aggregate_in self.now a) answer) }
        ensures err { IfErr result
            (λ e. (size : ℕ) → (places : List Place) → Keeps size places self.now
            → MayRefuse (ask_refusal (aggregate_in self.now a)) true e) }
    {
        let Some(aggregate) = aggregate_at(self.registry.as_slice(), a) else {
            return Err(Refusal::NoAggregate);
        };
        answer(alloc, aggregate)
    }

    /// Returns the line of a key in the answer of the aggregate with this number, or `None` if the answer has no such line.
    /// Costs one look-up, and builds no other line. Allocates nothing.
    ///
    /// Refused with the first of these that applies:
    ///
    /// - `NoAggregate` (12): there is no such aggregate.
    /// - `Building` (15): row groups are pending. The refusal says how many.
    pub fn line(&self, a: u32, key: &Option<Key>) -> Result<Option<Line>, Refusal>
        ensures ok { IfOk result
            (λ line. (size : ℕ) → (places : List Place) → 0 < size
            → Keeps size places self.now
            → AnswersKey places (aggregate_in self.now a) key.now line) }
        ensures err { IfErr result
            (λ e. (size : ℕ) → (places : List Place) → Keeps size places self.now
            → MayRefuse (ask_refusal (aggregate_in self.now a)) false e) }
    {
        let Some(aggregate) = aggregate_at(self.registry.as_slice(), a) else {
            return Err(Refusal::NoAggregate);
        };
        line(aggregate, key)
    }

    /// Returns how many rows the aggregate with this number folds, and the sum of their values, if it computes totals without a
    /// key column. Returns `None` for any other aggregate, and while row groups are pending. Allocates nothing.
    pub fn plain(&self, a: u32) -> Option<(u64, i128)>
        ensures { (size : ℕ) → (places : List Place) → Keeps size places self.now
            → result ≡ plain_in places (aggregate_in self.now a) }
    {
        let aggregate = aggregate_at(self.registry.as_slice(), a)?;
        plain(aggregate)
    }

    /// Scans the rows of a row group into the aggregate with this number, in which the row group is pending. Refused only with
    /// `NoMemory` (1). A refusal changes no answer.
    pub fn scan_at<G: LendGroup>(
        &mut self,
        alloc: Global,
        a: u32,
        group: &G,
        size: u32,
        number: u32,
    ) -> Result<(), Refusal>
        requires size { 0 < size }
        requires pending { is_pending_in (aggregate_in self.old a) number ≡ true }
        requires served { EntryIsServed (G.has group.now) (aggregate_in self.old a) }
        requires kept { (places : List Place)
            × (G.places group.now ≡ in_group size number places)
            × AreUpToDate size places self.old }
        ensures registered { OnOk result
            (registered_of self.new
            ≡ slice_set (registered_of self.old) a
            (option_map (after_scan number) (aggregate_in self.old a))) }
        ensures kept { (places : List Place) → G.places group.now ≡ in_group size number places
            → Keeps size places self.old
            → Keeps size places self.new }
        ensures unchanged { OnErr result (registered_of self.new ≡ registered_of self.old) }
        ensures memory { IfErr result (λ e. e ≡ Refusal.NoMemory) }
    {
        scan_at(alloc, &mut self.registry, a, group, size, number)
    }
}
