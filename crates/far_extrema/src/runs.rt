// The row groups of one key, in runs that follow one another.
ghost use Rattle.std.specs.Prelude.{◌≡◌, ◌≢◌, ℕ, ◌+◌, ◌<◌, ◌≤◌, [], Option, None, Some, IsTrue, OnOk, OnErr, IfOk, IfSome, false, length, suc, vec_len, vec_capacity};
ghost use Rattle.std.specs.List.{insert};
ghost use Rattle.far_types.specs.Effects.{join_min_maxes, merge_two};
ghost use Rattle.far_extrema.specs.Spreads.{at, IsSet, IsTopOf};
ghost use Rattle.far_extrema.specs.Runs.{RiseFrom, IsGap, whole, AreParts, IsPart, IsReached, JoinsOthers};

use super::min_max::{MinMax, either};
use super::run::{Run, search};
use std::alloc::{AllocError, Global};
use std::marker::Model;

/// The row groups in which a key occurs, in runs of at most 64, and their joined min-max.
#[derive(Drop)]
pub struct Runs {
    firsts: Vec<u32>,
    runs: Vec<Run>,
    top: Option<MinMax>,
    /// The index of a run that changed, and the joined min-max of all other runs. A queue takes its least values from one run after
    /// another, so the others are mostly not joined anew.
    apart: Option<(usize, Option<MinMax>)>,
}

impl Model for Runs {
    ghost use Rattle.far_extrema.specs.Spreads.{IsTopOf};
    ghost use Rattle.far_extrema.specs.Runs.{RunState, RiseFrom, whole, AreParts, IsApartFrom};

    ghost Value = { RunState };

    ghost view = { λ s. record { min_maxes = whole s.runs.items; top = s.top } };

    ghost invariant = { λ s. RiseFrom 0 s.firsts.items
        × AreParts s.firsts.items s.runs.items
        × IsTopOf (whole s.runs.items) s.top
        × IsApartFrom s.firsts.items s.runs.items s.apart };
}

/// Joins two min-maxes. If either is `None`, returns the other one.
fn joined_two(one: &Option<MinMax>, other: &Option<MinMax>) -> Option<MinMax>
    ensures { result ≡ merge_two join_min_maxes one.now other.now }
{
    match (one, other) {
        (Some(one), Some(other)) => Some(one.merge_two(*other)),
        (Some(one), None) => Some(*one),
        (None, other) => *other,
    }
}

/// Returns whether two min-maxes are the same.
fn are_same(one: &Option<MinMax>, other: &Option<MinMax>) -> bool
    ensures { IsTrue result → one.now ≡ other.now }
{
    match (one, other) {
        (Some(one), Some(other)) => one.min == other.min && one.max == other.max,
        (None, None) => true,
        _ => false,
    }
}

/// Returns the index of the run that has a row group or would have it, or `None` if the row group is before all runs.
fn part_of(firsts: &[u32], group: u32) -> Option<usize>
    requires { RiseFrom 0 firsts.now }
    ensures some { IfSome result (IsPart firsts.now group) }
    ensures none { result ≡ None → IsGap firsts.now group 0 }
{
    match search(firsts, group) {
        Ok(place) => Some(place),
        Err(place) => { if place == 0 { None } else { Some(place - 1) } }
    }
}

/// Joins the min-maxes of all runs. Returns `None` if there is none.
fn joined_runs(firsts: &[u32], runs: &[Run]) -> Option<MinMax>
    requires rise { RiseFrom 0 firsts.now }
    requires parts { AreParts firsts.now runs.now }
    ensures { IsTopOf (whole runs.now) result }
{
    let mut top = None;
    for run in runs {
        top = either(top, run.top());
    }
    top
}

/// Joins the min-maxes of all runs but one. Returns `None` if there is none.
fn joined_others(firsts: &[u32], runs: &[Run], place: usize) -> Option<MinMax>
    requires rise { RiseFrom 0 firsts.now }
    requires parts { AreParts firsts.now runs.now }
    requires in_firsts { place < length firsts.now }
    requires in_runs { place < length runs.now }
    ensures { JoinsOthers firsts.now runs.now place result }
{
    either(
        joined_runs(&firsts[..place], &runs[..place]),
        joined_runs(&firsts[place + 1..], &runs[place + 1..]),
    )
}

/// Returns `apart` if it belongs to the run at this index.
fn apart_at(
    apart: &Option<(usize, Option<MinMax>)>,
    place: usize,
) -> Option<(usize, Option<MinMax>)>
    ensures same { IfSome result (λ found. apart.now ≡ Some found) }
    ensures place { IfSome result (λ found. found.0 ≡ place) }
{
    match apart {
        Some((at, others)) if *at == place => Some((place, *others)),
        _ => None,
    }
}

/// Returns the joined min-max of all runs but one. Computes it unless that run is kept apart.
fn others_of(
    apart: &Option<(usize, Option<MinMax>)>,
    firsts: &[u32],
    runs: &[Run],
    place: usize,
) -> Option<MinMax>
    requires rise { RiseFrom 0 firsts.now }
    requires parts { AreParts firsts.now runs.now }
    requires in_firsts { place < length firsts.now }
    requires in_runs { place < length runs.now }
    requires apart { IfSome apart.now (λ found. JoinsOthers firsts.now runs.now place found.1) }
    ensures { JoinsOthers firsts.now runs.now place result }
{
    match apart {
        Some((_, others)) => *others,
        None => joined_others(firsts, runs, place),
    }
}

/// Inserts a run after another one, into vectors that have capacity for it. Allocates nothing.
fn put_after(firsts: &mut Vec<u32>, runs: &mut Vec<Run>, place: usize, first: u32, run: Run)
    requires in_range { place < length firsts.old.items }
    requires same { length runs.old.items ≡ length firsts.old.items }
    requires firsts_room { vec_len firsts.old < vec_capacity firsts.old }
    requires runs_room { vec_len runs.old < vec_capacity runs.old }
    ensures firsts { firsts.new.items ≡ insert firsts.old.items (suc place) first }
    ensures runs { runs.new.items ≡ insert runs.old.items (suc place) run }
{
    if firsts.insert(place + 1, first).is_err() || runs.insert(place + 1, run).is_err() {
        unreachable!();
    }
}

/// Cuts a run if it is full, so that a row group can be added.
fn make_room(
    firsts: &mut Vec<u32>,
    runs: &mut Vec<Run>,
    alloc: Global,
    place: usize,
    group: u32,
) -> Result<(), AllocError>
    requires rise { RiseFrom 0 firsts.old.items }
    requires parts { AreParts firsts.old.items runs.old.items }
    requires part { IsPart firsts.old.items group place }
    ensures reached { OnOk result (IsReached firsts.new.items group) }
    ensures rise { RiseFrom 0 firsts.new.items }
    ensures parts { AreParts firsts.new.items runs.new.items }
    ensures same { whole runs.new.items ≡ whole runs.old.items }
{
    firsts.reserve(1)?;
    runs.reserve(1)?;
    if let Some((first, late)) = runs[place].cut_if_full(alloc, group)? {
        put_after(firsts, runs, place, first, late);
    }
    Ok(())
}

/// Inserts an empty first run, for the row groups from 0 on.
fn start(firsts: &mut Vec<u32>, runs: &mut Vec<Run>, alloc: Global) -> Result<(), AllocError>
    requires rise { RiseFrom 1 firsts.old.items }
    requires parts { AreParts firsts.old.items runs.old.items }
    ensures reached { (group : ℕ) → OnOk result (IsReached firsts.new.items group) }
    ensures rise { RiseFrom 0 firsts.new.items }
    ensures parts { AreParts firsts.new.items runs.new.items }
    ensures same { whole runs.new.items ≡ whole runs.old.items }
{
    // Most keys have one run.
    firsts.reserve_exact(1)?;
    runs.reserve_exact(1)?;
    if firsts.insert(0, 0).is_err() || runs.insert(0, Run::new(alloc)).is_err() {
        unreachable!();
    }
    Ok(())
}

/// Makes room for a row group in its run.
fn ready(
    firsts: &mut Vec<u32>,
    runs: &mut Vec<Run>,
    alloc: Global,
    group: u32,
) -> Result<(), AllocError>
    requires rise { RiseFrom 0 firsts.old.items }
    requires parts { AreParts firsts.old.items runs.old.items }
    ensures reached { OnOk result (IsReached firsts.new.items group) }
    ensures rise { RiseFrom 0 firsts.new.items }
    ensures parts { AreParts firsts.new.items runs.new.items }
    ensures same { whole runs.new.items ≡ whole runs.old.items }
{
    match part_of(firsts, group) {
        Some(place) => make_room(firsts, runs, alloc, place, group),
        None => start(firsts, runs, alloc),
    }
}

/// Makes room for a new row group, and returns the index of its run.
fn place_for(
    firsts: &mut Vec<u32>,
    runs: &mut Vec<Run>,
    alloc: Global,
    group: u32,
) -> Result<usize, AllocError>
    requires rise { RiseFrom 0 firsts.old.items }
    requires parts { AreParts firsts.old.items runs.old.items }
    ensures rise { RiseFrom 0 firsts.new.items }
    ensures parts { AreParts firsts.new.items runs.new.items }
    ensures same { whole runs.new.items ≡ whole runs.old.items }
    ensures part { IfOk result (IsPart firsts.new.items group) }
{
    ready(firsts, runs, alloc, group)?;
    match part_of(firsts, group) {
        Some(place) => Ok(place),
        None => unreachable!(),
    }
}

/// Drops a run if it has no row group left. Returns whether it did. Allocates nothing.
fn drop_if_empty(firsts: &mut Vec<u32>, runs: &mut Vec<Run>, place: usize) -> bool
    requires rise { RiseFrom 0 firsts.old.items }
    requires parts { AreParts firsts.old.items runs.old.items }
    requires in_range { place < length runs.old.items }
    ensures rise { RiseFrom 0 firsts.new.items }
    ensures parts { AreParts firsts.new.items runs.new.items }
    ensures same { whole runs.new.items ≡ whole runs.old.items }
    ensures kept_firsts { result ≡ false → firsts.new.items ≡ firsts.old.items }
    ensures kept_runs { result ≡ false → runs.new.items ≡ runs.old.items }
{
    if !runs[place].is_empty() {
        return false;
    }
    firsts.remove(place);
    runs.remove(place);
    true
}

impl Runs {
    /// Makes runs without row groups. Allocates nothing.
    pub fn new(alloc: Global) -> Runs
        ensures { result.min_maxes ≡ [] }
    {
        Runs {
            firsts: Vec::new(alloc),
            runs: Vec::new(alloc),
            top: None,
            apart: None,
        }
    }

    /// Returns the min-max of a row group, or `None` if the key does not occur in it.
    pub fn min_max(&self, group: u32) -> Option<MinMax>
        ensures { result ≡ at self.now.min_maxes group }
    {
        match part_of(&self.firsts, group) {
            Some(place) => self.runs[place].min_max(group),
            None => None,
        }
    }

    /// Returns the joined min-max of all row groups, or `None` if there is none.
    pub fn top(&self) -> Option<MinMax>
        ensures is { result ≡ self.now.top }
        ensures top { IsTopOf self.now.min_maxes result }
    {
        self.top
    }

    /// Returns whether there is no row group.
    pub fn is_empty(&self) -> bool
        ensures { IsTrue result → self.now.min_maxes ≡ [] }
    {
        match &self.top {
            Some(_) => false,
            None => true,
        }
    }

    /// Adds a row group. If memory runs out, nothing is changed.
    pub fn add(&mut self, alloc: Global, group: u32, min_max: MinMax) -> Result<(), AllocError>
        requires { at self.old.min_maxes group ≡ None }
        ensures ok { OnOk result
            (IsSet self.old.min_maxes group (Some min_max) self.new.min_maxes) }
        ensures err { OnErr result (self.new ≡ self.old) }
    {
        self.apart = None;
        let place = place_for(&mut self.firsts, &mut self.runs, alloc, group)?;
        self.runs[place].add(group, min_max)?;
        self.top = either(self.top, Some(min_max));
        Ok(())
    }

    /// Sets the min-max of a row group in which the key occurs. Allocates nothing.
    pub fn put(&mut self, group: u32, min_max: MinMax)
        requires { at self.old.min_maxes group ≢ None }
        ensures { IsSet self.old.min_maxes group (Some min_max) self.new.min_maxes }
    {
        match part_of(&self.firsts, group) {
            Some(place) => {
                self.apart = apart_at(&self.apart, place);
                let before = self.runs[place].top();
                self.runs[place].put(group, min_max);
                let after = self.runs[place].top();
                if are_same(&before, &after) {
                    return;
                }
                let others = others_of(&self.apart, &self.firsts, &self.runs, place);
                self.top = joined_two(&others, &after);
                self.apart = Some((place, others));
            }
            None => unreachable!(),
        }
    }

    /// Removes a row group, and its run too if that has no row group left. Allocates nothing.
    pub fn leave(&mut self, group: u32)
        requires { at self.old.min_maxes group ≢ None }
        ensures { IsSet self.old.min_maxes group None self.new.min_maxes }
    {
        match part_of(&self.firsts, group) {
            Some(place) => {
                self.apart = apart_at(&self.apart, place);
                let before = self.runs[place].top();
                self.runs[place].leave(group);
                let after = self.runs[place].top();
                if are_same(&before, &after) {
                    return;
                }
                if drop_if_empty(&mut self.firsts, &mut self.runs, place) {
                    self.apart = None;
                    self.top = joined_runs(&self.firsts, &self.runs);
                    return;
                }
                let others = others_of(&self.apart, &self.firsts, &self.runs, place);
                self.top = joined_two(&others, &after);
                self.apart = Some((place, others));
            }
            None => unreachable!(),
        }
    }
}
