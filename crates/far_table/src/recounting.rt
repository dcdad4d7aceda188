// Aggregates that are computed from scratch: pieces of the table are folded separately, on threads, and then merged.
ghost use Rattle.std.specs.Prelude.{◌≡◌, ◌+◌, ◌*◌, ◌<◌, ◌≤◌, ◌^◌, ◌++◌, ◌∷◌, [], ℕ, length, max, IfOk, IfErr, IsOk, OnOk, vec_capacity};
ghost use Rattle.std.specs.Fn.{FnReturns};
ghost use Rattle.std.specs.Fork.{GivesEach};
ghost use Rattle.std.specs.Thread.{IsSync, IsSend};
ghost use Rattle.far_types.specs.Answers.{answer_over};
ghost use Rattle.far_types.specs.Table.{rows_of};
ghost use Rattle.far_rows.specs.Jobs.{AreAt};
ghost use Rattle.far_rows.specs.Places.{places_in};
ghost use Rattle.far_table.specs.MixedGroups.{MayFold};
ghost use Rattle.far_table.specs.Pieces.{IsPiece, IsWideCut, all_partials, AreBegun, AreFolded, AreWhole, HaveFewFaults};
ghost use Rattle.far_table.specs.Recounting.{AreWorkers, CountsFaults, FoldRefusal};

use crate::piece::{Cut, Piece, fold_piece};
use far_aggregates::{answer_of, group_count};
use far_offload::PartialDone;
use far_rows::Rows;
use far_store::{FarRead, FarTickets, Meter};
use far_types::{Answer, Refusal, Spec};
use std::alloc::{AllocError, Global};
use std::thread::{self, Threads};

/// Returns the number of row groups in a piece, so that there are at most as many pieces as workers.
fn long_for(count: u32, workers: u32) -> u32
    requires some { 0 < workers }
    ensures all { count ≤ workers * result }
    ensures some { 0 < result }
    ensures short { result ≤ max count 1 }
{
    count.div_ceil(workers).max(1)
}

/// A cut of a table, as if it had wider row groups: a piece is one of them.
#[derive(Clone, Copy)]
struct WideCut {
    cut: Cut,
    /// The number of places in a piece.
    size: u32,
    pieces: usize,
}

/// Cuts a table with row groups of `size` places into at most as many pieces as there are workers.
fn wide_cut<S: FarTickets>(rows: &Rows<S>, size: u32, workers: u32) -> WideCut
    requires size { size ≡ rows.now.size }
    requires some { 0 < workers }
    ensures cut { IsWideCut rows.now.size (length rows.now.alive) result }
    ensures few { result.pieces ≤ workers }
{
    let places = rows.len();
    let count = group_count(size, places) as u32;
    let long = long_for(count, workers);
    let wide = long * size;
    WideCut {
        cut: Cut { count, long },
        size: wide,
        pieces: group_count(wide, places),
    }
}

/// Calls `f` with each number below `count`, and pushes the results in order into a list that has the capacity for them, so no call is
/// wasted.
///
/// This thread makes the first call, and starts a thread for each of the others if one can be made. It starts them all, because a
/// thread that starts threads begins them late: a new one may first wait for the processor of the thread that started it.
#[cycle(calls)]
fn call_each<R: Threads + Sync, X: Send + Drop, F: Fn(usize) -> X + Sync>(
    rt: &R,
    count: usize,
    f: &F,
    mut results: Vec<X>,
) -> Vec<X>
    requires empty { results.items ≡ [] }
    requires room { count ≤ vec_capacity results }
    requires accepts { (i : ℕ) → i < count → F.pre f.now i }
    ensures room { vec_capacity results ≤ vec_capacity result }
    ensures len { length result.items ≡ count }
    ensures each { GivesEach F.Fn f.now count result.items }
{
    if count == 0 {
        return results;
    }
    if count == 1 {
        results.push(f(0)).unwrap();
        return results;
    }
    let last = count - 1;
    let front = move || -> X
        requires { F.pre f.now last }
        ensures { FnReturns F.Fn f.entry.now (last, tt) result }
    { f(last) };
    let back = move || -> Vec<X>
        requires { IsSync R.row
            × IsSync F.row
            × IsSend X.row
            × (results.items ≡ [])
            × (last ≤ vec_capacity results)
            × ((i : ℕ) → i < last → F.pre f.now i) }
        ensures { (vec_capacity results ≤ vec_capacity result)
            × (length result.items ≡ last)
            × GivesEach F.Fn f.entry.now last result.items }
    { call_each(rt, last, f, results) };
    let (result, mut results) = thread::join(rt, front, back);
    results.push(result).unwrap();
    results
}

/// Folds at most 64 pieces: the first in this thread, each of the others in a thread of its own if one can be made.
///
/// Refused if there is no memory for the list of pieces. Then no piece is folded.
fn fold_pieces<R: Threads + Sync, S: FarRead>(
    rt: &R,
    alloc: Global,
    rows: &Rows<S>,
    store: &S,
    spec: &Spec,
    wide: WideCut,
) -> Result<Vec<Piece>, AllocError>
    requires here { AreAt S.is_of (S.store_id store.now) rows.now }
    requires cut { IsWideCut rows.now.size (length rows.now.alive) wide }
    requires few { wide.pieces ≤ 64 }
    requires may_fold { MayFold rows.now spec.now }
    ensures { IfOk result
        (λ found. AreFolded S.may_fail spec.now (wide.cut.long * rows.now.size)
        (places_in S.content rows.now) wide.pieces found.items) }
{
    let cut = wide.cut;
    let found = Vec::with_capacity(alloc, wide.pieces)?;
    let fold = |i: usize| -> Piece
        requires { AreAt S.is_of (S.store_id store.now) rows.now
            × AreBegun rows.now.size (length rows.now.alive) cut.count
            × MayFold rows.now spec.now
            × (i < 64) }
        ensures { IsPiece S.may_fail spec.entry.now (cut.long * rows.entry.now.size)
            (places_in S.content rows.entry.now) i result }
    { fold_piece(alloc, rows, store, spec, cut, i) };
    Ok(call_each(rt, wide.pieces, &fold, found))
}

/// Folds at most 64 pieces in this thread, one after another.
///
/// Refused if there is no memory for the list of pieces. Then no piece is folded.
fn fold_in_turn<S: FarRead>(
    alloc: Global,
    rows: &Rows<S>,
    store: &S,
    spec: &Spec,
    wide: WideCut,
) -> Result<Vec<Piece>, AllocError>
    requires here { AreAt S.is_of (S.store_id store.now) rows.now }
    requires cut { IsWideCut rows.now.size (length rows.now.alive) wide }
    requires few { wide.pieces ≤ 64 }
    requires may_fold { MayFold rows.now spec.now }
    ensures { IfOk result
        (λ found. AreFolded S.may_fail spec.now (wide.cut.long * rows.now.size)
        (places_in S.content rows.now) wide.pieces found.items) }
{
    let (cut, pieces) = (wide.cut, wide.pieces);
    let mut found = Vec::with_capacity(alloc, pieces)?;
    for i in 0..pieces {
        found.push(fold_piece(alloc, rows, store, spec, cut, i))?;
    }
    Ok(found)
}

// Appends the partial aggregate of a piece, if it was not refused.
fn append(
    partials: &mut Vec<PartialDone>,
    partial: Result<PartialDone, Refusal>,
) -> Result<(), Refusal>
    ensures whole { OnOk result (IsOk partial) }
    ensures appended { OnOk result
        (IfOk partial (λ done. partials.new.items ≡ partials.old.items ++ done ∷ [])) }
{
    partials.push(partial?)?;
    Ok(())
}

/// Gathers the partial aggregates of all pieces, which were read from a store of type `S`, in order. Adds the faults of the pieces to the
/// caller's.
///
/// Refused with `FarFault` (21) exactly if the meter rises, else with `NoMemory` (1).
#[tactic(auto, using(crate::proofs::PiecesLaws::one_cause))]
fn gather<S: FarTickets>(
    alloc: Global,
    pieces: Vec<Piece>,
    meter: &mut Meter,
) -> Result<Vec<PartialDone>, Refusal>
    requires few { meter.old < 2 ^ 63 }
    requires pieces_few { length pieces.items ≤ 64 }
    requires faults_few { HaveFewFaults S.may_fail pieces.items }
    ensures partials { IfOk result (λ partials. partials.items ≡ all_partials pieces.items) }
    ensures whole { OnOk result (AreWhole pieces.items) }
    ensures refused { IfErr result (FoldRefusal meter.old meter.new) }
    ensures faults { CountsFaults S.may_fail (length pieces.items) meter.old meter.new result }
{
    let before = meter.faults();
    let mut partials = Vec::new(alloc);
    let mut whole = true;
    for piece in pieces {
        meter.join(piece.meter);
        whole &= append(&mut partials, piece.partial).is_ok();
    }
    if meter.faults() > before {
        return Err(Refusal::FarFault);
    }
    if !whole {
        return Err(Refusal::NoMemory);
    }
    Ok(partials)
}

/// Returns the answer of an aggregate over the rows, from the pieces that they were cut into. Adds the faults of the pieces to the
/// caller's.
///
/// Refused with `FarFault` (21) exactly if the meter rises, else with `NoMemory` (1).
fn answer_of_pieces<S: FarTickets>(
    alloc: Global,
    rows: &Rows<S>,
    spec: &Spec,
    wide: WideCut,
    pieces: Vec<Piece>,
    meter: &mut Meter,
) -> Result<Answer, Refusal>
    requires few { meter.old < 2 ^ 63 }
    requires cut { IsWideCut rows.now.size (length rows.now.alive) wide }
    requires pieces_few { wide.pieces ≤ 64 }
    requires folded { AreFolded S.may_fail spec.now (wide.cut.long * rows.now.size)
        (places_in S.content rows.now) wide.pieces pieces.items }
    ensures answer { IfOk result
        (λ answer. answer ≡ answer_over spec.now (rows_of (places_in S.content rows.now))) }
    ensures refused { IfErr result (FoldRefusal meter.old meter.new) }
    ensures faults { CountsFaults S.may_fail wide.pieces meter.old meter.new result }
{
    let partials = gather::<S>(alloc, pieces, meter)?;
    answer_of(alloc, spec, partials, wide.size, rows.len())
}

/// Returns the answer of an aggregate over the rows, whichever objects are away. At most `workers` threads fold the row groups,
/// in consecutive pieces, so at the end there is one partial aggregate to merge for each worker.
///
/// Refused with `FarFault` (21) exactly if the meter rises, else with `NoMemory` (1).
pub fn recount_rows<R: Threads + Sync, S: FarRead>(
    rt: &R,
    alloc: Global,
    rows: &Rows<S>,
    store: &S,
    meter: &mut Meter,
    spec: &Spec,
    size: u32,
    workers: u32,
) -> Result<Answer, Refusal>
    requires few { meter.old < 2 ^ 63 }
    requires here { AreAt S.is_of (S.store_id store.now) rows.now }
    requires may_fold { MayFold rows.now spec.now }
    requires size { size ≡ rows.now.size }
    requires workers { AreWorkers workers }
    ensures answer { IfOk result
        (λ answer. answer ≡ answer_over spec.now (rows_of (places_in S.content rows.now))) }
    ensures refused { IfErr result (FoldRefusal meter.old meter.new) }
    ensures faults { CountsFaults S.may_fail workers meter.old meter.new result }
{
    let wide = wide_cut(rows, size, workers);
    let pieces = fold_pieces(rt, alloc, rows, store, spec, wide)?;
    answer_of_pieces(alloc, rows, spec, wide, pieces, meter)
}

/// Does the same as `recount_rows` with one worker, without a runtime: this thread folds all row groups as one piece.
///
/// Refused with `FarFault` (21) exactly if the meter rises, else with `NoMemory` (1).
pub fn recount_alone<S: FarRead>(
    alloc: Global,
    rows: &Rows<S>,
    store: &S,
    meter: &mut Meter,
    spec: &Spec,
    size: u32,
) -> Result<Answer, Refusal>
    requires few { meter.old < 2 ^ 63 }
    requires here { AreAt S.is_of (S.store_id store.now) rows.now }
    requires may_fold { MayFold rows.now spec.now }
    requires size { size ≡ rows.now.size }
    ensures answer { IfOk result
        (λ answer. answer ≡ answer_over spec.now (rows_of (places_in S.content rows.now))) }
    ensures refused { IfErr result (FoldRefusal meter.old meter.new) }
    ensures faults { CountsFaults S.may_fail 1 meter.old meter.new result }
{
    let wide = wide_cut(rows, size, 1);
    let pieces = fold_in_turn(alloc, rows, store, spec, wide)?;
    answer_of_pieces(alloc, rows, spec, wide, pieces, meter)
}
