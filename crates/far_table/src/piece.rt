// A piece of a table: a run of row groups that one worker folds as if it were one row group.
ghost use Rattle.std.specs.Prelude.{◌≡◌, ◌+◌, ◌*◌, ◌<◌, ◌≤◌, ◌^◌, ℕ, [], ◌∷◌, length, IfOk};
ghost use Rattle.far_store.specs.Faults.{faults_in, FailsOnlyIf, RefusedBy};
ghost use Rattle.far_offload.specs.Partials.{partial_of};
ghost use Rattle.far_rows.specs.Jobs.{AreAt};
ghost use Rattle.far_rows.specs.Places.{places_in};
ghost use Rattle.far_aggregates.specs.Accumulators.{pairs_here};
ghost use Rattle.far_table.specs.MixedGroups.{MayFold};
ghost use Rattle.far_table.specs.Pieces.{begin_of, run_of, AreBegun, IsPiece};

use crate::extrema::observe_run;
use crate::totals::total_run;
use far_offload::PartialDone;
use far_rows::Rows;
use far_store::{FarRead, Meter};
use far_types::{Fold, Refusal, Spec};
use std::alloc::Global;

/// The partial aggregate of a piece, and the number of faults that occurred.
#[derive(Drop)]
pub(crate) struct Piece {
    pub(crate) partial: Result<PartialDone, Refusal>,
    pub(crate) meter: Meter,
}

/// How row groups are cut into pieces of `long` row groups, of which the last may have fewer.
#[derive(Clone, Copy)]
pub(crate) struct Cut {
    /// The number of row groups.
    pub(crate) count: u32,
    pub(crate) long: u32,
}

/// Returns the row group at which a piece begins and the piece before it ends.
fn begin_of(cut: Cut, piece: usize) -> u32
    requires { piece ≤ 64 }
    ensures { result ≡ begin_of cut.count cut.long piece }
{
    (piece * cut.long as usize).min(cut.count as usize) as u32
}

// Folds a run of row groups.
fn fold_run<S: FarRead>(
    alloc: Global,
    rows: &Rows<S>,
    store: &S,
    meter: &mut Meter,
    spec: &Spec,
    from: u32,
    to: u32,
) -> Result<PartialDone, Refusal>
    requires few { meter.old < 2 ^ 63 }
    requires here { AreAt S.is_of (S.store_id store.now) rows.now }
    requires order { from ≤ to }
    requires begun { (group : ℕ) → group < to → group * rows.now.size < length rows.now.alive }
    requires may_fold { MayFold rows.now spec.now }
    ensures partial { IfOk result
        (λ done. done
        ≡ partial_of spec.now.fold
        (pairs_here spec.now (run_of rows.now.size from to (places_in S.content rows.now)))) }
    ensures faults { meter.new ≡ meter.old + faults_in result }
    ensures cause { FailsOnlyIf S.may_fail result }
    ensures refused { RefusedBy (21 ∷ 1 ∷ []) result }
{
    match spec.fold {
        Fold::Totals => Ok(PartialDone::Totals(total_run(
            alloc, rows, store, meter, spec, from, to,
        )?)),
        Fold::Extrema => Ok(PartialDone::Extrema(observe_run(
            alloc, rows, store, meter, spec, from, to,
        )?)),
    }
}

/// Folds a piece, with a meter of its own.
pub(crate) fn fold_piece<S: FarRead>(
    alloc: Global,
    rows: &Rows<S>,
    store: &S,
    spec: &Spec,
    cut: Cut,
    piece: usize,
) -> Piece
    requires here { AreAt S.is_of (S.store_id store.now) rows.now }
    requires groups { AreBegun rows.now.size (length rows.now.alive) cut.count }
    requires may_fold { MayFold rows.now spec.now }
    requires few { piece < 64 }
    ensures { IsPiece S.may_fail spec.now (cut.long * rows.now.size)
        (places_in S.content rows.now) piece result }
{
    let from = begin_of(cut, piece);
    let to = begin_of(cut, piece + 1);
    let mut meter = Meter::new();
    let partial = fold_run(alloc, rows, store, &mut meter, spec, from, to);
    Piece { partial, meter }
}
