// Edits of the table of a stripe, and what its gauge reads afterwards.
ghost use Rattle.std.specs.Prelude.{◌≡◌, ◌<◌, ◌^◌, length, Some, IfOk, IfErr, OnOk, OnErr};
ghost use Rattle.far_table.specs.Watching.{aggregate_at};
ghost use Rattle.far_frame.specs.Effects.{Refuses};
ghost use Rattle.far_frame.specs.declared.step.Step.TheVariants as step;
ghost use Rattle.far_sessions.specs.Histories.{folded};
ghost use Rattle.far_shared.specs.Applying.{place_of};
ghost use Rattle.far_shared.specs.Editing.{IsChanged, IsMade};
ghost use Rattle.far_shared.specs.Plans.{IsPlan};
ghost use Rattle.far_shared.specs.Stripes.{KeepsHome, first_registered};

use far_frame::Frame;
use far_sessions::{PlanTag, Reading};
use far_store::FarTickets;
use far_types::{Edit, Refusal};

/// The result of an accepted edit: the place of the row that it appended, or the place that it names, and the gauge's reading
/// afterwards.
#[derive(Drop)]
pub(crate) struct EditOutcome {
    pub(crate) place: u32,
    pub(crate) after: Reading,
}

/// Makes an edit. Returns the place of the row that it appends, or the place that it names.
fn make<S: FarTickets>(frame: &mut Frame<S>, edit: Edit) -> Result<u32, Refusal>
    requires column_indexes { length frame.old.rows.column_indexes ≡ length frame.old.table.schema }
    ensures made { OnOk result (IsMade S.content frame.old edit frame.new) }
    ensures place { IfOk result (λ place. place ≡ place_of frame.old.table edit) }
    ensures due { IfErr result (λ e. Refuses frame.old (step.Edit edit) e frame.new) }
    ensures err { OnErr result (frame.new ≡ frame.old) }
    ensures keeps { KeepsHome S.is_of frame.old.rows frame.new.rows }
{
    match edit {
        Edit::Insert(row) => frame.insert(row),
        Edit::Set {
            place,
            column,
            cell,
        } => {
            frame.set(place, column, cell)?;
            Ok(place)
        }
        Edit::Remove(place) => {
            frame.remove(place)?;
            Ok(place)
        }
    }
}

/// Returns the gauge's reading of a table after `edits` edits.
fn gauged<N: PlanTag, S: FarTickets>(frame: &Frame<S>, edits: u64) -> Reading
    requires plan { IsPlan N.plan }
    requires gauge { aggregate_at frame.now.table 0 ≡ Some (first_registered N.plan.gauge) }
    ensures { result
        ≡ record {
          edits = edits;
          count = (folded N.plan.gauge frame.now.table.places).0;
          sum = (folded N.plan.gauge frame.now.table.places).1;
        } }
{
    let Some((count, sum)) = frame.plain(0) else {
        unreachable!()
    };
    Reading { edits, count, sum }
}

/// Makes an edit after `edits` others.
pub(crate) fn change<N: PlanTag, S: FarTickets>(
    frame: &mut Frame<S>,
    edits: u64,
    edit: Edit,
) -> Result<EditOutcome, Refusal>
    requires plan { IsPlan N.plan }
    requires gauge { aggregate_at frame.old.table 0 ≡ Some (first_registered N.plan.gauge) }
    requires column_indexes { length frame.old.rows.column_indexes ≡ length frame.old.table.schema }
    requires few { edits < 2 ^ 63 }
    ensures changed { IfOk result (IsChanged S.content N.plan edits frame.old edit frame.new) }
    ensures due { IfErr result (λ e. Refuses frame.old (step.Edit edit) e frame.new) }
    ensures err { OnErr result (frame.new ≡ frame.old) }
    ensures keeps { KeepsHome S.is_of frame.old.rows frame.new.rows }
{
    let place = make(frame, edit)?;
    let after = gauged::<N, S>(frame, edits + 1);
    Ok(EditOutcome { place, after })
}
