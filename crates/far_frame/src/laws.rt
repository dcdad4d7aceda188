// Promises of a run in a user's words, proved from the relation of steps.
ghost use Rattle.std.specs.Prelude.{◌≡◌, ◌≢◌, ◌<◌, ◌≤◌, ◌+◌, ℕ, List, ◌∷◌, [], ◌++◌, None, Some, IfSome, IsSome, IsSomeAnd, true, false, option_map, slice_get, slice_range};
ghost use Rattle.std.specs.List.{flat_map};
ghost use Rattle.far_types.specs.declared.answer.Answer.{Answer};
ghost use Rattle.far_types.specs.declared.cell.Cell.{Cell};
ghost use Rattle.far_types.specs.declared.cell.Kind.{Kind};
ghost use Rattle.far_types.specs.declared.edit.Edit.{Edit};
ghost use Rattle.far_types.specs.declared.limits.Limits.{Limits};
ghost use Rattle.far_types.specs.declared.refusal.Refusal.{Refusal};
ghost use Rattle.far_types.specs.declared.refusal.Refusal.TheVariants as refusal;
ghost use Rattle.far_types.specs.Edits.{after_edit, edit_refusal};
ghost use Rattle.far_types.specs.FirstOf.{first_of};
ghost use Rattle.far_types.specs.MayRefuse.{MayRefuse};
ghost use Rattle.far_types.specs.Bounds.{AreLimits};
ghost use Rattle.far_types.specs.Table.{Registered, Table, left, answer_now, column as column_of, part};
ghost use Rattle.far_evacuator.specs.Jobs.{CarriedEvacuation};
ghost use Rattle.far_rows.specs.declared.object.Object.{Object};
ghost use Rattle.far_rows.specs.Coldest.{pins_at};
ghost use Rattle.far_rows.specs.Jobs.{pins_by};
ghost use Rattle.far_rows.specs.Moving.{object_at};
ghost use Rattle.far_rows.specs.Opening.{empty_rows};
ghost use Rattle.far_table.specs.Edits.{edit_due};
ghost use Rattle.far_table.specs.Offloading.{Build};
ghost use Rattle.far_table.specs.Recounting.{IsAnswerNow};
ghost use Rattle.far_table.specs.Watching.{aggregate_at, after_scan_at};
ghost use Rattle.far_frame.specs.declared.job.JobPhase.TheVariants as work;
ghost use Rattle.far_frame.specs.declared.step.Reply.{Reply};
ghost use Rattle.far_frame.specs.declared.step.Reply.TheVariants as reply;
ghost use Rattle.far_frame.specs.declared.step.Step.{Step};
ghost use Rattle.far_frame.specs.declared.step.Step.TheVariants as step;
ghost use Rattle.far_frame.specs.Effects.{edit_reply};
ghost use Rattle.far_frame.specs.Jobs.{JobRecord, IsForgotten, MayCommit, MayInstall, MayMerge};
ghost use Rattle.far_frame.specs.Lending.{flags_of, lent_part, pieces_in};
ghost use Rattle.far_frame.specs.PlainEdits.{IsPlainRefusal};
ghost use Rattle.far_frame.specs.Pins.{ArePinnedHere, is_here, is_pinning};
ghost use Rattle.far_frame.specs.Renewing.{IsMigrated, IsMigratedTo};
ghost use Rattle.far_frame.specs.Runs.{end_of, is_movement, is_refused, job_of, plain_rows};
ghost use Rattle.far_frame.specs.Waiting.{job_at, without_job};
ghost use Rattle.far_frame.specs.State.{State, live};
ghost use Rattle.far_frame.specs.Steps.{IsStep, IsRun};
ghost use Rattle.far_frame.specs.Worlds.{AreNumbered, HasOwnTickets, IsSpent, IsWorld, World};
ghost use Rattle.far_frame.specs.TableRefusals.{TableState, all_away};
ghost use Rattle.far_frame.specs.TableRuns.{ArePinnedLocal, IsTableRun, IsTableStep};
ghost use Rattle.far_frame.specs.TableViews.{IsKept, table_of};
ghost use Rattle.far_frame.specs.Views.{away};

use far_store::FarTickets;

/// After any list of steps, the table has the rows of the plain list after the accepted edits, whatever aggregates were
/// registered, scanned and asked in between.
pub fn rows_are_those_of_the_plain_list<S: FarTickets>()
    ensures { (old : World S.Ticket) → (steps : List Step) → (replies : List Reply)
        → (new : World S.Ticket) → IsRun S.is_of S.content S.number_of old steps replies new
        → new.state.table.places ≡ plain_rows steps replies old.state.table.places }
{}

/// An answer of an aggregate is the fold over the table's rows as they are now, and no row group is pending in it. `Ask`
/// changes nothing.
pub fn an_answer_is_over_the_rows_now<S: FarTickets>()
    ensures answer { (old : World S.Ticket) → (a : ℕ) → (answer : Answer) → (new : World S.Ticket)
        → IsStep S.content S.number_of old (step.Ask a) (reply.Answer answer) new
        → IsAnswerNow old.state.table a answer }
    ensures all_scanned { (old : World S.Ticket) → (a : ℕ) → (answer : Answer)
        → (new : World S.Ticket)
        → IsStep S.content S.number_of old (step.Ask a) (reply.Answer answer) new
        → IsSomeAnd (aggregate_at old.state.table a) (λ aggregate. left aggregate.pending ≡ 0) }
    ensures same { (old : World S.Ticket) → (a : ℕ) → (answer : Answer) → (new : World S.Ticket)
        → IsStep S.content S.number_of old (step.Ask a) (reply.Answer answer) new
        → new ≡ old }
{}

/// An accepted edit does to the rows what it does to the plain list, and has the same reply.
///
/// An edit is refused for the reason for which the plain list refuses it; or because an object is away or does not fit; or,
/// if the plain list accepts it and no such reason holds, because memory ran out.
pub fn an_edit_is_that_of_the_plain_list<S: FarTickets>()
    ensures inserted { (old : World S.Ticket) → (e : Edit) → (place : ℕ) → (new : World S.Ticket)
        → IsStep S.content S.number_of old (step.Edit e) (reply.Place place) new
        → new.state.table ≡ after_edit e old.state.table }
    ensures done { (old : World S.Ticket) → (e : Edit) → (new : World S.Ticket)
        → IsStep S.content S.number_of old (step.Edit e) reply.Done new
        → new.state.table ≡ after_edit e old.state.table }
    ensures placed { (old : World S.Ticket) → (e : Edit) → (place : ℕ) → (new : World S.Ticket)
        → IsStep S.content S.number_of old (step.Edit e) (reply.Place place) new
        → reply.Place place ≡ edit_reply old.state.table e }
    ensures returned { (old : World S.Ticket) → (e : Edit) → (new : World S.Ticket)
        → IsStep S.content S.number_of old (step.Edit e) reply.Done new
        → reply.Done ≡ edit_reply old.state.table e }
    ensures accepted { (old : World S.Ticket) → (e : Edit) → (given : Reply)
        → (new : World S.Ticket) → is_refused given ≡ false
        → IsStep S.content S.number_of old (step.Edit e) given new
        → edit_refusal old.state.table e ≡ None }
    ensures refused { (old : World S.Ticket) → (e : Edit) → (given : Refusal)
        → (new : World S.Ticket)
        → IsStep S.content S.number_of old (step.Edit e) (reply.Refused given) new
        → MayRefuse (edit_due (live old.state) e) true given }
    ensures plain { (old : World S.Ticket) → (e : Edit) → (given : Refusal) → (new : World S.Ticket)
        → IsStep S.content S.number_of old (step.Edit e) (reply.Refused given) new
        → IsPlainRefusal old.state.table e given }
{}

/// An answer of a recount is the fold of the aggregate over the table's rows as they are now. That holds for every answer
/// of `Frame::recount`: whichever row groups are pending, whichever objects are away, and for any number of workers.
///
/// So recounts have the same answer as long as the rows and the specification do not change. When no row group is pending,
/// `Ask` has that answer too.
pub fn a_recount_is_over_the_rows_now<S: FarTickets>()
    ensures answer { (table : Table) → (a : ℕ) → (answer : Answer) → (aggregate : Registered)
        → aggregate_at table a ≡ Some aggregate
        → IsAnswerNow table a answer
        → answer ≡ answer_now aggregate.spec table }
    ensures same { (table : Table) → (a : ℕ) → (one other : Answer) → IsAnswerNow table a one
        → IsAnswerNow table a other
        → one ≡ other }
    ensures asked { (table : Table) → (a : ℕ) → (counted : Answer) → IsAnswerNow table a counted
        → (old : World S.Ticket) → old.state.table.places ≡ table.places
        → option_map (λ aggregate. aggregate.spec) (aggregate_at old.state.table a)
        ≡ option_map (λ aggregate. aggregate.spec) (aggregate_at table a)
        → (answer : Answer) → (new : World S.Ticket)
        → IsStep S.content S.number_of old (step.Ask a) (reply.Answer answer) new
        → answer ≡ counted }
{}

/// A table that moves to another store, by `World::migrate` or by `migrate`, keeps its rows and aggregates, and so its
/// answers.
pub fn a_migration_keeps_the_table<S: FarTickets, N: FarTickets>()
    ensures world { (id : List ℕ) → (old : World S.Ticket) → (new : World N.Ticket)
        → IsMigratedTo S.content N.content id old new
        → new.state.table ≡ old.state.table }
    ensures frame { (old : State S.Ticket) → (new : State N.Ticket)
        → IsMigrated S.content N.content old new
        → new.table ≡ old.table }
{}

/// The pieces of a part of a column (`lent_part`), joined, are that part of the column with the flags of its places. Dead
/// places are included.
///
/// The contracts of `View::ints` and of the two `record_lending` cite `lent_part`, as does the step `Lend`. `View::texts`
/// returns the part in one piece, for which its contract says the same. `View::text` returns the cell of one place.
pub fn a_lent_part_is_that_of_its_column()
    ensures cells { (table : Table) → AreLimits table.limits
        → (column from to : ℕ) → from ≤ to
        → flat_map (λ piece. piece.cells) (lent_part table column from to)
        ≡ part column from to table.places }
    ensures flags { (table : Table) → AreLimits table.limits
        → (column from to : ℕ) → from ≤ to
        → flat_map (λ piece. piece.flags) (lent_part table column from to)
        ≡ slice_range (flags_of table.places) from to }
    ensures one { (table : Table) → (column place : ℕ) → (cell : Cell)
        → slice_get (column_of column table.places) place ≡ Some cell
        → part column place (place + 1) table.places ≡ cell ∷ [] }
{}

/// The pieces in the reply to a lending, joined, are that part of the column, with the flags of its places.
pub fn a_lent_reply_is_that_part<S: FarTickets>()
    ensures cells { (old : World S.Ticket) → AreLimits old.state.table.limits
        → (column from to : ℕ) → (given : Reply) → (new : World S.Ticket) → is_refused given ≡ false
        → IsStep S.content S.number_of old (step.Lend column from to) given new
        → flat_map (λ piece. piece.cells) (pieces_in given)
        ≡ part column from to old.state.table.places }
    ensures flags { (old : World S.Ticket) → AreLimits old.state.table.limits
        → (column from to : ℕ) → (given : Reply) → (new : World S.Ticket) → is_refused given ≡ false
        → IsStep S.content S.number_of old (step.Lend column from to) given new
        → flat_map (λ piece. piece.flags) (pieces_in given)
        ≡ slice_range (flags_of old.state.table.places) from to }
{}

/// A refused step changes no row, column, aggregate or object, and no access history.
pub fn a_refused_step_changes_nothing<S: FarTickets>()
    ensures { (old : World S.Ticket) → (s : Step) → (given : Refusal) → (new : World S.Ticket)
        → IsStep S.content S.number_of old s (reply.Refused given) new
        → new.state ≡ old.state }
{}

/// None of these changes a row, an aggregate or an answer: lendings, pins, jobs that move objects in any phase, beginnings
/// and carries of offloaded builds, compactions and proposals.
pub fn movement_changes_no_row<S: FarTickets>()
    ensures { (old : World S.Ticket) → (s : Step) → (given : Reply) → (new : World S.Ticket)
        → is_movement s ≡ true
        → IsStep S.content S.number_of old s given new
        → new.state.table ≡ old.state.table }
{}

/// No step evicts an object that has a pin: a commit of its eviction is refused. Only `Pin` and `Unpin` change how many
/// pins an object has.
///
/// So from the opening of a table on, every object that has a pin is local, and no lending is refused for it.
pub fn a_pinned_object_stays<S: FarTickets>()
    ensures stays { (old : World S.Ticket) → (s : Step) → (given : Reply) → (new : World S.Ticket)
        → IsStep S.content S.number_of old s given new
        → (o : Object) → pins_at old.state.rows o ≢ 0
        → is_here old.state.rows o ≡ true
        → is_here new.state.rows o ≡ true }
    ensures pins { (old : World S.Ticket) → (s : Step) → (given : Reply) → (new : World S.Ticket)
        → is_pinning s ≡ false
        → IsStep S.content S.number_of old s given new
        → (o : Object) → pins_at new.state.rows o ≡ pins_at old.state.rows o }
    ensures run { (old : World S.Ticket) → (steps : List Step) → (replies : List Reply)
        → (new : World S.Ticket) → ArePinnedHere old.state.rows
        → IsRun S.is_of S.content S.number_of old steps replies new
        → ArePinnedHere new.state.rows }
    ensures opened { (schema : List Kind) → (limits : Limits) → (number : ℕ)
        → ArePinnedHere (empty_rows {K = S.Ticket} schema limits number) }
    ensures lent { (old : World S.Ticket) → ArePinnedHere old.state.rows
        → (column from to c g : ℕ) → (new : World S.Ticket)
        → IsStep S.content S.number_of old (step.Lend column from to)
        (reply.Refused (refusal.Absent c g)) new
        → IfSome (object_at old.state.rows c g) (λ o. pins_at old.state.rows o ≡ 0) }
    ensures committed { (old : World S.Ticket) → (n : ℕ) → (job : JobRecord S.Ticket)
        → (carried : CarriedEvacuation S.Ticket)
        → job_at old.jobs n ≡ Some job
        → job.work ≡ work.Carried carried
        → pins_by old.state.rows carried ≢ 0
        → (new : World S.Ticket)
        → ¬ (IsStep S.content S.number_of old (step.Commit n) reply.Done new) }
{}

/// A migration evicts and fetches no object, and each keeps its pins.
pub fn pins_outlast_a_migration<S: FarTickets, N: FarTickets>()
    ensures run { (id : List ℕ) → (old : World S.Ticket) → (new : World N.Ticket)
        → ArePinnedHere old.state.rows → IsMigratedTo S.content N.content id old new
        → ArePinnedHere new.state.rows }
    ensures pins { (id : List ℕ) → (old : World S.Ticket) → (new : World N.Ticket)
        → IsMigratedTo S.content N.content id old new
        → (o : Object) → pins_at new.state.rows o ≡ pins_at old.state.rows o }
    ensures places { (id : List ℕ) → (old : World S.Ticket) → (new : World N.Ticket)
        → IsMigratedTo S.content N.content id old new
        → (o : Object) → is_here new.state.rows o ≡ is_here old.state.rows o }
{}

/// An accepted merge does to the table exactly what a scan of its row group does, and changes no row and no object.
pub fn a_merge_is_a_scan<S: FarTickets>()
    ensures table { (old : World S.Ticket) → (n : ℕ) → (job : JobRecord S.Ticket)
        → (build : Build S.Ticket) → job_at old.jobs n ≡ Some job
        → job.work ≡ work.Offloaded build
        → (new : World S.Ticket) → IsStep S.content S.number_of old (step.Merge n) reply.Done new
        → new.state
        ≡ record old.state
        { table = after_scan_at build.aggregate build.group old.state.table } }
    ensures scan { (old : World S.Ticket) → (n : ℕ) → (job : JobRecord S.Ticket)
        → (build : Build S.Ticket) → job_at old.jobs n ≡ Some job
        → job.work ≡ work.Offloaded build
        → (new : World S.Ticket) → IsStep S.content S.number_of old (step.Merge n) reply.Done new
        → (scanned : World S.Ticket)
        → IsStep S.content S.number_of old (step.ScanGroup build.aggregate build.group) reply.Done
        scanned
        → new.state ≡ scanned.state }
{}

/// A stale job changes nothing, except that its number is spent; a stale carry changes nothing at all. A number without a
/// job, since it is spent or was never given out, is stale in every step that names it.
pub fn a_stale_job_changes_nothing<S: FarTickets>()
    ensures committed { (old : World S.Ticket) → (n : ℕ) → (new : World S.Ticket)
        → IsStep S.content S.number_of old (step.Commit n) (reply.Refused Refusal.StaleJob) new
        → new ≡ record old { jobs = without_job old.jobs n } }
    ensures installed { (old : World S.Ticket) → (n : ℕ) → (new : World S.Ticket)
        → IsStep S.content S.number_of old (step.Install n) (reply.Refused Refusal.StaleJob) new
        → new ≡ record old { jobs = without_job old.jobs n } }
    ensures merged { (old : World S.Ticket) → (n : ℕ) → (new : World S.Ticket)
        → IsStep S.content S.number_of old (step.Merge n) (reply.Refused Refusal.StaleJob) new
        → new ≡ record old { jobs = without_job old.jobs n } }
    ensures carried { (old : World S.Ticket) → (n : ℕ) → (new : World S.Ticket)
        → IsStep S.content S.number_of old (step.Carry n) (reply.Refused Refusal.StaleJob) new
        → new ≡ old }
    ensures spent { (old : World S.Ticket) → (s : Step)
        → IsSomeAnd (job_of s) (λ n. job_at old.jobs n ≡ None)
        → (given : Reply) → (new : World S.Ticket) → IsStep S.content S.number_of old s given new
        → given ≡ reply.Refused refusal.StaleJob }
{}

/// A job is stale at its end if its premise no longer holds. These jobs are stale:
///
/// - a job of another kind than its end, or one that was not carried;
/// - a job whose object was evicted or fetched since it began, or written since;
/// - a build whose row group was edited, or scanned in another way, or whose aggregate was registered anew;
/// - a job that was accepted before.
///
/// A build whose aggregate is not registered is not stale: it is refused with `NoAggregate`, and keeps its number.
pub fn a_job_is_stale_once_what_it_rests_on_changed<S: FarTickets>()
    ensures committed { (old : World S.Ticket) → (n : ℕ) → (job : JobRecord S.Ticket)
        → job_at old.jobs n ≡ Some job
        → ¬ (MayCommit S.number_of old.state job.work)
        → (given : Reply) → (new : World S.Ticket)
        → IsStep S.content S.number_of old (step.Commit n) given new
        → given ≡ reply.Refused refusal.StaleJob }
    ensures installed { (old : World S.Ticket) → (n : ℕ) → (job : JobRecord S.Ticket)
        → job_at old.jobs n ≡ Some job
        → ¬ (MayInstall S.number_of old.state job.work)
        → (given : Reply) → (new : World S.Ticket)
        → IsStep S.content S.number_of old (step.Install n) given new
        → given ≡ reply.Refused refusal.StaleJob }
    ensures merged { (old : World S.Ticket) → (n : ℕ) → (job : JobRecord S.Ticket)
        → job_at old.jobs n ≡ Some job
        → ¬ (MayMerge S.number_of old.state job.work)
        → ¬ (IsForgotten old.state job.work)
        → (given : Reply) → (new : World S.Ticket)
        → IsStep S.content S.number_of old (step.Merge n) given new
        → given ≡ reply.Refused refusal.StaleJob }
    ensures forgotten { (old : World S.Ticket) → (n : ℕ) → (job : JobRecord S.Ticket)
        → job_at old.jobs n ≡ Some job
        → IsForgotten old.state job.work
        → (given : Reply) → (new : World S.Ticket)
        → IsStep S.content S.number_of old (step.Merge n) given new
        → given ≡ reply.Refused refusal.NoAggregate }
    ensures kept { (old : World S.Ticket) → (n : ℕ) → (new : World S.Ticket)
        → IsStep S.content S.number_of old (step.Merge n) (reply.Refused refusal.NoAggregate) new
        → new ≡ old }
    ensures again { (old : World S.Ticket) → AreNumbered old
        → (s : Step) → (n : ℕ) → end_of s ≡ Some n
        → (mid : World S.Ticket) → IsStep S.content S.number_of old s reply.Done mid
        → (other : Step) → job_of other ≡ Some n
        → (given : Reply) → (new : World S.Ticket)
        → IsStep S.content S.number_of mid other given new
        → given ≡ reply.Refused refusal.StaleJob }
{}

/// A number names one job. All jobs of a world have different numbers: when `World::new` or `World::migrate` makes it, and
/// after any run.
///
/// The end of a job spends its number if the job is accepted or stale. No later job gets that number, and every step that
/// names it is stale. A migration spends all numbers that were given out. That a spent number stays spent is also a clause
/// of `run`.
pub fn a_number_names_one_job<S: FarTickets, N: FarTickets>()
    ensures opened { (old : World S.Ticket) → old.jobs ≡ [] → AreNumbered old }
    ensures run { (old : World S.Ticket) → (steps : List Step) → (replies : List Reply)
        → (new : World S.Ticket) → AreNumbered old
        → IsRun S.is_of S.content S.number_of old steps replies new
        → AreNumbered new }
    ensures accepted { (old : World S.Ticket) → AreNumbered old
        → (s : Step) → (n : ℕ) → end_of s ≡ Some n
        → (new : World S.Ticket) → IsStep S.content S.number_of old s reply.Done new
        → IsSpent n new }
    ensures stale { (old : World S.Ticket) → AreNumbered old
        → (s : Step) → (n : ℕ) → end_of s ≡ Some n
        → IsSome (job_at old.jobs n)
        → (new : World S.Ticket)
        → IsStep S.content S.number_of old s (reply.Refused refusal.StaleJob) new
        → IsSpent n new }
    ensures spent { (n : ℕ) → (old : World S.Ticket) → (steps : List Step) → (replies : List Reply)
        → (new : World S.Ticket) → IsSpent n old
        → IsRun S.is_of S.content S.number_of old steps replies new
        → IsSpent n new }
    ensures named { (old : World S.Ticket) → (s : Step) → IsSomeAnd (job_of s) (λ n. IsSpent n old)
        → (given : Reply) → (new : World S.Ticket) → IsStep S.content S.number_of old s given new
        → given ≡ reply.Refused refusal.StaleJob }
    ensures migrated { (id : List ℕ) → (old : World S.Ticket) → (new : World N.Ticket)
        → IsMigratedTo S.content N.content id old new
        → (n : ℕ) → n < old.begun
        → IsSpent n new }
{}

/// Serving two lists of steps in turn is the same as serving the joined list.
pub fn runs_join<S: FarTickets>()
    ensures { (old : World S.Ticket) → (steps : List Step) → (replies : List Reply)
        → (mid : World S.Ticket) → (more : List Step) → (others : List Reply)
        → (new : World S.Ticket) → IsRun S.is_of S.content S.number_of old steps replies mid
        → IsRun S.is_of S.content S.number_of mid more others new
        → IsRun S.is_of S.content S.number_of old (steps ++ more) (replies ++ others) new }
{}

/// All tickets of a world are of its store, after any run: those of objects, and those in jobs, also one that a carry got. A
/// run does not change the store.
///
/// So tickets of equal numbers have equal contents (`FarTickets::same`). A merge compares numbers alone: if it is accepted,
/// its build read what the objects hold.
pub fn a_run_keeps_to_its_store<S: FarTickets>()
    ensures store { (old : World S.Ticket) → (steps : List Step) → (replies : List Reply)
        → (new : World S.Ticket) → IsRun S.is_of S.content S.number_of old steps replies new
        → new.store ≡ old.store }
    ensures tickets { (old : World S.Ticket) → (steps : List Step) → (replies : List Reply)
        → (new : World S.Ticket) → HasOwnTickets S.is_of old
        → IsRun S.is_of S.content S.number_of old steps replies new
        → IsWorld S.is_of old.store new.state new.jobs }
{}

/// A step of a world is also a step of its table in a user's words.
pub fn a_step_is_one_of_its_table<S: FarTickets>()
    ensures { (old : World S.Ticket) → IsKept S.content old.state → (s : Step) → (given : Reply)
        → (new : World S.Ticket) → IsStep S.content S.number_of old s given new
        → IsTableStep (table_of old.state) s given (table_of new.state) }
{}

/// The refusal of lending every place names the first chunk that is away, of the lowest row group and there of the lowest
/// column.
pub fn the_first_chunk_that_is_away_is_named<S: FarTickets>()
    ensures { (s : State S.Ticket) → IsKept S.content s
        → away (live s) ≡ first_of (all_away (table_of s)) }
{}

/// A chunk that has a pin is local, after any run of a table in a user's words.
pub fn a_pinned_chunk_is_local()
    ensures { (old : TableState) → (steps : List Step) → (replies : List Reply) → (new : TableState)
        → IsTableRun old steps replies new → ArePinnedLocal old → ArePinnedLocal new }
{}

/// After any run of a table in a user's words, it has the rows of the plain list after the accepted edits.
pub fn table_rows_are_those_of_the_plain_list()
    ensures { (old : TableState) → (steps : List Step) → (replies : List Reply) → (new : TableState)
        → IsTableRun old steps replies new
        → new.table.places ≡ plain_rows steps replies old.table.places }
{}
