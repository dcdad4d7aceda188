// Inserts the rows of a load.
ghost use Rattle.std.specs.Prelude.{◌≡◌, ℕ, List, [], ◌∷◌, true, false, OnOk, IfOk};
ghost use Rattle.std.specs.List.{slice_split};
ghost use Rattle.csv.specs.Records.{fields_of};
ghost use Rattle.far_frame.specs.Steps.{IsStep};
ghost use Rattle.far_frame.specs.TableRuns.{IsTableStep};
ghost use Rattle.far_frame.specs.TableViews.{table_of};
ghost use Rattle.far_script.specs.OneRecord.{is_comma};
ghost use Rattle.far_script.specs.PlainLines.{are_plain_lines};
ghost use Rattle.far_commands.specs.Loading.{Remains, loaded_text};
ghost use Rattle.far_commands.specs.Replies.{Loads, insert_of_record, records_of};
ghost use Rattle.far_commands.specs.WorldRules.{both_rules};

use csv::{Reader, ReaderBuilder, StringRecord};
use far_frame::{Reply, World};
use far_script::Page;
use far_script::bounded::MAX_BYTES;
use far_script::field::{cells_in, record_cells};
use far_script::lines::{are_plain_lines, next_line};
use far_script::print::{numbered, refused};
use far_store::FarStore;
use far_types::{Edit, Refusal, Row};
use std::alloc::{AllocError, Global};
use std::io::Read;

/// The result of a load: how many rows were inserted, and the refusal of the next row, if it was refused.
#[derive(Drop)]
struct Loaded {
    count: u64,
    refusal: Option<Refusal>,
}

/// Inserts the fields of a record as a row. Fails only if there is no memory for its cells; the table then never got the row.
fn insert_record<S: FarStore>(
    alloc: Global,
    world: &mut World<S>,
    fields: &StringRecord,
) -> Result<Reply, AllocError>
    ensures step { IfOk result
        (λ reply. IsStep S.content S.number_of world.old
        (insert_of_record world.old.state.table.schema (fields_of fields.now)) reply
        world.new) }
    ensures table { IfOk result
        (λ reply. IsTableStep (table_of world.old.state)
        (insert_of_record world.old.state.table.schema (fields_of fields.now)) reply
        (table_of world.new.state)) }
    ensures faults { world.new.faults ≡ world.old.faults }
{
    let cells = record_cells(alloc, world.frame().schema().as_slice(), fields)?;
    Ok(world.edit(Edit::Insert(Row::new(cells))))
}

/// Inserts the fields between the commas of a line as a row. Fails as `insert_record` does.
fn insert_line<S: FarStore>(
    alloc: Global,
    world: &mut World<S>,
    line: &str,
) -> Result<Reply, AllocError>
    ensures step { IfOk result
        (λ reply. IsStep S.content S.number_of world.old
        (insert_of_record world.old.state.table.schema (slice_split is_comma line.now)) reply
        world.new) }
    ensures table { IfOk result
        (λ reply. IsTableStep (table_of world.old.state)
        (insert_of_record world.old.state.table.schema (slice_split is_comma line.now)) reply
        (table_of world.new.state)) }
    ensures faults { world.new.faults ≡ world.old.faults }
{
    let spare = world.spare_cells();
    let cells = cells_in(alloc, spare, world.frame().schema().as_slice(), line)?;
    Ok(world.edit(Edit::Insert(Row::new(cells))))
}

/// Inserts the lines of a text that are not empty, up to the first that is refused. Fails as `insert_record` does. Not
/// inlined, so that its loop has all registers.
#[inline(never)]
fn load_lines<S: FarStore>(
    alloc: Global,
    world: &mut World<S>,
    text: &str,
) -> Result<Loaded, AllocError>
    requires { are_plain_lines text.now ≡ true }
    ensures ok { IfOk result
        (λ loaded. Loads (both_rules S.FarTickets) 0 world.old (records_of text.now)
        (loaded_text loaded.count loaded.refusal) world.new) }
    ensures faults { world.new.faults ≡ world.old.faults }
{
    let mut rest = text;
    let mut count = 0u64;
    while !rest.is_empty() {
        let (line, behind) = next_line(rest);
        rest = behind;
        if !line.is_empty() {
            if let Reply::Refused(refusal) = insert_line(alloc, world, line)? {
                return Ok(Loaded {
                    count,
                    refusal: Some(refusal),
                });
            }
            count += 1;
        }
    }
    Ok(Loaded {
        count,
        refusal: None,
    })
}

/// Reads the next record, and returns whether there was one.
fn read_next<R: Read>(reader: &mut Reader<R>, fields: &mut StringRecord) -> Result<bool, AllocError>
    ensures none { IfOk result
        (λ found. found ≡ false
        → (rows : List (List (List ℕ))) → Remains R.remaining reader.old rows
        → rows ≡ []) }
    ensures some { IfOk result
        (λ found. found ≡ true
        → (rows : List (List (List ℕ))) → Remains R.remaining reader.old rows
        → (more : List (List (List ℕ))) × (rows ≡ fields_of fields.new ∷ more)
        × Remains R.remaining reader.new more) }
{
    let Ok(found) = reader.read_record(fields) else {
        return Err(AllocError);
    };
    Ok(found)
}

/// Inserts the remaining records of a reader, up to the first that is refused. Fails as `insert_record` does.
///
/// The reader is borrowed, so that no early return drops it.
fn insert_records<S: FarStore, R: Read>(
    alloc: Global,
    world: &mut World<S>,
    reader: &mut Reader<R>,
    fields: &mut StringRecord,
) -> Result<Loaded, AllocError>
    ensures ok { IfOk result
        (λ loaded. (rows : List (List (List ℕ))) → Remains R.remaining reader.old rows
        → Loads (both_rules S.FarTickets) 0 world.old rows
        (loaded_text loaded.count loaded.refusal) world.new) }
    ensures faults { world.new.faults ≡ world.old.faults }
{
    for count in 0..MAX_BYTES {
        if !read_next(reader, fields)? {
            return Ok(Loaded {
                count: u64::from(count),
                refusal: None,
            });
        }
        if let Reply::Refused(refusal) = insert_record(alloc, world, fields)? {
            return Ok(Loaded {
                count: u64::from(count),
                refusal: Some(refusal),
            });
        }
    }
    Err(AllocError)
}

/// Inserts the records of a text with the csv reader. Not inlined: the reader has a large stack frame, for which each
/// command would pay.
#[inline(never)]
fn load_records<S: FarStore>(
    alloc: Global,
    world: &mut World<S>,
    text: &str,
) -> Result<Loaded, AllocError>
    ensures ok { IfOk result
        (λ loaded. Loads (both_rules S.FarTickets) 0 world.old (records_of text.now)
        (loaded_text loaded.count loaded.refusal) world.new) }
    ensures faults { world.new.faults ≡ world.old.faults }
{
    let mut reader = ReaderBuilder::new()
        .has_headers(false)
        .flexible(true)
        .from_reader(alloc, text.as_bytes());
    let mut fields = StringRecord::new(alloc);
    insert_records(alloc, world, &mut reader, &mut fields)
}

/// Inserts the records of a text in order, up to the first that is refused. Fails as `insert_record` does.
fn insert_all<S: FarStore>(
    alloc: Global,
    world: &mut World<S>,
    text: &str,
) -> Result<Loaded, AllocError>
    ensures ok { IfOk result
        (λ loaded. Loads (both_rules S.FarTickets) 0 world.old (records_of text.now)
        (loaded_text loaded.count loaded.refusal) world.new) }
    ensures faults { world.new.faults ≡ world.old.faults }
{
    if are_plain_lines(text) {
        load_lines(alloc, world, text)
    } else {
        load_records(alloc, world, text)
    }
}

/// Writes `loaded COUNT`, and the refusal if there is one, to an empty page.
fn print_loaded(reply: &mut Page, loaded: &Loaded) -> Result<(), AllocError>
    ensures ok { OnOk result (reply.new ≡ loaded_text loaded.now.count loaded.now.refusal) }
{
    reply.truncate(0);
    numbered(reply, "loaded", loaded.count)?;
    match &loaded.refusal {
        Some(refusal) => refused(reply, refusal),
        None => Ok(()),
    }
}

/// Inserts the records of a text in order, up to the first that is refused. Prints `loaded COUNT`, and the refusal if there
/// is one. Fails only if the shell itself runs out of memory.
pub fn load<S: FarStore>(
    alloc: Global,
    world: &mut World<S>,
    text: &str,
    reply: &mut Page,
) -> Result<(), AllocError>
    ensures ok { OnOk result
        (Loads (both_rules S.FarTickets) 0 world.old (records_of text.now) reply.new world.new) }
    ensures faults { world.new.faults ≡ world.old.faults }
{
    let loaded = insert_all(alloc, world, text)?;
    print_loaded(reply, &loaded)
}
