// Prints the rows of a table.
ghost use Rattle.std.specs.Prelude.{◌≡◌, ◌≢◌, ℕ, List, map, drop, length, ◌++◌, OnOk, IfErr};
ghost use Rattle.std.specs.Fmt.{signed_decimal};
ghost use Rattle.far_types.specs.Lent.{lent_cell};
ghost use Rattle.csv.specs.Writing.{default_writer, fields_text};
ghost use Rattle.far_types.specs.Table.{rows_of};
ghost use Rattle.far_frame.specs.State.{live};
ghost use Rattle.far_commands.specs.Answering.{IsOfWrite};
ghost use Rattle.far_commands.specs.Cuts.{PrintsCut};
ghost use Rattle.far_script.specs.Flow.{Prints};
ghost use Rattle.far_commands.specs.Listings.{IsHere, cell_text, cells_at, field_in_record, is_live, listing_of, row_line};

use far_frame::{Frame, View};
use far_rows::RowRef;
use far_script::print::numbered;
use far_script::{Output, Page, ShellFault, Sink};
use far_store::FarTickets;
use far_types::{CellRef, Refusal};
use std::alloc::AllocError;

/// How many bytes of rows are printed before they are added to the output.
const GATHERED: usize = 4_096;

/// Prints a field, alone in its record or as one of several.
fn field(page: &mut Page, is_lone: bool, text: &[u8]) -> Result<(), AllocError>
    ensures ok { OnOk result (page.new ≡ page.old ++ field_in_record is_lone text.now) }
{
    if is_lone {
        page.lone_field(text)
    } else {
        page.field(text)
    }
}

/// Prints a number as a field. A number needs no quotes.
#[inline(always)]
fn number(page: &mut Page, _is_lone: bool, value: i64) -> Result<(), AllocError>
    ensures ok { OnOk result
        (page.new ≡ page.old ++ field_in_record _is_lone (signed_decimal value)) }
{
    page.signed(value)
}

/// Prints a cell as a field. Inlined, since the callers know the kind of the cell.
#[inline(always)]
pub fn cell(page: &mut Page, is_lone: bool, cell: CellRef) -> Result<(), AllocError>
    ensures ok { OnOk result
        (page.new ≡ page.old ++ field_in_record is_lone (cell_text (lent_cell cell.entry))) }
{
    match cell {
        CellRef::Int(value) => number(page, is_lone, value),
        CellRef::Text(text) => field(page, is_lone, text.as_bytes()),
        CellRef::Missing => page.text("\\N"),
    }
}

/// Prints the fields of a row after the first.
fn more_fields<S: FarTickets>(page: &mut Page, row: &RowRef<'_, S>) -> Result<(), AllocError>
    ensures ok { OnOk result
        (page.new ≡ page.old ++ fields_text default_writer (map cell_text (drop 1 row.now))) }
{
    for column in 1..row.len() {
        let Some(lent) = row.get(column) else {
            return Ok(());
        };
        page.byte(b',')?;
        cell(page, false, lent)?;
    }
    Ok(())
}

/// Prints a row as a line.
fn print_row<S: FarTickets>(page: &mut Page, row: &RowRef<'_, S>) -> Result<(), AllocError>
    ensures ok { OnOk result (page.new ≡ page.old ++ row_line row.now) }
{
    match row.get(0) {
        None => page.text("\"\"")?,
        Some(first) => {
            cell(page, row.len() == 1, first)?;
            more_fields(page, row)?;
        }
    }
    page.byte(b'\n')?;
    Ok(())
}

/// Prints the row of a place as a line. Refused only with `NoMemory` (1), if no object of the row group is away.
fn print_place<S: FarTickets>(
    page: &mut Page,
    view: &View<'_, S>,
    place: u32,
) -> Result<(), Refusal>
    ensures ok { OnOk result
        (page.new ≡ page.old ++ row_line (cells_at place view.now.table.places)) }
    ensures memory { IsHere view.now place → IfErr result (λ e. e ≡ Refusal.NoMemory) }
{
    let cells = view.row_ref(place)?;
    print_row(page, &cells)?;
    Ok(())
}

/// Returns whether the row of a place is alive.
fn is_live<S: FarTickets>(view: &View<'_, S>, place: u32) -> bool
    ensures { result ≡ is_live place view.now.table.places }
{
    match view.is_alive(place) {
        Some(alive) => alive,
        None => false,
    }
}

/// Returns how many rows are alive.
fn live_rows<S: FarTickets>(frame: &Frame<S>) -> u64
    ensures { result ≡ length (rows_of frame.now.table.places) }
{
    let view = frame.scope();
    let mut count = 0u64;
    for place in 0..frame.places() {
        if is_live(&view, place) {
            count += 1;
        }
    }
    count
}

/// Adds the current reply to the output if it is long, and then clears it.
fn add_if_long<W: Sink>(output: &mut Output<W>, writer: &mut W) -> Result<(), ShellFault>
    ensures ok { OnOk result
        ((text : List ℕ)
        × Prints (W.contents writer.old) output.old.page text (W.contents writer.new)
        output.new.page
        × (output.old.reply ≡ text ++ output.new.reply)) }
    ensures err { IfErr result
        (λ fault. PrintsCut fault (λ said. said ≡ output.old.reply) (W.contents writer.old)
        output.old.page (W.contents writer.new) output.new.page) }
    ensures fault { IfErr result (λ fault. fault ≢ ShellFault.Input) }
    ensures failed { IfErr result (λ fault. IsOfWrite fault output.new) }
{
    if output.reply.len() < GATHERED {
        return Ok(());
    }
    output.add()?;
    output.flush_if_full(writer)?;
    output.reply.truncate(0);
    Ok(())
}

/// Prints `rows COUNT`, and then each row that is alive, by place, as the csv writer writes it. If any object is away, even
/// one of a row group without live rows, prints only that refusal.
#[inline(never)]
pub fn dump<S: FarTickets, W: Sink>(
    frame: &Frame<S>,
    output: &mut Output<W>,
    writer: &mut W,
) -> Result<(), ShellFault>
    ensures ok { OnOk result
        (Prints (W.contents writer.old) output.old.page (listing_of (live frame.now))
        (W.contents writer.new) output.new.page) }
    ensures err { IfErr result
        (λ fault. PrintsCut fault (λ said. said ≡ listing_of (live frame.now))
        (W.contents writer.old) output.old.page (W.contents writer.new) output.new.page) }
    ensures fault { IfErr result (λ fault. fault ≢ ShellFault.Input) }
    ensures failed { IfErr result (λ fault. IsOfWrite fault output.new) }
{
    let view = frame.scope();
    match view.all() {
        Ok(()) => {}
        Err(refusal) => {
            output.add_refusal(&refusal)?;
            return Ok(());
        }
    }
    output.reply.truncate(0);
    numbered(&mut output.reply, "rows", live_rows(frame))?;
    for place in 0..frame.places() {
        if is_live(&view, place) {
            match print_place(&mut output.reply, &view, place) {
                Ok(()) => add_if_long(output, writer)?,
                Err(refusal) => return Err(ShellFault::of_memory(refusal)),
            }
        }
    }
    output.add()?;
    Ok(())
}
