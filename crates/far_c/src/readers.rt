// Reads the description of a table, and its state.
ghost use Rattle.std.specs.Prelude.{◌≡◌, ◌≢◌, ◌≤◌, [], None, Some, length, option_map, slice_get, IsSomeAnd};
ghost use Rattle.far_rows.specs.Moving.{object_at, object_refusal};
ghost use Rattle.far_frame.specs.Objects.{space_at, state_of};
ghost use Rattle.far_c.specs.Contents.{number_of};
ghost use Rattle.far_c.specs.Opening.{kind_of, limits_of};
ghost use Rattle.far_c.specs.Outcomes.{Behind, IsDue, IsRefusal, IsRejected, IsRejectedFor, IsUnfit};
ghost use Rattle.far_c.specs.Reading.{AreDetailsOf, IsObjectOf, IsSpaceOf};
ghost use Rattle.far_c.specs.Unreadable.{IsKind};

use crate::cell::{INT, TEXT};
use crate::code::{BAD_ARGUMENT, CLOSED, OK};
use crate::handle::Handle;
use crate::opening::{FcLimits, read_kind};
use crate::table::Table;
use far_types::{Kind, Refusal};

/// Writes the number of places, including removed rows.
#[unsafe(no_mangle)]
pub extern "C" fn fc_places(handle: &mut Handle, places: &mut u32) -> u32
    ensures places { result ≡ 0
        → IsSomeAnd handle.old.table (λ old. places.new ≡ length old.world.state.table.places) }
    ensures closed { result ≢ 0 → (result ≡ 100) × (handle.old.table ≡ None) }
    ensures same { handle.new.table ≡ handle.old.table }
{
    let Some(table) = handle.table() else {
        return CLOSED;
    };
    let count = table.world().frame().places();
    *places = count;
    OK
}

/// Writes the number of columns.
#[unsafe(no_mangle)]
pub extern "C" fn fc_columns(handle: &mut Handle, columns: &mut u32) -> u32
    ensures columns { result ≡ 0
        → IsSomeAnd handle.old.table (λ old. columns.new ≡ length old.world.state.table.schema) }
    ensures closed { result ≢ 0 → (result ≡ 100) × (handle.old.table ≡ None) }
    ensures same { handle.new.table ≡ handle.old.table }
{
    let Some(table) = handle.table() else {
        return CLOSED;
    };
    let table: &Table = table;
    *columns = table.world().frame().schema().len() as u32;
    OK
}

/// Writes the kind of a column.
#[unsafe(no_mangle)]
pub extern "C" fn fc_kind_of(handle: &mut Handle, column: u32, kind: &mut u32) -> u32
    ensures kind { result ≡ 0
        → IsSomeAnd handle.old.table
        (λ old. slice_get old.world.state.table.schema column ≡ Some (kind_of kind.new)) }
    ensures none { result ≡ 4
        → IsSomeAnd handle.old.table (λ old. slice_get old.world.state.table.schema column ≡ None) }
    ensures same { result ≢ 4 → handle.new.table ≡ handle.old.table }
{
    let Some(table) = handle.table() else {
        return CLOSED;
    };
    let Some(found) = table.world().frame().schema().get(column as usize) else {
        return table.refuse(Refusal::NoColumn);
    };
    *kind = match found {
        Kind::Int => INT,
        Kind::Text => TEXT,
    };
    OK
}

/// Writes the limits of the table.
#[unsafe(no_mangle)]
pub extern "C" fn fc_limits_of(handle: &mut Handle, limits: &mut FcLimits) -> u32
    ensures limits { result ≡ 0
        → IsSomeAnd handle.old.table (λ old. limits_of limits.new ≡ old.world.state.table.limits) }
    ensures closed { result ≢ 0 → (result ≡ 100) × (handle.old.table ≡ None) }
    ensures same { handle.new.table ≡ handle.old.table }
{
    let Some(table) = handle.table() else {
        return CLOSED;
    };
    let made = FcLimits::of(table.world().frame().limits());
    *limits = made;
    OK
}

/// The state of an object: the chunk of one column in one row group.
#[repr(C)]
#[derive(Drop)]
pub struct FcObject {
    pub copy: u64,
    pub version: u64,
    pub pins: u32,
    pub local: bool,
    pub dirty: bool,
    pub hot: bool,
    pub has_copy: bool,
}

/// Writes the state of an object.
#[unsafe(no_mangle)]
pub extern "C" fn fc_object_of(
    handle: &mut Handle,
    column: u32,
    group: u32,
    object: &mut FcObject,
) -> u32
    ensures object { result ≡ 0
        → IsSomeAnd handle.old.table
        (λ old. IsSomeAnd
        (option_map (state_of number_of old.world.state.rows)
        (object_at old.world.state.rows column group)) (λ state. IsObjectOf state object.new)) }
    ensures refused { IsRefusal result
        → Behind (IsDue (λ old. object_refusal old.world.state.rows column group) result)
        handle.old.table handle.new.table }
    ensures rejected { 100 ≤ result → IsRejected [] result handle.old.table handle.new.table }
{
    let Some(table) = handle.table() else {
        return CLOSED;
    };
    let world = table.world();
    let state = match world.frame().object(world.store(), column, group) {
        Ok(state) => state,
        Err(refusal) => return table.refuse(refusal),
    };
    object.copy = state.copy.unwrap_or(0);
    object.version = state.version;
    object.pins = state.pins;
    object.local = state.local;
    object.dirty = state.dirty;
    object.hot = state.hot;
    object.has_copy = state.copy.is_some();
    OK
}

/// The space of the local region of one kind, in elements: numbers, or bytes of texts.
#[repr(C)]
#[derive(Drop)]
pub struct FcSpace {
    pub used: u64,
    pub free: u64,
    pub segments: u32,
    pub size: u32,
}

/// Writes the space of the local region of a kind.
#[unsafe(no_mangle)]
pub extern "C" fn fc_space_of(handle: &mut Handle, kind: u32, space: &mut FcSpace) -> u32
    ensures space { result ≡ 0
        → IsSomeAnd handle.old.table
        (λ old. IsSpaceOf (space_at old.world.state (kind_of kind)) space.new) }
    ensures kind { result ≡ 0 → IsKind kind }
    ensures rejected { result ≢ 0
        → IsRejectedFor (IsUnfit (IsKind kind)) result handle.old.table handle.new.table }
    ensures same { handle.new.table ≡ handle.old.table }
{
    let Some(table) = handle.table() else {
        return CLOSED;
    };
    let Some(kind) = read_kind(kind) else {
        return BAD_ARGUMENT;
    };
    let found = table.world().frame().space(kind);
    space.used = found.used;
    space.free = found.free;
    space.segments = found.segments;
    space.size = found.size;
    OK
}

/// Writes the number of faults that were counted since the table was opened.
#[unsafe(no_mangle)]
pub extern "C" fn fc_faults(handle: &mut Handle, faults: &mut u64) -> u32
    ensures faults { result ≡ 0
        → IsSomeAnd handle.old.table (λ old. faults.new ≡ old.world.faults) }
    ensures closed { result ≢ 0 → (result ≡ 100) × (handle.old.table ≡ None) }
    ensures same { handle.new.table ≡ handle.old.table }
{
    let Some(table) = handle.table() else {
        return CLOSED;
    };
    *faults = table.faults();
    OK
}

/// The last refusal, and the values that it carries.
#[repr(C)]
#[derive(Drop)]
pub struct FcDetails {
    pub code: u32,
    pub pending: u32,
    pub column: u32,
    pub group: u32,
}

/// Writes the last refusal of a call with this handle.
#[unsafe(no_mangle)]
pub extern "C" fn fc_last_refusal(handle: &mut Handle, details: &mut FcDetails) -> u32
    ensures details { result ≡ 0
        → IsSomeAnd handle.old.table (λ old. AreDetailsOf old.refusal details.new) }
    ensures closed { result ≢ 0 → (result ≡ 100) × (handle.old.table ≡ None) }
    ensures same { handle.new.table ≡ handle.old.table }
{
    let Some(table) = handle.table() else {
        return CLOSED;
    };
    *details = FcDetails::of(table.refusal());
    OK
}

impl FcDetails {
    // Returns the values that a refusal carries.
    fn of(refusal: Option<Refusal>) -> FcDetails
        ensures { AreDetailsOf refusal result }
    {
        let mut details = FcDetails {
            code: OK,
            pending: 0,
            column: 0,
            group: 0,
        };
        if let Some(refusal) = refusal {
            details.code = refusal.number();
            match refusal {
                Refusal::Building(left) => details.pending = left,
                Refusal::Absent { column, group } => {
                    details.column = column;
                    details.group = group;
                }
                _ => {}
            }
        }
        details
    }
}
