// Opens and closes tables.
ghost use Rattle.std.specs.Prelude.{◌≡◌, ◌≢◌, ◌≤◌, ◌⊎◌, None, Some, IsSome, IsSomeAnd, IfErr, IfOk, OnOk, map};
ghost use Rattle.std.specs.List.{All};
ghost use Rattle.std.specs.Option.{MatchOption};
ghost use Rattle.far_c.specs.TableState.{IsNew};
ghost use Rattle.far_c.specs.Opening.{IsNotOpened, kind_of, limits_of};
ghost use Rattle.far_c.specs.Unreadable.{FirstFault, IsKind, KindFault};

use crate::cell::{INT, TEXT};
use crate::code::{ALREADY_OPEN, BAD_ARGUMENT, CLOSED, OK};
use crate::handle::Handle;
use crate::table::Table;
use crate::unread::Unread;
use far_types::{Kind, Limits, Refusal, Schema};
use std::alloc::Global;

/// The limits of a table.
#[repr(C)]
#[derive(Drop)]
pub struct FcLimits {
    pub edits: u64,
    pub group: u32,
    pub places: u32,
    pub int_segments: u32,
    pub int_size: u32,
    pub text_segments: u32,
    pub text_size: u32,
}

impl FcLimits {
    fn read(&self) -> Limits
        ensures { result ≡ limits_of self.now }
    {
        Limits {
            group: self.group,
            places: self.places,
            edits: self.edits,
            int_segments: self.int_segments,
            int_size: self.int_size,
            text_segments: self.text_segments,
            text_size: self.text_size,
        }
    }

    /// Returns the limits as C receives them.
    pub fn of(limits: &Limits) -> FcLimits
        ensures { limits_of result ≡ limits.now }
    {
        FcLimits {
            edits: limits.edits,
            group: limits.group,
            places: limits.places,
            int_segments: limits.int_segments,
            int_size: limits.int_size,
            text_segments: limits.text_segments,
            text_size: limits.text_size,
        }
    }
}

/// Opens an empty table with these kinds of columns.
#[unsafe(no_mangle)]
pub extern "C" fn fc_open(
    alloc: Global,
    handle: &mut Handle,
    kinds: &[u32],
    limits: &FcLimits,
    capacity: u64,
) -> u32
    ensures opened { result ≡ 0
        → IsSomeAnd handle.new.table
        (IsNew (map kind_of kinds.now) (limits_of limits.now) capacity) }
    ensures closed { result ≡ 0 → handle.old.table ≡ None }
    ensures refused { result ≢ 0 → handle.new.table ≡ handle.old.table }
    ensures kinds { result ≡ 0 → All IsKind kinds.now }
    ensures rejected { 100 ≤ result → IsNotOpened kinds.now handle.old.table result }
{
    if handle.is_open() {
        return ALREADY_OPEN;
    }
    let kinds = match read_kinds(alloc, kinds) {
        Ok(kinds) => kinds,
        Err(Unread::NoMemory) => return Refusal::NoMemory.number(),
        Err(_) => return BAD_ARGUMENT,
    };
    match opened(alloc, kinds, limits, capacity) {
        Ok(table) => {
            *handle = Handle::of(table);
            OK
        }
        Err(refusal) => refusal.number(),
    }
}

/// Returns the kind with this number.
pub fn read_kind(kind: u32) -> Option<Kind>
    ensures { MatchOption result (¬ (IsKind kind)) (λ made. (made ≡ kind_of kind) × IsKind kind) }
{
    match kind {
        INT => Some(Kind::Int),
        TEXT => Some(Kind::Text),
        _ => None,
    }
}

fn read_kinds(alloc: Global, kinds: &[u32]) -> Result<Vec<Kind>, Unread>
    ensures ok { IfOk result (λ made. made.items ≡ map kind_of kinds.now) }
    ensures readable { OnOk result (All IsKind kinds.now) }
    ensures fault { IfErr result
        (λ why. (why ≡ Unread.NoMemory)
        ⊎ ((why ≡ Unread.BadArgument) × FirstFault KindFault IsKind kinds.now why)) }
{
    let mut made = Vec::new(alloc);
    for kind in kinds {
        let Some(kind) = read_kind(*kind) else {
            return Err(Unread::BadArgument);
        };
        made.push(kind)?;
    }
    Ok(made)
}

fn opened(
    alloc: Global,
    kinds: Vec<Kind>,
    limits: &FcLimits,
    capacity: u64,
) -> Result<Box<Table>, Refusal>
    ensures { IfOk result
        (λ table. IsNew kinds.items (limits_of limits.now) capacity table.value) }
{
    let table = Table::open(alloc, Schema::new(kinds)?, limits.read(), capacity)?;
    Ok(Box::new(alloc, table)?)
}

/// Closes the table and frees all of its memory.
#[unsafe(no_mangle)]
pub extern "C" fn fc_close(alloc: Global, handle: &mut Handle) -> u32
    ensures closed { handle.new.table ≡ None }
    ensures ok { result ≡ 0 → IsSome handle.old.table }
    ensures before { result ≢ 0 → handle.old.table ≡ None }
{
    if !handle.is_open() {
        return CLOSED;
    }
    drop(handle.take(alloc));
    OK
}
