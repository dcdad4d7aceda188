//! What a frame says of its objects and of the space of its local regions.
ghost use Rattle.far_rows.specs.Jobs.{AreAt};

use crate::opening::{FOUR_SEGMENTS, SOUND, frame, store};
use crate::two_tables::Checked;
use far_frame::Frame;
use far_store::{FarStore, FarTickets};
use far_types::{Kind, Refusal};
use std::alloc::Global;
use std::sync::Wait;

/// Returns whether an object is local and the far store has its content.
fn is_clean<S: FarTickets>(frame: &Frame<S>, store: &S, column: u32, group: u32) -> bool
    requires { AreAt S.is_of (S.store_id store.now) frame.now.rows }
{
    match frame.object(store, column, group) {
        Ok(object) => object.local && !object.dirty,
        Err(_) => false,
    }
}

/// Returns whether less than a segment of numbers is free.
fn is_scarce<S: FarTickets>(frame: &Frame<S>) -> bool {
    let space = frame.space(Kind::Int);
    space.free < u64::from(space.size)
}

/// Returns whether a table without rows has no object, and has free segments.
fn is_told<S: FarTickets>(frame: &Frame<S>, store: &S) -> bool
    requires { AreAt S.is_of (S.store_id store.now) frame.now.rows }
{
    !is_clean(frame, store, 0, 0) && !is_scarce(frame)
}

/// Returns the same for a new table over a store.
fn is_told_over<S: FarStore>(alloc: Global, store: &S) -> Checked {
    match frame(alloc, &[Kind::Int], FOUR_SEGMENTS, 0) {
        Ok(frame) => {
            let checked = is_told(&frame, store);
            drop(frame);
            Ok(checked)
        }
        Err(refusal) => Err(refusal),
    }
}

/// Returns the same over this store, if it was made.
fn is_told_if_made<S: FarStore>(alloc: Global, store: Result<S, Refusal>) -> Checked {
    match store {
        Ok(store) => is_told_over(alloc, &store),
        Err(refusal) => Err(refusal),
    }
}

/// Returns the same over a new store.
fn play<R: Wait + Sync + Drop + Copy>(rt: R, alloc: Global) -> Checked {
    is_told_if_made(alloc, store(rt, alloc, SOUND))
}

#[test]
fn an_empty_table_has_no_object(rt: HostRuntime) {
    assert!(rt; play(&rt, rt.alloc()) == Ok(true));
}
