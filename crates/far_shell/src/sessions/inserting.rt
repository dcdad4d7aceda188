// Makes the edits of a session.
ghost use Rattle.std.specs.Prelude.{◌≡◌, ℕ, ◌<◌, IfErr, IfOk, OnOk};
ghost use Rattle.far_shell.specs.Runs.{row_of_one};
ghost use Rattle.far_shell.specs.Working.{Makes};

use super::outcome::Stop;
use super::tries::NextTry;
use far_sessions::{PlanTag, Session};
use far_shared::{Shared, TableTag};
use far_store::FarStore;
use far_types::{Cell, Edit, Row};
use std::alloc::Global;
use std::sync::Wait;

/// Returns the row that each session inserts: the number 1. Ends only with `Memory`.
fn row_of_one(alloc: Global) -> Result<Row, Stop>
    ensures ok { IfOk result (λ row. row ≡ row_of_one) }
    ensures memory { IfErr result (λ stop. stop ≡ Stop.Memory) }
{
    let mut cells = Vec::new(alloc);
    cells.push(Cell::Int(1))?;
    Ok(Row::new(cells))
}

/// Inserts a row on a stripe, with up to 10,000 tries. Does nothing on other stripes.
fn insert_one<N: PlanTag, B: TableTag, S: FarStore, R: Wait>(
    rt: &R,
    alloc: Global,
    shared: &Shared<N, B, S>,
    store: &S,
    me: &mut Session<B>,
    stripe: u32,
) -> Result<(), Stop>
    requires store { S.store_id store.now ≡ B.store }
    requires stripe { stripe < 4 }
    ensures ok { OnOk result (Makes stripe 1 me.old me.new) }
{
    let mut next = NextTry::first(stripe);
    loop {
        let edit = Edit::Insert(row_of_one(alloc)?);
        match next.make(rt, shared, me, edit) {
            Ok(()) => return Ok(()),
            Err(refused) => next = refused.clear(rt, shared, store)?,
        }
    }
}

/// Inserts `edits` rows on a stripe. Does nothing on other stripes.
pub(crate) fn insert_all<N: PlanTag, B: TableTag, S: FarStore, R: Wait>(
    rt: &R,
    alloc: Global,
    shared: &Shared<N, B, S>,
    store: &S,
    me: &mut Session<B>,
    stripe: u32,
    edits: u32,
) -> Result<(), Stop>
    requires store { S.store_id store.now ≡ B.store }
    requires stripe { stripe < 4 }
    ensures ok { OnOk result (Makes stripe edits me.old me.new) }
{
    for made in 0..edits {
        insert_one(rt, alloc, shared, store, me, stripe)?;
    }
    Ok(())
}
