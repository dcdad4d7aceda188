// Makes four histories and their sessions.
ghost use Rattle.std.specs.Prelude.{◌≡◌, ◌+◌, ◌*◌, [], length, IfOk, OnOk};
ghost use Rattle.far_sessions.specs.Sessions.{newcomer};
ghost use Rattle.far_sessions.specs.Known.{newcomer_at_all, newcomers};

use crate::cells::{Cells, Spacers};
use crate::keeper::{Keeper, Keepers};
use crate::kept::Kept;
use crate::law::{HistoryCell, Pass, PlanTag};
use crate::session::{Session, SessionAt};
use crate::steps::{begin, give};
use crate::stripe_cell::{CellsTag, StripeCell};
use crossbeam_utils::CachePadded;
use std::alloc::{AllocError, Global};
use std::marker::{Model, PhantomData};

/// A new cell, with the pass that owns its empty history. Contracts see the cell's identity.
#[derive(Drop)]
struct Fresh<N: PlanTag> {
    cell: HistoryCell<N>,
    pass: Pass,
}

impl<N: PlanTag> Model for Fresh<N> {
    ghost use Rattle.std.specs.Prelude.{◌≡◌, []};
    ghost use Rattle.crossbeam_utils.specs.Seq.{cell_view};
    ghost use Rattle.atomic_table.specs.Seated.{TableId};
    ghost use Rattle.far_sessions.specs.Views.{keeper};

    ghost Value = { TableId };

    ghost view = { λ s. s.cell.table.shared.table_id };

    ghost invariant = { λ s. (s.pass.table_id ≡ s.cell.table.shared.table_id)
        × (cell_view s.pass ≡ keeper [] 0) };
}

/// Creates the sessions of a stripe. Contracts see how many it has created.
#[derive(Drop)]
struct Giver<B: CellsTag, const I: usize> {
    pass: Pass,
    of: PhantomData<B>,
}

impl<B: CellsTag, const I: usize> Model for Giver<B, I> {
    ghost use Rattle.std.specs.Prelude.{◌≡◌, ℕ};
    ghost use Rattle.crossbeam_utils.specs.Seq.{cell_view};
    ghost use Rattle.far_sessions.specs.Sessions.{IsGiver};

    ghost Value = { ℕ };

    ghost view = { λ s. (cell_view s.pass).given };

    ghost invariant = { λ s. (s.pass.table_id ≡ B.cells I) × IsGiver (cell_view s.pass) };
}

// The words of a cell: the four of its reading, and a version.
const CELL_WORDS: usize = 5;

// The spacers before a cell. Four of them take 160 bytes, more than two cache lines.
const SPACERS: u32 = 4;

// Adds spacers, each a block of a cell's size: an allocator places blocks of one size next to each other. One large block
// could be placed elsewhere, and leave two cells adjacent.
fn add_spacers(alloc: Global, spacers: &mut Spacers) -> Result<(), AllocError>
    ensures { OnOk result (length spacers.new.items ≡ length spacers.old.items + SPACERS) }
{
    for turn in 0..SPACERS {
        spacers.push(Vec::with_capacity(alloc, CELL_WORDS)?)?;
    }
    Ok(())
}

impl<N: PlanTag> Fresh<N> {
    // Makes a cell, after spacers that separate it from the cell before.
    fn make(alloc: Global, spacers: &mut Spacers) -> Result<Fresh<N>, AllocError>
        ensures { OnOk result (length spacers.new.items ≡ length spacers.old.items + SPACERS) }
    {
        add_spacers(alloc, spacers)?;
        let (cell, pass) = begin(alloc)?;
        Ok(Fresh { cell, pass })
    }

    // Returns the cell as stripe I's, and the giver of its sessions.
    fn named<B: CellsTag, const I: usize>(self) -> (StripeCell<N, B, I>, Giver<B, I>)
        requires { self ≡ B.cells I }
        ensures { result.1 ≡ 0 }
    {
        let Fresh { cell, pass } = self;
        (
            StripeCell {
                cell,
                of: PhantomData,
            },
            Giver {
                pass,
                of: PhantomData,
            },
        )
    }
}

impl<B: CellsTag, const I: usize> Giver<B, I> {
    // Creates the next session.
    fn give<N: PlanTag>(&mut self, stripe_cell: &StripeCell<N, B, I>) -> SessionAt<B, I>
        ensures count { self.new ≡ self.old + 1 }
        ensures session { result ≡ newcomer self.old }
    {
        let pass = give(&stripe_cell.cell, &mut self.pass);
        SessionAt {
            pass,
            of: PhantomData,
        }
    }

    // Becomes the owner of the history, once all sessions were created.
    fn into_keeper<N: PlanTag>(self) -> Keeper<N, B, I>
        requires { self ≡ N.plan.sessions }
        ensures { result ≡ [] }
    {
        let Giver { pass, of: _ } = self;
        Keeper {
            pass: Some(Kept::new(pass)),
            of: PhantomData,
        }
    }
}

/// Creates the sessions of the four stripes. Contracts see how many it has created.
#[derive(Drop)]
struct Givers<B: CellsTag> {
    zero: Giver<B, 0>,
    one: Giver<B, 1>,
    two: Giver<B, 2>,
    three: Giver<B, 3>,
}

impl<B: CellsTag> Model for Givers<B> {
    ghost use Rattle.std.specs.Prelude.{◌≡◌, ℕ};

    ghost Value = { ℕ };

    ghost view = { λ s. s.zero };

    ghost invariant = { λ s. (s.one ≡ s.zero) × (s.two ≡ s.zero) × (s.three ≡ s.zero) };
}

impl<B: CellsTag> Givers<B> {
    // Creates the next session, which has this number.
    fn give<N: PlanTag>(&mut self, cells: &Cells<N, B>, number: u64) -> Session<B>
        requires { number ≡ self.old }
        ensures count { self.new ≡ self.old + 1 }
        ensures session { result ≡ newcomer_at_all self.old }
    {
        Session {
            number,
            zero: self.zero.give(cells.zero()),
            one: self.one.give(cells.one()),
            two: self.two.give(cells.two()),
            three: self.three.give(cells.three()),
        }
    }

    // Becomes the owners of the histories, once all sessions were created.
    fn into_keepers<N: PlanTag>(self) -> Keepers<N, B>
        requires { self ≡ N.plan.sessions }
        ensures { (result.zero ≡ [])
            × (result.one ≡ [])
            × (result.two ≡ [])
            × (result.three ≡ []) }
    {
        Keepers {
            zero: self.zero.into_keeper(),
            one: self.one.into_keeper(),
            two: self.two.into_keeper(),
            three: self.three.into_keeper(),
        }
    }
}

/// Four new cells with empty histories. Contracts see each stripe's cell.
#[derive(Drop)]
pub struct NewCells<N: PlanTag> {
    zero: Fresh<N>,
    one: Fresh<N>,
    two: Fresh<N>,
    three: Fresh<N>,
    spacers: Spacers,
}

/// The parts that four histories begin with.
#[derive(Drop)]
pub struct Opened<N: PlanTag, B: CellsTag> {
    /// For each table a keeper, to be put beside it under its lock.
    pub keepers: Keepers<N, B>,
    /// The cells, which are outside the locks.
    pub cells: Cells<N, B>,
    /// The sessions, by their numbers.
    pub sessions: Vec<Session<B>>,
}

impl<N: PlanTag> NewCells<N> {
    /// Makes the four cells, each after spacers that separate it from the cell before. Fails only if out of memory.
    pub fn make(alloc: Global) -> Result<NewCells<N>, AllocError>
        ensures spacers { IfOk result (λ cells. length cells.spacers.items ≡ 4 * SPACERS) }
    {
        let mut spacers = Vec::new(alloc);
        Ok(NewCells {
            zero: Fresh::make(alloc, &mut spacers)?,
            one: Fresh::make(alloc, &mut spacers)?,
            two: Fresh::make(alloc, &mut spacers)?,
            three: Fresh::make(alloc, &mut spacers)?,
            spacers,
        })
    }

    /// Returns the cells as those of the four stripes, and the givers of their sessions.
    fn named<B: CellsTag>(self) -> (Cells<N, B>, Givers<B>)
        requires names { (self.zero ≡ B.cells 0)
            × (self.one ≡ B.cells 1)
            × (self.two ≡ B.cells 2)
            × (self.three ≡ B.cells 3) }
        ensures { result.1 ≡ 0 }
    {
        let (zero, zero_giver) = self.zero.named::<B, 0>();
        let (one, one_giver) = self.one.named::<B, 1>();
        let (two, two_giver) = self.two.named::<B, 2>();
        let (three, three_giver) = self.three.named::<B, 3>();
        let cells = Cells {
            zero: CachePadded::new(zero),
            one: CachePadded::new(one),
            two: CachePadded::new(two),
            three: CachePadded::new(three),
            spacers: self.spacers,
        };
        let givers = Givers {
            zero: zero_giver,
            one: one_giver,
            two: two_giver,
            three: three_giver,
        };
        (cells, givers)
    }

    /// Returns the keepers of the four empty histories, the cells, and `count` sessions. Fails only if out of memory.
    pub fn open<B: CellsTag>(self, alloc: Global, count: u64) -> Result<Opened<N, B>, AllocError>
        requires names { (self.zero ≡ B.cells 0)
            × (self.one ≡ B.cells 1)
            × (self.two ≡ B.cells 2)
            × (self.three ≡ B.cells 3) }
        requires count { count ≡ N.plan.sessions }
        ensures sessions { IfOk result (λ o. o.sessions.items ≡ newcomers N.plan.sessions) }
        ensures histories { IfOk result (λ o. (o.keepers.zero ≡ [])
            × (o.keepers.one ≡ [])
            × (o.keepers.two ≡ [])
            × (o.keepers.three ≡ [])) }
    {
        let (cells, mut givers) = self.named::<B>();
        let mut sessions = Vec::new(alloc);
        for number in 0..count {
            sessions.push(givers.give(&cells, number))?;
        }
        Ok(Opened {
            keepers: givers.into_keepers(),
            cells,
            sessions,
        })
    }
}
