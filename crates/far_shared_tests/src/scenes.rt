// Scenes on a shared table, as data.
use far_shared::Work;
use far_types::{Name, Refusal};

// A table that is made for a scene.
#[derive(Clone, Copy)]
pub enum Table {
    // An int column, whose gauge is the totals of its numbers.
    Numbers,
    // An int column, whose gauge is the totals of its numbers above 0.
    NumbersAboveZero,
    // An int column and a text column. The gauge is the totals of the numbers.
    NumbersWithTexts,
    // An int column in row groups of one place. Each stripe has space for two objects, and the store for four contents.
    Narrow,
}

// Which puts into the store of a scene, or gets from it, are held.
#[derive(Clone, Copy)]
pub enum Gate {
    // No put is held.
    Open,
    // The puts are held until they are released.
    Released,
    // The first put is held until a second begins.
    Paired,
    // The gets are held until they are released.
    OfGets,
}

// The text of a key.
#[derive(Clone, Copy)]
pub enum Letter {
    P,
    Q,
}

impl Letter {
    // Returns the text.
    pub fn text(self) -> &'static str {
        match self {
            Letter::P => "p",
            Letter::Q => "q",
        }
    }
}

// A list of works.
#[derive(Clone, Copy)]
pub enum Works {
    // Each of two threads gets the works of one stripe.
    Eight,
    // One work on each of the first two stripes.
    Two,
    // The numbers of stripe 1 are fetched.
    Fetch,
    // The row groups of stripe 1 are scanned.
    Build,
    // A fifth stripe, a column that does not exist, and nothing to build.
    Refused,
    // Two objects of each of the last two stripes.
    Last,
    // The second row group of stripe 3 is fetched.
    FetchSecond,
    // A row group of each of the last two stripes is scanned.
    BuildLast,
    // The texts of stripe 0 are fetched.
    FetchTexts,
    // The numbers of stripe 1 are evicted, and then fetched.
    ThereAndBack,
}

// One call of a session. It holds no reference, so that the code that plays calls does not depend on the table.
#[derive(Clone, Copy)]
pub enum Step {
    // Reads the gauge of a stripe.
    Gauge(u32),
    // Inserts a row of this number on a stripe.
    Insert(u32, i64),
    // Inserts a row of the number 1 and this key on a stripe.
    InsertKeyed(u32, Letter),
    // Sets the number of a place of a stripe.
    Set(u32, u32, i64),
    // Removes a place of a stripe.
    Remove(u32, u32),
    // Borrows the number of a stripe's first place.
    Lend(u32),
    // Registers the extrema of the numbers on all stripes.
    Watch,
    // Registers the totals of the numbers on all stripes.
    WatchTotals,
    // Registers the totals of the numbers by key on all stripes.
    WatchByKey,
    // Asks an aggregate over all stripes.
    Ask(u32),
    // Asks an aggregate by key over all stripes.
    AskByKey(u32),
    // Evicts the coldest object of a stripe.
    Evacuate(u32),
    // The same, while its put is held until another session has gone on.
    EvacuateHeld(u32),
    // Fetches the numbers of a row group of a stripe.
    Fetch(u32, u32),
    // Builds a row group that is pending on a stripe.
    Build(u32),
    // Begins a work, carries its job and ends it.
    InPhases(Work),
    // Lets this many threads do these works.
    Run(u32, Works),
    // Waits until a put or a get is held at the gate.
    AwaitHeld,
    // Opens the gate.
    OpenGate,
    // Sends a signal to the other sessions.
    Signal,
    // Waits until this many signals were sent.
    Await(u64),
    // Locks a stripe for reading, and unlocks it when this many signals were sent.
    Hold(u32, u64),
}

// The reply to a call.
#[derive(Clone, Copy, PartialEq, Eq)]
pub enum Reply {
    // The call is done.
    Done,
    // There was nothing to do, or the call waited in vain.
    Nothing,
    // The number of an aggregate.
    Number(u32),
    // The number of an edit, and its place.
    Applied(u64, u32),
    // The edits, the count and the sum that a gauge reads.
    Reading(u64, u64, i128),
    // The number of works that were done, and the number that were refused.
    Worked(u64, u64),
    // The object that was evicted.
    Object(Name),
    // The number that was borrowed.
    Lent(i64),
    // The count and the sum of an answer's first line.
    Totals(u64, i128),
    // The number of rows that an answer counts under each key.
    Pairs(u64, u64),
    // The least and the greatest value of an answer's first line.
    Extrema(i64, i64),
}

// The reply to a call, or why it is refused.
pub type Replied = Result<Reply, Refusal>;

// A call, and its expected reply.
pub type Line = (Step, Replied);

// The duty of a session, beside others.
#[derive(Clone, Copy)]
pub enum Duty {
    // Makes this many random edits on its home stripe.
    Edits(u32),
    // Moves objects, registers aggregates and builds them until this many sessions have ended, and then compares them.
    Works(u64),
    // Reads the gauges until this many sessions have ended.
    Reads(u64),
    // Inserts rows of one key on stripe 0, each before one of another key on stripe 1, this many times.
    InsertsPairs(u32),
    // Asks for the totals by key until the pairs are inserted.
    AsksPairs(u32),
    // Registers this many totals.
    Registers(u32),
    // Asks the gauge over all stripes until this many sessions have ended.
    Asks(u64),
}

// The role of a session in a scene.
#[derive(Clone, Copy)]
pub enum Role {
    // Makes these calls, one after another.
    Plays(&'static [Line]),
    // Has this duty.
    Does(Duty),
}

// The rows that a session leaves on a stripe: the number of places, and the count and the sum of those that its gauge folds.
#[derive(Clone, Copy, PartialEq, Eq)]
pub struct Left {
    pub places: u32,
    pub count: u64,
    pub sum: i128,
}

// No row.
pub const NO_ROW: Left = Left {
    places: 0,
    count: 0,
    sum: 0,
};

// One row of a number.
pub const ROW_OF_5: Left = Left {
    places: 1,
    count: 1,
    sum: 5,
};

pub const ROW_OF_6: Left = Left {
    places: 1,
    count: 1,
    sum: 6,
};

pub const ROW_OF_7: Left = Left {
    places: 1,
    count: 1,
    sum: 7,
};

pub const ROW_OF_8: Left = Left {
    places: 1,
    count: 1,
    sum: 8,
};

// The numbers of the first row group.
pub const FIRST: Name = Name {
    column: 0,
    group: 0,
};

// The numbers of the first row group are away.
pub const AWAY: Refusal = Refusal::Absent {
    column: 0,
    group: 0,
};

// The numbers of the second row group.
pub const SECOND: Name = Name {
    column: 0,
    group: 1,
};

// The texts of the first row group.
pub const TEXTS: Name = Name {
    column: 1,
    group: 0,
};

// The expected rows of the four stripes at the end of a scene.
#[derive(Clone, Copy)]
pub enum End {
    // These rows.
    Leaves(&'static [Left; 4]),
    // These rows, and this many aggregates, which have the first numbers.
    LeavesWatched(&'static [Left; 4], u32),
    // The rows that the first four sessions report, one stripe each.
    LeavesReported,
}

// A scene: each of its roles is played by a session on a table.
#[derive(Clone, Copy)]
pub struct Scene {
    // A sentence that says what the scene shows.
    pub name: &'static str,
    pub table: Table,
    pub gate: Gate,
    pub roles: &'static [Role],
    pub end: End,
}
