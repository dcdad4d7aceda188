// The cases of jobs.
use super::{Case, Step};
use crate::evacuator::call::Call::{Create, Move, On};
use crate::evacuator::call::Change::{Pin, Replace, Touch, Unpin, Write};
use crate::evacuator::call::Phase::{Begin, BeginFetch, Carry, CarryFetch, Commit, Install};
use crate::evacuator::stores::Plan;
use far_evacuator::Want;
use far_scopes::ObjectLimits;
use far_types::Refusal;

const LIMITS: ObjectLimits = ObjectLimits {
    segments: 4,
    size: 16,
    max_writes: 8,
    leavings: 8,
};

const ONCE: ObjectLimits = ObjectLimits {
    leavings: 1,
    ..LIMITS
};

/// A store that does not fail.
const SOUND: Plan = Plan {
    bytes: 1_024,
    capacity: 8,
    failing_put: 0,
    failing_get: 0,
};

/// The refusal of a call on object 0 while it is away.
const AWAY: Refusal = Refusal::Absent {
    column: 0,
    group: 0,
};

pub static CASES: &[Case] = &[
    Case {
        name: "an object that was sent away stays away under its name",
        store: SOUND,
        limits: LIMITS,
        steps: &[
            Step::Done(Create(&[1, 2])),
            Step::SentAway(0),
            Step::IsAway(0),
            Step::Refused(Move(Begin(Want::Object(0))), AWAY),
            Step::IsAway(0),
        ],
    },
    Case {
        name: "the coldest object is the one that was used least lately",
        store: SOUND,
        limits: LIMITS,
        steps: &[
            Step::Done(Create(&[1, 2])),
            Step::Done(Create(&[3, 4])),
            Step::Done(On(0, Touch)),
            Step::Done(On(0, Pin)),
            Step::Done(On(1, Pin)),
            Step::Refused(Move(Begin(Want::Coldest)), Refusal::StaleJob),
            Step::Done(On(0, Unpin)),
            Step::Done(On(1, Unpin)),
            Step::Done(Move(Begin(Want::Coldest))),
            Step::Done(Move(Carry)),
            Step::Done(Move(Commit)),
            Step::Done(On(0, Replace(&[5, 6]))),
            Step::IsAway(1),
            Step::Has(0, &[5, 6]),
        ],
    },
    Case {
        name: "an object that was not written is not put again",
        store: Plan {
            failing_put: 2,
            ..SOUND
        },
        limits: LIMITS,
        steps: &[
            Step::Done(Create(&[1, 2])),
            Step::SentAway(0),
            Step::BroughtBack(0),
            Step::SentAway(0),
            Step::BroughtBack(0),
            Step::Done(On(0, Write(&[9, 2]))),
            Step::Done(Move(Begin(Want::Object(0)))),
            Step::Refused(Move(Carry), Refusal::FarFault),
            Step::Done(Move(Carry)),
            Step::Done(Move(Commit)),
            Step::BroughtBack(0),
            Step::Has(0, &[9, 2]),
        ],
    },
    Case {
        name: "a job is accepted once",
        store: SOUND,
        limits: LIMITS,
        steps: &[
            Step::Done(Create(&[1, 2])),
            Step::SentAway(0),
            Step::Refused(Move(Commit), Refusal::StaleJob),
            Step::BroughtBack(0),
            Step::Refused(Move(Commit), Refusal::StaleJob),
            Step::Refused(Move(Install), Refusal::StaleJob),
            Step::SentAway(0),
            Step::Refused(Move(Install), Refusal::StaleJob),
        ],
    },
    Case {
        name: "a job of another frame is stale",
        store: SOUND,
        limits: LIMITS,
        steps: &[
            Step::Frame(1),
            Step::Done(Move(Begin(Want::Object(7)))),
            Step::Done(Move(Carry)),
            Step::Frame(2),
            Step::Refused(Move(Commit), Refusal::StaleJob),
            Step::SentAway(7),
            Step::Done(Move(BeginFetch(7))),
            Step::Done(Move(CarryFetch)),
            Step::Frame(1),
            Step::SentAway(7),
            Step::Refused(Move(Install), Refusal::StaleJob),
        ],
    },
    Case {
        name: "an object goes away as often as it may",
        store: SOUND,
        limits: ONCE,
        steps: &[
            Step::Done(Create(&[1, 2])),
            Step::SentAway(0),
            Step::BroughtBack(0),
            Step::Done(Move(Begin(Want::Object(0)))),
            Step::Done(Move(Carry)),
            Step::Refused(Move(Commit), Refusal::StaleJob),
            Step::Has(0, &[1, 2]),
        ],
    },
    Case {
        name: "a carry into a full store is refused and keeps its job",
        store: Plan {
            capacity: 1,
            ..SOUND
        },
        limits: LIMITS,
        steps: &[
            Step::Done(Create(&[1, 2])),
            Step::Done(Create(&[3, 4])),
            Step::SentAway(0),
            Step::Done(Move(Begin(Want::Object(1)))),
            Step::Refused(Move(Carry), Refusal::FarFull),
            Step::Refused(Move(Carry), Refusal::FarFull),
            Step::Has(1, &[3, 4]),
            Step::BroughtBack(0),
            Step::Has(0, &[1, 2]),
        ],
    },
    // The far form of two numbers has 22 bytes.
    Case {
        name: "a carry into a full log is a fault and keeps its job",
        store: Plan { bytes: 43, ..SOUND },
        limits: LIMITS,
        steps: &[
            Step::Done(Create(&[1, 2])),
            Step::Done(Create(&[3, 4])),
            Step::SentAway(0),
            Step::Done(Move(Begin(Want::Object(1)))),
            Step::Refused(Move(Carry), Refusal::FarFault),
            Step::Refused(Move(Carry), Refusal::FarFault),
            Step::Has(1, &[3, 4]),
            Step::BroughtBack(0),
            Step::Has(0, &[1, 2]),
        ],
    },
    Case {
        name: "a fetch that met a fault is carried again",
        store: Plan {
            failing_get: 1,
            ..SOUND
        },
        limits: LIMITS,
        steps: &[
            Step::Done(Create(&[1, 2])),
            Step::SentAway(0),
            Step::Done(Move(BeginFetch(0))),
            Step::Refused(Move(CarryFetch), Refusal::FarFault),
            Step::Done(Move(CarryFetch)),
            Step::Done(Move(Install)),
            Step::Has(0, &[1, 2]),
        ],
    },
];

/// Objects that are written, evicted and fetched.
pub static COME_AND_GO: Case = Case {
    name: "objects come and go",
    store: SOUND,
    limits: LIMITS,
    steps: &[
        Step::Done(Create(&[1, 2])),
        Step::Done(Create(&[3, 4])),
        Step::SentAway(0),
        Step::SentAway(1),
        Step::BroughtBack(0),
        Step::SentAway(0),
        Step::BroughtBack(1),
        Step::Has(1, &[3, 4]),
        Step::BroughtBack(0),
        Step::Done(On(0, Write(&[7, 8]))),
        Step::SentAway(0),
        Step::BroughtBack(0),
        Step::Has(0, &[7, 8]),
    ],
};
