// Worked examples.
use crate::cell::Cell::{Missing, Number, Text};
use crate::cell::Word::{Empty, One, Three, Two, Uno};
use crate::rows::fixture::Values;
use crate::rows::look::Look::{
    AreNamed, Cell, Coldest, Copy, HaveTheirObjects, Numbers, Values as Has,
};
use crate::rows::script::Call::{CompactNumbers, CompactTexts, Evacuate, FetchBack, Push, Set};
use crate::rows::script::Step::{Does, Is};
use crate::rows::script::{Case, play};
use far_types::{Name, Refusal};
use std::test::Fail;

const FIRST: Values = (Text(One, 1), Number(1), Text(Empty, 1), Missing);

const SECOND: Values = (Missing, Number(-2), Text(Two, 1), Number(20));

/// The first row of the second row group.
const THIRD: Values = (Text(Three, 1), Missing, Missing, Number(i64::MIN));

const TEXTS_AWAY: Option<Refusal> = Some(Refusal::Absent {
    column: 0,
    group: 1,
});

const LAST_NUMBERS: Option<Name> = Some(Name {
    column: 3,
    group: 0,
});

static CASES: [Case; 2] = [
    Case {
        name: "rows that are pushed and set read back",
        steps: &[
            Does(Push(FIRST)),
            Does(Push(SECOND)),
            Does(Push(THIRD)),
            Does(Set(1, 0, Number(7))),
            Does(Set(2, 0, Text(Uno, 1))),
            Is(Has(0, (Text(One, 1), Number(7), Text(Uno, 1), Missing))),
            Is(Has(1, SECOND)),
            Is(Has(2, THIRD)),
            Is(Numbers(1, 0, &[Some(7), Some(-2)])),
            Is(Coldest(LAST_NUMBERS)),
            Is(HaveTheirObjects),
            Is(AreNamed(4, 4)),
        ],
        moved: &[],
    },
    Case {
        name: "objects go away, come back, and go into another store",
        steps: &[
            Does(Push(FIRST)),
            Does(Push(SECOND)),
            Does(Push(THIRD)),
            Does(Evacuate(0, 1)),
            Does(Evacuate(3, 1)),
            Is(Cell(0, 2, TEXTS_AWAY)),
            Is(Copy(0, 1, true)),
            Is(Copy(1, 1, false)),
            Does(CompactNumbers(0)),
            Does(CompactTexts(0)),
            Does(FetchBack(0, 1)),
            Is(Cell(0, 2, None)),
            Does(Evacuate(0, 1)),
        ],
        moved: &[
            Is(Cell(0, 2, TEXTS_AWAY)),
            Does(FetchBack(0, 1)),
            Does(FetchBack(3, 1)),
            Is(Has(0, FIRST)),
            Is(Has(2, THIRD)),
        ],
    },
];

#[test]
fn rows_read_back(rt: HostRuntime) -> Result<(), Fail> {
    play(&rt, rt.alloc(), &CASES)
}
