// Row groups in memory, and the lines of their answers.
use crate::cases::all_are_right;
use crate::lines::{Lines, Name};
use crate::offload::folding::{Folded, RowGroup};

static CASES: [Folded; 2] = [
    Folded {
        name: "a dead place is not folded",
        rows: RowGroup {
            numbers: &[Some(1), Some(2), Some(3), Some(4)],
            words: &[],
            alive: &[true, false, true, true],
        },
        key: None,
        prefix: None,
        lines: Lines::Totals(&[(Name::Nobody, 3, 8)]),
    },
    // Three rows under `ab`, one of them without value and one dead, one row under `b`, one under `ac` and one without key.
    Folded {
        name: "extrema are those of the rows that pass, under their texts",
        rows: RowGroup {
            numbers: &[Some(3), Some(4), None, Some(5), Some(7), Some(9)],
            words: &[
                Some("ab"),
                Some("b"),
                Some("ab"),
                None,
                Some("ab"),
                Some("ac"),
            ],
            alive: &[true, true, true, true, false, true],
        },
        key: Some(1),
        prefix: Some("a"),
        lines: Lines::Extrema(&[(Name::Word("ab"), 3, 3), (Name::Word("ac"), 9, 9)]),
    },
];

#[test]
fn columns_at_hand_are_folded(rt: HostRuntime) {
    all_are_right(&rt, rt.alloc(), &CASES);
}
