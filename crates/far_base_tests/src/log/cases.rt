// Scripts in which parts are placed, found, written, dropped and moved.
use crate::log::script::Case;
use crate::log::script::Line::{Compact, Drop, Fits, Has, IsFull, Place, WriteFirst};
use far_types::Refusal;

static CASES: [Case; 3] = [
    Case {
        name: "a place is full where no segment has the space",
        segments: 2,
        size: 4,
        lines: &[
            Fits(4, true),
            Fits(5, false),
            Place(&[1, 2, 3, 4], (0, 0)),
            Place(&[5, 6, 7, 8], (1, 0)),
            IsFull(&[9]),
            Drop((0, 0)),
            Place(&[9], (0, 0)),
            Has((0, 0), &[9]),
            WriteFirst((0, 0), 5),
            Has((0, 0), &[5]),
        ],
    },
    Case {
        name: "a compaction moves what is left of a segment, which is empty then",
        segments: 3,
        size: 4,
        lines: &[
            Place(&[1, 2], (0, 0)),
            Place(&[3, 4], (0, 2)),
            Drop((0, 0)),
            Compact(0, &[2], Ok((1, &[0]))),
            Has((1, 0), &[3, 4]),
            Place(&[5, 6, 7, 8], (0, 0)),
        ],
    },
    Case {
        name: "a compaction needs its segment and another without parts",
        segments: 3,
        size: 4,
        lines: &[
            Place(&[1, 2, 3, 4], (0, 0)),
            Place(&[5, 6, 7, 8], (1, 0)),
            Place(&[9], (2, 0)),
            Compact(0, &[0], Err(Refusal::RegionFull)),
            Compact(3, &[], Err(Refusal::OutOfRange)),
        ],
    },
];

#[test]
fn a_region_replies_as_each_case_says(rt: HostRuntime) {
    for case in &CASES {
        let name = case.name;
        assert!(rt; case.is_right(rt.alloc()) == Ok(true), "{name}");
    }
}
