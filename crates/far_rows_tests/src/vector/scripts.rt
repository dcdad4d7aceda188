// A worked example.
use crate::vector::play::first_wrong;
use crate::vector::script::Call::{Get, Overwrite, Part, Pieces, Push, Set};
use crate::vector::script::Line;
use far_types::Refusal;

/// Reads and writes five numbers in two row groups in place.
static LINES: [Line; 13] = [
    (Push(1), Ok(())),
    (Push(2), Ok(())),
    (Push(3), Ok(())),
    (Push(4), Ok(())),
    (Push(5), Ok(())),
    (Get(4, 5), Ok(())),
    (Part(1, 3, &[2, 3]), Ok(())),
    (Part(3, 5, &[4, 5]), Err(Refusal::OutOfRange)),
    // They are lent in pieces of four and one.
    (Pieces(0, 5, &[4, 1]), Ok(())),
    (Overwrite(4, 5, 6), Ok(())),
    (Get(4, 6), Ok(())),
    (Set(0, 9), Ok(())),
    (Get(0, 9), Ok(())),
];

#[test]
fn elements_are_pushed_read_and_written(rt: HostRuntime) {
    assert!(rt; first_wrong(&rt, rt.alloc(), &LINES) == Ok(None));
}
