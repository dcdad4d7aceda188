// The default limits.
use far_types::Limits;

/// The default limits with row groups of four places.
const FOURS: Limits = Limits {
    group: 4,
    places: 16_777_216,
    edits: 1_099_511_627_776,
    int_segments: 64,
    int_size: 4_096,
    text_segments: 64,
    text_size: 65_536,
};

fn are_usual() -> bool {
    Limits::in_groups_of(4) == FOURS
        && Limits::default() == Limits::in_groups_of(64)
        && Limits::in_groups_of(65_536).check() == Ok(())
}

#[test]
fn usual_limits_are_within_their_bounds(rt: HostRuntime) {
    assert!(rt; are_usual());
}
