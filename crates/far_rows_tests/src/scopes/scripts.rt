// Worked examples.
use crate::scopes::play::play_all;
use crate::scopes::script::Call::{Coldest, Compact, Create, Find, On, PinAndUnpin, PinTogether};
use crate::scopes::script::Change::{Arrive, Give, Leave, Pin, Touch, Write};
use crate::scopes::script::Fact::{Dirty, List, Pins, PutBefore, Version};
use crate::scopes::script::{SCRIPT, Script, TWO_OF_FOUR};
use far_scopes::ObjectLimits;
use far_types::Refusal;
use std::test::Fail;

const ONE_WRITE: ObjectLimits = ObjectLimits {
    max_writes: 1,
    ..TWO_OF_FOUR
};

const USED_UP: Result<(), Refusal> = Err(Refusal::EditsUsedUp);

static SCRIPTS: &[Script] = &[
    Script {
        name: "an object is written as often as it may be",
        lines: &[
            (Create(0, &[1, 2]), Ok(())),
            (On(0, Write(&[9, 2])), Ok(())),
            (Find(0, List(&[9, 2])), Ok(())),
            (Find(0, Version(1)), Ok(())),
            (On(0, Write(&[8, 8])), Ok(())),
            (On(0, Write(&[7, 7])), USED_UP),
            (Create(1, &[1, 2, 3, 4, 5]), Err(Refusal::RegionFull)),
        ],
        ..SCRIPT
    },
    Script {
        name: "an object that was written is dirty, and takes 65535 pins",
        limits: ONE_WRITE,
        lines: &[
            (Create(0, &[1, 2]), Ok(())),
            (On(0, Write(&[9, 9])), Ok(())),
            (Find(0, Dirty(true)), Ok(())),
            (Find(0, Version(1)), Ok(())),
            (On(0, Write(&[8, 8])), USED_UP),
            (On(0, Pin(65_535)), Ok(())),
            (Find(0, Pins(65_535)), Ok(())),
            (On(0, Pin(1)), USED_UP),
        ],
        ..SCRIPT
    },
    Script {
        name: "a scope gives back the pins that are left, and leaves none where an object is away",
        lines: &[
            (Create(0, &[1]), Ok(())),
            (Create(1, &[2]), Ok(())),
            (PinTogether([0, 1, 0], 3), Ok(())),
            (PinAndUnpin([0, 1, 0], 2), Ok(())),
            (On(1, Leave), Ok(())),
            (
                PinTogether([0, 0, 1], 3),
                Err(Refusal::Absent {
                    column: 0,
                    group: 1,
                }),
            ),
            (Find(0, Pins(0)), Ok(())),
            (On(1, Arrive), Ok(())),
            (Find(1, List(&[2])), Ok(())),
        ],
        ..SCRIPT
    },
    Script {
        name: "the cold object used longest ago goes first, and none where all are pinned",
        lines: &[
            (Create(0, &[1, 2]), Ok(())),
            (Create(1, &[3, 4]), Ok(())),
            (On(0, Touch), Ok(())),
            (Compact(0), Ok(())),
            (Coldest(Some(1)), Ok(())),
            (On(0, Pin(1)), Ok(())),
            (On(1, Pin(1)), Ok(())),
            (Coldest(None), Ok(())),
        ],
        ..SCRIPT
    },
    Script {
        name: "of objects that are used in turn, the one used longest ago goes first",
        lines: &[
            (Create(0, &[1]), Ok(())),
            (Create(1, &[2]), Ok(())),
            (Create(2, &[3]), Ok(())),
            (Create(3, &[4]), Ok(())),
            (Create(4, &[5]), Ok(())),
            (On(0, Touch), Ok(())),
            (On(1, Touch), Ok(())),
            (On(2, Touch), Ok(())),
            (On(3, Touch), Ok(())),
            (On(4, Touch), Ok(())),
            (Coldest(Some(0)), Ok(())),
            (On(0, Touch), Ok(())),
            (On(1, Touch), Ok(())),
            (Coldest(Some(2)), Ok(())),
            (On(2, Touch), Ok(())),
            (On(3, Touch), Ok(())),
            (Coldest(Some(4)), Ok(())),
            (On(4, Touch), Ok(())),
            (Coldest(Some(0)), Ok(())),
            (On(0, Touch), Ok(())),
            (Coldest(Some(1)), Ok(())),
            (On(2, Touch), Ok(())),
            (On(3, Touch), Ok(())),
            (On(4, Touch), Ok(())),
            (On(2, Touch), Ok(())),
            (On(3, Touch), Ok(())),
            (Coldest(Some(1)), Ok(())),
            (On(0, Pin(1)), Ok(())),
            (On(1, Pin(1)), Ok(())),
            (Coldest(Some(4)), Ok(())),
            (On(4, Touch), Ok(())),
            (Coldest(Some(2)), Ok(())),
            (On(2, Touch), Ok(())),
            (Coldest(Some(3)), Ok(())),
            (On(4, Touch), Ok(())),
            (On(3, Touch), Ok(())),
            (On(4, Touch), Ok(())),
            (Coldest(Some(2)), Ok(())),
            (On(2, Pin(1)), Ok(())),
            (Coldest(Some(3)), Ok(())),
            (On(3, Touch), Ok(())),
            (Coldest(Some(4)), Ok(())),
            (On(4, Leave), Ok(())),
            (Coldest(Some(3)), Ok(())),
            (On(4, Arrive), Ok(())),
            (Coldest(Some(3)), Ok(())),
        ],
        ..SCRIPT
    },
    Script {
        name: "an object gets another list",
        lines: &[
            (Create(0, &[1, 2]), Ok(())),
            (Create(1, &[3]), Ok(())),
            (On(0, Give(&[6, 7, 8])), Ok(())),
            (Find(0, List(&[6, 7, 8])), Ok(())),
            (Find(1, List(&[3])), Ok(())),
        ],
        ..SCRIPT
    },
    Script {
        name: "an object that goes away first is put first",
        lines: &[
            (Create(0, &[3]), Ok(())),
            (Create(1, &[3]), Ok(())),
            (On(1, Leave), Ok(())),
            (On(0, Leave), Ok(())),
            (Find(1, PutBefore(0)), Ok(())),
        ],
        ..SCRIPT
    },
];

#[test]
fn calls_on_objects_get_their_replies(rt: HostRuntime) -> Result<(), Fail> {
    play_all(&rt, rt.alloc(), SCRIPTS)
}
