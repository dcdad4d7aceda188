// The table of refusals. What they print follows from their sentences, of which an example prints one.
use far_types::Refusal;

/// Each refusal, with its number and its name.
static REFUSALS: [(Refusal, u32, &str); 23] = [
    (Refusal::NoMemory, 1, "NoMemory"),
    (Refusal::BadSchema, 2, "BadSchema"),
    (Refusal::BadSpec, 3, "BadSpec"),
    (Refusal::NoColumn, 4, "NoColumn"),
    (Refusal::WrongKind, 5, "WrongKind"),
    (Refusal::RowWidth, 6, "RowWidth"),
    (Refusal::TextTooLong, 7, "TextTooLong"),
    (Refusal::NoRow, 8, "NoRow"),
    (Refusal::RemovedRow, 9, "RemovedRow"),
    (Refusal::TableFull, 10, "TableFull"),
    (Refusal::ChunkFull, 11, "ChunkFull"),
    (Refusal::NoAggregate, 12, "NoAggregate"),
    (Refusal::TooManyAggregates, 13, "TooManyAggregates"),
    (Refusal::OutOfRange, 14, "OutOfRange"),
    (Refusal::Building(3), 15, "Building"),
    (
        Refusal::Absent {
            column: 1,
            group: 2,
        },
        16,
        "Absent",
    ),
    (Refusal::RegionFull, 17, "RegionFull"),
    (Refusal::NotPinned, 18, "NotPinned"),
    (Refusal::Pinned, 19, "Pinned"),
    (Refusal::StaleJob, 20, "StaleJob"),
    (Refusal::FarFault, 21, "FarFault"),
    (Refusal::FarFull, 22, "FarFull"),
    (Refusal::EditsUsedUp, 24, "EditsUsedUp"),
];

fn are_as_listed() -> bool {
    for (refusal, number, name) in &REFUSALS {
        if refusal.number() != *number || refusal.name() != *name {
            return false;
        }
    }
    true
}

#[test]
fn each_refusal_has_its_number_and_name(rt: HostRuntime) {
    assert!(rt; are_as_listed());
}
