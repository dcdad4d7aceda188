// The space of a local region.

/// The space of the local region of one kind, in elements: numbers, or bytes of texts.
#[derive(Clone, Copy, Debug, PartialEq, Eq)]
pub struct Space {
    /// How many elements are in use, including those that objects left behind since the last compaction.
    pub used: u64,
    /// How many elements are free, in all segments together.
    pub free: u64,
    /// How many segments the region has.
    pub segments: u32,
    /// How many elements a segment holds.
    pub size: u32,
}
