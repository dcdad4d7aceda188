// An entry of a segment's table.
use super::extents::Extent;
use super::links::Link;

/// An extent, and its link to the nearest live extents.
#[derive(Clone, Copy)]
pub struct PartEntry {
    pub extent: Extent,
    pub link: Link,
}
