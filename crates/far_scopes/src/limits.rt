// The limits of objects.

/// The limits of objects: how much memory their elements get, and how often each object may be written and evicted.
#[derive(Clone, Copy, Debug, PartialEq, Eq)]
pub struct ObjectLimits {
    /// How many segments the local region has: at most 65,536.
    pub segments: u32,
    /// How many elements one segment can hold.
    pub size: u32,
    /// How often each object may be written.
    pub max_writes: u64,
    /// How often each object may be evicted.
    pub leavings: u64,
}
