// The meaning of a pointer word.

/// The location of an object's elements in the local region.
#[derive(Clone, Copy, Debug, PartialEq, Eq)]
pub struct At {
    /// The number of the segment.
    pub segment: u16,
    /// The index of the first element in the segment.
    pub offset: u32,
}

/// The state of an object, as its pointer word encodes it.
#[derive(Clone, Copy, Debug, PartialEq, Eq)]
pub enum Pointer {
    /// The object is in local memory.
    Local {
        /// Where its elements begin.
        at: At,
        /// It was changed since its far copy was written, or has no far copy.
        dirty: bool,
        /// It was used since this bit, the reference bit, was last cleared.
        hot: bool,
        /// The far store has a copy of it.
        far: bool,
    },
    /// Only the far store has the object.
    Remote,
}
