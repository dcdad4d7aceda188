// New lists for objects.

/// A new list for an object. `Objects::replace_all` takes several.
#[derive(Drop)]
pub struct Replacement<T> {
    /// The number of the object.
    pub object: u32,
    /// Its new list, which is not empty.
    pub list: Vec<T>,
}
