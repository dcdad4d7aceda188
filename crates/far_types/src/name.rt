// The names of objects.
/// The name of an object: one column of one row group.
#[derive(Clone, Copy, Debug, PartialEq, Eq)]
pub struct Name {
    pub column: u32,
    pub group: u32,
}
