// Reads what sets at many places need, before they are made.
//
// A set waits for what it reads, and sets one after another wait each for itself. Here no read needs the value of another, so the
// processor waits for several at once. After Chen, Ailamaki, Gibbons and Mowry, "Improving Hash Join Performance through Prefetching"
// (ICDE 2004), without their instruction: the toolchain has none.
ghost use Rattle.std.specs.Prelude.{◌<◌};

use super::Frame;
use far_rows::{LentColumn, Rows};
use far_store::FarTickets;
use far_types::Kind;

/// How many places `Frame::read_ahead` reads at most.
pub const READ_AHEAD: usize = 32;

impl<S: FarTickets> Frame<S> {
    /// Reads what `set` reads at places: their alive flags, their cells in this column and, if aggregates need the column, in all
    /// columns that aggregates need. A caller that then sets the places finds these cells in the processor's caches. Reads cells
    /// of the first `READ_AHEAD` places only, and leaves out what is not there: places, columns, objects that are away. Allocates
    /// nothing.
    ///
    /// Returns a number made of all that was read, and nothing can be concluded from it. The compiler leaves out the reads of a
    /// caller that does not keep it.
    pub fn read_ahead(&self, column: u32, places: &[u32]) -> u64 {
        let mut read = self.read_flags(places);
        let is_needed = self.aggregates.needs(column);
        for other in 0..self.rows.schema().len() as u32 {
            if other == column || is_needed && self.aggregates.needs(other) {
                read = read.wrapping_add(self.read_column(other, places));
            }
        }
        read
    }

    // Reads the alive flags of places.
    fn read_flags(&self, places: &[u32]) -> u64 {
        let rows = self.rows.held();
        let mut read: u64 = 0;
        for place in places {
            if rows.is_alive(*place as usize) == Some(true) {
                read = read.wrapping_add(1);
            }
        }
        read
    }

    // Reads the cells of a column at places: numbers, or the heads of the row groups of texts and then the texts.
    fn read_column(&self, column: u32, places: &[u32]) -> u64 {
        let rows = self.rows.held();
        let size = self.rows.limits().group;
        let read = read_groups(rows, size, column, places);
        if rows.kind(column as usize) == Some(Kind::Text) {
            return read.wrapping_add(read_texts(rows, column, places));
        }
        read
    }
}

// Finds the row groups of places in a column, and then reads a number of each, or the first byte.
fn read_groups<S: FarTickets>(rows: &Rows<S>, size: u32, column: u32, places: &[u32]) -> u64
    requires { 0 < size }
{
    let mut groups = [LentColumn::Form(&[]); READ_AHEAD];
    for i in 0..places.len().min(READ_AHEAD) {
        if let Ok(group) = rows.group_column(column as usize, places[i] / size) {
            groups[i] = group;
        }
    }
    let mut read: u64 = 0;
    for i in 0..places.len().min(READ_AHEAD) {
        read = read.wrapping_add(match groups[i] {
            LentColumn::Numbers(numbers) => number_in(numbers, (places[i] % size) as usize),
            LentColumn::Form(form) => byte_in(form),
        });
    }
    read
}

// Finds the texts of places, and then reads the first byte of each.
fn read_texts<S: FarTickets>(rows: &Rows<S>, column: u32, places: &[u32]) -> u64 {
    let mut texts = [""; READ_AHEAD];
    for i in 0..places.len().min(READ_AHEAD) {
        if let Ok(Some(text)) = rows.text(column as usize, places[i] as usize) {
            texts[i] = text;
        }
    }
    let mut read: u64 = 0;
    for text in &texts {
        read = read.wrapping_add(byte_in(text.as_bytes()));
    }
    read
}

// Returns the number at an index as bits, or 0 if there is none.
fn number_in(numbers: &[Option<i64>], index: usize) -> u64 {
    match numbers.get(index) {
        Some(Some(number)) => number.cast_unsigned(),
        _ => 0,
    }
}

// Returns the first byte, or 0 if there is none.
fn byte_in(bytes: &[u8]) -> u64 {
    match bytes.first() {
        Some(byte) => u64::from(*byte),
        None => 0,
    }
}
