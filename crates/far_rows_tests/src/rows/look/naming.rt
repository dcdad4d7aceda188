// Finds objects by their column and row group.
ghost use Rattle.std.specs.Prelude.{◌≡◌, ◌<◌, Ok, length};

use far_rows::{Object, Rows};
use far_store::FarTickets;
use far_types::Refusal;

// Looks up the column and the row group of an object of numbers, and returns the object that these have: the same one.
fn number_found<S: FarTickets>(rows: &Rows<S>, o: u32) -> Result<Object, Refusal>
    requires { o < length rows.now.number_objects.records }
    ensures { result ≡ Ok (Object.Number o) }
{
    let name = rows.number_objects().name(o);
    rows.object(name.column as usize, name.group)
}

// Does the same for an object of texts.
fn text_found<S: FarTickets>(rows: &Rows<S>, o: u32) -> Result<Object, Refusal>
    requires { o < length rows.now.text_objects.records }
    ensures { result ≡ Ok (Object.Text o) }
{
    let name = rows.text_objects().name(o);
    rows.object(name.column as usize, name.group)
}

/// Returns how many objects of numbers are found by their column and row group.
pub fn numbers_named<S: FarTickets>(rows: &Rows<S>) -> u32 {
    let mut found = 0u32;
    for o in 0..rows.number_objects().count() {
        let is_found = number_found(rows, o) == Ok(Object::Number(o));
        found = found.saturating_add(u32::from(is_found));
    }
    found
}

/// Returns how many objects of texts are found by their column and row group.
pub fn texts_named<S: FarTickets>(rows: &Rows<S>) -> u32 {
    let mut found = 0u32;
    for o in 0..rows.text_objects().count() {
        let is_found = text_found(rows, o) == Ok(Object::Text(o));
        found = found.saturating_add(u32::from(is_found));
    }
    found
}
