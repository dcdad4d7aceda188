// The values that the tests start from.
use far_types::{Cell, Key, Kind, Refusal, Row, Schema, Spec, Test, Text};
use std::alloc::Global;

pub fn text(alloc: Global, bytes: &str) -> Result<Text, Refusal> {
    Ok(Text::new(String::from_str(alloc, bytes)?))
}

/// Returns the key of a text.
pub fn text_key(alloc: Global, bytes: &str) -> Result<Key, Refusal> {
    Ok(Key::Text(text(alloc, bytes)?))
}

/// Returns the row of the number 1 and the text `a`.
pub fn row(alloc: Global) -> Result<Row, Refusal> {
    let cells = [Cell::Int(1), Cell::Text(text(alloc, "a")?)];
    Ok(Row::new(Vec::from_array(alloc, cells)?))
}

/// Returns a schema with a column of numbers and one of texts.
pub fn schema(alloc: Global) -> Result<Schema, Refusal> {
    Schema::new(Vec::from_array(alloc, [Kind::Int, Kind::Text])?)
}

/// Returns the extrema of column 0 by column 1, over the rows whose text there begins with `a`.
pub fn spec(alloc: Global) -> Result<Spec, Refusal> {
    let text = text(alloc, "a")?;
    let spec = Spec::extrema(alloc, 0).by(1);
    Ok(spec.only(Test::TextBegins { column: 1, text })?)
}
