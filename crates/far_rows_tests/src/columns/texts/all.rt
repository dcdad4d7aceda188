// Two columns of texts get one text each.
ghost use Rattle.std.specs.Prelude.{◌≡◌, length, All, IsTrue};
ghost use Rattle.far_texts.specs.Texts.{lists_of};
ghost use Rattle.far_texts.specs.Columns.{AreTextColumns};
ghost use Rattle.far_texts.specs.Together.{AreColumns};

use super::{Layout, column_of, no_texts};
use far_scopes::Objects;
use far_store::FarTickets;
use far_texts::{TextColumn, push_texts};
use far_types::{Refusal, Text};
use std::alloc::Global;

// Returns whether there are two columns, of one length and one size of row groups.
fn are_same_length<S: FarTickets>(
    _objects: &Objects<u8, S>,
    columns: &[TextColumn],
    _size: u32,
) -> bool
    requires are { AreTextColumns (lists_of S.content _objects.now) columns.now }
    requires sized { All (λ c. c.size ≡ _size) columns.now }
    ensures are { IsTrue result → AreColumns (lists_of S.content _objects.now) columns.now }
    ensures two { IsTrue result → length columns.now ≡ 2 }
{
    columns.len() == 2 && columns[0].len() == columns[1].len()
}

// Pushes a text to each of two columns. Refused with `TableFull` if there are not two columns, or there are 32 objects.
fn push_all<S: FarTickets>(
    alloc: Global,
    objects: &mut Objects<u8, S>,
    columns: &mut [TextColumn],
    size: u32,
    texts: &[Option<Text>; 2],
) -> Result<(), Refusal>
    requires are { AreTextColumns (lists_of S.content objects.old) columns.old }
    requires sized { All (λ c. c.size ≡ size) columns.old }
    ensures are { AreTextColumns (lists_of S.content objects.new) columns.new }
{
    if !are_same_length(objects, columns, size) || objects.count() >= 32 {
        return Err(Refusal::TableFull);
    }
    push_texts(alloc, &mut Vec::new(alloc), objects, columns, texts)
}

// Returns whether a column has this text at its first place.
fn has_text<S: FarTickets>(
    objects: &Objects<u8, S>,
    columns: &[TextColumn],
    k: usize,
    text: &str,
) -> bool
    requires { AreTextColumns (lists_of S.content objects.now) columns.now }
{
    match column_of(objects, columns, k) {
        Ok(column) => column.text(objects, 0) == Ok(Some(text)),
        Err(_) => false,
    }
}

// Pushes two texts, and returns whether each column has its own.
fn get_their_own<S: FarTickets>(
    alloc: Global,
    objects: &mut Objects<u8, S>,
    columns: &mut [TextColumn],
    size: u32,
    texts: &[Option<Text>; 2],
) -> Result<bool, Refusal>
    requires are { AreTextColumns (lists_of S.content objects.old) columns.old }
    requires sized { All (λ c. c.size ≡ size) columns.old }
{
    push_all(alloc, objects, columns, size, texts)?;
    Ok(has_text(objects, columns, 0, "one") && has_text(objects, columns, 1, "two"))
}

/// Returns whether each of two columns of texts, in row groups of two places, gets its own text.
pub fn comes_out<S: FarTickets>(
    alloc: Global,
    objects: &mut Objects<u8, S>,
    texts: &[Option<Text>; 2],
) -> Result<bool, Refusal> {
    let layout = Layout {
        columns: 2,
        group: 2,
    };
    let mut columns = no_texts(alloc, layout)?;
    get_their_own(alloc, objects, &mut columns, 2, texts)
}
