// Reads a text as one record of comma-separated values.
ghost use Rattle.std.specs.Prelude.{◌≡◌, ◌==◌, Bool, true, false, IfOk, option_map, slice_index, not, ◌&&◌};
ghost use Rattle.std.specs.List.{list_any};
ghost use Rattle.csv.specs.Records.{fields_of};
ghost use Rattle.far_script.specs.OneRecord.{one_record, is_mark, is_plain};

use csv::{ReaderBuilder, StringRecord};
use std::alloc::{AllocError, Global};

/// Reads a text with the csv reader and returns its fields if it is exactly one record. The first line is no header, and
/// spaces are kept. Fails only if memory runs out: reading from memory fails in no other way.
#[inline(never)]
pub fn read_record(alloc: Global, text: &str) -> Result<Option<StringRecord>, AllocError>
    ensures record { IfOk result (λ found. option_map fields_of found ≡ one_record text.now) }
{
    let mut reader = ReaderBuilder::new()
        .has_headers(false)
        .flexible(true)
        .from_reader(alloc, text.as_bytes());
    let mut record = StringRecord::new(alloc);
    match reader.read_record(&mut record) {
        Ok(true) => {}
        Ok(false) => return Ok(None),
        Err(_) => return Err(AllocError),
    }
    let mut next = StringRecord::new(alloc);
    match reader.read_record(&mut next) {
        Ok(true) => Ok(None),
        Ok(false) => Ok(Some(record)),
        Err(_) => Err(AllocError),
    }
}

/// Returns whether a text may begin with a byte order mark.
pub(crate) fn may_begin_with_order_mark(bytes: &[u8]) -> bool
    ensures { result ≡ (slice_index bytes.now 0 == 239) }
{
    match bytes {
        [first, ..] => *first == 0xef,
        [] => false,
    }
}

fn has_mark(bytes: &[u8]) -> bool
    ensures { result ≡ list_any is_mark bytes.now }
{
    bytes
        .iter()
        .any(|byte| *byte == b'"' || *byte == b'\r' || *byte == b'\n')
}

/// Returns whether a text has no quote and no end of a line, and cannot begin with a byte order mark. Then its fields are
/// the parts between its commas.
pub fn is_plain(text: &str) -> bool
    ensures { result ≡ is_plain text.now }
{
    let bytes = text.as_bytes();
    !may_begin_with_order_mark(bytes) && !has_mark(bytes)
}
