// Bytes of replies that are not written yet.
ghost use Rattle.std.specs.Prelude.{◌≡◌, ◌==◌, ◌++◌, ◌∷◌, true, IfOk, OnOk, OnErr, length, take, drop, ◌≤◌, ◌+◌, []};
ghost use Rattle.csv.specs.Writing.{default_writer, field_text, needs_quotes, row_text};
ghost use Rattle.far_script.specs.Printing.{record_text};

mod numbers;

use csv::WriterBuilder;
use std::alloc::{AllocError, Global};
use std::marker::Model;

/// A growing text of replies. Contracts see its bytes.
#[derive(Drop, Debug)]
pub struct Page {
    bytes: Vec<u8>,
}

impl Model for Page {
    ghost use Rattle.std.specs.Prelude.{ℕ, List};

    ghost Value = { List ℕ };

    ghost view = { λ page. page.bytes.items };
}

impl Page {
    /// Returns an empty page.
    pub fn new(alloc: Global) -> Page
        ensures { result ≡ [] }
    {
        Page {
            bytes: Vec::new(alloc),
        }
    }

    /// Borrows the bytes.
    pub fn as_slice(&self) -> &[u8]
        ensures { result.now ≡ self.now }
    {
        self.bytes.as_slice()
    }

    /// Returns how many bytes there are.
    pub fn len(&self) -> usize
        ensures { result ≡ length self.now }
    {
        self.bytes.len()
    }

    /// Returns whether the page is empty.
    pub fn is_empty(&self) -> bool
        ensures { result ≡ (length self.now == 0) }
    {
        self.bytes.is_empty()
    }

    /// Returns how many bytes fit into the memory of the page.
    pub(crate) fn capacity(&self) -> usize {
        self.bytes.capacity()
    }

    /// Gives back the memory that the bytes do not need.
    pub(crate) fn shrink(&mut self)
        ensures { self.new ≡ self.old }
    {
        self.bytes.shrink_to_fit();
    }

    /// Keeps only the first `len` bytes.
    pub fn truncate(&mut self, len: usize)
        ensures { self.new ≡ take len self.old }
    {
        self.bytes.truncate(len);
    }

    /// Removes the first `count` bytes.
    pub fn forget(&mut self, count: usize)
        requires { count ≤ length self.old }
        ensures { self.new ≡ drop count self.old }
    {
        if count == 0 {
            return;
        }
        let len = self.bytes.len();
        self.bytes.copy_within(count..len, 0);
        self.bytes.truncate(len - count);
    }

    /// Replaces the bytes after the first `len`, with at most as many. Allocates nothing.
    pub fn replace_behind(&mut self, len: usize, bytes: &[u8])
        requires { len + length bytes.now ≤ length self.old }
        ensures { self.new ≡ take len self.old ++ bytes.now }
    {
        self.bytes.truncate(len);
        let Ok(()) = self.bytes.extend_from_slice(bytes) else {
            unreachable!()
        };
    }

    /// Adds bytes.
    pub fn bytes(&mut self, bytes: &[u8]) -> Result<(), AllocError>
        ensures ok { OnOk result (self.new ≡ self.old ++ bytes.now) }
        ensures err { OnErr result (self.new ≡ self.old) }
    {
        self.bytes.extend_from_slice(bytes)?;
        Ok(())
    }

    /// Adds bytes before the others.
    pub(crate) fn bytes_before(&mut self, bytes: &[u8]) -> Result<(), AllocError>
        ensures ok { OnOk result (self.new ≡ bytes.now ++ self.old) }
        ensures err { OnErr result (self.new ≡ self.old) }
    {
        let len = self.bytes.len();
        self.bytes.extend_from_slice(bytes)?;
        put_first(self.bytes.as_mut_slice(), bytes, len);
        Ok(())
    }

    /// Adds a text.
    pub fn text(&mut self, text: &str) -> Result<(), AllocError>
        ensures ok { OnOk result (self.new ≡ self.old ++ text.now) }
        ensures err { OnErr result (self.new ≡ self.old) }
    {
        self.bytes(text.as_bytes())
    }

    /// Adds a byte.
    #[inline(always)]
    pub fn byte(&mut self, byte: u8) -> Result<(), AllocError>
        ensures ok { OnOk result (self.new ≡ self.old ++ byte ∷ []) }
    {
        self.bytes.push(byte)?;
        Ok(())
    }
}

/// Moves the first `len` bytes to the end, and writes these bytes before them.
fn put_first(all: &mut [u8], bytes: &[u8], len: usize)
    requires { length all.old ≡ len + length bytes.now }
    ensures { all.new ≡ bytes.now ++ take len all.old }
{
    all.copy_within(0..len, bytes.len());
    all[..bytes.len()].copy_from_slice(bytes);
}

fn needs_quotes(field: &[u8]) -> bool
    ensures { result ≡ needs_quotes default_writer field.now }
{
    field.iter().any(|byte| *byte == b',' || *byte == b'"' || *byte == b'\r' || *byte == b'\n')
}

/// Returns a record of one field as the csv writer writes it, with its line feed.
fn write_record(alloc: Global, field: &[u8]) -> Result<Vec<u8>, AllocError>
    ensures row { IfOk result (λ text. text.items ≡ row_text default_writer (field.now ∷ [])) }
{
    let mut writer = WriterBuilder::new().from_writer(Vec::new(alloc));
    if writer.write_fields(&[field]).is_err() {
        return Err(AllocError);
    }
    match writer.into_inner() {
        Ok(text) => Ok(text),
        Err(_) => Err(AllocError),
    }
}

impl Page {
    /// Adds a field that the csv writer quotes. Not inlined: the writer has a large stack frame, for which each call would
    /// pay.
    #[inline(never)]
    fn quoted_field(&mut self, field: &[u8]) -> Result<(), AllocError>
        requires { needs_quotes default_writer field.now ≡ true }
        ensures ok { OnOk result (self.new ≡ self.old ++ field_text default_writer field.now) }
    {
        let mut text = write_record(*self.bytes.allocator(), field)?;
        let _end = text.pop();
        self.bytes(text.as_slice())
    }

    /// Adds a field as the csv writer writes it in a record of several.
    pub fn field(&mut self, field: &[u8]) -> Result<(), AllocError>
        ensures ok { OnOk result (self.new ≡ self.old ++ field_text default_writer field.now) }
    {
        if needs_quotes(field) {
            self.quoted_field(field)
        } else {
            self.bytes(field)
        }
    }

    /// Adds a field as the csv writer writes it alone in its record, without a line feed.
    pub fn lone_field(&mut self, field: &[u8]) -> Result<(), AllocError>
        ensures ok { OnOk result (self.new ≡ self.old ++ record_text (field.now ∷ [])) }
    {
        if field.is_empty() {
            self.text("\"\"")
        } else {
            self.field(field)
        }
    }
}
