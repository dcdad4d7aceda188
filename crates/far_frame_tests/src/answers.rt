//! Expected replies, as plain data, and the comparison with replies.
use crate::call::Value;
use far_frame::{IntPiece, Reply, TextPiece};
use far_types::{Answer, CellRef, Key, LentRow, Name, Refusal};

/// A line of an answer: the key, or missing without key column, and count and sum or least and greatest value.
pub type Line = (Value, i128, i128);

/// A lent place: its value in a column, and whether it is alive.
pub type Lent = (Value, bool);

/// An expected reply.
#[derive(Clone, Copy)]
pub enum Due<'a> {
    Done,
    Place(u32),
    Aggregate(u32),
    Lines(&'a [Line]),
    /// The places from this one on, in one piece for each row group.
    Lent(u32, &'a [Lent]),
    Job(u64),
    Next(&'a [u32]),
    Row(&'a [Value]),
    Coldest(Option<Name>),
    Refused(Refusal),
}

// Returns whether a cell exists and has this value.
fn is_cell(cell: Option<CellRef<'_>>, due: Value) -> bool {
    match (cell, due) {
        (Some(CellRef::Int(number)), Value::Int(due)) => number == due,
        (Some(CellRef::Text(text)), Value::Text(due)) => text == due,
        (Some(CellRef::Missing), Value::Missing) => true,
        _ => false,
    }
}

// Returns the key as a cell, missing without key column.
fn key_cell(key: &Option<Key>) -> CellRef<'_> {
    match key {
        Some(Key::Int(number)) => CellRef::Int(*number),
        Some(Key::Text(text)) => CellRef::Text(text.as_str()),
        None => CellRef::Missing,
    }
}

// Returns the line of an answer at an index.
fn line_at(answer: &Answer, at: usize) -> Option<(CellRef<'_>, i128, i128)> {
    match answer {
        Answer::Totals(lines) => match lines.as_slice().get(at) {
            Some((key, count, sum)) => Some((key_cell(key), i128::from(*count), *sum)),
            None => None,
        },
        Answer::Extrema(lines) => match lines.as_slice().get(at) {
            Some((key, least, greatest)) => Some((
                key_cell(key),
                i128::from(*least),
                i128::from(*greatest),
            )),
            None => None,
        },
    }
}

fn is_line(line: Option<(CellRef<'_>, i128, i128)>, due: Line) -> bool {
    match line {
        Some((key, first, second)) => {
            is_cell(Some(key), due.0) && first == due.1 && second == due.2
        }
        None => false,
    }
}

// Returns whether an answer has these lines, in this order.
fn is_answer(answer: &Answer, due: &[Line]) -> bool {
    let mut same = line_at(answer, due.len()).is_none();
    for (at, line) in due.iter().enumerate() {
        same = same && is_line(line_at(answer, at), *line);
    }
    same
}

/// Adjacent places of one row group.
trait Piece {
    /// Returns the value of the n-th place.
    fn value(&self, n: usize) -> Option<CellRef<'_>>;

    /// Returns for each place whether it is alive.
    fn flags(&self) -> &[bool];
}

impl Piece for IntPiece {
    fn value(&self, n: usize) -> Option<CellRef<'_>> {
        match self.values.get(n) {
            Some(number) => Some(CellRef::of_int(*number)),
            None => None,
        }
    }

    fn flags(&self) -> &[bool] {
        self.flags.as_slice()
    }
}

impl Piece for TextPiece {
    fn value(&self, n: usize) -> Option<CellRef<'_>> {
        match self.values.get(n) {
            Some(Some(text)) => Some(CellRef::Text(text.as_str())),
            Some(None) => Some(CellRef::Missing),
            None => None,
        }
    }

    fn flags(&self) -> &[bool] {
        self.flags.as_slice()
    }
}

fn is_piece<P: Piece>(piece: &P, due: &[Lent]) -> bool {
    let flags = piece.flags();
    let mut same = flags.len() == due.len() && piece.value(due.len()).is_none();
    for (n, lent) in due.iter().enumerate() {
        same = same && is_cell(piece.value(n), lent.0) && flags.get(n).copied() == Some(lent.1);
    }
    same
}

// Returns the length of the piece that begins at a place, if `left` places are lent from there on.
fn piece_len(place: usize, size: usize, left: usize) -> usize {
    if size == 0 {
        return 0;
    }
    size.saturating_sub(place % size).min(left)
}

// Returns whether pieces have these places, from one on, in row groups of a size.
fn are_pieces<P: Piece>(pieces: &[P], size: u32, from: u32, due: &[Lent]) -> bool {
    let (mut place, mut left) = (from as usize, due);
    for piece in pieces {
        let len = piece_len(place, size as usize, left.len());
        match left.split_at_checked(len) {
            Some((own, behind)) if is_piece(piece, own) => left = behind,
            _ => return false,
        }
        place = place.saturating_add(len);
    }
    left.is_empty() && pieces.is_empty() == due.is_empty()
}

/// Returns whether a reply is the expected one, for a table with row groups of this size.
pub fn is_reply(reply: &Reply, due: Due<'_>, size: u32) -> bool {
    match due {
        Due::Lines(lines) => match reply {
            Reply::Answer(answer) => is_answer(answer, lines),
            _ => false,
        },
        Due::Lent(from, lent) => match reply {
            Reply::Ints(pieces) => are_pieces(pieces, size, from, lent),
            Reply::Texts(pieces) => are_pieces(pieces, size, from, lent),
            _ => false,
        },
        Due::Next(groups) => match reply {
            Reply::Next(given) => given.as_slice() == groups,
            _ => false,
        },
        due => is_plain(reply, due),
    }
}

// Returns the same for a reply that owns no memory.
fn is_plain(reply: &Reply, due: Due<'_>) -> bool {
    match reply {
        Reply::Done => match due {
            Due::Done => true,
            _ => false,
        },
        Reply::Place(given) => match due {
            Due::Place(place) => *given == place,
            _ => false,
        },
        Reply::Aggregate(given) => match due {
            Due::Aggregate(a) => *given == a,
            _ => false,
        },
        Reply::Job(given) => match due {
            Due::Job(n) => *given == n,
            _ => false,
        },
        Reply::Refused(given) => match due {
            Due::Refused(refusal) => *given == refusal,
            _ => false,
        },
        _ => false,
    }
}

/// Returns whether a lent row has these values.
pub fn is_row(row: &LentRow<'_>, due: &[Value]) -> bool {
    let mut same = row.len() == due.len();
    for (column, value) in due.iter().enumerate() {
        same = same && is_cell(row.get(column), *value);
    }
    same
}
